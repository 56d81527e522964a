//! Messages of a header that stand behind those of its content: kept messages and attributes (File Format Specification 3.0,
//! sections IV.A.1.a and IV.A.2).
ghost use Rattle.std.specs.Prelude.{◌≡◌, ℕ, ◌*◌, ◌%◌, ◌<◌, ◌≤◌, [], ◌∷◌, ◌++◌, List, OnOk, length};
ghost use Rattle.h5_model.specs.Format.Messages.{most_messages};
ghost use Rattle.h5_repack.specs.Bodies.Bodies.{attribute_message};
ghost use Rattle.h5_repack.specs.Bodies.Sound.{IsPlainAttribute};
ghost use Rattle.h5_repack.specs.Blocks.Written.{AreOthers};

use crate::blocks::attribute::push_stored_attribute;
use crate::blocks::header::push_message;
use h5_msg::AttributeBody;
use std::alloc::{AllocError, Global};
use std::marker::Model;

/// The messages that stand behind those of an object's content, as they are written, one behind another.
#[derive(Drop)]
pub struct Others {
    bytes: Vec<u8>,
    count: usize,
}

impl Model for Others {
    ghost use Rattle.std.specs.Prelude.{◌*◌, ◌≤◌, length};
    ghost use Rattle.h5_repack.specs.Blocks.Others.{OthersBytes};

    ghost Value = { OthersBytes };

    ghost view = { λ o. record { bytes = o.bytes.items; count = o.count } };

    ghost invariant = { λ o. length o.bytes.items ≤ o.count * 65544 };
}

impl Others {
    /// No message. It takes no memory.
    pub fn new(alloc: Global) -> Others
        ensures { AreOthers [] result }
    {
        Others {
            bytes: Vec::new(alloc),
            count: 0,
        }
    }

    /// The messages, one behind another.
    pub(crate) fn bytes(&self) -> &[u8]
        ensures bytes { result.now ≡ self.now.bytes }
        ensures few { length self.now.bytes ≤ self.now.count * 65544 }
    {
        &self.bytes
    }

    /// How many messages there are.
    pub(crate) fn count(&self) -> usize
        ensures { result ≡ self.now.count }
    {
        self.count
    }

    /// Appends a message of this type with this body, whose length is a multiple of 8 bytes.
    ///
    /// # Errors
    ///
    /// `AllocError` if memory is refused.
    pub fn push_kept(&mut self, kind: u16, body: &[u8]) -> Result<(), AllocError>
        requires padded { length body.now % 8 ≡ 0 }
        requires low { length body.now < 65536 }
        requires few { self.old.count ≤ most_messages }
        ensures { OnOk result
            ((ms : List (ℕ × List ℕ)) → AreOthers ms self.old
            → AreOthers (ms ++ (kind, body.now) ∷ []) self.new) }
    {
        let before = self.bytes.len();
        let Ok(()) = push_message(&mut self.bytes, kind, body) else {
            self.bytes.truncate(before);
            return Err(AllocError);
        };
        self.count += 1;
        Ok(())
    }

    /// Appends the message of an attribute that another header has. A message of version 2 or 3 keeps its body.
    ///
    /// # Errors
    ///
    /// `AllocError` if memory is refused.
    pub fn push_stored(&mut self, attr: &AttributeBody<'_>) -> Result<(), AllocError>
        requires plain { IsPlainAttribute attr.now }
        requires few { self.old.count ≤ most_messages }
        ensures { OnOk result
            ((ms : List (ℕ × List ℕ)) → AreOthers ms self.old
            → AreOthers (ms ++ attribute_message attr.now ∷ []) self.new) }
    {
        let before = self.bytes.len();
        let Ok(()) = push_stored_attribute(&mut self.bytes, attr) else {
            self.bytes.truncate(before);
            return Err(AllocError);
        };
        self.count += 1;
        Ok(())
    }
}
