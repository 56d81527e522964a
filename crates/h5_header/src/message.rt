//! One message of an object header (File Format Specification 3.0, section IV.A.1.a).

ghost use Rattle.std.specs.Prelude.{◌≡◌, ◌+◌, ◌<◌, ◌≤◌, [], ◌∷◌, length, IfOk, IfErr, MatchOption, IsTrue};
ghost use Rattle.std.specs.Option.{option_map_or};
ghost use Rattle.h5_model.specs.Format.MessageTypes.{continuation_kind};
ghost use Rattle.h5_model.specs.Format.Messages.{continuation};
ghost use Rattle.h5_header.specs.Listed.{message_in};
ghost use Rattle.h5_header.specs.Heads.{IsHead, HeadBreach, KindBreach, is_read};

use h5_bytes::{Block, u16_at, u64_at};
use h5_model::Cause;
use h5_model::message_type::{
    ATTRIBUTE, COMMENT, CONTINUATION, DATA_LAYOUT, DATASPACE, DATATYPE, EXTERNAL_FILES, FILL_VALUE,
    FILTER_PIPELINE, GROUP_INFO, LINK, LINK_INFO, MODIFICATION_TIME, NIL, OLD_FILL_VALUE,
    OLD_MODIFICATION_TIME, SYMBOL_TABLE,
};

/// Bytes of a message before its body.
pub(crate) const HEAD: u64 = 8;

/// Bytes of a Continuation's body: an address and a length.
const BLOCK_NAME: u16 = 16;

/// A message of an object header: its type, and the place and size of its body.
#[derive(Clone, Copy, Debug, PartialEq, Eq)]
pub struct Message {
    pub kind: u16,
    pub at: u64,
    pub size: u16,
}

impl Message {
    /// The block that it names, where it is a Continuation.
    pub fn named_block(self, image: &[u8]) -> Option<Block>
        requires inside { self.at + self.size ≤ length image.now }
        requires continued { self.kind ≡ continuation_kind → 16 ≤ self.size }
        ensures { option_map_or (λ b. b ∷ []) result [] ≡ continuation (message_in image.now self) }
    {
        if self.kind != CONTINUATION {
            return None;
        }
        Some(Block {
            at: u64_at(image, self.at as usize),
            len: u64_at(image, self.at as usize + 8),
        })
    }
}

/// The message whose head begins at `at`, in a block that ends at `end`.
pub(crate) fn read_message(image: &[u8], at: u64, end: u64) -> Result<Message, Cause>
    requires before { at < end }
    requires inside { end ≤ length image.now }
    ensures read { IfOk result (λ m. IsHead image.now at end m) }
    ensures refused { IfErr result (λ cause. HeadBreach image.now at end cause) }
{
    if end - at < HEAD {
        return Err(Cause::MessageSize);
    }
    let kind = u16_at(image, at as usize);
    let size = u16_at(image, at as usize + 2);
    let flags = image[at as usize + 4];
    if size % 8 != 0 || size as u64 > end - at - HEAD {
        return Err(Cause::MessageSize);
    }
    if kind == CONTINUATION && size < BLOCK_NAME {
        return Err(Cause::MessageSize);
    }
    if flags & 2 != 0 {
        return Err(Cause::SharedMessage);
    }
    if let Some(cause) = kind_fault(kind) {
        return Err(cause);
    }
    Ok(Message {
        kind,
        at: at + HEAD,
        size,
    })
}

/// Why messages of this type are refused.
fn kind_fault(kind: u16) -> Option<Cause>
    ensures { MatchOption result (IsTrue (is_read kind)) (KindBreach kind) }
{
    match kind {
        NIL
        | DATASPACE
        | DATATYPE
        | OLD_FILL_VALUE
        | FILL_VALUE
        | DATA_LAYOUT
        | ATTRIBUTE
        | COMMENT
        | OLD_MODIFICATION_TIME
        | CONTINUATION
        | SYMBOL_TABLE
        | MODIFICATION_TIME => None,
        LINK_INFO | LINK | GROUP_INFO => Some(Cause::NewStyleGroup),
        EXTERNAL_FILES => Some(Cause::ExternalFiles),
        FILTER_PIPELINE => Some(Cause::Filtered),
        _ => Some(Cause::UnknownMessage),
    }
}
