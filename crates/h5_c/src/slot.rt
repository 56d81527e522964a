//! A place for a session, in memory that C gives.

ghost use Rattle.std.specs.Prelude.{◌≡◌, true, false};
ghost use Rattle.h5_c.specs.Slot.{InSlot, in_slot_coded, slot_owns};

use crate::held::Held;
use crate::parts::Parts;
use std::alloc::Global;
use std::marker::Model;

/// A place for a session. All zeros are a closed slot. C passes it on by its address alone, and never copies it.
#[repr(C)]
pub struct Slot {
    is_open: bool,
    at: *mut u8,
    pub ghost held: { InSlot } by { in_slot_coded },
}

impl Model for Slot {
    ghost also_owns = { λ s. slot_owns s.is_open s.at s.held };
}

impl Slot {
    /// Whether it is open.
    pub(crate) fn is_open(&mut self) -> bool
        ensures { (result ≡ self.old.is_open) × (self.new ≡ self.old) }
    {
        self.is_open
    }

    /// The session, which leaves the slot closed.
    pub(crate) fn take(&mut self, alloc: Global) -> Box<Held>
        requires { self.old.is_open ≡ true }
        ensures value { result.value ≡ self.old.held }
        ensures closed { self.new.is_open ≡ false }
    {
        self.take_parts(alloc).into_box()
    }

    /// Keeps a session.
    pub(crate) fn put(&mut self, held: Box<Held>)
        requires { self.old.is_open ≡ false }
        ensures open { self.new.is_open ≡ true }
        ensures value { self.new.held ≡ held.value }
    {
        self.put_parts(Parts::of(held));
    }

    fn take_parts(&mut self, alloc: Global) -> Parts<Held, Global>
        requires { self.old.is_open ≡ true }
        ensures { (result.value ≡ self.old.held) × (self.new.is_open ≡ false) }
    {
        let ptr = self.at as *mut Held;
        self.is_open = false;
        Parts { ptr, alloc }
    }

    fn put_parts(&mut self, parts: Parts<Held, Global>)
        requires { self.old.is_open ≡ false }
        ensures { (self.new.is_open ≡ true) × (self.new.held ≡ parts.value) }
    {
        let Parts { ptr, alloc: _ } = parts;
        self.at = ptr as *mut u8;
        self.is_open = true;
    }
}
