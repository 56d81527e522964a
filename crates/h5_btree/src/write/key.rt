//! Keys of nodes (File Format Specification 3.0, section III.A.1).
ghost use Rattle.std.specs.Prelude.{◌≡◌, ℕ, ◌++◌, List, OnOk};
ghost use Rattle.h5_bytes.specs.Numbers.{word};

use h5_bytes::push_word;
use std::alloc::AllocError;

/// A key of the trees of some kind, as it is written.
pub trait TreeKey: Copy {
    /// Its bytes.
    ghost bytes: { Self → List ℕ };

    /// Appends the bytes of the key.
    ///
    /// # Errors
    ///
    /// `AllocError` if memory is refused.
    fn push_to(&self, out: &mut Vec<u8>) -> Result<(), AllocError>
        ensures { OnOk result (out.new.items ≡ out.old.items ++ bytes self.now) };
}

/// A key of a group's tree: the offset of a name in its heap.
impl TreeKey for u64 {
    ghost bytes = { word };

    fn push_to(&self, out: &mut Vec<u8>) -> Result<(), AllocError> {
        push_word(out, *self)
    }
}
