//! A key that is held while its node changes (File Format Specification 3.0, section III.A.1).

ghost use Rattle.std.specs.Prelude.{◌≡◌, ◌≤◌, length};

use std::marker::Model;

/// How many bytes the longest key has: one of chunks of 32 dimensions.
pub const LONGEST_KEY: usize = 272;

/// The bytes of a key, in the value itself.
#[derive(Drop)]
pub(crate) struct KeyCopy {
    bytes: [u8; LONGEST_KEY],
    len: usize,
}

impl Model for KeyCopy {
    ghost use Rattle.std.specs.Prelude.{◌≡◌, ℕ, ◌≤◌, List, length, take};

    ghost Value = { List ℕ };

    ghost view = { λ k. take k.len k.bytes };

    ghost invariant = { λ k. (k.len ≤ 272) × (length k.bytes ≡ 272) };
}

impl KeyCopy {
    /// Copies a key.
    pub(crate) fn of(key: &[u8]) -> KeyCopy
        requires { length key.now ≤ 272 }
        ensures { result ≡ key.now }
    {
        let mut bytes = [0; LONGEST_KEY];
        bytes[..key.len()].copy_from_slice(key);
        KeyCopy {
            bytes,
            len: key.len(),
        }
    }

    /// The bytes.
    pub(crate) fn bytes(&self) -> &[u8]
        ensures { result.now ≡ self.now }
    {
        &self.bytes[..self.len]
    }
}
