//! Parts of an image.

ghost use Rattle.std.specs.Prelude.{◌≡◌, ◌+◌, ◌<◌, ◌≤◌, ℕ, length, slice_index};
ghost use Rattle.h5_bytes.specs.Bytes.{part};

/// The `len` bytes from place `at`.
#[tactic(auto, unfolding(h5_bytes::specs::Bytes::part))]
pub(crate) fn part_of(bytes: &[u8], at: u64, len: u64) -> &[u8]
    requires { at + len ≤ length bytes.now }
    ensures part { result.now ≡ part at len bytes.now }
    ensures bytes { (i : ℕ) → slice_index result.now i < 256 }
{
    &bytes[at as usize..(at + len) as usize]
}
