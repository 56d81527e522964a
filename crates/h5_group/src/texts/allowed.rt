//! Which names a link may have, looked at where they stand in a heap (File Format Specification 3.0, sections III.B
//! and III.D).

ghost use Rattle.std.specs.Prelude.{◌≡◌, ◌≢◌, ℕ, ◌+◌, ◌<◌, ◌≤◌, IsFalse, IsTrue, length, slice_index};
ghost use Rattle.h5_bytes.specs.Texts.{text_at};
ghost use Rattle.h5_model.specs.Tree.Paths.{is_name};

use h5_bytes::{LANES, has_lanes};
use h5_model::is_link_name;
use std::simd::prelude::*;

/// Whether a link may have this name, the text at an offset of the segment.
pub(crate) fn is_allowed(segment: &[u8], offset: u64, name: &[u8]) -> bool
    requires text { name.now ≡ text_at segment.now offset }
    requires within { offset ≤ length segment.now }
    ensures { result ≡ is_name name.now }
{
    // A text has no zero, so that slashes alone count. Sixteen bytes at once, which may pass the end of the name,
    // mostly show none. Else each byte of the name is looked at.
    name.len() > 1 && lacks_slash(&segment[offset as usize..], name.len()) || is_link_name(name)
}

/// Whether it shows, sixteen bytes at once, that the first `len` bytes have no slash. Further bytes may have one.
fn lacks_slash(bytes: &[u8], len: usize) -> bool
    ensures { IsTrue result → (k : ℕ) → k < len → slice_index bytes.now k ≢ 47 }
{
    let mut at = 0;
    while at < len {
        if !has_lanes(bytes, at) || has_slash(bytes, at) {
            return false;
        }
        at += LANES;
    }
    true
}

/// Whether one of sixteen bytes from a place on is a slash.
#[inline(always)]
fn has_slash(bytes: &[u8], at: usize) -> bool
    requires { at + 16 ≤ length bytes.now }
    ensures { IsFalse result → (k : ℕ) → at ≤ k → k < at + 16 → slice_index bytes.now k ≢ 47 }
{
    let slashes = u8x16::from_slice(&bytes[at..]).simd_eq(u8x16::splat(b'/'));
    slashes.to_bitmask() != 0
}
