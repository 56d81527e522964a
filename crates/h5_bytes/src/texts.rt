//! Texts that end with a zero byte, and signatures.

ghost use Rattle.std.specs.Prelude.{◌≡◌, ◌≢◌, ◌↔◌, ℕ, ◌+◌, ◌<◌, ◌≤◌, IfNone, IfSome, IsTrue, length, slice_index};
ghost use Rattle.h5_bytes.specs.Bytes.{part};
ghost use Rattle.h5_bytes.specs.Texts.{text_at, until_zero};

use crate::lanes::{LANES, has_lanes};
use std::simd::prelude::*;

/// The text at an offset: the bytes before the first zero, none where the offset passes the end. Takes no memory.
#[tactic(auto, unfolding(crate::specs::Texts::text_at))]
pub fn text_from(bytes: &[u8], offset: u64) -> &[u8]
    ensures { result.now ≡ text_at bytes.now offset }
{
    if offset >= bytes.len() as u64 {
        return &[];
    }
    before_zero(&bytes[offset as usize..])
}

/// The bytes before the first zero, all of them where there is none. Takes no memory.
pub fn before_zero(bytes: &[u8]) -> &[u8]
    ensures { result.now ≡ until_zero bytes.now }
{
    let mut from = 0;
    // Names are short, and each of a group's is looked at several times while a file is opened: one comparison of
    // sixteen bytes takes no more instructions than three comparisons of one.
    while has_lanes(bytes, from) {
        if let Some(end) = zero_among(bytes, from) {
            return &bytes[..end];
        }
        from += LANES;
    }
    for end in from..bytes.len() {
        if bytes[end] == 0 {
            return &bytes[..end];
        }
    }
    bytes
}

/// The place of the first zero among the sixteen bytes from a place on.
#[inline(always)]
fn zero_among(bytes: &[u8], from: usize) -> Option<usize>
    requires { from + 16 ≤ length bytes.now }
    ensures found { IfSome result (λ end.
        (from ≤ end) × (end < from + 16) × (slice_index bytes.now end ≡ 0)) }
    ensures first { IfSome result (λ end. (k : ℕ) → from ≤ k → k < end → slice_index bytes.now k ≢ 0) }
    ensures none { IfNone result ((k : ℕ) → from ≤ k → k < from + 16 → slice_index bytes.now k ≢ 0) }
{
    let zeros = u8x16::from_slice(&bytes[from..])
        .simd_eq(u8x16::splat(0))
        .to_bitmask();
    if zeros == 0 {
        return None;
    }
    Some(from + zeros.trailing_zeros() as usize)
}

/// Whether the bytes begin with a signature. Takes no memory.
pub fn begins_with(bytes: &[u8], signature: &[u8]) -> bool
    ensures { IsTrue result ↔ (part 0 (length signature.now) bytes.now ≡ signature.now) }
{
    bytes.starts_with(signature)
}
