//! The order of names by their bytes. A name is the text at an offset of a segment.

ghost use Rattle.std.specs.Prelude.{◌≡◌, ◌≢◌, ◌⊎◌, ℕ, ◌+◌, ◌<◌, ◌≤◌, IfNone, IfSome, length, slice_index};
ghost use Rattle.std.specs.Cmp.Lexicographic.{slice_cmp};
ghost use Rattle.std.specs.Ordering.{is_le, is_lt, nat_cmp};
ghost use Rattle.h5_bytes.specs.Texts.{text_at};
ghost use Rattle.h5_group.specs.Order.Common.{HaveCommon};

use h5_bytes::{LANES, has_lanes, text_from};
use std::simd::prelude::*;

/// Whether the name at an offset is before the one at another offset.
pub(crate) fn is_before(segment: &[u8], name: u64, other: u64) -> bool
    ensures { result
        ≡ is_lt (slice_cmp nat_cmp (text_at segment.now name) (text_at segment.now other)) }
{
    let mut at = name as usize;
    let mut at_other = other as usize;
    // The first byte that differs tells, or the zero of the shorter name: nothing has to look for their ends before.
    while has_lanes(segment, at) && has_lanes(segment, at_other) {
        if let Some(k) = first_apart(segment, at, at_other) {
            return segment[at + k] < segment[at_other + k];
        }
        at += LANES;
        at_other += LANES;
    }
    text_from(segment, name)
        .cmp(&text_from(segment, other))
        .is_lt()
}

/// Whether the name at an offset is the one at another offset, or before it.
pub(crate) fn is_not_after(segment: &[u8], name: u64, other: u64) -> bool
    ensures { result
        ≡ is_le (slice_cmp nat_cmp (text_at segment.now name) (text_at segment.now other)) }
{
    // The key behind a symbol node mostly stands for its last name, by the same offset.
    name == other || !is_before(segment, other, name)
}

/// How many bytes from one place and from another are the same and no zeros, before some differ or both are zero;
/// `None` where sixteen are.
#[inline(always)]
fn first_apart(segment: &[u8], at: usize, other: usize) -> Option<usize>
    requires lanes { at + 16 ≤ length segment.now }
    requires other_lanes { other + 16 ≤ length segment.now }
    ensures few { IfSome result (λ k. k < 16) }
    ensures common { IfSome result (λ k. HaveCommon segment.now at other k) }
    ensures apart { IfSome result (λ k.
        (slice_index segment.now (at + k) ≢ slice_index segment.now (other + k))
        ⊎ (slice_index segment.now (at + k) ≡ 0)) }
    ensures none { IfNone result (HaveCommon segment.now at other 16) }
{
    let bytes = u8x16::from_slice(&segment[at..]);
    let differ = bytes
        .simd_ne(u8x16::from_slice(&segment[other..]))
        .to_bitmask();
    let zeros = bytes.simd_eq(u8x16::splat(0)).to_bitmask();
    let apart = differ | zeros;
    if apart == 0 {
        return None;
    }
    Some(apart.trailing_zeros() as usize)
}
