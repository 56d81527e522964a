//! The offsets of chunks, and their order (File Format Specification 3.0, section III.A.1).

ghost use Rattle.std.specs.Prelude.{◌≡◌, ◌+◌, ◌*◌, ◌≤◌, ◌++◌, ◌∷◌, [], length};
ghost use Rattle.std.specs.Ordering.{nat_cmp, is_lt};
ghost use Rattle.std.specs.Cmp.Lexicographic.{slice_cmp};
ghost use Rattle.h5_model.specs.Format.Chunks.{all_offsets_in, offsets_in};
ghost use Rattle.h5_model.specs.Format.Limits.{most_dimensions};

use crate::key::OFFSETS;
use h5_bytes::u64_at;
use std::cmp::Ordering;
use std::marker::Model;

/// The offsets of a chunk, one for each dimension, at most 32, which stand in the value itself.
#[derive(Drop)]
pub(crate) struct Offsets {
    numbers: [u64; 32],
    rank: usize,
}

impl Model for Offsets {
    ghost use Rattle.std.specs.Prelude.{List, ℕ, ◌≤◌, take};

    ghost Value = { List ℕ };

    ghost view = { λ o. take o.rank o.numbers };

    ghost invariant = { λ o. o.rank ≤ 32 };
}

impl Offsets {
    /// The offsets of a key of a tree of chunks of so many dimensions.
    pub(crate) fn of_key(rank: usize, key: &[u8]) -> Offsets
        requires few { rank ≤ most_dimensions }
        requires long { length key.now ≡ 8 + 8 * (rank + 1) }
        ensures offsets { result ≡ offsets_in rank key.now }
        ensures rank { length result ≡ rank }
    {
        let mut numbers = [0; 32];
        read_offsets(key, &mut numbers[..rank]);
        Offsets { numbers, rank }
    }

    /// The offsets, the one that runs slowest first.
    pub(crate) fn as_slice(&self) -> &[u64]
        ensures offsets { result.now ≡ self.now }
        ensures few { length self.now ≤ most_dimensions }
    {
        &self.numbers[..self.rank]
    }

    /// Whether these offsets are before others, compared one by one from the first on.
    pub(crate) fn is_before(&self, other: &Offsets) -> bool
        ensures { result ≡ is_lt (slice_cmp nat_cmp self.now other.now) }
    {
        self.as_slice().cmp(&other.as_slice()).is_lt()
    }
}

/// Whether the chunk with one key is before the chunk with the other: their offsets in the first `rank` dimensions
/// are compared one by one.
pub fn is_key_before(rank: usize, key: &[u8], other: &[u8]) -> bool
    requires few { rank ≤ most_dimensions }
    requires long { length key.now ≡ 8 + 8 * (rank + 1) }
    requires other_long { length other.now ≡ 8 + 8 * (rank + 1) }
    ensures { result ≡ is_lt (slice_cmp nat_cmp (offsets_in rank key.now) (offsets_in rank other.now)) }
{
    Offsets::of_key(rank, key).is_before(&Offsets::of_key(rank, other))
}

/// Reads as many offsets of a key as there is room for.
fn read_offsets(key: &[u8], offsets: &mut [u64])
    requires few { length offsets.old ≤ most_dimensions }
    requires long { length key.now ≡ 8 + 8 * (length offsets.old + 1) }
    ensures { offsets.new ≡ offsets_in (length offsets.old) key.now }
{
    for d in 0..offsets.len() {
        offsets[d] = u64_at(key, OFFSETS + 8 * d);
    }
}

/// The order of a key and the chunk at these offsets, whose offset for the element is 0, by all numbers from the first on.
pub(crate) fn key_order(key: &[u8], offsets: &[u64]) -> Ordering
    requires long { length key.now ≡ 8 + 8 * (length offsets.now + 1) }
    requires few { length offsets.now ≤ most_dimensions }
    ensures { result ≡ slice_cmp nat_cmp
        (all_offsets_in (length offsets.now) key.now) (offsets.now ++ 0 ∷ []) }
{
    for d in 0..offsets.len() {
        let order = u64_at(key, OFFSETS + 8 * d).cmp(&offsets[d]);
        if order.is_ne() {
            return order;
        }
    }
    u64_at(key, OFFSETS + 8 * offsets.len()).cmp(&0)
}
