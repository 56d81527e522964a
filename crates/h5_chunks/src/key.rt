//! Keys of trees of chunks (File Format Specification 3.0, section III.A.1).

ghost use Rattle.std.specs.Prelude.{◌≡◌, ◌+◌, ◌*◌, ◌≤◌, ◌↔◌, IsTrue, length};
ghost use Rattle.std.specs.List.{AllZip};
ghost use Rattle.h5_model.specs.Format.Chunks.{IsChunkKey, IsOffset, offsets_in};
ghost use Rattle.h5_model.specs.Format.Limits.{most_dimensions};
ghost use Rattle.h5_chunks.specs.Lists.{key_length as length_of_key};
ghost use Rattle.h5_chunks.specs.Shapes.{AreChunkSizes};

use h5_bytes::{u32_at, u64_at};

/// Where a key's offsets begin, behind the chunk's size and the filter mask.
pub const OFFSETS: usize = 8;

/// How many bytes a key of so many dimensions has.
pub fn key_length(rank: usize) -> usize
    requires { rank ≤ most_dimensions }
    ensures { result ≡ length_of_key rank }
{
    OFFSETS + 8 * (rank + 1)
}

/// Whether a key is that of a whole chunk of these sizes and so many bytes. Takes no memory.
pub(crate) fn is_chunk_key(sizes: &[u64], bytes: u64, key: &[u8]) -> bool
    requires sizes { AreChunkSizes sizes.now }
    requires long { length key.now ≡ 8 + 8 * (length sizes.now + 1) }
    ensures { IsTrue result ↔ IsChunkKey sizes.now bytes key.now }
{
    u64::from(u32_at(key, 0)) == bytes
        && u32_at(key, 4) == 0
        && are_aligned(sizes, key)
        && u64_at(key, OFFSETS + 8 * sizes.len()) == 0
}

/// Whether each of a key's offsets, the one for the element aside, is a multiple of its size and below 2^63.
fn are_aligned(sizes: &[u64], key: &[u8]) -> bool
    requires sizes { AreChunkSizes sizes.now }
    requires long { length key.now ≡ 8 + 8 * (length sizes.now + 1) }
    ensures { IsTrue result ↔ AllZip IsOffset sizes.now (offsets_in (length sizes.now) key.now) }
{
    for d in 0..sizes.len() {
        if !is_aligned(sizes[d], u64_at(key, OFFSETS + 8 * d)) {
            return false;
        }
    }
    true
}

/// Whether an offset is a multiple of the chunk's size, and below 2^63.
fn is_aligned(size: u64, offset: u64) -> bool
    requires { 1 ≤ size }
    ensures { IsTrue result ↔ IsOffset size offset }
{
    offset % size == 0 && offset < 1 << 63
}
