//! Keys of trees of chunks, as they are written (File Format Specification 3.0, section III.A.1).

ghost use Rattle.std.specs.Prelude.{◌≡◌, ◌+◌, ◌*◌, ◌^◌, ◌<◌, ◌++◌, OnOk, length};
ghost use Rattle.std.specs.List.{AllByRecursion, AllZip};
ghost use Rattle.h5_model.specs.Format.Bodies.{words};
ghost use Rattle.h5_model.specs.Format.Chunks.{IsOffset, offsets_in};
ghost use Rattle.h5_chunks.specs.Keys.{chunk_key, index_from};

use crate::key::OFFSETS;
use h5_btree::TreeKey;
use h5_bytes::{push_bytes, push_middle, push_word, push_zeros, u64_at};
use std::alloc::AllocError;

/// A key of a tree of chunks, as it is written, lent where it stands.
#[derive(Clone, Copy)]
pub struct ChunkKey<'a> {
    /// Its bytes: how many the chunk has that it is of, no filter, the chunk's offsets, and 0 for the element.
    pub bytes: &'a [u8],
}

impl TreeKey for ChunkKey<'_> {
    ghost bytes = { λ k. k.bytes.now };

    fn push_to(&self, out: &mut Vec<u8>) -> Result<(), AllocError> {
        push_bytes(out, self.bytes)
    }
}

/// Appends the key that stands behind the last chunk of a tree and belongs to no chunk. `key` is the key of that last
/// chunk, `sizes` are the sizes of a chunk.
///
/// That the key is one of a chunk of these sizes, each below 2^32, is the caller's condition.
///
/// # Errors
///
/// `AllocError` if memory is refused.
pub fn push_last_key(out: &mut Vec<u8>, key: &[u8], sizes: &[u64]) -> Result<(), AllocError>
    requires long { length key.now ≡ 8 + 8 * (length sizes.now + 1) }
    requires aligned { AllZip IsOffset sizes.now (offsets_in (length sizes.now) key.now) }
    requires short { AllByRecursion (λ size. size < 2 ^ 32) sizes.now }
    ensures { OnOk result (out.new.items ≡ out.old.items ++ chunk_key (record {
      bytes = 0;
      offsets = index_from (offsets_in (length sizes.now) key.now) sizes.now;
    })) }
{
    push_middle(out, 0)?;
    push_zeros(out, 4)?;
    push_offsets_behind(out, key, sizes)?;
    push_word(out, 0)?;
    Ok(())
}

/// Appends the offsets behind a chunk: those of its key, each with the size of the chunk added.
fn push_offsets_behind(out: &mut Vec<u8>, key: &[u8], sizes: &[u64]) -> Result<(), AllocError>
    requires long { length key.now ≡ 8 + 8 * (length sizes.now + 1) }
    requires aligned { AllZip IsOffset sizes.now (offsets_in (length sizes.now) key.now) }
    requires short { AllByRecursion (λ size. size < 2 ^ 32) sizes.now }
    ensures { OnOk result (out.new.items ≡ out.old.items
        ++ words (index_from (offsets_in (length sizes.now) key.now) sizes.now)) }
{
    for d in 0..sizes.len() {
        push_word(out, u64_at(key, OFFSETS + 8 * d) + sizes[d])?;
    }
    Ok(())
}
