//! The maxima of a new array, and how its cells are stored (File Format Specification 3.0, sections IV.A.2.b and IV.A.2.i).

ghost use Rattle.std.specs.Prelude.{◌≡◌, ◌*◌, IsTrue};
ghost use Rattle.std.specs.List.{AllZip};
ghost use Rattle.h5_model.specs.Tree.Places.{cells as cells_of};
ghost use Rattle.h5_model.specs.Tree.Objects.{are_sizes as are_own};
ghost use Rattle.h5_model.specs.Edits.Refusal as rule;
ghost use Rattle.h5_repack.specs.Bodies.Sound.{IsBound};
ghost use Rattle.h5_edit.specs.Changed.Cells.{HasChunkSizes};

use crate::rules::limits::MAX_COMPACT;
use h5_bytes::UNDEF;
use h5_layout::{ChunkSizes, MAX_CHUNK};
use h5_model::{Items, Store};
use h5_query::Dims;

/// Whether there is a maximum for each size, none below it, and none the mark of an unlimited one.
pub(crate) fn are_maxima(sizes: &[u64], maxima: &[Option<u64>]) -> bool
    ensures rule { result ≡ rule.are_maxima sizes.now maxima.now }
    ensures bounds { IsTrue result → AllZip IsBound sizes.now maxima.now }
{
    let [size, sizes @ ..] = sizes else {
        return maxima.is_empty();
    };
    let [maximum, maxima @ ..] = maxima else {
        return false;
    };
    is_maximum(*size, *maximum) && are_maxima(sizes, maxima)
}

/// Whether the size may grow up to this maximum.
fn is_maximum(size: u64, maximum: Option<u64>) -> bool
    ensures rule { result ≡ rule.is_maximum size maximum }
    ensures bound { IsTrue result → IsBound size maximum }
{
    match maximum {
        Some(most) => size <= most && most != UNDEF,
        None => true,
    }
}

/// Whether the cells may be stored so: unless in chunks, each size is its own maximum.
pub(crate) fn is_store(store: &Store<Items<u32>>, sizes: &[u64], maxima: &[Option<u64>]) -> bool
    ensures { result ≡ rule.is_store store.now sizes.now maxima.now }
{
    match store {
        Store::Compact | Store::Contiguous => are_sizes(sizes, maxima),
        Store::Chunked(chunk) => !sizes.is_empty() && are_chunk_sizes(chunk.as_slice(), maxima),
    }
}

/// Whether each size is its own maximum.
fn are_sizes(sizes: &[u64], maxima: &[Option<u64>]) -> bool
    ensures { result ≡ are_own sizes.now maxima.now }
{
    let [size, sizes @ ..] = sizes else {
        return maxima.is_empty();
    };
    let [maximum, maxima @ ..] = maxima else {
        return false;
    };
    *maximum == Some(*size) && are_sizes(sizes, maxima)
}

/// Whether there is a chunk size for each maximum, none 0 and none above a maximum other than 0.
fn are_chunk_sizes(chunk: &[u32], maxima: &[Option<u64>]) -> bool
    ensures { result ≡ rule.are_chunk_sizes chunk.now maxima.now }
{
    let [size, chunk @ ..] = chunk else {
        return maxima.is_empty();
    };
    let [maximum, maxima @ ..] = maxima else {
        return false;
    };
    is_chunk_size(*size, *maximum) && are_chunk_sizes(chunk, maxima)
}

/// Whether a chunk may have this size where sizes may grow up to this maximum.
fn is_chunk_size(size: u32, maximum: Option<u64>) -> bool
    ensures { result ≡ rule.is_chunk_size size maximum }
{
    match maximum {
        Some(most) => size > 0 && (most == 0 || u64::from(size) <= most),
        None => size > 0,
    }
}

/// Whether a chunk of cells of so many bytes would have more than 2^30 bytes.
pub(crate) fn is_chunk_large(store: &Store<Items<u32>>, size: usize) -> bool
    requires { HasChunkSizes store.now }
    ensures { result ≡ rule.chunk_is_large store.now size }
{
    match store {
        Store::Chunked(chunk) => {
            let dims = ChunkSizes::new(chunk.as_slice()).dims();
            dims.cells().saturating_mul(size as u64) > MAX_CHUNK
        }
        Store::Compact | Store::Contiguous => false,
    }
}

/// Whether compact cells of so many bytes would have more than 65524 bytes.
pub(crate) fn is_compact_large(store: &Store<Items<u32>>, dims: &Dims, size: usize) -> bool
    ensures { result ≡ rule.compact_is_large store.now (cells_of dims.now * size) }
{
    match store {
        Store::Compact => dims.cells().saturating_mul(size as u64) > MAX_COMPACT,
        Store::Contiguous | Store::Chunked(_) => false,
    }
}
