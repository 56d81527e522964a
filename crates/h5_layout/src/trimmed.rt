//! Chunks and cells outside an extent, taken away where the array stands (File Format Specification 3.0, section
//! III.A.1).

ghost use Rattle.std.specs.Prelude.{◌≡◌, ◌*◌, ◌<◌, ◌≤◌, ℕ, IfOk, Some, length, slice_index, true};
ghost use Rattle.std.specs.FinMap.{get};
ghost use Rattle.h5_bytes.specs.Bytes.{part};
ghost use Rattle.h5_model.specs.Edits.Refusal.{is_chunked};
ghost use Rattle.h5_model.specs.Format.Chunks.{offsets_in};
ghost use Rattle.h5_model.specs.Format.Described.{storage_of};
ghost use Rattle.h5_model.specs.Format.Limits.{most_dimensions};
ghost use Rattle.h5_chunks.specs.Read.{AreChunksRead};
ghost use Rattle.h5_chunks.specs.Told.{chunks_told};
ghost use Rattle.h5_space.specs.Lending.{with_bytes_at};
ghost use Rattle.h5_space.specs.Moves.{Spends};
ghost use Rattle.h5_layout.specs.ArrayEdits.{IsArrayApart, described_in};
ghost use Rattle.h5_layout.specs.Data.{chunk_shape};
ghost use Rattle.h5_chunks.specs.Lists.{key_length as length_of_key};
ghost use Rattle.h5_layout.specs.Trimmed.{AreEdges, AreLost, IsTrimmedTo, trimmed_bytes};

use crate::chunked::ChunkedArray;
use crate::corner::{Span, fill_corner, write_spans};
use crate::named_tree::lacks_tree;
use h5_bytes::u64_at;
use h5_chunks::{Beyond, ChunkList, OFFSETS, chunk_at, chunks_beyond, drop_outside};
use h5_header::{HeaderRef, Messages};
use h5_shape::MAX_RANK;
use h5_space::Image;
use std::alloc::{AllocError, Global};

/// What an array in chunks stores outside an extent: chunks that hold no cell of it, and chunks that hold cells on both
/// sides of its edge.
#[derive(Drop)]
pub struct Outside {
    /// Chunks with no cell inside, in the order of their offsets.
    pub lost: ChunkList,
    /// Chunks with cells on both sides, in the order of their offsets.
    pub edge: ChunkList,
}

/// What an array in chunks stores outside an extent of these sizes.
///
/// Takes memory for the keys of these chunks. That the array was read, with its data, that it is in chunks, and that
/// there is a size for each of its own, are the caller's conditions.
///
/// # Errors
///
/// `AllocError` if memory is refused.
pub fn outside_of(
    alloc: Global,
    image: &Image,
    messages: &Messages,
    sizes: &[u64],
) -> Result<Outside, AllocError>
    requires array { IsArrayApart image.now messages.now }
    requires chunked { is_chunked (storage_of (described_in image.now.bytes messages.now).sizes
        (described_in image.now.bytes messages.now).layout) ≡ true }
    requires rank { length sizes.now ≡ length (described_in image.now.bytes messages.now).sizes }
    ensures lost { IfOk result (λ outside.
        AreLost image.now.bytes (described_in image.now.bytes messages.now) sizes.now outside.lost) }
    ensures edge { IfOk result (λ outside.
        AreEdges image.now.bytes (described_in image.now.bytes messages.now) sizes.now outside.edge) }
{
    let array = ChunkedArray::new(image, messages);
    let shape = array.shape();
    match array.root() {
        Some(root) => {
            let Beyond { outside, across } = chunks_beyond(alloc, image, &shape, root, sizes)?;
            Ok(Outside {
                lost: outside,
                edge: across,
            })
        }
        None => Ok(Outside {
            lost: ChunkList::new(alloc, &shape),
            edge: ChunkList::new(alloc, &shape),
        }),
    }
}

/// Takes away what an array stores outside an extent of these sizes: chunks with no cell inside go, and are given back;
/// the cells outside of the others become the fill. Takes no memory.
///
/// These are the caller's conditions: the array was read, with its data, on blocks that share no byte with each other,
/// with the superblock or with a free block; it is in chunks, and there is a size for each of its own; `outside` is what
/// `outside_of` gives for these sizes; and there is room for 16 calls of `give` for each chunk that goes.
pub fn trim(image: &mut Image, messages: &Messages, sizes: &[u64], outside: &Outside)
    requires array { IsArrayApart image.old messages.now }
    requires chunked { is_chunked (storage_of (described_in image.old.bytes messages.now).sizes
        (described_in image.old.bytes messages.now).layout) ≡ true }
    requires rank { length sizes.now ≡ length (described_in image.old.bytes messages.now).sizes }
    requires lost { AreLost image.old.bytes (described_in image.old.bytes messages.now) sizes.now
        outside.now.lost }
    requires edge { AreEdges image.old.bytes (described_in image.old.bytes messages.now) sizes.now
        outside.now.edge }
    requires calls { 16 * length outside.now.lost.offsets ≤ image.old.room_blocks }
    ensures trimmed { IsTrimmedTo image.old image.new messages.now sizes.now }
    ensures spends { Spends image.old image.new 0 (16 * length outside.now.lost.offsets) }
{
    if lacks_tree(&HeaderRef::new(image, messages)) {
        return;
    }
    let array = ChunkedArray::new(image, messages);
    let Some(root) = array.root() else {
        unreachable!()
    };
    drop_outside(image, &array.shape(), root, &outside.lost, sizes);
    for k in 0..outside.edge.len() {
        trim_chunk(image, &array, root, sizes, outside.edge.key(k));
    }
}

/// Writes the fill into the cells of the chunk with this key that are outside an extent of these sizes.
fn trim_chunk(image: &mut Image, array: &ChunkedArray, root: u64, sizes: &[u64], key: &[u8])
    requires chunks { AreChunksRead image.old.bytes (chunk_shape array.now.fixed array.now.chunk) root }
    requires rank { length sizes.now ≡ length array.now.chunk }
    requires long { length key.now ≡ length_of_key (length array.now.chunk) }
    requires stored { (at : ℕ) × (get (chunks_told image.old.bytes
        (chunk_shape array.now.fixed array.now.chunk) root)
        (offsets_in (length array.now.chunk) key.now) ≡ Some at) }
    ensures bytes { (at : ℕ)
        → get (chunks_told image.old.bytes (chunk_shape array.now.fixed array.now.chunk) root)
        (offsets_in (length array.now.chunk) key.now) ≡ Some at
        → (i : ℕ) → slice_index (part at (chunk_shape array.now.fixed array.now.chunk).bytes
        image.old.bytes) i < 256 }
    ensures trimmed { (at : ℕ)
        → get (chunks_told image.old.bytes (chunk_shape array.now.fixed array.now.chunk) root)
        (offsets_in (length array.now.chunk) key.now) ≡ Some at
        → image.new ≡ with_bytes_at image.old at (trimmed_bytes array.now sizes.now
        (offsets_in (length array.now.chunk) key.now)
        (part at (chunk_shape array.now.fixed array.now.chunk).bytes image.old.bytes)) }
{
    let chunk = array.sizes();
    let rank = chunk.len();
    let mut room = [0; MAX_RANK];
    let offsets = &mut room[..rank];
    write_offsets(key, offsets);
    let Some(at) = chunk_at(image, &array.shape(), root, offsets) else {
        unreachable!()
    };
    let mut spans = [Span { size: 1, kept: 1 }; MAX_RANK];
    let spans = &mut spans[..rank];
    write_spans(chunk, sizes, key, spans);
    let bytes = image.part_at_mut(at, array.chunk_length());
    fill_corner(bytes, &array.fixed(), array.fill(), spans);
}

/// Writes the offsets of a key.
fn write_offsets(key: &[u8], offsets: &mut [u64])
    requires few { length offsets.old ≤ most_dimensions }
    requires long { length key.now ≡ length_of_key (length offsets.old) }
    ensures { offsets.new ≡ offsets_in (length offsets.old) key.now }
{
    for d in 0..offsets.len() {
        offsets[d] = u64_at(key, OFFSETS + 8 * d);
    }
}
