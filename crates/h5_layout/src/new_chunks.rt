//! The chunks of an array that a selection meets and that are not stored (File Format Specification 3.0, sections III.A.1
//! and IV.A.2.i).

ghost use Rattle.std.specs.Prelude.{◌≡◌, ◌+◌, ◌<◌, ◌≤◌, ◌^◌, ℕ, List, Option, IfOk, IfSome, is_some, length, map};
ghost use Rattle.std.specs.List.{AllByRecursion};
ghost use Rattle.std.specs.FinMap.{get};
ghost use Rattle.std.specs.Option.{ForSome};
ghost use Rattle.h5_model.specs.Format.Layout.{InChunks};
ghost use Rattle.h5_model.specs.Format.Limits.{most_dimensions};
ghost use Rattle.h5_model.specs.Views.Selection.{Within};
ghost use Rattle.h5_shape.specs.PartCells.{part_corner};
ghost use Rattle.h5_shape.specs.declared.parts.Span.{Span as SpanOfPart};
ghost use Rattle.h5_chunks.specs.Read.{AreChunksRead};
ghost use Rattle.h5_layout.specs.Data.{AreDataRead};
ghost use Rattle.h5_layout.specs.Kept.{chunks_below_root};
ghost use Rattle.h5_layout.specs.Missing.{HasNextCorner, corners_missing};
ghost use Rattle.h5_layout.specs.NewChunks.{AreMissing};

use crate::array::ArrayRef;
use crate::chunked::ChunkedArray;
use h5_chunks::{ChunkList, ChunkShape, chunk_at};
use h5_shape::{ChunkParts, MAX_RANK, Slab, Span};
use h5_space::Image;
use std::alloc::{AllocError, Global};

/// The chunks of an array that hold a selected cell and are not stored, in the order of their offsets. The array is in
/// chunks.
///
/// Takes memory for their keys. Each chunk is looked for by one way down the tree. That the data were read, that the
/// array is in chunks, and that the selection is within its sizes, are the caller's conditions.
///
/// # Errors
///
/// `AllocError` if memory is refused.
pub fn missing_chunks(
    alloc: Global,
    image: &Image,
    array: &ArrayRef<'_>,
    slab: &Slab<'_>,
) -> Result<ChunkList, AllocError>
    requires data { AreDataRead image.now.bytes array.now.fixed array.now.layout }
    requires rank { length slab.now ≡ length array.now.sizes }
    requires within { Within array.now.sizes slab.now }
    requires chunked { (chunk : List ℕ) × (root : Option ℕ) × (array.now.layout ≡ InChunks chunk root) }
    ensures { IfOk result (λ new. (chunk : List ℕ) (root : Option ℕ)
        → array.now.layout ≡ InChunks chunk root
        → AreMissing image.now.bytes array.now chunk slab.now new) }
{
    let chunked = ChunkedArray::of(array);
    let chunk = chunked.sizes();
    let shape = chunked.shape();
    let parts = slab.chunk_parts(chunk);
    missing_below(alloc, image, &shape, chunked.root(), parts, chunk.len())
}

/// Those chunks of so many dimensions at the corners of these parts that are not stored below this root.
fn missing_below(
    alloc: Global,
    image: &Image,
    shape: &ChunkShape<'_>,
    root: Option<u64>,
    parts: ChunkParts<'_>,
    rank: usize,
) -> Result<ChunkList, AllocError>
    requires chunks { ForSome root (λ root. AreChunksRead image.now.bytes shape.now root) }
    requires rank { rank ≡ length shape.now.sizes }
    requires few { rank ≤ most_dimensions }
    requires ranks { AllByRecursion (λ (part : List SpanOfPart). length part ≡ rank) parts }
    requires small { shape.now.bytes < 2 ^ 32 }
    ensures { IfOk result (λ missing. missing ≡ record {
      rank = length shape.now.sizes;
      bytes = shape.now.bytes;
      offsets = corners_missing (chunks_below_root image.now.bytes shape.now root)
          (map part_corner parts.entry);
    }) }
{
    let mut parts = parts;
    let mut corner = [0; MAX_RANK];
    let mut missing = ChunkList::new(alloc, shape);
    while next_corner(&mut parts, &mut corner[..rank]) {
        if !is_stored(image, shape, root, &corner[..rank]) {
            missing.push(&corner[..rank])?;
        }
    }
    Ok(missing)
}

/// Whether a chunk is stored at these offsets below this root.
fn is_stored(image: &Image, shape: &ChunkShape<'_>, root: Option<u64>, offsets: &[u64]) -> bool
    requires chunks { ForSome root (λ root. AreChunksRead image.now.bytes shape.now root) }
    requires rank { length offsets.now ≡ length shape.now.sizes }
    ensures { result ≡ is_some (get (chunks_below_root image.now.bytes shape.now root) offsets.now) }
{
    stored_at(image, shape, root, offsets).is_some()
}

/// The address of the chunk at these offsets below this root, where it is stored.
pub(crate) fn stored_at(
    image: &Image,
    shape: &ChunkShape<'_>,
    root: Option<u64>,
    offsets: &[u64],
) -> Option<u64>
    requires chunks { ForSome root (λ root. AreChunksRead image.now.bytes shape.now root) }
    requires rank { length offsets.now ≡ length shape.now.sizes }
    ensures at { result ≡ get (chunks_below_root image.now.bytes shape.now root) offsets.now }
    ensures inside { IfSome result (λ at. at + shape.now.bytes ≤ length image.now.bytes) }
{
    match root {
        Some(root) => chunk_at(image, shape, root, offsets),
        None => None,
    }
}

/// Writes the first index of the box of the next part. Where no part is left, says so.
fn next_corner(parts: &mut ChunkParts<'_>, corner: &mut [u64]) -> bool
    requires { AllByRecursion (λ (part : List SpanOfPart). length part ≡ length corner.old) parts.old }
    ensures { HasNextCorner parts.old result parts.new corner.new }
{
    let Some(part) = parts.next_part() else {
        return false;
    };
    write_corner(part, corner);
    true
}

/// Writes the first index of a part's box.
fn write_corner(part: &[Span], corner: &mut [u64])
    requires { length part.now ≡ length corner.old }
    ensures { corner.new ≡ part_corner part.now }
{
    for k in 0..corner.len() {
        corner[k] = part[k].corner;
    }
}
