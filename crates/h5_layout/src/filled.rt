//! Blocks that were taken, with each cell the fill, and chunks stored so where their tree stands (File Format Specification
//! 3.0, section III.A.1).

ghost use Rattle.std.specs.Prelude.{◌≡◌, ℕ, ◌+◌, ◌*◌, ◌<◌, ◌≤◌, IfErr, IfOk, None, OnOk, Some, [], ◌∷◌, length, replicate, slice_index_or, true};
ghost use Rattle.std.specs.FinMap.{get};
ghost use Rattle.h5_bytes.specs.Bytes.{part};
ghost use Rattle.h5_model.specs.Format.Chunks.{IsChunkKey, offsets_in};
ghost use Rattle.h5_model.specs.Format.Fixed.{fits};
ghost use Rattle.h5_model.specs.Format.Limits.{most_bytes};
ghost use Rattle.h5_model.specs.Format.Superblock.{chunk_k};
ghost use Rattle.h5_space.specs.Lending.{with_bytes_at};
ghost use Rattle.h5_space.specs.Moves.{Spends};
ghost use Rattle.h5_chunks.specs.Told.{chunks_told};
ghost use Rattle.h5_chunks.specs.Bushy.{IsBushy, is_low_level};
ghost use Rattle.h5_chunks.specs.Edited.{AreChunksApart, CanBeStored, IsFullAt, store_room};
ghost use Rattle.h5_layout.specs.Filled.{AreToStore, FillsChunk, HasFilledChunks, cells_of_fill};
ghost use Rattle.h5_chunks.specs.Lists.{key_length as length_of_key};
ghost use Rattle.h5_layout.specs.Storage.{IsFullInTurn};

use crate::address::fill_stored;
use crate::copied::CellsToFill;
use h5_chunks::{ChunkList, ChunkShape, InsertFault, is_full_at, store};
use h5_space::Image;

/// Stores new chunks in a tree, with each cell the fill, and gives the address of the first of them, or 0 where there is none.
/// Takes no memory.
///
/// These are the caller's conditions: the chunks of the tree were read, on blocks that share no byte with each other, with
/// the superblock or with a free block; chunks of this shape can be stored, and have as many cells as are to be filled; none
/// of the new chunks is stored; and the image has the room that these chunks may take.
///
/// # Errors
///
/// `TreeTooDeep`: one of the chunks, in its turn, finds no room in the tree. Those before it are stored then.
pub(crate) fn store_all(
    image: &mut Image,
    shape: &ChunkShape<'_>,
    root: u64,
    new: &ChunkList,
    cells: &CellsToFill,
) -> Result<u64, InsertFault>
    requires chunks { AreChunksApart image.old shape.now root }
    requires storable { CanBeStored shape.now }
    requires cells { FillsChunk cells.now.fixed cells.now.fill cells.now.count shape.now }
    requires new { AreToStore (chunks_told image.old.bytes shape.now root) shape.now new.now }
    requires bytes { length new.now.offsets * store_room image.old.bytes shape.now ≤ image.old.room_bytes }
    requires calls { 18 * length new.now.offsets ≤ image.old.room_blocks }
    requires short { length image.old.bytes
        + length new.now.offsets * store_room image.old.bytes shape.now ≤ most_bytes }
    ensures stored { OnOk result (HasFilledChunks image.old image.new shape.now root
        (cells_of_fill cells.now.fixed cells.now.fill cells.now.count) new.now.offsets) }
    ensures first { IfOk result (λ at. 0 < length new.now.offsets
        → get (chunks_told image.new.bytes shape.now root) (slice_index_or new.now.offsets 0 []) ≡ Some at) }
    ensures spends { OnOk result (Spends image.old image.new
        (length new.now.offsets * store_room image.old.bytes shape.now) (18 * length new.now.offsets)) }
    ensures deep { IfErr result (λ fault. fault ≡ InsertFault.TreeTooDeep) }
    ensures turn { IfErr result (λ fault. (n : ℕ)
        × IsFullInTurn image.old.bytes shape.now root new.now.offsets n) }
    ensures low { IfErr result (λ fault. (low : ℕ) → is_low_level (chunk_k image.old.bytes) low ≡ true
        → IsBushy image.old.bytes shape.now root low → ⊥) }
{
    let mut first = 0;
    for k in 0..new.len() {
        let key = new.key(k);
        if is_full_at(image, shape, root, key) {
            return Err(InsertFault::TreeTooDeep);
        }
        let at = store_filled(image, shape, root, key, cells);
        if k == 0 {
            first = at;
        }
    }
    Ok(first)
}

/// Stores the chunk with this key in a tree, with each cell the fill, and gives its address.
fn store_filled(
    image: &mut Image,
    shape: &ChunkShape<'_>,
    root: u64,
    key: &[u8],
    cells: &CellsToFill,
) -> u64
    requires chunks { AreChunksApart image.old shape.now root }
    requires storable { CanBeStored shape.now }
    requires cells { FillsChunk cells.now.fixed cells.now.fill cells.now.count shape.now }
    requires long { length key.now ≡ length_of_key (length shape.now.sizes) }
    requires keyed { IsChunkKey shape.now.sizes shape.now.bytes key.now }
    requires absent { get (chunks_told image.old.bytes shape.now root)
        (offsets_in (length shape.now.sizes) key.now) ≡ None }
    requires roomy { IsFullAt image.old.bytes shape.now root
        (offsets_in (length shape.now.sizes) key.now) → ⊥ }
    requires bytes { store_room image.old.bytes shape.now ≤ image.old.room_bytes }
    requires calls { 18 ≤ image.old.room_blocks }
    requires short { length image.old.bytes + store_room image.old.bytes shape.now ≤ most_bytes }
    ensures stored { HasFilledChunks image.old image.new shape.now root
        (cells_of_fill cells.now.fixed cells.now.fill cells.now.count)
        (offsets_in (length shape.now.sizes) key.now ∷ []) }
    ensures at { get (chunks_told image.new.bytes shape.now root)
        (offsets_in (length shape.now.sizes) key.now) ≡ Some result }
    ensures spends { Spends image.old image.new (store_room image.old.bytes shape.now) 18 }
{
    let end = image.bytes().len() as u64;
    let at = store(image, shape, root, key);
    fill_taken(image, cells, at, end);
    at
}

/// Makes each cell of a block that was taken the fill. Behind the old end of the image the block is zero, so that a fill of 0
/// is there already.
pub(crate) fn fill_taken(image: &mut Image, cells: &CellsToFill, at: u64, end: u64)
    requires inside { at + cells.now.count * cells.now.fixed.size ≤ length image.old.bytes }
    requires of_type { fits cells.now.fixed cells.now.fill ≡ true }
    requires zero { end ≤ at → part at (cells.now.count * cells.now.fixed.size) image.old.bytes
        ≡ replicate (cells.now.count * cells.now.fixed.size) 0 }
    ensures { image.new ≡ with_bytes_at image.old at
        (cells_of_fill cells.now.fixed cells.now.fill cells.now.count) }
{
    if cells.fill == 0 && end <= at {
        return;
    }
    fill_stored(image, &cells.fixed, at, cells.fill, cells.count);
}
