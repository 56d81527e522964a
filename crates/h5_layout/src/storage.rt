//! Storage made for the cells of an array, where the array stands (File Format Specification 3.0, sections III.A.1 and
//! IV.A.2.i).

ghost use Rattle.std.specs.Prelude.{◌≡◌, ◌↔◌, ℕ, ◌+◌, ◌-◌, ◌*◌, ◌^◌, ◌<◌, ◌≤◌, ◌||◌, Err, IfErr, IfOk, IsTrue, OnErr, OnOk, None, Some, [], min, nat_le, length as length_of, slice_index_or, true};
ghost use Rattle.std.specs.FinMap.{empty, get};
ghost use Rattle.h5_model.specs.Format.Fixed.{fits};
ghost use Rattle.h5_model.specs.Format.Layout.{InBlock, InChunks};
ghost use Rattle.h5_model.specs.Format.Limits.{most_bytes, most_chunk_bytes, most_dimensions};
ghost use Rattle.h5_model.specs.Format.Reached.{level_at, shape_kind};
ghost use Rattle.h5_model.specs.Format.Superblock.{chunk_k, highest_k};
ghost use Rattle.h5_model.specs.Tree.Places.{cells as cells_of};
ghost use Rattle.h5_model.specs.Views.Selection.{Slab};
ghost use Rattle.h5_header.specs.Listed.{Listed};
ghost use Rattle.h5_space.specs.Moves.{Spends};
ghost use Rattle.h5_space.specs.declared.image.SpaceFault.{SpaceFault as FaultOfSpace};
ghost use Rattle.h5_chunks.specs.Told.{chunks_told};
ghost use Rattle.h5_layout.specs.ArrayChunks.{IsInChunksOf};
ghost use Rattle.h5_layout.specs.ArrayEdits.{IsArrayApart, described_in};
ghost use Rattle.h5_chunks.specs.Bushy.{is_low_level};
ghost use Rattle.h5_chunks.specs.Edited.{AreChunksApart, CanBeStored, chunk_node_length};
ghost use Rattle.h5_layout.specs.Data.{chunk_shape};
ghost use Rattle.h5_layout.specs.Filled.{AreToStore, FillsChunk, HasFilledChunks, cells_of_fill};
ghost use Rattle.h5_layout.specs.Lacking.{IsFound, IsMissing};
ghost use Rattle.h5_layout.specs.NewChunks.{AreMissing};
ghost use Rattle.h5_layout.specs.NewTrees.{IsTreeMade, IsTreeNamed};
ghost use Rattle.h5_layout.specs.RunStorage.{IsMadeAt};
ghost use Rattle.h5_layout.specs.Storage.{IsDeepFor, IsFullInNewTree, IsFullInTurn, IsStorageMade, chunks_room, is_low_root, is_refused_first as refuses_first, storage_bytes};
ghost use Rattle.h5_layout.specs.declared.lacking.Missing.TheVariants as missing;

use crate::chunked::ChunkedArray;
use crate::copied::{CellsToFill, copied_cells};
use crate::filled::{fill_taken, store_all};
use crate::header::{set_block, set_root};
use crate::lacking::Missing;
use h5_chunks::{
    ChunkList, ChunkShape, InsertFault, chunk_node_length, is_full_at, is_low, is_low_level,
    make_root,
};
use h5_header::Messages;
use h5_space::{Image, MAXIMUM_IMAGE, SpaceFault};

/// Whether `make_storage` is refused before any change, if it is refused: one chunk at most is missing, or the root of the
/// tree, or one that is to be made, is so low that the tree never gets too deep. Takes no memory.
///
/// That the array was read, with its data, and that so much is missing of it for some selection, are the caller's conditions.
pub fn is_refused_first(image: &Image, messages: &Messages, missing: &Missing) -> bool
    requires array { IsArrayApart image.now messages.now }
    requires missing { (slab : Slab)
        × IsMissing image.now.bytes (described_in image.now.bytes messages.now) slab missing.now }
    ensures { result ≡ refuses_first image.now.bytes (described_in image.now.bytes messages.now) missing.now }
{
    match missing {
        Missing::Block => true,
        Missing::Chunks { array, new } => new.len() <= 1 || has_low_root(image, array),
    }
}

/// Whether the root of the tree of chunks, or one that is made where there is none, is so low that the tree never gets too
/// deep.
fn has_low_root(image: &Image, array: &ChunkedArray) -> bool
    requires { (m : Listed) × IsArrayApart image.now m
        × IsInChunksOf (described_in image.now.bytes m) array.now }
    ensures { (m : Listed) → IsInChunksOf (described_in image.now.bytes m) array.now
        → result ≡ is_low_root image.now.bytes (described_in image.now.bytes m)
        (described_in image.now.bytes m).layout }
{
    match array.root() {
        Some(root) => is_low(image, &array.shape(), root),
        None => is_low_level(image, 0),
    }
}

/// Whether there is room for the storage that is missing of an array: in the tree, for the first chunk, and in the image. Takes
/// no memory.
///
/// These are the caller's conditions: the array was read, with its data; so much is missing of it for some selection; and the
/// image has at most 2147483648 bytes.
///
/// # Errors
///
/// `TreeTooDeep` exactly where the first of the missing chunks finds the root at level 15 and each node on its way full; else
/// `ImageFull` exactly where the image has more than 2147483648 bytes with those that the storage may take.
pub fn check_storage(
    image: &Image,
    messages: &Messages,
    missing: &Missing,
) -> Result<(), InsertFault>
    requires array { IsArrayApart image.now messages.now }
    requires missing { (slab : Slab)
        × IsMissing image.now.bytes (described_in image.now.bytes messages.now) slab missing.now }
    requires short { length_of image.now.bytes ≤ most_bytes }
    ensures deep { (result ≡ Err InsertFault.TreeTooDeep)
        ↔ IsDeepFor image.now.bytes (described_in image.now.bytes messages.now) missing.now 0 }
    ensures full { (result ≡ Err (InsertFault.Space SpaceFault.ImageFull))
        ↔ ((IsDeepFor image.now.bytes (described_in image.now.bytes messages.now) missing.now 0 → ⊥)
        × (most_bytes < length_of image.now.bytes
        + storage_bytes image.now.bytes (described_in image.now.bytes messages.now) missing.now)) }
{
    match missing {
        Missing::Block => {
            let cells = copied_cells(image, messages);
            check_room(image, cells.count * cells.fixed.size() as u64)
        }
        Missing::Chunks { array, new } => {
            let shape = array.shape();
            if let Some(root) = array.root() {
                if is_first_full(image, &shape, root, new) {
                    return Err(InsertFault::TreeTooDeep);
                }
            }
            check_room(image, room_for(image, &shape, array.chunk_length(), new))
        }
    }
}

/// Whether the image has room for so many bytes more.
fn check_room(image: &Image, bytes: u64) -> Result<(), InsertFault>
    requires short { length_of image.now.bytes ≤ most_bytes }
    ensures full { (result ≡ Err (InsertFault.Space SpaceFault.ImageFull))
        ↔ (most_bytes < length_of image.now.bytes + bytes) }
    ensures not_deep { result ≡ Err InsertFault.TreeTooDeep → ⊥ }
{
    if bytes > MAXIMUM_IMAGE - image.bytes().len() as u64 {
        return Err(InsertFault::Space(SpaceFault::ImageFull));
    }
    Ok(())
}

/// Makes the storage that is missing of an array: the block of a contiguous one, or chunks, each cell of which is the fill.
/// Gives the address of the block, or of the first of the chunks.
///
/// The block's address and size, or the address of a tree that is new, come into the Data Layout message. Each chunk comes
/// into the tree by one way down. The room for all that is made before the first change.
///
/// These are the caller's conditions: the array was read, with its data, on blocks that share no byte with each other, with
/// the superblock or with a free block; so much is missing of it for some selection; and the image has at most 2147483648
/// bytes.
///
/// # Errors
///
/// - `TreeTooDeep`: one of the missing chunks, in its turn, finds the root at level 15 and each node on its way full. Where
///   the first one does, always.
/// - `Space`: `ImageFull` where the image has more than 2147483648 bytes with those that the storage may take, and the first
///   chunk finds room; or `NoMemory`.
///
/// Where `is_refused_first` holds, a refusal changes nothing. Else what became of the image is left open.
pub fn make_storage(
    image: &mut Image,
    messages: &Messages,
    missing: &Missing,
) -> Result<u64, InsertFault>
    requires array { IsArrayApart image.old messages.now }
    requires missing { (slab : Slab)
        × IsMissing image.old.bytes (described_in image.old.bytes messages.now) slab missing.now }
    requires short { length_of image.old.bytes ≤ most_bytes }
    ensures made { OnOk result ((slab : Slab)
        → IsMissing image.old.bytes (described_in image.old.bytes messages.now) slab missing.now
        → IsStorageMade image.old image.new messages.now slab missing.now) }
    ensures placed { IfOk result (λ at. (slab : Slab)
        → IsFound image.old.bytes (described_in image.old.bytes messages.now) slab (Some missing.now)
        → IsMadeAt image.new.bytes (described_in image.new.bytes messages.now) missing.now at) }
    ensures spends { OnOk result (length_of image.new.bytes ≤ length_of image.old.bytes
        + storage_bytes image.old.bytes (described_in image.old.bytes messages.now) missing.now) }
    ensures deep { result ≡ Err InsertFault.TreeTooDeep
        → (n : ℕ) × IsDeepFor image.old.bytes (described_in image.old.bytes messages.now) missing.now n }
    ensures deep_first { IsDeepFor image.old.bytes (described_in image.old.bytes messages.now) missing.now 0
        → result ≡ Err InsertFault.TreeTooDeep }
    ensures full { (result ≡ Err (InsertFault.Space SpaceFault.ImageFull))
        ↔ ((IsDeepFor image.old.bytes (described_in image.old.bytes messages.now) missing.now 0 → ⊥)
        × (most_bytes < length_of image.old.bytes
        + storage_bytes image.old.bytes (described_in image.old.bytes messages.now) missing.now)) }
    ensures refused { refuses_first image.old.bytes (described_in image.old.bytes messages.now)
        missing.now ≡ true
        → OnErr result (image.new ≡ image.old) }
{
    match missing {
        Missing::Block => {
            let cells = copied_cells(image, messages);
            make_block(image, messages, &cells)
        }
        Missing::Chunks { array, new } => make_chunks(image, messages, array, new),
    }
}

/// Makes the block of a contiguous array, each cell of which is the fill, and gives its address.
fn make_block(
    image: &mut Image,
    messages: &Messages,
    cells: &CellsToFill,
) -> Result<u64, InsertFault>
    requires array { IsArrayApart image.old messages.now }
    requires none { (described_in image.old.bytes messages.now).layout ≡ InBlock None }
    requires fixed { cells.now.fixed ≡ (described_in image.old.bytes messages.now).fixed }
    requires fill { cells.now.fill ≡ (described_in image.old.bytes messages.now).fill }
    requires of_type { fits cells.now.fixed cells.now.fill ≡ true }
    requires count { cells.now.count ≡ cells_of (described_in image.old.bytes messages.now).sizes }
    ensures made { OnOk result ((slab : Slab)
        → IsStorageMade image.old image.new messages.now slab missing.Block) }
    ensures placed { IfOk result (λ at.
        IsMadeAt image.new.bytes (described_in image.new.bytes messages.now) missing.Block at) }
    ensures spends { OnOk result (length_of image.new.bytes ≤ length_of image.old.bytes
        + cells.now.count * cells.now.fixed.size) }
    ensures space { IfErr result (λ fault. (f : FaultOfSpace) × (fault ≡ InsertFault.Space f)) }
    ensures full { (result ≡ Err (InsertFault.Space SpaceFault.ImageFull))
        ↔ (most_bytes < length_of image.old.bytes + cells.now.count * cells.now.fixed.size) }
    ensures refused { OnErr result (image.new ≡ image.old) }
{
    // The image is not longer than memory.
    let _image = image.bytes();
    let length = cells.count * cells.fixed.size() as u64;
    if let Err(fault) = image.reserve(length, 1) {
        return Err(InsertFault::Space(fault));
    }
    let end = image.bytes().len() as u64;
    let at = image.take(length);
    fill_taken(image, cells, at, end);
    set_block(image, messages, at, length);
    Ok(at)
}

/// Makes chunks of an array, each cell of which is the fill, and a tree for them where there is none. Gives the address of the
/// first chunk.
fn make_chunks(
    image: &mut Image,
    messages: &Messages,
    chunks: &ChunkedArray,
    new: &ChunkList,
) -> Result<u64, InsertFault>
    requires array { IsArrayApart image.old messages.now }
    requires chunks { IsInChunksOf (described_in image.old.bytes messages.now) chunks.now }
    requires missing { (slab : Slab) × AreMissing image.old.bytes
        (described_in image.old.bytes messages.now) chunks.now.chunk slab new.now }
    ensures made { OnOk result ((slab : Slab) → AreMissing image.old.bytes
        (described_in image.old.bytes messages.now) chunks.now.chunk slab new.now
        → IsStorageMade image.old image.new messages.now slab (missing.Chunks chunks.now new.now)) }
    ensures placed { IfOk result (λ at. 0 < length_of new.now.offsets
        → IsMadeAt image.new.bytes (described_in image.new.bytes messages.now)
        (missing.Chunks chunks.now new.now) at) }
    ensures spends { OnOk result (length_of image.new.bytes ≤ length_of image.old.bytes
        + storage_bytes image.old.bytes (described_in image.old.bytes messages.now)
        (missing.Chunks chunks.now new.now)) }
    ensures deep { result ≡ Err InsertFault.TreeTooDeep → (n : ℕ)
        × IsDeepFor image.old.bytes (described_in image.old.bytes messages.now)
        (missing.Chunks chunks.now new.now) n }
    ensures deep_first { IsDeepFor image.old.bytes (described_in image.old.bytes messages.now)
        (missing.Chunks chunks.now new.now) 0 → result ≡ Err InsertFault.TreeTooDeep }
    ensures full { (result ≡ Err (InsertFault.Space SpaceFault.ImageFull))
        ↔ ((IsDeepFor image.old.bytes (described_in image.old.bytes messages.now)
        (missing.Chunks chunks.now new.now) 0 → ⊥)
        × (most_bytes < length_of image.old.bytes + storage_bytes image.old.bytes
        (described_in image.old.bytes messages.now) (missing.Chunks chunks.now new.now))) }
    ensures refused { refuses_first image.old.bytes (described_in image.old.bytes messages.now)
        (missing.Chunks chunks.now new.now) ≡ true → OnErr result (image.new ≡ image.old) }
{
    let shape = chunks.shape();
    let bytes = room_for(image, &shape, chunks.chunk_length(), new);
    let cells = chunks.cells();
    match chunks.root() {
        Some(root) => add_chunks(image, &shape, root, bytes, new, &cells),
        None => make_tree(image, messages, &shape, bytes, new, &cells),
    }
}

/// How many bytes chunks may take, or `u64::MAX` where these are more.
fn room_for(image: &Image, shape: &ChunkShape<'_>, length: u64, new: &ChunkList) -> u64
    requires long { 26 ≤ length_of image.now.bytes }
    requires k { chunk_k image.now.bytes ≤ highest_k }
    requires few { length_of shape.now.sizes ≤ most_dimensions }
    requires length { length ≡ shape.now.bytes }
    requires small { length ≤ most_chunk_bytes }
    ensures { result ≡ min (chunks_room image.now.bytes shape.now (length_of new.now.offsets)) (2 ^ 64 - 1) }
{
    let node = chunk_node_length(image, shape);
    (new.len() as u64)
        .saturating_mul(length + 17 * node)
        .saturating_add(node)
}

/// Whether the first of these chunks finds no room in the tree at this root.
fn is_first_full(image: &Image, shape: &ChunkShape<'_>, root: u64, new: &ChunkList) -> bool
    requires chunks { AreChunksApart image.now shape.now root }
    requires rank { new.now.rank ≡ length_of shape.now.sizes }
    ensures { IsTrue result ↔ IsFullInTurn image.now.bytes shape.now root new.now.offsets 0 }
{
    !new.is_empty() && is_full_at(image, shape, root, new.key(0))
}

/// Makes chunks in the tree at this root, and gives the address of the first. `bytes` is the room that they may take.
fn add_chunks(
    image: &mut Image,
    shape: &ChunkShape<'_>,
    root: u64,
    bytes: u64,
    new: &ChunkList,
    cells: &CellsToFill,
) -> Result<u64, InsertFault>
    requires chunks { AreChunksApart image.old shape.now root }
    requires storable { CanBeStored shape.now }
    requires cells { FillsChunk cells.now.fixed cells.now.fill cells.now.count shape.now }
    requires new { AreToStore (chunks_told image.old.bytes shape.now root) shape.now new.now }
    requires bytes { bytes ≡ min (chunks_room image.old.bytes shape.now (length_of new.now.offsets))
        (2 ^ 64 - 1) }
    ensures stored { OnOk result (HasFilledChunks image.old image.new shape.now root
        (cells_of_fill cells.now.fixed cells.now.fill cells.now.count) new.now.offsets) }
    ensures first { IfOk result (λ at. 0 < length_of new.now.offsets
        → get (chunks_told image.new.bytes shape.now root) (slice_index_or new.now.offsets 0 []) ≡ Some at) }
    ensures spends { OnOk result (length_of image.new.bytes ≤ length_of image.old.bytes
        + chunks_room image.old.bytes shape.now (length_of new.now.offsets)) }
    ensures deep { result ≡ Err InsertFault.TreeTooDeep
        → (n : ℕ) × IsFullInTurn image.old.bytes shape.now root new.now.offsets n }
    ensures deep_first { IsFullInTurn image.old.bytes shape.now root new.now.offsets 0
        → result ≡ Err InsertFault.TreeTooDeep }
    ensures full { (result ≡ Err (InsertFault.Space SpaceFault.ImageFull))
        ↔ ((IsFullInTurn image.old.bytes shape.now root new.now.offsets 0 → ⊥)
        × (most_bytes < length_of image.old.bytes
        + chunks_room image.old.bytes shape.now (length_of new.now.offsets))) }
    ensures refused { (nat_le (length_of new.now.offsets) 1
        || is_low_level (chunk_k image.old.bytes)
        (level_at image.old.bytes (shape_kind image.old.bytes shape.now) root)) ≡ true
        → OnErr result (image.new ≡ image.old) }
{
    if is_first_full(image, shape, root, new) {
        return Err(InsertFault::TreeTooDeep);
    }
    if let Err(fault) = image.reserve(bytes, calls_for(new)) {
        return Err(InsertFault::Space(fault));
    }
    store_all(image, shape, root, new, cells)
}

/// Makes chunks in a tree that is new, and gives the address of the first. `bytes` is the room that they may take.
fn make_tree(
    image: &mut Image,
    messages: &Messages,
    shape: &ChunkShape<'_>,
    bytes: u64,
    new: &ChunkList,
    cells: &CellsToFill,
) -> Result<u64, InsertFault>
    requires array { IsArrayApart image.old messages.now }
    requires none { (described_in image.old.bytes messages.now).layout ≡ InChunks shape.now.sizes None }
    requires shape { shape.now ≡ chunk_shape
        (described_in image.old.bytes messages.now).fixed shape.now.sizes }
    requires storable { CanBeStored shape.now }
    requires cells { FillsChunk cells.now.fixed cells.now.fill cells.now.count shape.now }
    requires new { AreToStore empty shape.now new.now }
    requires bytes { bytes ≡ min (chunks_room image.old.bytes shape.now (length_of new.now.offsets))
        (2 ^ 64 - 1) }
    ensures made { IfOk result (IsTreeMade image.old image.new messages.now shape.now
        (cells_of_fill cells.now.fixed cells.now.fill cells.now.count) new.now.offsets) }
    ensures spends { OnOk result (length_of image.new.bytes ≤ length_of image.old.bytes
        + chunks_room image.old.bytes shape.now (length_of new.now.offsets)) }
    ensures deep { result ≡ Err InsertFault.TreeTooDeep
        → (n : ℕ) × IsFullInNewTree image.old.bytes shape.now new.now.offsets n }
    ensures full { (result ≡ Err (InsertFault.Space SpaceFault.ImageFull))
        ↔ (most_bytes < length_of image.old.bytes
        + chunks_room image.old.bytes shape.now (length_of new.now.offsets)) }
    ensures refused { (nat_le (length_of new.now.offsets) 1 || is_low_level (chunk_k image.old.bytes) 0)
        ≡ true
        → OnErr result (image.new ≡ image.old) }
{
    if let Err(fault) = image.reserve(bytes, calls_for(new)) {
        return Err(InsertFault::Space(fault));
    }
    let root = name_tree(image, messages, shape);
    store_all(image, shape, root, new, cells)
}

/// Makes a tree for the chunks of an array, without a chunk, and names it in the array's header. Gives its root.
fn name_tree(image: &mut Image, messages: &Messages, shape: &ChunkShape<'_>) -> u64
    requires array { IsArrayApart image.old messages.now }
    requires none { (described_in image.old.bytes messages.now).layout ≡ InChunks shape.now.sizes None }
    requires shape { shape.now ≡ chunk_shape
        (described_in image.old.bytes messages.now).fixed shape.now.sizes }
    requires bytes { chunk_node_length image.old.bytes shape.now ≤ image.old.room_bytes }
    requires calls { 1 ≤ image.old.room_blocks }
    requires short { length_of image.old.bytes + chunk_node_length image.old.bytes shape.now ≤ most_bytes }
    ensures named { IsTreeNamed image.old image.new messages.now shape.now result }
    ensures spends { Spends image.old image.new (chunk_node_length image.old.bytes shape.now) 1 }
{
    let root = make_root(image, shape);
    set_root(image, messages, root);
    root
}

/// How many calls of `take` the storing of new chunks needs, with a root for them; or `u64::MAX` where these are more.
fn calls_for(new: &ChunkList) -> u64
    ensures { result ≡ min (18 * length_of new.now.offsets + 1) (2 ^ 64 - 1) }
{
    (new.len() as u64).saturating_mul(18).saturating_add(1)
}
