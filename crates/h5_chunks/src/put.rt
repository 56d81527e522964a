//! A chunk stored in a tree, where the tree stands (File Format Specification 3.0, section III.A.1).

ghost use Rattle.std.specs.Prelude.{◌≡◌, ◌↔◌, ℕ, ◌+◌, ◌*◌, ◌^◌, ◌<◌, ◌≤◌, Bool, true, IsTrue, List, [], ◌∷◌, None, length, map, replicate, slice_index_or, take};
ghost use Rattle.std.specs.FinMap.{get, insert, values};
ghost use Rattle.std.specs.List.{AllByRecursion, AllZip};
ghost use Rattle.h5_bytes.specs.Blocks.{Keeps, block};
ghost use Rattle.h5_bytes.specs.Bytes.{part};
ghost use Rattle.h5_model.specs.Format.Chunks.{IsChunkKey, IsOffset, offsets_in};
ghost use Rattle.h5_model.specs.Format.Limits.{most_bytes};
ghost use Rattle.h5_model.specs.Format.Nodes.{node_at, node_length as length_of_node};
ghost use Rattle.h5_model.specs.Format.Reached.{shape_kind};
ghost use Rattle.h5_model.specs.Format.Superblock.{chunk_k as k_of, highest_k};
ghost use Rattle.h5_space.specs.Moves.{Spends};
ghost use Rattle.h5_btree.specs.Insertion.{IsFullWay};
ghost use Rattle.h5_btree.specs.Removal.{EndsSomewhere};
ghost use Rattle.h5_btree.specs.declared.way.Step.{Step};
ghost use Rattle.h5_chunks.specs.Bushy.{IsBushy};
ghost use Rattle.h5_chunks.specs.Edited.{AreChunksApart, CanBeStored, HasChunksNow, IsFullAt, chunk_node_length, store_room as room_of};
ghost use Rattle.h5_chunks.specs.Lists.{key_length as length_of_key};
ghost use Rattle.h5_chunks.specs.Put.{HasChunkPut, IsBlockBeside, IsKeyBehind, IsPutBeside, IsWayWidened};
ghost use Rattle.h5_chunks.specs.Told.{chunks_told};
ghost use Rattle.h5_chunks.specs.Way.{chunk_behind};

use crate::key::OFFSETS;
use crate::offsets::Offsets;
use crate::search::{SoughtChunk, way_to};
use crate::shape::ChunkShape;
use h5_btree::{
    Follows, LONGEST_KEY, MAX_LEVEL, MOST_STEPS, NodeKind, Sought, Trees, Way, ends_to_widen,
    hold_keys, is_full_way, put_at, put_first, tree_node, widen,
};
use h5_bytes::{put_u64, u64_at};
use h5_space::Image;

/// Bytes of the keys that come in along a way: the longest for each of its steps.
const MOST_KEYS: usize = MOST_STEPS * LONGEST_KEY;

/// The same along most ways, which have few levels and short keys.
const FEW_KEYS: usize = 512;

/// Whether the tree has no room for the chunk with this key: its root is at level 15, and each node on the way to the
/// chunk has as many children as it has room for. Takes no memory.
///
/// That the chunks were read, and that the key has an offset for each size, are the caller's conditions.
pub fn is_full_at(image: &Image, shape: &ChunkShape<'_>, root: u64, key: &[u8]) -> bool
    requires chunks { AreChunksApart image.now shape.now root }
    requires long { length key.now ≡ length_of_key (length shape.now.sizes) }
    ensures { IsTrue result
        ↔ IsFullAt image.now.bytes shape.now root (offsets_in (length shape.now.sizes) key.now) }
{
    if tree_node(image, shape, root).level() < MAX_LEVEL {
        return false;
    }
    // An image has fewer than 2^64 bytes.
    let _bytes = image.bytes();
    let offsets = Offsets::of_key(shape.sizes.len(), key);
    let Some(way) = way_to(image, shape, root, offsets.as_slice()) else {
        return false;
    };
    is_full_way(image, shape.kind(image), &way)
}

/// Stores the chunk with this key in a tree, in a new block, and gives its address. A block that stands behind the old end of
/// the image is zero; what stands in any other one is left open.
///
/// The chunk comes in by one way down the tree; nodes on it that are full are cut in two. All other chunks stay, with their
/// bytes. Takes no memory.
///
/// These are the caller's conditions: the chunks were read, on blocks that share no byte with each other, with the
/// superblock or with a free block; chunks of this shape can be stored; the key is that of a whole chunk, which is not
/// stored yet; the tree has room for it (`is_full_at`); and the image has the room that a chunk may take: its bytes, and
/// those of 17 nodes, in 18 calls.
pub fn store(image: &mut Image, shape: &ChunkShape<'_>, root: u64, key: &[u8]) -> u64
    requires chunks { AreChunksApart image.old shape.now root }
    requires storable { CanBeStored shape.now }
    requires long { length key.now ≡ length_of_key (length shape.now.sizes) }
    requires keyed { IsChunkKey shape.now.sizes shape.now.bytes key.now }
    requires absent { get (chunks_told image.old.bytes shape.now root)
        (offsets_in (length shape.now.sizes) key.now) ≡ None }
    requires roomy { IsFullAt image.old.bytes shape.now root
        (offsets_in (length shape.now.sizes) key.now) → ⊥ }
    requires bytes { room_of image.old.bytes shape.now ≤ image.old.room_bytes }
    requires calls { 18 ≤ image.old.room_blocks }
    requires short { length image.old.bytes + room_of image.old.bytes shape.now ≤ most_bytes }
    ensures stored { HasChunksNow image.old image.new shape.now root
        (insert (chunks_told image.old.bytes shape.now root)
        (offsets_in (length shape.now.sizes) key.now) result) }
    ensures kept { Keeps image.old.bytes image.new.bytes (map (λ at. block at shape.now.bytes)
        (values (chunks_told image.old.bytes shape.now root))) }
    ensures zero { length image.old.bytes ≤ result
        → part result shape.now.bytes image.new.bytes ≡ replicate shape.now.bytes 0 }
    ensures bushy { (low : ℕ) → IsBushy image.old.bytes shape.now root low
        → IsBushy image.new.bytes shape.now root low }
    ensures spends { Spends image.old image.new (room_of image.old.bytes shape.now) 18 }
{
    let chunk = image.take(shape.bytes);
    put_chunk(image, shape, root, key, chunk);
    chunk
}

/// Puts the chunk with this key into a tree, at its address, where its block stands beside those of the other chunks.
///
/// The conditions are those of `store`. Takes no memory.
fn put_chunk(image: &mut Image, shape: &ChunkShape<'_>, root: u64, key: &[u8], chunk: u64)
    requires beside { IsBlockBeside image.old shape.now root chunk }
    requires storable { CanBeStored shape.now }
    requires long { length key.now ≡ length_of_key (length shape.now.sizes) }
    requires keyed { IsChunkKey shape.now.sizes shape.now.bytes key.now }
    requires absent { get (chunks_told image.old.bytes shape.now root)
        (offsets_in (length shape.now.sizes) key.now) ≡ None }
    requires roomy { IsFullAt image.old.bytes shape.now root
        (offsets_in (length shape.now.sizes) key.now) → ⊥ }
    requires bytes { 17 * chunk_node_length image.old.bytes shape.now ≤ image.old.room_bytes }
    requires calls { 17 ≤ image.old.room_blocks }
    requires short { length image.old.bytes + 17 * chunk_node_length image.old.bytes shape.now ≤ most_bytes }
    ensures put { HasChunkPut image.old image.new shape.now root
        (offsets_in (length shape.now.sizes) key.now) chunk }
    ensures bushy { (low : ℕ) → IsBushy image.old.bytes shape.now root low
        → IsBushy image.new.bytes shape.now root low }
    ensures spends { Spends image.old image.new (17 * chunk_node_length image.old.bytes shape.now) 17 }
{
    let kind = shape.kind(image);
    let offsets = Offsets::of_key(shape.sizes.len(), key);
    let mut bytes = [0; LONGEST_KEY];
    let last = &mut bytes[..key.len()];
    write_key_behind(key, shape.sizes, last);
    match way_to(image, shape, root, offsets.as_slice()) {
        Some(way) => {
            let behind = is_behind_end(image, shape, offsets.as_slice(), &way);
            let_in(image, shape, offsets.as_slice(), &way, key, last);
            put_beside(image, kind, &way, behind, key, chunk);
        }
        None => put_first(image, kind, root, key, last, chunk),
    }
}

/// Writes the key that stands behind a chunk and belongs to none. `key` is the chunk's own key, `sizes` are the sizes of a
/// chunk.
fn write_key_behind(key: &[u8], sizes: &[u64], out: &mut [u8])
    requires long { length key.now ≡ length_of_key (length sizes.now) }
    requires room { length out.old ≡ length_of_key (length sizes.now) }
    requires aligned { AllZip IsOffset sizes.now (offsets_in (length sizes.now) key.now) }
    requires short { AllByRecursion (λ size. size < 2 ^ 32) sizes.now }
    ensures { IsKeyBehind sizes.now key.now out.new }
{
    put_u64(out, 0, 0);
    for d in 0..sizes.len() {
        let offset = u64_at(key, OFFSETS + 8 * d) + sizes[d];
        put_u64(out, OFFSETS + 8 * d, offset);
    }
    put_u64(out, OFFSETS + 8 * sizes.len(), 0);
}

/// Whether the chunk at these offsets stands behind the key before the child at the end of a way.
fn is_behind_end(image: &Image, shape: &ChunkShape<'_>, offsets: &[u64], way: &Way) -> bool
    requires ends { EndsSomewhere image.now (shape_kind image.now.bytes shape.now) way.now }
    requires few { k_of image.now.bytes ≤ highest_k }
    requires rank { length offsets.now ≡ length shape.now.sizes }
    ensures { (step : Step) (above : List Step) → way.now ≡ step ∷ above
        → result ≡ chunk_behind offsets.now (slice_index_or (node_at image.now.bytes
        (shape_kind image.now.bytes shape.now) step.node).keys step.place []) }
{
    let step = way.steps()[0];
    let sought = SoughtChunk::new(image, shape, offsets);
    sought.is_behind(tree_node(image, shape, step.node).key(step.place))
}

/// Lets the end keys of the nodes on a way give way, so that the chunk at these offsets lies between the keys around each
/// child on it. The first key of the node of level 0 stays: there the chunk comes in with its own key, which is `low`.
/// `high` is a key behind the chunk. Takes no room and no memory.
fn let_in(
    image: &mut Image,
    shape: &ChunkShape<'_>,
    offsets: &[u64],
    way: &Way,
    low: &[u8],
    high: &[u8],
)
    requires ends { EndsSomewhere image.old (shape_kind image.old.bytes shape.now) way.now }
    requires few { k_of image.old.bytes ≤ highest_k }
    requires rank { length offsets.now ≡ length shape.now.sizes }
    requires low { length low.now ≡ length_of_key (length shape.now.sizes) }
    requires high { length high.now ≡ length_of_key (length shape.now.sizes) }
    ensures { IsWayWidened image.old image.new (shape_kind image.old.bytes shape.now) offsets.now way.now
        low.now high.now }
{
    let sought = SoughtChunk::new(image, shape, offsets);
    let ends = ends_to_widen(image, &sought, way, 1);
    widen(image, shape.kind(image), way, &ends, low, high);
}

/// Which key of a tree of chunks may follow which: any, since a chunk stands on both sides of each key that comes up.
struct AnyKey;

impl Follows for AnyKey {
    ghost follows = { λ s key next. true };

    fn may_follow(&self, _key: &[u8], _next: &[u8]) -> bool {
        true
    }
}

/// Puts a chunk with this key into the tree in which a way ends, before the child there or behind it.
fn put_beside(image: &mut Image, kind: NodeKind, way: &Way, behind: bool, key: &[u8], chunk: u64)
    requires ends { EndsSomewhere image.old kind way.now }
    requires low { IsFullWay image.old.bytes kind way.now → length way.now < 16 }
    requires width { length key.now ≡ kind.key_length }
    requires bytes { (length way.now + 1) * length_of_node kind ≤ image.old.room_bytes }
    requires blocks { length way.now + 1 ≤ image.old.room_blocks }
    requires short { length image.old.bytes + (length way.now + 1) * length_of_node kind < 2 ^ 64 }
    ensures put { IsPutBeside image.old image.new kind way.now behind key.now chunk }
    ensures spends { Spends image.old image.new ((length way.now + 1) * length_of_node kind)
        (length way.now + 1) }
{
    // Clearing room for the keys of the highest tree takes longer than all else does in a low one.
    if way.steps().len() * kind.key_length() <= FEW_KEYS {
        put_in_room::<FEW_KEYS>(image, kind, way, behind, key, chunk);
    } else {
        put_in_room::<MOST_KEYS>(image, kind, way, behind, key, chunk);
    }
}

/// The same, with room for `N` bytes of the keys that come in along the way.
fn put_in_room<const N: usize>(
    image: &mut Image,
    kind: NodeKind,
    way: &Way,
    behind: bool,
    key: &[u8],
    chunk: u64,
)
    requires ends { EndsSomewhere image.old kind way.now }
    requires low { IsFullWay image.old.bytes kind way.now → length way.now < 16 }
    requires width { length key.now ≡ kind.key_length }
    requires room { length way.now * kind.key_length ≤ N }
    requires least { 272 ≤ N }
    requires most { N ≤ 4352 }
    requires bytes { (length way.now + 1) * length_of_node kind ≤ image.old.room_bytes }
    requires blocks { length way.now + 1 ≤ image.old.room_blocks }
    requires short { length image.old.bytes + (length way.now + 1) * length_of_node kind < 2 ^ 64 }
    ensures put { IsPutBeside image.old image.new kind way.now behind key.now chunk }
    ensures spends { Spends image.old image.new ((length way.now + 1) * length_of_node kind)
        (length way.now + 1) }
{
    let mut keys = [0; N];
    keys[..kind.key_length()].copy_from_slice(key);
    hold_keys(image, kind, &AnyKey, way, behind, &mut keys);
    put_at(image, kind, way, behind, &keys, chunk);
}
