//! The way down to a chunk (File Format Specification 3.0, section III.A.1).

ghost use Rattle.std.specs.Prelude.{◌≡◌, ◌+◌, ◌*◌, ◌≤◌, ℕ, None, List, [], ◌∷◌, length, IfNone, IfSome};
ghost use Rattle.std.specs.FinMap.{get};
ghost use Rattle.std.specs.List.{AllByRecursion, Contains};
ghost use Rattle.h5_model.specs.Format.Limits.{most_dimensions};
ghost use Rattle.h5_model.specs.Format.Nodes.{chunk_kind, node_at};
ghost use Rattle.h5_model.specs.Format.Superblock.{chunk_k as k_of, highest_k};
ghost use Rattle.h5_model.specs.Format.Reached.{level_at, shape_kind};
ghost use Rattle.h5_model.specs.Format.Rows.{row_below};
ghost use Rattle.h5_btree.specs.Descent.{EndsAt, IsWayTo};
ghost use Rattle.h5_chunks.specs.Cursor.{IsCursor};
ghost use Rattle.h5_chunks.specs.Read.{AreChunksRead};
ghost use Rattle.h5_chunks.specs.Told.{chunks_told};
ghost use Rattle.h5_chunks.specs.Way.{EndsForChunk, IsChunkThere, IsInSomeRow, chunk_behind};

use crate::cursor::{ChunkCursor, chunk_down};
use crate::offsets::key_order;
use crate::shape::ChunkShape;
use h5_btree::{Node, NodeKind, Sought, Step, Way, child_for, find_way, tree_node};
use h5_space::{Image, chunk_k};
use std::marker::Model;

/// The address of the chunk at these offsets, which are in cells; `None` where it is not stored.
///
/// It goes down the tree by its keys, and searches each node by halves. Takes no memory. That the chunks were read,
/// and that there is an offset for each size of a chunk, are the caller's conditions.
pub fn chunk_at(image: &Image, shape: &ChunkShape<'_>, root: u64, offsets: &[u64]) -> Option<u64>
    requires chunks { AreChunksRead image.now.bytes shape.now root }
    requires rank { length offsets.now ≡ length shape.now.sizes }
    ensures { result ≡ get (chunks_told image.now.bytes shape.now root) offsets.now }
{
    chunk_down(image, shape, root, &mut ChunkCursor::new(), offsets)
}

/// The address of the chunk at these offsets, where it is child `i` of this node of level 0.
pub(crate) fn chunk_here(node: &Node<'_>, i: usize, offsets: &[u64]) -> Option<u64>
    requires keys { AllByRecursion (λ (key : List ℕ).
        length key ≡ 8 + 8 * (length offsets.now + 1)) node.now.keys }
    requires few { length offsets.now ≤ most_dimensions }
    ensures there { IfSome result (λ at. IsChunkThere offsets.now node.now i at) }
    ensures none { IfNone result ((at : ℕ) → IsChunkThere offsets.now node.now i at → ⊥) }
{
    if i >= node.len() || key_order(node.key(i), offsets).is_ne() {
        return None;
    }
    Some(node.child(i))
}

/// Where the way to the chunk at these offsets ends: it stands there, if it is stored; `None` where no chunk is stored.
pub(crate) fn end_of_way(
    image: &Image,
    shape: &ChunkShape<'_>,
    root: u64,
    offsets: &[u64],
) -> Option<Step>
    requires chunks { AreChunksRead image.now.bytes shape.now root }
    requires rank { length offsets.now ≡ length shape.now.sizes }
    ensures ends { IfSome result (λ s. EndsForChunk image.now.bytes shape.now root offsets.now
        (node_at image.now.bytes (shape_kind image.now.bytes shape.now) s.node) s.place) }
    ensures bottom { IsCursor image.now.bytes shape.now root result }
    ensures few { length offsets.now ≤ most_dimensions }
    ensures none { IfNone result (get (chunks_told image.now.bytes shape.now root) offsets.now ≡ None) }
{
    let sought = SoughtChunk::new(image, shape, offsets);
    let top = tree_node(image, shape, root);
    if top.is_empty() {
        return None;
    }
    Some(end_below(image, shape, root, top.level(), &sought))
}

/// The same, below a node of this level, which has children.
fn end_below(
    image: &Image,
    shape: &ChunkShape<'_>,
    at: u64,
    level: u8,
    sought: &SoughtChunk<'_>,
) -> Step
    requires row { IsInSomeRow image.now.bytes (shape_kind image.now.bytes shape.now) level at }
    requires few { k_of image.now.bytes ≤ highest_k }
    requires rank { length sought.now.offsets ≡ length shape.now.sizes }
    ensures ends { EndsAt (node_at image.now.bytes (shape_kind image.now.bytes shape.now))
        (chunk_behind sought.now.offsets) level at
        (node_at image.now.bytes (shape_kind image.now.bytes shape.now) result.node) result.place }
    ensures bottom { Contains (row_below (node_at image.now.bytes (shape_kind image.now.bytes shape.now))
        level (at ∷ [])) result.node }
{
    let node = tree_node(image, shape, at);
    let place = child_for(&node, sought);
    if level == 0 {
        return Step { node: at, place };
    }
    end_below(image, shape, node.child(place), level - 1, sought)
}

/// The way down to the chunk at these offsets, or to where it would stand; `None` where no chunk is stored. Takes no
/// memory. That the chunks were read, and that there is an offset for each size of a chunk, are the caller's conditions.
pub(crate) fn way_to(
    image: &Image,
    shape: &ChunkShape<'_>,
    root: u64,
    offsets: &[u64],
) -> Option<Way>
    requires chunks { AreChunksRead image.now.bytes shape.now root }
    requires rank { length offsets.now ≡ length shape.now.sizes }
    ensures leads { IfSome result (IsWayTo (node_at image.now.bytes (shape_kind image.now.bytes shape.now))
        (chunk_behind offsets.now)
        (level_at image.now.bytes (shape_kind image.now.bytes shape.now) root) root) }
    ensures empty { IfNone result
        ((node_at image.now.bytes (shape_kind image.now.bytes shape.now) root).children ≡ []) }
    ensures none { IfNone result (get (chunks_told image.now.bytes shape.now root) offsets.now ≡ None) }
{
    let sought = SoughtChunk::new(image, shape, offsets);
    find_way(image.bytes(), root, &sought).unwrap()
}

/// A chunk that is sought by its offsets. It stands behind a key that is not above it.
#[derive(Drop)]
pub(crate) struct SoughtChunk<'a> {
    /// K of the nodes of chunk trees.
    k: u16,
    offsets: &'a [u64],
}

impl<'a> Model for SoughtChunk<'a> {
    ghost use Rattle.std.specs.Prelude.{◌≤◌, length};
    ghost use Rattle.h5_model.specs.Format.Superblock.{highest_k};
    ghost use Rattle.h5_chunks.specs.Way.{SoughtOffsets};

    ghost Value = { SoughtOffsets };

    ghost view = { λ a. record { k = a.k; offsets = a.offsets.now } };

    ghost invariant = { λ a. (a.k ≤ highest_k) × (length a.offsets.now ≤ 32) };
}

impl<'a> SoughtChunk<'a> {
    /// The chunk of this shape at these offsets, in this image.
    pub(crate) fn new(image: &Image, shape: &ChunkShape<'_>, offsets: &'a [u64]) -> Self
        requires long { 26 ≤ length image.now.bytes }
        requires k { k_of image.now.bytes ≤ highest_k }
        requires rank { length offsets.now ≡ length shape.now.sizes }
        ensures k { result.k ≡ k_of image.now.bytes }
        ensures offsets { result.offsets ≡ offsets.now }
        ensures few { length offsets.now ≤ most_dimensions }
    {
        // A shape has at most 32 sizes.
        let _sizes = shape.sizes;
        SoughtChunk {
            k: chunk_k(image.bytes()),
            offsets,
        }
    }
}

impl Sought for SoughtChunk<'_> {
    ghost tree_kind = { λ s. chunk_kind s.k (length s.offsets) };

    ghost behind = { λ s key. chunk_behind s.offsets key };

    fn kind(&self) -> NodeKind {
        NodeKind::chunks(self.k, self.offsets.len())
    }

    fn is_behind(&self, key: &[u8]) -> bool {
        key_order(key, self.offsets).is_le()
    }
}
