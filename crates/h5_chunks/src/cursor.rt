//! The way to one chunk after another (File Format Specification 3.0, section III.A.1).

ghost use Rattle.std.specs.Prelude.{◌≡◌, ℕ, ◌+◌, ◌*◌, ◌≤◌, List, None, IfSome, length};
ghost use Rattle.std.specs.FinMap.{get};
ghost use Rattle.std.specs.List.{AllByRecursion};
ghost use Rattle.h5_model.specs.Format.Superblock.{chunk_k as k_of, highest_k};
ghost use Rattle.h5_chunks.specs.Cursor.{IsCursor, IsCursorAt};
ghost use Rattle.h5_chunks.specs.Read.{AreChunksRead};
ghost use Rattle.h5_chunks.specs.Told.{chunks_told};
ghost use Rattle.h5_chunks.specs.Way.{IsChunkThere};

use crate::search::{SoughtChunk, chunk_here, end_of_way};
use crate::shape::ChunkShape;
use h5_btree::{Node, Sought, Step, child_for, tree_node};
use h5_space::Image;
use std::marker::Model;

/// Where in its tree the last chunk stands that was found, from where the next one is sought; at first nowhere.
#[derive(Clone, Copy, Debug)]
pub struct ChunkCursor {
    last: Option<Step>,
}

impl Model for ChunkCursor {
    ghost use Rattle.std.specs.Prelude.{Option};
    ghost use Rattle.h5_btree.specs.declared.way.Step.{Step};

    ghost Value = { Option Step };

    ghost view = { λ c. c.last };

    ghost inverse = { λ last. record { last = last } };
}

impl ChunkCursor {
    /// A cursor that is nowhere yet. It serves for any tree.
    pub fn new() -> Self
        ensures { result ≡ None }
    {
        ChunkCursor { last: None }
    }
}

/// The address of the chunk at these offsets, which are in cells; `None` where it is not stored. It is what
/// [`crate::chunk_at`] answers.
///
/// A chunk of the node at which the cursor is needs no way down from the root, and the chunk at the cursor or just behind
/// it no search. The cursor is at the chunk that was found then. Takes no memory. That the chunks were read, that there is
/// an offset for each size of a chunk, and that the cursor is nowhere or in this tree, are the caller's conditions.
pub fn chunk_from(
    image: &Image,
    shape: &ChunkShape<'_>,
    root: u64,
    cursor: &mut ChunkCursor,
    offsets: &[u64],
) -> Option<u64>
    requires chunks { AreChunksRead image.now.bytes shape.now root }
    requires rank { length offsets.now ≡ length shape.now.sizes }
    requires cursor { IsCursor image.now.bytes shape.now root cursor.old }
    ensures found { result ≡ get (chunks_told image.now.bytes shape.now root) offsets.now }
    ensures cursor { IsCursor image.now.bytes shape.now root cursor.new }
    ensures moved { IfSome result
        (IsCursorAt image.now.bytes shape.now cursor.new offsets.now) }
{
    if let Some(last) = cursor.last {
        let node = tree_node(image, shape, last.node);
        let mut place = last.place;
        if let Some(at) = chunk_near(image, &node, &mut place, shape, offsets) {
            cursor.last = Some(Step { place, ..last });
            return Some(at);
        }
    }
    chunk_down(image, shape, root, cursor, offsets)
}

/// The address of the chunk at these offsets, where it is a child of this node of level 0, whose index is then `place`.
///
/// The child at `place` comes first, and then the next one. Only then the node is searched by halves, if the chunk is
/// between its first key and its last.
fn chunk_near(
    image: &Image,
    node: &Node<'_>,
    place: &mut usize,
    shape: &ChunkShape<'_>,
    offsets: &[u64],
) -> Option<u64>
    requires long { 26 ≤ length image.now.bytes }
    requires few { k_of image.now.bytes ≤ highest_k }
    requires rank { length offsets.now ≡ length shape.now.sizes }
    requires keys { AllByRecursion (λ (key : List ℕ).
        length key ≡ 8 + 8 * (length offsets.now + 1)) node.now.keys }
    ensures { IfSome result (λ at. IsChunkThere offsets.now node.now place.new at) }
{
    if *place >= node.len() {
        return None;
    }
    let sought = SoughtChunk::new(image, shape, offsets);
    if let Some(at) = chunk_here(node, *place, offsets) {
        return Some(at);
    }
    *place += 1;
    if let Some(at) = chunk_here(node, *place, offsets) {
        return Some(at);
    }
    if !sought.is_behind(node.key(0)) || sought.is_behind(node.key(node.len())) {
        return None;
    }
    *place = child_for(node, &sought);
    chunk_here(node, *place, offsets)
}

/// The address of the chunk at these offsets, by the way down from the root. The cursor is then where that way ends.
pub(crate) fn chunk_down(
    image: &Image,
    shape: &ChunkShape<'_>,
    root: u64,
    cursor: &mut ChunkCursor,
    offsets: &[u64],
) -> Option<u64>
    requires chunks { AreChunksRead image.now.bytes shape.now root }
    requires rank { length offsets.now ≡ length shape.now.sizes }
    requires cursor { IsCursor image.now.bytes shape.now root cursor.old }
    ensures found { result ≡ get (chunks_told image.now.bytes shape.now root) offsets.now }
    ensures cursor { IsCursor image.now.bytes shape.now root cursor.new }
    ensures moved { IfSome result
        (IsCursorAt image.now.bytes shape.now cursor.new offsets.now) }
{
    let Some(step) = end_of_way(image, shape, root, offsets) else {
        return None;
    };
    cursor.last = Some(step);
    chunk_here(&tree_node(image, shape, step.node), step.place, offsets)
}
