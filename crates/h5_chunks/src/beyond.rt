//! The stored chunks of a tree with a cell outside an extent (File Format Specification 3.0, section III.A.1).

ghost use Rattle.std.specs.Prelude.{◌≡◌, ◌≤◌, ◌∷◌, [], false, ℕ, List, IfOk, OnOk, length, not};
ghost use Rattle.std.specs.List.{filter};
ghost use Rattle.h5_model.specs.Format.Chunks.{chunks_in, offsets_in};
ghost use Rattle.h5_model.specs.Format.Superblock.{chunk_k as k_of, highest_k};
ghost use Rattle.h5_model.specs.Tree.Places.{is_inside};
ghost use Rattle.h5_btree.specs.Walk.Below.{reading_in};
ghost use Rattle.h5_btree.specs.Walk.Forms.{OfChunks};
ghost use Rattle.h5_chunks.specs.Between.{IsChunkHeld};
ghost use Rattle.h5_chunks.specs.Beyond.{IsChunkTree, IsListOf, chunks_from};
ghost use Rattle.h5_chunks.specs.Held.{IsBottomNode};
ghost use Rattle.h5_chunks.specs.Lists.{IsKeyOf, key_length as length_of_key, reaches_beyond as reaches, with_more};
ghost use Rattle.h5_chunks.specs.Lists.{offsets_across, offsets_of_edge, offsets_of_outer, offsets_outside};
ghost use Rattle.h5_chunks.specs.Read.{AreChunksRead};
ghost use Rattle.h5_chunks.specs.Shapes.{AreChunkSizes};
ghost use Rattle.h5_chunks.specs.Told.{chunks_told};

use crate::held::is_held;
use crate::key::OFFSETS;
use crate::list::ChunkList;
use crate::shape::ChunkShape;
use h5_btree::tree_node;
use h5_bytes::u64_at;
use h5_space::Image;
use std::alloc::{AllocError, Global};

/// The stored chunks of a tree with a cell outside an extent.
#[derive(Drop)]
pub struct Beyond {
    /// Those with no cell inside, in the order of their offsets.
    pub outside: ChunkList,
    /// Those with cells on both sides of its edge, in the order of their offsets.
    pub across: ChunkList,
}

/// The stored chunks with a cell outside an extent of these sizes: those with an offset that is not below its size, and
/// those of the others that reach past it.
///
/// Goes down the tree from the root, and leaves out each child that cannot lead to such a chunk, by the keys around it.
/// So in an array of one dimension it looks at a few nodes beside those of the chunks that it gives.
///
/// Takes memory for the key of each chunk that it gives. That the chunks were read, and that there is a size for each
/// of the shape's, are the caller's conditions.
///
/// # Errors
///
/// `AllocError` if memory is refused.
pub fn chunks_beyond(
    alloc: Global,
    image: &Image,
    shape: &ChunkShape<'_>,
    root: u64,
    sizes: &[u64],
) -> Result<Beyond, AllocError>
    requires chunks { AreChunksRead image.now.bytes shape.now root }
    requires rank { length sizes.now ≡ length shape.now.sizes }
    ensures outside { IfOk result (λ beyond. beyond.outside ≡ record {
      rank = length shape.now.sizes;
      bytes = shape.now.bytes;
      offsets = offsets_outside sizes.now (chunks_told image.now.bytes shape.now root);
    }) }
    ensures across { IfOk result (λ beyond. beyond.across ≡ record {
      rank = length shape.now.sizes;
      bytes = shape.now.bytes;
      offsets = offsets_across sizes.now shape.now.sizes
          (chunks_told image.now.bytes shape.now root);
    }) }
{
    let mut beyond = Beyond {
        outside: ChunkList::new(alloc, shape),
        across: ChunkList::new(alloc, shape),
    };
    let level = tree_node(image, shape, root).level();
    push_beyond(&mut beyond, image, shape, root, level, sizes)?;
    Ok(beyond)
}

/// Appends the chunks below the node of this level at this address that have a cell outside an extent of these sizes.
fn push_beyond(
    beyond: &mut Beyond,
    image: &Image,
    shape: &ChunkShape<'_>,
    at: u64,
    level: u8,
    sizes: &[u64],
) -> Result<(), AllocError>
    requires long { 26 ≤ length image.now.bytes }
    requires few { k_of image.now.bytes ≤ highest_k }
    requires tree { IsChunkTree image.now.bytes shape.now level at }
    requires rank { length sizes.now ≡ length shape.now.sizes }
    requires outside { IsListOf shape.now beyond.old.outside }
    requires across { IsListOf shape.now beyond.old.across }
    ensures outside { OnOk result (beyond.new.outside ≡ with_more beyond.old.outside
        (offsets_of_outer sizes.now (chunks_from image.now.bytes shape.now level at))) }
    ensures across { OnOk result (beyond.new.across ≡ with_more beyond.old.across
        (offsets_of_edge sizes.now shape.now.sizes (chunks_from image.now.bytes shape.now level at))) }
{
    if level == 0 {
        return push_chunks(beyond, image, shape, at, sizes);
    }
    let node = tree_node(image, shape, at);
    for i in 0..node.len() {
        if may_reach(node.key(i), node.key(i + 1), shape.sizes, sizes) {
            push_beyond(beyond, image, shape, node.child(i), level - 1, sizes)?;
        }
    }
    Ok(())
}

/// Whether a chunk with a cell outside an extent of these sizes may stand between these two keys.
fn may_reach(low: &[u8], high: &[u8], chunk: &[u64], sizes: &[u64]) -> bool
    requires sizes { AreChunkSizes chunk.now }
    requires rank { length sizes.now ≡ length chunk.now }
    requires low { length low.now ≡ length_of_key (length chunk.now) }
    requires high { length high.now ≡ length_of_key (length chunk.now) }
    ensures { result ≡ false → (offsets : List ℕ) → length offsets ≡ length chunk.now
        → IsChunkHeld (length chunk.now) low.now high.now offsets
        → reaches sizes.now chunk.now offsets ≡ false }
{
    for d in 0..chunk.len() {
        // Before this dimension both keys have the same offsets. So a chunk between them has these too, and none above
        // the last one in this dimension.
        let last = u64_at(high, OFFSETS + 8 * d);
        if sizes[d].saturating_sub(last) < chunk[d] {
            return true;
        }
        if u64_at(low, OFFSETS + 8 * d) != last {
            // In the dimensions behind it, it may have any offsets.
            return d + 1 < chunk.len();
        }
    }
    false
}

/// Appends the chunks of the node of level 0 at this address that have a cell outside an extent of these sizes.
fn push_chunks(
    beyond: &mut Beyond,
    image: &Image,
    shape: &ChunkShape<'_>,
    at: u64,
    sizes: &[u64],
) -> Result<(), AllocError>
    requires long { 26 ≤ length image.now.bytes }
    requires few { k_of image.now.bytes ≤ highest_k }
    requires node { IsBottomNode image.now.bytes shape.now at }
    requires rank { length sizes.now ≡ length shape.now.sizes }
    requires outside { IsListOf shape.now beyond.old.outside }
    requires across { IsListOf shape.now beyond.old.across }
    ensures outside { OnOk result (beyond.new.outside ≡ with_more beyond.old.outside
        (offsets_of_outer sizes.now
        (chunks_in (length shape.now.sizes) (reading_in image.now.bytes (OfChunks shape.now) at)))) }
    ensures across { OnOk result (beyond.new.across ≡ with_more beyond.old.across
        (offsets_of_edge sizes.now shape.now.sizes
        (chunks_in (length shape.now.sizes) (reading_in image.now.bytes (OfChunks shape.now) at)))) }
{
    let node = tree_node(image, shape, at);
    for i in 0..node.len() {
        push_chunk(beyond, shape.sizes, sizes, node.key(i))?;
    }
    Ok(())
}

/// Appends the chunk with this key where it has a cell outside an extent of these sizes.
fn push_chunk(
    beyond: &mut Beyond,
    chunk: &[u64],
    sizes: &[u64],
    key: &[u8],
) -> Result<(), AllocError>
    requires sizes { AreChunkSizes chunk.now }
    requires rank { length sizes.now ≡ length chunk.now }
    requires ranks { (beyond.old.outside.rank ≡ length chunk.now)
        × (beyond.old.across.rank ≡ length chunk.now) }
    requires outside { IsKeyOf beyond.old.outside.rank beyond.old.outside.bytes key.now }
    requires across { IsKeyOf beyond.old.across.rank beyond.old.across.bytes key.now }
    ensures outside { OnOk result (beyond.new.outside ≡ with_more beyond.old.outside
        (filter (λ offsets. not (is_inside sizes.now offsets))
        (offsets_in (length chunk.now) key.now ∷ []))) }
    ensures across { OnOk result (beyond.new.across ≡ with_more beyond.old.across
        (filter (reaches sizes.now chunk.now)
        (filter (is_inside sizes.now) (offsets_in (length chunk.now) key.now ∷ [])))) }
{
    if !is_held(key, sizes) {
        return beyond.outside.push_key(key);
    }
    if reaches_beyond(chunk, sizes, key) {
        return beyond.across.push_key(key);
    }
    Ok(())
}

/// Whether the chunk with this key reaches past an extent of these sizes.
fn reaches_beyond(chunk: &[u64], sizes: &[u64], key: &[u8]) -> bool
    requires sizes { AreChunkSizes chunk.now }
    requires rank { length sizes.now ≡ length chunk.now }
    requires long { length key.now ≡ length_of_key (length chunk.now) }
    ensures { result ≡ reaches sizes.now chunk.now (offsets_in (length chunk.now) key.now) }
{
    for d in 0..chunk.len() {
        if sizes[d].saturating_sub(u64_at(key, OFFSETS + 8 * d)) < chunk[d] {
            return true;
        }
    }
    false
}
