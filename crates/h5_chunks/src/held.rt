//! The stored chunks of a tree that hold a cell of an extent (File Format Specification 3.0, section III.A.1).

ghost use Rattle.std.specs.Prelude.{◌≡◌, ◌+◌, ◌*◌, ◌≤◌, ◌++◌, ◌∷◌, [], length, map, IfOk, OnOk};
ghost use Rattle.std.specs.FinMap.{entries, retain_keys};
ghost use Rattle.std.specs.List.{AllByRecursion, filter};
ghost use Rattle.h5_model.specs.Format.Chunks.{offsets_in};
ghost use Rattle.h5_model.specs.Format.Limits.{most_dimensions};
ghost use Rattle.h5_model.specs.Format.Superblock.{chunk_k as k_of, highest_k};
ghost use Rattle.h5_model.specs.Tree.Places.{is_inside};
ghost use Rattle.h5_btree.specs.Walk.Below.{reading_in};
ghost use Rattle.h5_btree.specs.Walk.Forms.{OfChunks};
ghost use Rattle.h5_chunks.specs.Held.{IsBottomNode, IsChunkPlace, held_in, place_entry};
ghost use Rattle.h5_chunks.specs.Read.{AreChunksRead};
ghost use Rattle.h5_chunks.specs.Told.{chunks_told};

use crate::key::OFFSETS;
use crate::shape::ChunkShape;
use h5_btree::{bottom_nodes, tree_node};
use h5_bytes::u64_at;
use h5_space::Image;
use std::alloc::{AllocError, Global};

/// Where a stored chunk stands.
#[derive(Clone, Copy, Drop)]
pub struct ChunkPlace<'a> {
    /// Its key, as it stands in the tree.
    pub key: &'a [u8],
    /// Its address.
    pub at: u64,
}

/// The stored chunks that hold a cell of a dataset with these sizes: those whose offsets are all below the sizes.
/// They come in the order of their offsets.
///
/// Takes memory for each chunk that it gives, and for the addresses of the nodes of two rows of the tree. That the
/// chunks were read is the caller's condition.
///
/// # Errors
///
/// `AllocError` if memory is refused.
pub fn held_places<'a>(
    alloc: Global,
    image: &'a Image,
    shape: &ChunkShape<'_>,
    root: u64,
    sizes: &[u64],
) -> Result<Vec<ChunkPlace<'a>>, AllocError>
    requires chunks { AreChunksRead image.now.bytes shape.now root }
    requires rank { length sizes.now ≡ length shape.now.sizes }
    ensures held { IfOk result (λ places. map (place_entry (length shape.now.sizes)) places.items
        ≡ entries (retain_keys (chunks_told image.now.bytes shape.now root) (is_inside sizes.now))) }
    ensures each { IfOk result (λ places.
        AllByRecursion (IsChunkPlace image.now.bytes shape.now) places.items) }
{
    let row = bottom_nodes(alloc, image, shape, root)?;
    let mut places = Vec::new(alloc);
    for &at in &row {
        push_places(&mut places, image, shape, at, sizes)?;
    }
    Ok(places)
}

/// Appends the chunks of the node of level 0 at this address that hold a cell of an extent of these sizes.
fn push_places<'a>(
    places: &mut Vec<ChunkPlace<'a>>,
    image: &'a Image,
    shape: &ChunkShape<'_>,
    at: u64,
    sizes: &[u64],
) -> Result<(), AllocError>
    requires long { 26 ≤ length image.now.bytes }
    requires few { k_of image.now.bytes ≤ highest_k }
    requires node { IsBottomNode image.now.bytes shape.now at }
    requires rank { length sizes.now ≡ length shape.now.sizes }
    ensures held { OnOk result (map (place_entry (length shape.now.sizes)) places.new.items
        ≡ map (place_entry (length shape.now.sizes)) places.old.items
        ++ held_in sizes.now (length shape.now.sizes) (reading_in image.now.bytes (OfChunks shape.now) at)) }
    ensures each { OnOk result (AllByRecursion (IsChunkPlace image.now.bytes shape.now) places.old.items
        → AllByRecursion (IsChunkPlace image.now.bytes shape.now) places.new.items) }
{
    // A shape has at most 32 sizes.
    let _sizes = shape.sizes;
    let node = tree_node(image, shape, at);
    for i in 0..node.len() {
        let place = ChunkPlace {
            key: node.key(i),
            at: node.child(i),
        };
        push_place(places, place, sizes)?;
    }
    Ok(())
}

/// Appends a chunk where it holds a cell of an extent of these sizes.
fn push_place<'a>(
    places: &mut Vec<ChunkPlace<'a>>,
    place: ChunkPlace<'a>,
    sizes: &[u64],
) -> Result<(), AllocError>
    requires long { length place.key.now ≡ 8 + 8 * (length sizes.now + 1) }
    requires few { length sizes.now ≤ most_dimensions }
    ensures { OnOk result (places.new.items ≡ places.old.items
        ++ filter (λ p. is_inside sizes.now (offsets_in (length sizes.now) p.key.now)) (place.entry ∷ [])) }
{
    if is_held(place.key, sizes) {
        places.push(place)?;
    }
    Ok(())
}

/// Whether the chunk with this key holds a cell of an extent of these sizes: its first one.
pub(crate) fn is_held(key: &[u8], sizes: &[u64]) -> bool
    requires long { length key.now ≡ 8 + 8 * (length sizes.now + 1) }
    requires few { length sizes.now ≤ most_dimensions }
    ensures { result ≡ is_inside sizes.now (offsets_in (length sizes.now) key.now) }
{
    for d in 0..sizes.len() {
        if u64_at(key, OFFSETS + 8 * d) >= sizes[d] {
            return false;
        }
    }
    true
}
