//! A chunk taken out of a tree, where the tree stands (File Format Specification 3.0, section III.A.1).

ghost use Rattle.std.specs.Prelude.{◌≡◌, ◌≤◌, IsSome, length, map};
ghost use Rattle.std.specs.FinMap.{get, remove as without, values};
ghost use Rattle.h5_bytes.specs.Blocks.{Keeps, block};
ghost use Rattle.h5_model.specs.Format.Chunks.{offsets_in};
ghost use Rattle.h5_model.specs.Format.Nodes.{node_at};
ghost use Rattle.h5_model.specs.Format.Reached.{level_at, shape_kind};
ghost use Rattle.h5_space.specs.Moves.{Spends};
ghost use Rattle.h5_btree.specs.Descent.{IsWayTo};
ghost use Rattle.h5_chunks.specs.Edited.{AreChunksApart, HasChunksNow};
ghost use Rattle.h5_chunks.specs.Lists.{key_length as length_of_key};
ghost use Rattle.h5_chunks.specs.Told.{chunks_told};
ghost use Rattle.h5_chunks.specs.Way.{chunk_behind};

use crate::offsets::Offsets;
use crate::search::way_to;
use crate::shape::ChunkShape;
use h5_btree::{Trees, Way, take_from, tree_node};
use h5_space::Image;

/// Takes the chunk with the offsets of this key out of a tree, and gives its block back, and those of nodes that are left
/// without children, but for the root. All other chunks stay, with their bytes. Takes no memory.
///
/// These are the caller's conditions: the chunks were read, on blocks that share no byte with each other, with the
/// superblock or with a free block; the chunk is stored; and there is room for 16 calls of `give`.
pub fn take_out(image: &mut Image, shape: &ChunkShape<'_>, root: u64, key: &[u8])
    requires chunks { AreChunksApart image.old shape.now root }
    requires long { length key.now ≡ length_of_key (length shape.now.sizes) }
    requires there { IsSome (get (chunks_told image.old.bytes shape.now root)
        (offsets_in (length shape.now.sizes) key.now)) }
    requires calls { 16 ≤ image.old.room_blocks }
    ensures taken { HasChunksNow image.old image.new shape.now root
        (without (chunks_told image.old.bytes shape.now root)
        (offsets_in (length shape.now.sizes) key.now)) }
    ensures kept { Keeps image.old.bytes image.new.bytes (map (λ at. block at shape.now.bytes)
        (values (chunks_told image.old.bytes shape.now root))) }
    ensures spends { Spends image.old image.new 0 16 }
{
    let offsets = Offsets::of_key(shape.sizes.len(), key);
    if let Some(way) = way_to(image, shape, root, offsets.as_slice()) {
        take_along(image, shape, root, offsets.as_slice(), &way);
    }
}

/// Takes the chunk at these offsets, to which a way leads, out of a tree, and gives its block back.
fn take_along(image: &mut Image, shape: &ChunkShape<'_>, root: u64, offsets: &[u64], way: &Way)
    requires chunks { AreChunksApart image.old shape.now root }
    requires rank { length offsets.now ≡ length shape.now.sizes }
    requires there { IsSome (get (chunks_told image.old.bytes shape.now root) offsets.now) }
    requires way { IsWayTo (node_at image.old.bytes (shape_kind image.old.bytes shape.now))
        (chunk_behind offsets.now)
        (level_at image.old.bytes (shape_kind image.old.bytes shape.now) root) root way.now }
    requires calls { 16 ≤ image.old.room_blocks }
    ensures taken { HasChunksNow image.old image.new shape.now root
        (without (chunks_told image.old.bytes shape.now root) offsets.now) }
    ensures kept { Keeps image.old.bytes image.new.bytes (map (λ at. block at shape.now.bytes)
        (values (chunks_told image.old.bytes shape.now root))) }
    ensures spends { Spends image.old image.new 0 16 }
{
    // An image has fewer than 2^64 bytes.
    let _length = image.bytes().len();
    let kind = shape.kind(image);
    let step = way.steps()[0];
    let chunk = tree_node(image, shape, step.node).child(step.place);
    take_from(image, kind, way);
    image.give(chunk, shape.bytes);
}
