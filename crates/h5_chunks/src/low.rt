//! Trees of chunks that can never get too deep (File Format Specification 3.0, section III.A.1).

ghost use Rattle.std.specs.Prelude.{◌≡◌, ◌≤◌, length};
ghost use Rattle.h5_model.specs.Format.Limits.{highest_level};
ghost use Rattle.h5_model.specs.Format.Reached.{level_at, shape_kind};
ghost use Rattle.h5_model.specs.Format.Superblock.{chunk_k as k_of};
ghost use Rattle.h5_chunks.specs.Bushy.{is_low_level as is_low_at};
ghost use Rattle.h5_chunks.specs.Edited.{AreChunksApart};

use crate::shape::ChunkShape;
use h5_btree::tree_node;
use h5_space::{Image, MAXIMUM_IMAGE, chunk_k};

/// Whether a tree of chunks whose root is at this level never gets too deep, however many chunks are stored: no image has room
/// for them.
///
/// Nodes above that level are made by splits alone, and have K children at least. So a full root at level 15 would have
/// 2K · K^(15 - level) chunks below it. With a K of 32 these are too many up to level 10, with one below 4 at no level. Takes
/// no memory. That the image has a superblock, and that the level is at most 15, are the caller's conditions.
pub fn is_low_level(image: &Image, level: u8) -> bool
    requires long { 26 ≤ length image.now.bytes }
    requires high { level ≤ highest_level }
    ensures { result ≡ is_low_at (k_of image.now.bytes) level }
{
    let k = u64::from(chunk_k(image.bytes()));
    k.saturating_pow(16 - u32::from(level)) >= MAXIMUM_IMAGE / 2
}

/// Whether the root of a tree of chunks is so low that its tree never gets too deep. Takes no memory.
///
/// That the chunks were read is the caller's condition.
pub fn is_low(image: &Image, shape: &ChunkShape<'_>, root: u64) -> bool
    requires chunks { AreChunksApart image.now shape.now root }
    ensures { result ≡ is_low_at (k_of image.now.bytes)
        (level_at image.now.bytes (shape_kind image.now.bytes shape.now) root) }
{
    is_low_level(image, tree_node(image, shape, root).level())
}
