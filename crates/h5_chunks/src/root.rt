//! A tree of chunks without a chunk: a root alone (File Format Specification 3.0, section III.A.1).

ghost use Rattle.std.specs.Prelude.{◌≡◌, ◌+◌, ◌<◌, ◌≤◌, ◌∷◌, [], length};
ghost use Rattle.std.specs.FinMap.{empty};
ghost use Rattle.h5_bytes.specs.Blocks.{block};
ghost use Rattle.h5_model.specs.Format.Limits.{most_bytes};
ghost use Rattle.h5_model.specs.Format.Superblock.{chunk_k as k_of, k_values, superblock_length, highest_k};
ghost use Rattle.h5_space.specs.Moves.{Moves, Spends};
ghost use Rattle.h5_space.specs.Whole.{IsApart};
ghost use Rattle.h5_chunks.specs.Edited.{AreChunksApart, chunk_node_length as length_of_node};
ghost use Rattle.h5_chunks.specs.Empty.{empty_head};
ghost use Rattle.h5_chunks.specs.Told.{chunk_blocks_told, chunks_told};

use crate::shape::ChunkShape;
use h5_btree::Trees;
use h5_space::Image;

/// The head of a node of chunks at level 0 without children: the signature, the type, the level, how many children there
/// are, and two siblings that are undefined.
static EMPTY_HEAD: [u8; 24] =
    *b"TREE\x01\x00\x00\x00\xff\xff\xff\xff\xff\xff\xff\xff\xff\xff\xff\xff\xff\xff\xff\xff";

/// How many bytes a node of a tree of chunks of this shape has. Takes no memory.
///
/// That the image has its K of the nodes of chunk trees, of at most 32767, is the caller's condition.
pub fn chunk_node_length(image: &Image, shape: &ChunkShape<'_>) -> u64
    requires long { 26 ≤ length image.now.bytes }
    requires few { k_of image.now.bytes ≤ highest_k }
    ensures { result ≡ length_of_node image.now.bytes shape.now }
{
    shape.kind(image).node_length() as u64
}

/// Makes a root for chunks of this shape, without a chunk, in a new block, and gives its address. Takes no memory.
///
/// These are the caller's conditions: the superblock shares no byte with a free block; K of the nodes of chunk trees is from 1 to
/// 32767; and there is room for a node.
pub fn make_root(image: &mut Image, shape: &ChunkShape<'_>) -> u64
    requires apart { IsApart (block 0 (superblock_length image.old.bytes) ∷ []) image.old.free
        (length image.old.bytes) }
    requires long { superblock_length image.old.bytes ≤ length image.old.bytes }
    requires k_some { 1 ≤ k_of image.old.bytes }
    requires k_few { k_of image.old.bytes ≤ highest_k }
    requires bytes { length_of_node image.old.bytes shape.now ≤ image.old.room_bytes }
    requires calls { 1 ≤ image.old.room_blocks }
    requires short { length image.old.bytes + length_of_node image.old.bytes shape.now ≤ most_bytes }
    ensures stand { AreChunksApart image.new shape.now result }
    ensures none { chunks_told image.new.bytes shape.now result ≡ empty }
    ensures moves { Moves image.old image.new [] (chunk_blocks_told image.new.bytes shape.now result) }
    ensures k { k_values image.new.bytes ≡ k_values image.old.bytes }
    ensures spends { Spends image.old image.new (length_of_node image.old.bytes shape.now) 1 }
{
    let at = image.take(chunk_node_length(image, shape));
    write_empty_head(image.part_at_mut(at, EMPTY_HEAD.len() as u64));
    at
}

/// Writes the head of a node without children.
fn write_empty_head(bytes: &mut [u8])
    requires { length bytes.old ≡ 24 }
    ensures { bytes.new ≡ empty_head }
{
    bytes.copy_from_slice(&EMPTY_HEAD);
}
