//! The reading of a dataset's chunks (File Format Specification 3.0, section III.A.1).

ghost use Rattle.std.specs.Prelude.{◌≡◌, length, IfErr, OnOk};
ghost use Rattle.h5_model.specs.Format.Superblock.{IsSuperblock};
ghost use Rattle.h5_model.specs.declared.open_fault.Cause.TheVariants.{NoMemory};
ghost use Rattle.h5_space.specs.Claimed.{HasClaimed};
ghost use Rattle.h5_btree.specs.Walk.Forms.{OfChunks};
ghost use Rattle.h5_btree.specs.Walk.Followed.{FollowsTree, IsTreeFault};
ghost use Rattle.h5_chunks.specs.Read.{AreChunksRead, AreChunksReadable};
ghost use Rattle.h5_chunks.specs.Told.{addresses_told, chunk_blocks_told, chunk_nodes_told};

use crate::order::check_order;
use crate::shape::ChunkShape;
use h5_btree::read_tree;
use h5_model::OpenFault;
use h5_space::{Claims, Image};
use std::alloc::Global;

/// Reads the chunks of this shape in the tree at this root, and claims the nodes of the tree and the chunks.
///
/// The claims end where the image ends, and the image has its superblock: these are the caller's conditions.
///
/// # Errors
///
/// The tree is walked depth first. These are looked for in this order, each with the address at which it was found:
///
/// - `Truncated`, `Overlap`: a node or a chunk passes the end, or shares a byte with a claimed block.
/// - `NodeForm`: a node has another form, another level, or a count of children that cannot stand there.
/// - `ChunkKey`, at the node of level 0: a key is not that of a whole chunk. It is checked before the chunk is
///   claimed.
/// - `Sibling`: the addresses of a node's siblings are wrong.
/// - `KeyOrder`, at the node of level 0: a chunk is not above the chunk before it. Then, at the node with the keys: a
///   chunk below one of its children is not between the keys around that child.
/// - `NoMemory`, at any time: memory is refused. It is the only refusal of a tree that is as the format says, in
///   blocks that can all be claimed.
///
/// After a refusal it is left open which of the blocks are claimed.
pub fn read_chunks(
    alloc: Global,
    image: &Image,
    claims: &mut Claims,
    shape: &ChunkShape<'_>,
    root: u64,
) -> Result<(), OpenFault>
    requires end { claims.old.end ≡ length image.now.bytes }
    requires superblock { IsSuperblock image.now.bytes }
    ensures stored { OnOk result (AreChunksRead image.now.bytes shape.now root) }
    ensures claimed { OnOk result
        (HasClaimed claims.old claims.new (chunk_blocks_told image.now.bytes shape.now root)) }
    ensures end { claims.new.end ≡ claims.old.end }
    ensures walked { OnOk result
        (FollowsTree image.now.bytes (OfChunks shape.now) claims.old.held claims.new.held root
        (chunk_nodes_told image.now.bytes shape.now root) (addresses_told image.now.bytes shape.now root)) }
    ensures refused { IfErr result (λ fault. IsTreeFault image.now.bytes (OfChunks shape.now)
        claims.old.held root fault.cause fault.address) }
    ensures only { AreChunksReadable image.now.bytes shape.now root claims.old.held
        → IfErr result (λ fault. fault.cause ≡ NoMemory) }
{
    let tree = read_tree(alloc, image, claims, shape, root)?;
    check_order(image, shape, root, &tree)?;
    Ok(())
}
