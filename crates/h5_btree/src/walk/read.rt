//! The reading of a tree (File Format Specification 3.0, sections III.A.1 and III.B).

ghost use Rattle.std.specs.Prelude.{◌≡◌, length, IfOk, IfErr};
ghost use Rattle.h5_bytes.specs.Blocks.{Inside};
ghost use Rattle.h5_model.specs.Format.Superblock.{IsSuperblock};
ghost use Rattle.h5_model.specs.declared.open_fault.Cause.TheVariants.{NoMemory};
ghost use Rattle.h5_space.specs.Claimed.{HasClaimed};
ghost use Rattle.h5_btree.specs.Walk.Trees.{IsTree, nodes_blocks};
ghost use Rattle.h5_btree.specs.Walk.Followed.{FollowsTree, IsTreeFault};
ghost use Rattle.h5_btree.specs.Walk.Readable.{IsTreeReadable};

use crate::walk::below::claim_tree;
use crate::walk::leaves::Leaves;
use crate::walk::rows::read_rows;
use h5_model::OpenFault;
use h5_space::{Claims, Image};
use std::alloc::Global;

/// A tree.
#[derive(Drop)]
pub struct Tree {
    /// The addresses of its nodes, row by row from the root down, each row from left to right.
    pub nodes: Vec<u64>,
    /// The addresses of the leaves below them, from left to right.
    pub leaves: Vec<u64>,
}

/// Reads the tree at this root, and claims its nodes and leaves, depth first.
///
/// The claims end where the image ends, and the image has its superblock: these are the caller's conditions.
///
/// # Errors
///
/// Each with the address at which it was found:
///
/// - `Truncated`, `Overlap`: a node or a leaf passes the end, or shares a byte with a claimed block.
/// - `NodeForm`: a node or a leaf has another form; or a node has another level, or a count of children that cannot
///   stand there.
/// - `ChunkKey`, at the node of level 0: a key is none that its leaf may have.
/// - `Sibling`, when all nodes are read: the first node, row by row from the root down, whose addresses of siblings
///   are wrong.
/// - `NoMemory`, at any time: memory is refused. It is the only refusal of a tree that is as the format says, in
///   blocks that can all be claimed.
///
/// After a refusal it is left open which of the blocks are claimed.
pub fn read_tree<L: Leaves>(
    alloc: Global,
    image: &Image,
    claims: &mut Claims,
    over: &L,
    root: u64,
) -> Result<Tree, OpenFault>
    requires end { claims.old.end ≡ length image.now.bytes }
    requires superblock { IsSuperblock image.now.bytes }
    ensures tree { IfOk result (λ t.
        IsTree image.now.bytes (L.form over.now) root t.nodes.items t.leaves.items) }
    ensures inside { IfOk result (λ t. Inside (length image.now.bytes)
        (nodes_blocks image.now.bytes (L.form over.now) t.nodes.items t.leaves.items)) }
    ensures claimed { IfOk result (λ t. HasClaimed claims.old claims.new
        (nodes_blocks image.now.bytes (L.form over.now) t.nodes.items t.leaves.items)) }
    ensures end { claims.new.end ≡ claims.old.end }
    ensures walked { IfOk result (λ t. FollowsTree image.now.bytes (L.form over.now)
        claims.old.held claims.new.held root t.nodes.items t.leaves.items) }
    ensures refused { IfErr result (λ fault.
        IsTreeFault image.now.bytes (L.form over.now) claims.old.held root fault.cause fault.address) }
    ensures only { IsTreeReadable image.now.bytes (L.form over.now) root claims.old.held
        → IfErr result (λ fault. fault.cause ≡ NoMemory) }
{
    let level = claim_tree(image, claims, over, root)?;
    read_rows(alloc, image, over, root, level)
}
