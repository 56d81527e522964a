//! The nodes and leaves below a node (File Format Specification 3.0, sections III.A.1 and III.B).

ghost use Rattle.std.specs.Prelude.{◌≡◌, ℕ, ◌≤◌, List, [], ◌∷◌, length, IfOk, IfErr, OnOk};
ghost use Rattle.std.specs.List.{AllByRecursion};
ghost use Rattle.h5_bytes.specs.Blocks.{Separate};
ghost use Rattle.h5_model.specs.Format.Limits.{highest_level};
ghost use Rattle.h5_model.specs.Format.Rows.{leaves, nodes};
ghost use Rattle.h5_model.specs.Format.Nodes.{entries_in, node_bytes};
ghost use Rattle.h5_model.specs.Format.Superblock.{IsSuperblock};
ghost use Rattle.h5_model.specs.declared.open_fault.Cause.TheVariants.{NoMemory};
ghost use Rattle.h5_space.specs.Claimed.{HasClaimed};
ghost use Rattle.h5_btree.specs.Walk.Forms.{kind_of};
ghost use Rattle.h5_btree.specs.Walk.Trees.{nodes_blocks};
ghost use Rattle.h5_btree.specs.Walk.Below.{reading_in, IsTakenBelow};
ghost use Rattle.h5_btree.specs.Walk.Keyed.{AreKeyedBelow};
ghost use Rattle.h5_btree.specs.Walk.Rows.{IsLevel};
ghost use Rattle.h5_btree.specs.Walk.Further.{WalksTree, WalksTo, IsFaultBelow};
ghost use Rattle.h5_btree.specs.Walk.Followed.{IsTreeFault};
ghost use Rattle.h5_btree.specs.Walk.Readable.{IsTreeReadable, AreReadableBelow};

use crate::node::Node;
use crate::walk::leaf::claim_leaves;
use crate::walk::leaves::Leaves;
use crate::walk::node::{claim_inner, claim_root};
use h5_model::OpenFault;
use h5_space::{Claims, Image};

/// Claims all nodes and leaves of the tree at this root, depth first, and gives the root's level.
pub(crate) fn claim_tree<L: Leaves>(
    image: &Image,
    claims: &mut Claims,
    over: &L,
    root: u64,
) -> Result<u8, OpenFault>
    requires end { claims.old.end ≡ length image.now.bytes }
    requires superblock { IsSuperblock image.now.bytes }
    ensures low { IfOk result (λ level. level ≤ highest_level) }
    ensures read { IfOk result (λ level. IsLevel image.now.bytes (L.form over.now) level (root ∷ [])) }
    ensures keyed { IfOk result (λ level. AreKeyedBelow image.now.bytes (L.form over.now) level
        (reading_in image.now.bytes (L.form over.now) root)) }
    ensures filled { IfOk result (λ level. 1 ≤ level → 1 ≤ entries_in
        (node_bytes image.now.bytes (kind_of image.now.bytes (L.form over.now)) root)) }
    ensures claimed { IfOk result (λ level. HasClaimed claims.old claims.new
        (nodes_blocks image.now.bytes (L.form over.now)
        (nodes (reading_in image.now.bytes (L.form over.now)) level (root ∷ []))
        (leaves (reading_in image.now.bytes (L.form over.now)) level (root ∷ [])))) }
    ensures end { claims.new.end ≡ claims.old.end }
    ensures walked { IfOk result (λ level.
        WalksTree image.now.bytes (L.form over.now) claims.old.held claims.new.held root level) }
    ensures refused { IfErr result (λ fault.
        IsTreeFault image.now.bytes (L.form over.now) claims.old.held root fault.cause fault.address) }
    ensures only { IsTreeReadable image.now.bytes (L.form over.now) root claims.old.held
        → IfErr result (λ fault. fault.cause ≡ NoMemory) }
{
    let node = claim_root(image, claims, over, root)?;
    let level = node.level();
    claim_below(image, claims, over, root, &node, level)?;
    Ok(level)
}

/// Claims all nodes and leaves below the node of this level at this address, which was claimed, depth first. A node is
/// claimed, and its form looked at, before what stands below it.
pub(crate) fn claim_below<L: Leaves>(
    image: &Image,
    claims: &mut Claims,
    over: &L,
    at: u64,
    node: &Node,
    level: u8,
) -> Result<(), OpenFault>
    requires end { claims.old.end ≡ length image.now.bytes }
    requires superblock { IsSuperblock image.now.bytes }
    requires separate { Separate claims.old.held }
    requires keys { AllByRecursion (λ (key : List ℕ).
        length key ≡ (kind_of image.now.bytes (L.form over.now)).key_length) node.now.keys }
    ensures taken { OnOk result (IsTakenBelow image.now.bytes (L.form over.now) level node.now.children
        claims.old.held claims.new.held) }
    ensures keyed { OnOk result (AreKeyedBelow image.now.bytes (L.form over.now) level node.now) }
    ensures end { claims.new.end ≡ claims.old.end }
    ensures walked { OnOk result (WalksTo image.now.bytes (L.form over.now) claims.old.held claims.new.held
        level at node.now node.now.children) }
    ensures refused { IfErr result (λ fault. IsFaultBelow image.now.bytes (L.form over.now) claims.old.held
        level at node.now fault.cause fault.address) }
    ensures only { AreReadableBelow image.now.bytes (L.form over.now) level node.now claims.old.held
        → IfErr result (λ fault. fault.cause ≡ NoMemory) }
{
    if level == 0 {
        return claim_leaves(image, claims, over, at, node);
    }
    for i in 0..node.len() {
        let below = node.child(i);
        let child = claim_inner(image, claims, over, below, level - 1)?;
        claim_below(image, claims, over, below, &child, level - 1)?;
    }
    Ok(())
}
