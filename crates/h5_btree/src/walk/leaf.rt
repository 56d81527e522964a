//! The leaves of a node of level 0 (File Format Specification 3.0, sections III.A.1 and III.B).

ghost use Rattle.std.specs.Prelude.{◌≡◌, ℕ, List, length, IfErr, OnOk};
ghost use Rattle.std.specs.List.{AllByRecursion};
ghost use Rattle.h5_bytes.specs.Blocks.{Separate};
ghost use Rattle.h5_model.specs.Format.Superblock.{IsSuperblock};
ghost use Rattle.h5_model.specs.declared.open_fault.Cause.TheVariants.{NoMemory};
ghost use Rattle.h5_btree.specs.Walk.Forms.{kind_of};
ghost use Rattle.h5_btree.specs.Walk.Below.{IsTakenBelow};
ghost use Rattle.h5_btree.specs.Walk.Keyed.{AreKeyedBelow};
ghost use Rattle.h5_btree.specs.Walk.Further.{WalksTo, IsFaultBelow};
ghost use Rattle.h5_btree.specs.Walk.Readable.{AreReadableBelow};

use crate::node::Node;
use crate::walk::leaves::Leaves;
use h5_model::OpenFault;
use h5_space::{Claims, Image};

/// Claims the leaves that the node of level 0 at this address leads to, from left to right.
pub(crate) fn claim_leaves<L: Leaves>(
    image: &Image,
    claims: &mut Claims,
    over: &L,
    at: u64,
    node: &Node,
) -> Result<(), OpenFault>
    requires end { claims.old.end ≡ length image.now.bytes }
    requires superblock { IsSuperblock image.now.bytes }
    requires separate { Separate claims.old.held }
    requires keys { AllByRecursion (λ (key : List ℕ).
        length key ≡ (kind_of image.now.bytes (L.form over.now)).key_length) node.now.keys }
    ensures taken { OnOk result (IsTakenBelow image.now.bytes (L.form over.now) 0 node.now.children
        claims.old.held claims.new.held) }
    ensures keyed { OnOk result (AreKeyedBelow image.now.bytes (L.form over.now) 0 node.now) }
    ensures end { claims.new.end ≡ claims.old.end }
    ensures walked { OnOk result (WalksTo image.now.bytes (L.form over.now) claims.old.held claims.new.held
        0 at node.now node.now.children) }
    ensures refused { IfErr result (λ fault. IsFaultBelow image.now.bytes (L.form over.now) claims.old.held
        0 at node.now fault.cause fault.address) }
    ensures only { AreReadableBelow image.now.bytes (L.form over.now) 0 node.now claims.old.held
        → IfErr result (λ fault. fault.cause ≡ NoMemory) }
{
    for i in 0..node.len() {
        over.claim_leaf(image, claims, at, node, i)?;
    }
    Ok(())
}
