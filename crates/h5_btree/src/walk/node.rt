//! The nodes of a tree (File Format Specification 3.0, section III.A.1).

ghost use Rattle.std.specs.Prelude.{◌≡◌, ℕ, ◌+◌, ◌≤◌, List, length, IfOk, IfErr, OnOk};
ghost use Rattle.std.specs.List.{AllByRecursion};
ghost use Rattle.h5_bytes.specs.Blocks.{holds, cover, Separate};
ghost use Rattle.h5_model.specs.Format.Limits.{highest_level};
ghost use Rattle.h5_model.specs.Format.Superblock.{IsSuperblock};
ghost use Rattle.h5_model.specs.Format.Nodes.{IsNode, entries_in, node_block, node_bytes, node_length};
ghost use Rattle.h5_model.specs.Faults.TreeFaults.{NodeBreach};
ghost use Rattle.h5_btree.specs.Form.{BreaksForm};
ghost use Rattle.h5_btree.specs.Walk.Forms.{kind_of};
ghost use Rattle.h5_btree.specs.Walk.Below.{reading_in, IsStanding, IsInner};
ghost use Rattle.h5_btree.specs.Walk.Refused.{IsRefusedFor};

use crate::node::Node;
use crate::read::read_node;
use crate::walk::leaves::Trees;
use h5_bytes::Block;
use h5_model::{Cause, OpenFault};
use h5_space::{Claims, Image, claim, fault};

/// Claims the root of a tree.
///
/// `NodeForm` where it is none, or cannot be a root.
pub(crate) fn claim_root<'a, T: Trees>(
    image: &'a Image,
    claims: &mut Claims,
    over: &T,
    at: u64,
) -> Result<Node<'a>, OpenFault>
    requires end { claims.old.end ≡ length image.now.bytes }
    requires superblock { IsSuperblock image.now.bytes }
    ensures node { IfOk result (λ node. node ≡ reading_in image.now.bytes (T.form over.now) at) }
    ensures keys { IfOk result (λ node. AllByRecursion (λ (key : List ℕ).
        length key ≡ (kind_of image.now.bytes (T.form over.now)).key_length) node.keys) }
    ensures low { IfOk result (λ node. node.level ≤ highest_level) }
    ensures stands { IfOk result (λ node. IsStanding image.now.bytes (T.form over.now) node.level at) }
    ensures filled { IfOk result (λ node. 1 ≤ node.level → 1 ≤ entries_in
        (node_bytes image.now.bytes (kind_of image.now.bytes (T.form over.now)) at)) }
    ensures claimed { OnOk result
        ((p : ℕ)
        → cover p claims.new.held ≡ cover p claims.old.held
        + holds p at (node_length (kind_of image.now.bytes (T.form over.now)))) }
    ensures separate { OnOk result (Separate claims.new.held) }
    ensures end { claims.new.end ≡ claims.old.end }
    ensures address { IfErr result (λ fault. fault.address ≡ at) }
    ensures refused { IfErr result (λ fault. IsRefusedFor
        (NodeBreach image.now.bytes (kind_of image.now.bytes (T.form over.now)) at
        (reading_in image.now.bytes (T.form over.now) at).level at)
        (length image.now.bytes) claims.old.held
        (node_block (kind_of image.now.bytes (T.form over.now)) at) fault.cause) }
{
    let node = claim_node(image, claims, over, at)?;
    if node.check_root().is_err() {
        return Err(fault(Cause::NodeForm, at));
    }
    Ok(node)
}

/// Claims a node below the root, which is to be of this level.
///
/// `NodeForm` where it is none, has another level, or has no child.
pub(crate) fn claim_inner<'a, T: Trees>(
    image: &'a Image,
    claims: &mut Claims,
    over: &T,
    at: u64,
    level: u8,
) -> Result<Node<'a>, OpenFault>
    requires end { claims.old.end ≡ length image.now.bytes }
    requires superblock { IsSuperblock image.now.bytes }
    ensures node { IfOk result (λ node. node ≡ reading_in image.now.bytes (T.form over.now) at) }
    ensures keys { IfOk result (λ node. AllByRecursion (λ (key : List ℕ).
        length key ≡ (kind_of image.now.bytes (T.form over.now)).key_length) node.keys) }
    ensures inner { OnOk result (IsInner image.now.bytes (T.form over.now) level at) }
    ensures claimed { OnOk result
        ((p : ℕ)
        → cover p claims.new.held ≡ cover p claims.old.held
        + holds p at (node_length (kind_of image.now.bytes (T.form over.now)))) }
    ensures separate { OnOk result (Separate claims.new.held) }
    ensures end { claims.new.end ≡ claims.old.end }
    ensures address { IfErr result (λ fault. fault.address ≡ at) }
    ensures refused { IfErr result (λ fault. IsRefusedFor
        ((root : ℕ) → 1 ≤ cover root claims.old.held
        → NodeBreach image.now.bytes (kind_of image.now.bytes (T.form over.now)) root level at)
        (length image.now.bytes) claims.old.held
        (node_block (kind_of image.now.bytes (T.form over.now)) at) fault.cause) }
{
    let node = claim_node(image, claims, over, at)?;
    if node.check_level(level).is_err() {
        return Err(fault(Cause::NodeForm, at));
    }
    Ok(node)
}

/// Claims a node, of any level.
#[tactic(auto, using(crate::proofs::WalkLaws::NodeFaults::unclaimed_for, crate::proofs::WalkLaws::FormLaws::kind_few))]
fn claim_node<'a, T: Trees>(
    image: &'a Image,
    claims: &mut Claims,
    over: &T,
    at: u64,
) -> Result<Node<'a>, OpenFault>
    requires end { claims.old.end ≡ length image.now.bytes }
    requires superblock { IsSuperblock image.now.bytes }
    ensures node { IfOk result (λ node. node ≡ reading_in image.now.bytes (T.form over.now) at) }
    ensures keys { IfOk result (λ node. AllByRecursion (λ (key : List ℕ).
        length key ≡ (kind_of image.now.bytes (T.form over.now)).key_length) node.keys) }
    ensures form { OnOk result (IsNode (kind_of image.now.bytes (T.form over.now))
        (node_bytes image.now.bytes (kind_of image.now.bytes (T.form over.now)) at)) }
    ensures inside { OnOk result
        (at + node_length (kind_of image.now.bytes (T.form over.now)) ≤ length image.now.bytes) }
    ensures claimed { OnOk result
        ((p : ℕ)
        → cover p claims.new.held ≡ cover p claims.old.held
        + holds p at (node_length (kind_of image.now.bytes (T.form over.now)))) }
    ensures separate { OnOk result (Separate claims.new.held) }
    ensures end { claims.new.end ≡ claims.old.end }
    ensures address { IfErr result (λ fault. fault.address ≡ at) }
    ensures refused { IfErr result (λ fault. IsRefusedFor
        (BreaksForm (kind_of image.now.bytes (T.form over.now))
        (node_bytes image.now.bytes (kind_of image.now.bytes (T.form over.now)) at))
        (length image.now.bytes) claims.old.held
        (node_block (kind_of image.now.bytes (T.form over.now)) at) fault.cause) }
{
    let kind = over.kind(image);
    let len = kind.node_length() as u64;
    claim(claims, Block { at, len })?;
    let bytes = image.part(at, len).unwrap();
    match read_node(kind, bytes) {
        Ok(node) => Ok(node),
        Err(_) => Err(fault(Cause::NodeForm, at)),
    }
}
