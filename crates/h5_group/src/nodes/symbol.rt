//! The symbol nodes of a group's tree (File Format Specification 3.0, section III.B).

ghost use Rattle.std.specs.Prelude.{◌≡◌, ℕ, ◌+◌, length, IfErr, OnOk};
ghost use Rattle.h5_bytes.specs.Blocks.{holds, cover, Separate};
ghost use Rattle.h5_model.specs.Format.Superblock.{IsSuperblock};
ghost use Rattle.h5_model.specs.Faults.TreeFaults.{SymbolBreach};
ghost use Rattle.h5_btree.specs.Walk.Forms.{OfGroup, leaf_block, leaf_length};
ghost use Rattle.h5_btree.specs.Walk.Below.{IsBottom};
ghost use Rattle.h5_btree.specs.Walk.Refused.{IsRefusedFor};

use crate::nodes::stands::group_kind;
use h5_btree::{Leaves, Node, NodeKind, Trees};
use h5_bytes::Block;
use h5_model::{Cause, OpenFault};
use h5_snod::read_symbol_node;
use h5_space::{Claims, Image, claim, fault, leaf_k};

/// What the B-tree of a group leads to: symbol nodes.
pub struct SymbolNodes;

impl Trees for SymbolNodes {
    ghost form = { λ s. OfGroup };

    fn kind(&self, image: &Image) -> NodeKind {
        group_kind(image)
    }
}

impl Leaves for SymbolNodes {
    fn claim_leaf(
        &self,
        image: &Image,
        claims: &mut Claims,
        _at: u64,
        node: &Node<'_>,
        i: usize,
    ) -> Result<(), OpenFault> {
        claim_symbol_node(image, claims, node.child(i))
    }
}

/// Claims a symbol node.
///
/// `NodeForm` where it is none, or has an entry of an unknown cache type.
#[tactic(auto, using(h5_btree::proofs::WalkLaws::NodeFaults::unclaimed_for))]
fn claim_symbol_node(image: &Image, claims: &mut Claims, at: u64) -> Result<(), OpenFault>
    requires end { claims.old.end ≡ length image.now.bytes }
    requires superblock { IsSuperblock image.now.bytes }
    ensures bottom { OnOk result (IsBottom image.now.bytes OfGroup at) }
    ensures claimed { OnOk result
        ((p : ℕ)
        → cover p claims.new.held ≡ cover p claims.old.held
        + holds p at (leaf_length image.now.bytes OfGroup)) }
    ensures separate { OnOk result (Separate claims.new.held) }
    ensures end { claims.new.end ≡ claims.old.end }
    ensures address { IfErr result (λ fault. fault.address ≡ at) }
    ensures refused { IfErr result (λ fault. IsRefusedFor (SymbolBreach image.now.bytes at)
        (length image.now.bytes) claims.old.held (leaf_block image.now.bytes OfGroup at) fault.cause) }
{
    let leaf = leaf_k(image.bytes());
    let len = 8 + 80 * u64::from(leaf);
    claim(claims, Block { at, len })?;
    let bytes = image.part(at, len).unwrap();
    match read_symbol_node(leaf, bytes) {
        Ok(_) => Ok(()),
        Err(_) => Err(fault(Cause::NodeForm, at)),
    }
}
