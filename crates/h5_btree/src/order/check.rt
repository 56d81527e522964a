//! The check of a tree's order (File Format Specification 3.0, section III.A.1).

ghost use Rattle.std.specs.Prelude.{◌≡◌, ◌↔◌, ℕ, suc, IsTrue, IfErr, List, OnOk, length};
ghost use Rattle.std.specs.List.{AllByRecursion, Contains};
ghost use Rattle.h5_model.specs.Format.Superblock.{IsSuperblock};
ghost use Rattle.h5_laws.specs.Ladders.{IsOrderedBy, LieBetween, items_under};
ghost use Rattle.h5_btree.specs.Order.{HasSubtree, IsKnownFrom, IsOrderedAt, nodes_from};
ghost use Rattle.h5_btree.specs.Walk.Below.{reading_in};
ghost use Rattle.h5_btree.specs.Walk.Forms.{kind_of};

use crate::node::Node;
use crate::order::ordered::Ordered;
use crate::walk::tree_node;
use h5_model::{Cause, OpenFault};
use h5_space::{Image, fault};

/// Checks the order of the keys of the node with this level and address, and of the nodes below it, and of what
/// stands between the keys. Takes no memory.
///
/// That a tree was read from this node down, and what `known` of the trait says of its nodes of level 0, are the
/// caller's conditions.
///
/// # Errors
///
/// `KeyOrder`, at the first node, depth first, of which a key may not follow the one before it, or below a child of
/// which something is not between the keys around that child.
#[tactic(auto, using(crate::proofs::WalkLaws::FormLaws::kind_few))]
pub fn check_keys<O: Ordered>(image: &Image, over: &O, level: u8, at: u64) -> Result<(), OpenFault>
    requires superblock { IsSuperblock image.now.bytes }
    requires subtree { HasSubtree image.now.bytes (O.form over.now) (suc level) at }
    requires known { IsKnownFrom (O.known over.now image.now.bytes)
        (reading_in image.now.bytes (O.form over.now)) level
        (reading_in image.now.bytes (O.form over.now) at) }
    ensures ordered { OnOk result (AllByRecursion (IsOrderedAt (O.sides over.now) image.now.bytes
        (O.form over.now) (O.bottom over.now image.now.bytes))
        (nodes_from image.now.bytes (O.form over.now) level at)) }
    ensures refused { IfErr result (λ fault. (fault.cause ≡ Cause.KeyOrder)
        × Contains (nodes_from image.now.bytes (O.form over.now) level at) fault.address
        × (IsOrderedAt (O.sides over.now) image.now.bytes (O.form over.now)
        (O.bottom over.now image.now.bytes) fault.address → ⊥)) }
{
    let node = tree_node(image, over, at);
    if !is_ordered(image, over, &node) {
        return Err(fault(Cause::KeyOrder, at));
    }
    if level == 0 {
        return Ok(());
    }
    for i in 0..node.len() {
        check_keys(image, over, level - 1, node.child(i))?;
    }
    Ok(())
}

/// Whether what stands below each child of a node is between the keys around it, each of which may be the next one.
fn is_ordered<O: Ordered>(image: &Image, over: &O, node: &Node) -> bool
    requires superblock { IsSuperblock image.now.bytes }
    requires keys { AllByRecursion (λ (key : List ℕ).
        length key ≡ (kind_of image.now.bytes (O.form over.now)).key_length) node.now.keys }
    requires children { AllByRecursion (HasSubtree image.now.bytes (O.form over.now) node.now.level)
        node.now.children }
    requires known { IsKnownFrom (O.known over.now image.now.bytes)
        (reading_in image.now.bytes (O.form over.now)) node.now.level node.now }
    ensures { IsTrue result ↔ IsOrderedBy (O.sides over.now) (reading_in image.now.bytes (O.form over.now))
        (O.bottom over.now image.now.bytes) node.now }
{
    let level = node.level();
    if level == 0 {
        return over.is_ordered(image, node);
    }
    for i in 0..node.len() {
        let low = node.key(i);
        let high = node.key(i + 1);
        if !over.may_follow(image, low, high)
            || !are_between(image, over, low, high, level - 1, node.child(i))
        {
            return false;
        }
    }
    true
}

/// Whether what stands below the node of this level at this address is between two keys.
#[tactic(auto, using(crate::proofs::WalkLaws::FormLaws::kind_few))]
fn are_between<O: Ordered>(
    image: &Image,
    over: &O,
    low: &[u8],
    high: &[u8],
    level: u8,
    at: u64,
) -> bool
    requires superblock { IsSuperblock image.now.bytes }
    requires subtree { HasSubtree image.now.bytes (O.form over.now) (suc level) at }
    requires known { IsKnownFrom (O.known over.now image.now.bytes)
        (reading_in image.now.bytes (O.form over.now)) level
        (reading_in image.now.bytes (O.form over.now) at) }
    requires low { length low.now ≡ (kind_of image.now.bytes (O.form over.now)).key_length }
    requires high { length high.now ≡ (kind_of image.now.bytes (O.form over.now)).key_length }
    ensures { IsTrue result ↔ LieBetween (O.sides over.now) low.now high.now
        (items_under (reading_in image.now.bytes (O.form over.now)) (O.bottom over.now image.now.bytes)
        level at) }
{
    let node = tree_node(image, over, at);
    if level == 0 {
        return over.lie_between(image, &node, low, high);
    }
    for i in 0..node.len() {
        if !are_between(image, over, low, high, level - 1, node.child(i)) {
            return false;
        }
    }
    true
}
