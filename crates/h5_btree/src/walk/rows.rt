//! The rows of a tree (File Format Specification 3.0, section III.A.1).

ghost use Rattle.std.specs.Prelude.{◌≡◌, ◌++◌, ◌∷◌, [], ℕ, ◌⊎◌, List, ◌+◌, ◌<◌, ◌≤◌, length, drop, IfOk, IfErr, OnOk};
ghost use Rattle.std.specs.List.{AllByRecursion};
ghost use Rattle.h5_bytes.specs.Bytes.{undefined_address};
ghost use Rattle.h5_model.specs.Format.Superblock.{IsSuperblock, highest_k};
ghost use Rattle.h5_model.specs.Format.Rows.{IsRow, first_or_undefined, next_row};
ghost use Rattle.h5_model.specs.Faults.TreeFaults.{SiblingBreach};
ghost use Rattle.h5_btree.specs.Walk.Forms.{kind_of};
ghost use Rattle.h5_btree.specs.Walk.Below.{reading_in, IsStanding};
ghost use Rattle.h5_btree.specs.Walk.Rows.{AreAllRows, IsLevel, IsMisnamed};
ghost use Rattle.h5_btree.specs.Walk.Stands.{IsTreeAt, bottom_at, leaves_at};

use crate::node::Node;
use crate::walk::leaves::Trees;
use crate::walk::read::Tree;
use crate::walk::stands::tree_node;
use h5_bytes::UNDEF;
use h5_model::{Cause, OpenFault};
use h5_space::{Image, fault};
use std::alloc::{AllocError, Global};

/// Lists the rows of a tree that was claimed, from its root, of this level, down to the leaves.
///
/// `Sibling` at the first node that does not name its neighbours; `NoMemory`, at the root.
#[tactic(auto, using(crate::proofs::WalkLaws::FormLaws::kind_few))]
pub(crate) fn read_rows<T: Trees>(
    alloc: Global,
    image: &Image,
    over: &T,
    root: u64,
    level: u8,
) -> Result<Tree, OpenFault>
    requires superblock { IsSuperblock image.now.bytes }
    requires read { IsLevel image.now.bytes (T.form over.now) level (root ∷ []) }
    ensures rows { IfOk result (λ t.
        AreAllRows image.now.bytes (T.form over.now) root level t.nodes.items t.leaves.items) }
    ensures refused { IfErr result (λ fault. (fault.cause ≡ Cause.NoMemory)
        ⊎ ((fault.cause ≡ Cause.Sibling)
        × SiblingBreach image.now.bytes (kind_of image.now.bytes (T.form over.now)) root fault.address)) }
{
    let mut nodes = Vec::new(alloc);
    let mut row = Vec::new(alloc);
    if row.push(root).is_err() {
        return Err(fault(Cause::NoMemory, root));
    }
    let mut height = level;
    loop {
        check_siblings(image, over, &row)?;
        let Ok(next) = children_of(alloc, image, over, &row) else {
            return Err(fault(Cause::NoMemory, root));
        };
        if nodes.append(&mut row).is_err() {
            return Err(fault(Cause::NoMemory, root));
        }
        if height == 0 {
            return Ok(Tree {
                nodes,
                leaves: next,
            });
        }
        row = next;
        height -= 1;
    }
}

/// `Sibling` at the first node of a row that does not name its neighbours.
#[tactic(auto, using(crate::proofs::WalkLaws::FormLaws::kind_few))]
fn check_siblings<T: Trees>(image: &Image, over: &T, row: &[u64]) -> Result<(), OpenFault>
    requires superblock { IsSuperblock image.now.bytes }
    requires stand { (level : ℕ)
        × AllByRecursion (IsStanding image.now.bytes (T.form over.now) level) row.now }
    ensures named { OnOk result ((level : ℕ)
        → AllByRecursion (IsStanding image.now.bytes (T.form over.now) level) row.now
        → IsRow (reading_in image.now.bytes (T.form over.now)) level undefined_address row.now) }
    ensures refused { IfErr result (λ fault. (fault.cause ≡ Cause.Sibling)
        × IsMisnamed (reading_in image.now.bytes (T.form over.now)) row.now fault.address) }
{
    let mut left = UNDEF;
    for (k, &at) in row.iter().enumerate() {
        let right = right_of(row, k);
        let node = tree_node(image, over, at);
        if node.left() != left || node.right() != right {
            return Err(fault(Cause::Sibling, at));
        }
        left = at;
    }
    Ok(())
}

/// What stands to the right of node `k` of a row, or the undefined address.
#[tactic(auto, using(crate::proofs::WalkLaws::Neighbours::first_there, crate::proofs::WalkLaws::Neighbours::first_none))]
fn right_of(row: &[u64], k: usize) -> u64
    requires { k < length row.now }
    ensures { result ≡ first_or_undefined (drop (k + 1) row.now) }
{
    if k + 1 < row.len() {
        return row[k + 1];
    }
    UNDEF
}

/// The addresses of the nodes of level 0 of a tree that was read, from left to right.
///
/// Goes down from the root row by row, and takes memory for one row and the next.
///
/// # Errors
///
/// `AllocError` if memory is refused.
pub fn bottom_nodes<T: Trees>(
    alloc: Global,
    image: &Image,
    over: &T,
    root: u64,
) -> Result<Vec<u64>, AllocError>
    requires long { 26 ≤ length image.now.bytes }
    requires few { (kind_of image.now.bytes (T.form over.now)).k ≤ highest_k }
    requires there { IsTreeAt image.now.bytes (T.form over.now) root }
    ensures bottom { IfOk result (λ row. row.items ≡ bottom_at image.now.bytes (T.form over.now) root) }
    ensures stand { IfOk result (λ row.
        AllByRecursion (IsStanding image.now.bytes (T.form over.now) 0) row.items) }
{
    let mut row = Vec::new(alloc);
    row.push(root)?;
    let mut height = tree_node(image, over, root).level();
    while height > 0 {
        row = children_of(alloc, image, over, &row)?;
        height -= 1;
    }
    Ok(row)
}

/// The addresses of the leaves of a tree that was read, from left to right. Takes memory for one row and the next.
///
/// # Errors
///
/// `AllocError` if memory is refused.
pub fn tree_leaves<T: Trees>(
    alloc: Global,
    image: &Image,
    over: &T,
    root: u64,
) -> Result<Vec<u64>, AllocError>
    requires long { 26 ≤ length image.now.bytes }
    requires few { (kind_of image.now.bytes (T.form over.now)).k ≤ highest_k }
    requires there { IsTreeAt image.now.bytes (T.form over.now) root }
    ensures { IfOk result (λ found. found.items ≡ leaves_at image.now.bytes (T.form over.now) root) }
{
    let row = bottom_nodes(alloc, image, over, root)?;
    children_of(alloc, image, over, &row)
}

/// The children of a row, in order: the next row.
fn children_of<T: Trees>(
    alloc: Global,
    image: &Image,
    over: &T,
    row: &[u64],
) -> Result<Vec<u64>, AllocError>
    requires long { 26 ≤ length image.now.bytes }
    requires few { (kind_of image.now.bytes (T.form over.now)).k ≤ highest_k }
    requires stand { (level : ℕ)
        × AllByRecursion (IsStanding image.now.bytes (T.form over.now) level) row.now }
    ensures { IfOk result (λ next.
        next.items ≡ next_row (reading_in image.now.bytes (T.form over.now)) row.now) }
{
    let mut next = Vec::new(alloc);
    for &at in row {
        push_children(&mut next, &tree_node(image, over, at))?;
    }
    Ok(next)
}

/// Appends the children of a node.
fn push_children(next: &mut Vec<u64>, node: &Node) -> Result<(), AllocError>
    ensures { OnOk result (next.new.items ≡ next.old.items ++ node.now.children) }
{
    for i in 0..node.len() {
        next.push(node.child(i))?;
    }
    Ok(())
}
