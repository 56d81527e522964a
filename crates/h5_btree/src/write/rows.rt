//! The rows of a tree, the root first (File Format Specification 3.0, section III.A.1).
ghost use Rattle.std.specs.Prelude.{◌≡◌, ◌+◌, ◌^◌, ◌<◌, ◌≤◌, ◌++◌, OnOk, length};
ghost use Rattle.h5_model.specs.Format.Limits.{highest_level};
ghost use Rattle.h5_btree.specs.Writing.Steps.{levels_from, rows_from};
ghost use Rattle.h5_btree.specs.Writing.Written.{FitsKind, AllFit, root_level, tree_bytes};

use crate::kind::NodeKind;
use crate::write::child::Child;
use crate::write::count::{nodes_within, rows_of};
use crate::write::key::TreeKey;
use crate::write::node::push_node;
use crate::write::row::{push_row, raise};
use h5_bytes::UNDEF;
use std::alloc::{AllocError, Global};

/// The rows from this level up, over these children, with the root at the place `at`; `first` is the key before them.
fn push_rows<K: TreeKey>(
    alloc: Global,
    out: &mut Vec<u8>,
    kind: &NodeKind,
    level: u8,
    first: K,
    at: u64,
    children: &[Child<K>],
) -> Result<(), AllocError>
    requires low { 1 ≤ kind.now.k }
    requires few { length children.now < 2 ^ 32 }
    requires level { level + levels_from kind.now.k level (length children.now) ≤ highest_level }
    requires first { FitsKind kind.now K.bytes first }
    requires keys { AllFit kind.now K.bytes children.now }
    requires room { at + length (rows_from kind.now K.bytes first level at children.now) < 2 ^ 63 }
    ensures { OnOk result
        (out.new.items ≡ out.old.items ++ rows_from kind.now K.bytes first level at children.now) }
{
    let most = kind.capacity() as u64;
    let count = children.len() as u64;
    if count <= most {
        return push_node(out, kind, level, UNDEF, UNDEF, first, children);
    }
    let above = nodes_within(63 - u32::from(level), most, rows_of(most, count));
    let place = at + above * kind.node_length() as u64;
    let row = raise(alloc, kind, first, place, children)?;
    push_rows(alloc, out, kind, level + 1, first, at, &row)?;
    push_row(out, kind, level, first, place, children)
}

/// Appends the tree of this kind over these children, with its root at the address `at`. `first` is its first key;
/// behind each child is the child's key.
///
/// Takes memory for the nodes of two rows, besides what it appends.
///
/// # Errors
///
/// `AllocError` if memory is refused. How many of the bytes stand in `out` then is left open.
pub fn push_tree<K: TreeKey>(
    alloc: Global,
    out: &mut Vec<u8>,
    kind: &NodeKind,
    first: K,
    at: u64,
    children: &[Child<K>],
) -> Result<(), AllocError>
    requires low { 1 ≤ kind.now.k }
    requires few { length children.now < 2 ^ 32 }
    requires level { root_level kind.now.k (length children.now) ≤ highest_level }
    requires first { FitsKind kind.now K.bytes first }
    requires keys { AllFit kind.now K.bytes children.now }
    requires room { at + length (tree_bytes kind.now K.bytes first at children.now) < 2 ^ 63 }
    ensures { OnOk result
        (out.new.items ≡ out.old.items ++ tree_bytes kind.now K.bytes first at children.now) }
{
    push_rows(alloc, out, kind, 0, first, at, children)
}
