//! One row of a tree, cut into nodes from the left (File Format Specification 3.0, section III.A.1).
ghost use Rattle.std.specs.Prelude.{◌≡◌, ◌+◌, ◌*◌, ◌^◌, ◌<◌, ◌≤◌, ◌++◌, IfOk, OnOk, length};
ghost use Rattle.h5_bytes.specs.Bytes.{undefined_address};
ghost use Rattle.h5_model.specs.Format.Nodes.{node_length};
ghost use Rattle.h5_model.specs.Format.PlainLength.{rows_of};
ghost use Rattle.h5_btree.specs.Writing.Written.{FitsKind, AllFit, chunks, as_children, row_bytes};

use crate::kind::NodeKind;
use crate::write::child::Child;
use crate::write::key::TreeKey;
use crate::write::node::{last_below, push_node, split_node};
use h5_bytes::UNDEF;
use std::alloc::{AllocError, Global};

/// The nodes over these children, the first of them at the place `at`, as the children of the row above; `first` is the
/// key before them.
pub(crate) fn raise<K: Copy>(
    alloc: Global,
    kind: &NodeKind,
    first: K,
    at: u64,
    children: &[Child<K>],
) -> Result<Vec<Child<K>>, AllocError>
    requires low { 1 ≤ kind.now.k }
    requires some { 1 ≤ length children.now }
    requires room { at + rows_of (2 * kind.now.k) (length children.now) * node_length kind.now < 2 ^ 63 }
    ensures { IfOk result (λ row.
        row.items ≡ as_children kind.now at first (chunks (2 * kind.now.k) children.now)) }
{
    let mut row = Vec::with_capacity(alloc, children.len().div_ceil(kind.capacity()))?;
    let mut rest = children;
    let mut place = at;
    let mut before = first;
    while !rest.is_empty() {
        let (node, others) = split_node(kind.capacity(), rest);
        before = last_below(before, node);
        row.push(Child {
            at: place,
            key: before,
        })?;
        place += kind.node_length() as u64;
        rest = others;
    }
    Ok(row)
}

/// The nodes of a row over these children, the first of them at the place `at`; `first` is the key before them.
pub(crate) fn push_row<K: TreeKey>(
    out: &mut Vec<u8>,
    kind: &NodeKind,
    level: u8,
    first: K,
    at: u64,
    children: &[Child<K>],
) -> Result<(), AllocError>
    requires low { 1 ≤ kind.now.k }
    requires some { 1 ≤ length children.now }
    requires first { FitsKind kind.now K.bytes first }
    requires keys { AllFit kind.now K.bytes children.now }
    requires room { at + rows_of (2 * kind.now.k) (length children.now) * node_length kind.now < 2 ^ 63 }
    ensures { OnOk result
        (out.new.items ≡ out.old.items
        ++ row_bytes kind.now K.bytes level undefined_address first at
        (chunks (2 * kind.now.k) children.now)) }
{
    let mut rest = children;
    let mut left = UNDEF;
    let mut place = at;
    let mut before = first;
    while !rest.is_empty() {
        let (node, others) = split_node(kind.capacity(), rest);
        let next = place + kind.node_length() as u64;
        let right = if others.is_empty() { UNDEF } else { next };
        push_node(out, kind, level, left, right, before, node)?;
        before = last_below(before, node);
        left = place;
        place = next;
        rest = others;
    }
    Ok(())
}
