//! What a node's bytes say (File Format Specification 3.0, section III.A.1).

ghost use Rattle.std.specs.Prelude.{◌≡◌, ◌↔◌, ◌+◌, ◌*◌, ◌<◌, ◌≤◌, ◌==◌, [], IfErr, IsOk, Some, length, slice_get, slice_index_or};
ghost use Rattle.std.specs.List.{AllByRecursion};
ghost use Rattle.h5_model.specs.Format.Links.{offset_in};
ghost use Rattle.h5_model.specs.Format.Nodes.{child_in, entries_in, key_in, key_place, node_length, node_of};
ghost use Rattle.h5_btree.specs.Form.{MayBeRoot, MayStandAt};

use crate::kind::NodeKind;
use crate::read::NodeFault;
use h5_bytes::{u16_at, u64_at};
use std::marker::Model;

/// How many bytes stand before the first key.
const HEAD: usize = 24;

/// How many bytes the address of a child has.
pub(crate) const CHILD: usize = 8;

/// The greatest level of a node.
pub const MAX_LEVEL: u8 = 15;

/// A node: its level, its siblings, its children, and one key more than there are children.
#[derive(Drop)]
pub struct Node<'a> {
    kind: NodeKind,
    bytes: &'a [u8],
}

impl<'a> Model for Node<'a> {
    ghost use Rattle.std.specs.Prelude.{◌≡◌, ◌*◌, ◌≤◌, length};
    ghost use Rattle.h5_model.specs.Format.Nodes.{entries_in, node_length, node_of};
    ghost use Rattle.h5_model.specs.Format.Rows as rows;

    ghost Value = { rows.Node };

    ghost view = { λ a. node_of a.kind a.bytes.now };

    ghost invariant = { λ a. (length a.bytes.now ≡ node_length a.kind) × (entries_in a.bytes.now ≤ 2 * a.kind.k) };
}

impl<'a> Node<'a> {
    /// The node that these bytes are.
    pub(crate) fn new(kind: NodeKind, bytes: &'a [u8]) -> Self
        requires long { length bytes.now ≡ node_length kind }
        requires roomy { entries_in bytes.now ≤ 2 * kind.k }
        ensures node { result ≡ node_of kind bytes.now }
        ensures keys { AllByRecursion (λ key. length key ≡ kind.key_length) result.keys }
    {
        Node { kind, bytes }
    }

    /// How far above the leaves the node stands. The children of a node of level 0 are the leaves: symbol nodes or
    /// chunks.
    pub fn level(&self) -> u8
        ensures { result ≡ self.now.level }
    {
        self.bytes[5]
    }

    /// The address of the left sibling, or the undefined address.
    pub fn left(&self) -> u64
        ensures { result ≡ self.now.left }
    {
        u64_at(self.bytes, 8)
    }

    /// The address of the right sibling, or the undefined address.
    pub fn right(&self) -> u64
        ensures { result ≡ self.now.right }
    {
        u64_at(self.bytes, 16)
    }

    /// How many children there are.
    pub fn len(&self) -> usize
        ensures children { result ≡ length self.now.children }
        ensures keys { result + 1 ≡ length self.now.keys }
    {
        usize::from(u16_at(self.bytes, 6))
    }

    /// Whether there are no children.
    pub fn is_empty(&self) -> bool
        ensures { result ≡ (length self.now.children == 0) }
    {
        self.len() == 0
    }

    /// The bytes of key `i`. Key `i` stands before child `i`, and the last key behind all children.
    pub fn key(&self, i: usize) -> &'a [u8]
        requires { i < length self.now.keys }
        ensures { slice_get self.now.keys i ≡ Some result.now }
    {
        key_at(self.kind, self.bytes, i)
    }

    /// The offset in the heap of the name that key `i` stands for, in the tree of a group.
    pub fn key_offset(&self, i: usize) -> u64
        requires { i < length self.now.keys }
        ensures { result ≡ offset_in (slice_index_or self.now.keys i []) }
    {
        u64_at(key_at(self.kind, self.bytes, i), 0)
    }

    /// The address of child `i`.
    pub fn child(&self, i: usize) -> u64
        requires { i < length self.now.children }
        ensures { slice_get self.now.children i ≡ Some result }
    {
        child_at(self.kind, self.bytes, i)
    }

    /// Checks that the node can be the root of a tree.
    ///
    /// # Errors
    ///
    /// `NodeForm` if its level is above 15, or if its level is above 0 and it has no child.
    pub fn check_root(&self) -> Result<(), NodeFault>
        ensures form { IsOk result ↔ MayBeRoot self.now }
        ensures fault { IfErr result (λ fault. fault ≡ NodeFault.NodeForm) }
    {
        if self.level() > MAX_LEVEL || self.level() > 0 && self.is_empty() {
            return Err(NodeFault::NodeForm);
        }
        Ok(())
    }

    /// Checks that the node can stand at this level of a tree, below the root.
    ///
    /// # Errors
    ///
    /// `NodeForm` if its level is another, or if it has no child.
    pub fn check_level(&self, level: u8) -> Result<(), NodeFault>
        ensures form { IsOk result ↔ MayStandAt level self.now }
        ensures fault { IfErr result (λ fault. fault ≡ NodeFault.NodeForm) }
    {
        if self.level() != level || self.is_empty() {
            return Err(NodeFault::NodeForm);
        }
        Ok(())
    }
}

/// Where a key begins.
pub(crate) fn place_of(kind: NodeKind, i: usize) -> usize
    requires { i ≤ 2 * kind.k }
    ensures { result ≡ key_place kind i }
{
    HEAD + i * (kind.key_length() + CHILD)
}

/// The bytes of a key.
#[tactic(auto, unfolding(h5_bytes::specs::Bytes::part))]
fn key_at(kind: NodeKind, bytes: &[u8], i: usize) -> &[u8]
    requires long { length bytes.now ≡ node_length kind }
    requires place { i ≤ 2 * kind.k }
    ensures key { result.now ≡ key_in kind bytes.now i }
    ensures least { 8 ≤ length result.now }
{
    let from = place_of(kind, i);
    &bytes[from..from + kind.key_length()]
}

/// The address of a child.
fn child_at(kind: NodeKind, bytes: &[u8], i: usize) -> u64
    requires long { length bytes.now ≡ node_length kind }
    requires place { i < 2 * kind.k }
    ensures { result ≡ child_in kind bytes.now i }
{
    u64_at(bytes, place_of(kind, i) + kind.key_length())
}
