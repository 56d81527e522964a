//! Nodes of a group's tree, and symbol nodes, that were read before and are looked at where they stand (File Format Specification
//! 3.0, sections II.A, III.A.1 and III.B).

ghost use Rattle.std.specs.Prelude.{◌≡◌, ◌≤◌, length};
ghost use Rattle.h5_model.specs.Format.Superblock.{leaf_k as leaf_of, internal_k as internal_of, highest_k};
ghost use Rattle.h5_model.specs.Format.Nodes.{node_at};
ghost use Rattle.h5_model.specs.Format.Symbols.{symbols_at};
ghost use Rattle.h5_group.specs.Nodes.Trees.{kind_in};
ghost use Rattle.h5_btree.specs.Walk.Forms.{OfGroup};
ghost use Rattle.h5_btree.specs.Walk.Stands.{IsNodeAt};
ghost use Rattle.h5_group.specs.Nodes.Stands.{IsSymbolsAt};

use crate::nodes::symbol::SymbolNodes;
use h5_btree::{Node, NodeKind};
use h5_snod::{SymbolNode, known_symbol_node};
use h5_space::{Image, internal_k, leaf_k};

/// The node of a group's tree at this address. Takes no memory.
pub fn tree_node(image: &Image, at: u64) -> Node<'_>
    requires long { 26 ≤ length image.now.bytes }
    requires few { internal_of image.now.bytes ≤ highest_k }
    requires there { IsNodeAt image.now.bytes OfGroup at }
    ensures { result ≡ node_at image.now.bytes (kind_in image.now.bytes) at }
{
    h5_btree::tree_node(image, &SymbolNodes, at)
}

/// The symbol node at this address. Takes no memory.
pub fn symbol_node(image: &Image, at: u64) -> SymbolNode<'_>
    requires long { 26 ≤ length image.now.bytes }
    requires there { IsSymbolsAt image.now.bytes at }
    ensures { result ≡ symbols_at image.now.bytes (leaf_of image.now.bytes) at }
{
    let leaf = leaf_k(image.bytes());
    let bytes = image.part(at, 8 + 80 * u64::from(leaf)).unwrap();
    known_symbol_node(leaf, bytes)
}

/// The kind of the trees of groups.
pub(crate) fn group_kind(image: &Image) -> NodeKind
    requires long { 26 ≤ length image.now.bytes }
    requires few { internal_of image.now.bytes ≤ highest_k }
    ensures { result ≡ kind_in image.now.bytes }
{
    NodeKind::group(internal_k(image.bytes()))
}
