//! What the image says of a group that was read (File Format Specification 3.0, sections II.A and III.B).

ghost use Rattle.std.specs.Prelude.{◌≡◌, ◌≤◌, length};
ghost use Rattle.std.specs.List.{Contains};
ghost use Rattle.h5_model.specs.Format.Superblock.{leaf_k};
ghost use Rattle.h5_model.specs.Format.Heap.{segment_of};
ghost use Rattle.h5_model.specs.Format.Symbols.{symbols_at};
ghost use Rattle.h5_group.specs.Links.{IsGroupRead};
ghost use Rattle.h5_group.specs.Told.{symbol_nodes_told};

use crate::nodes;
use h5_heap::segment_at;
use h5_msg::SymbolTable;
use h5_snod::SymbolNode;
use h5_space::Image;

/// The bytes of the segment of the group's heap.
pub(crate) fn segment<'a>(image: &'a Image, table: SymbolTable) -> &'a [u8]
    requires { IsGroupRead image.now.bytes table }
    ensures segment { result.now ≡ segment_of image.now.bytes table.heap }
    ensures there { 32 ≤ length image.now.bytes }
{
    segment_at(image, table.heap())
}

/// The symbol node at `node`, which is one of the group's.
pub(crate) fn group_symbol_node<'a>(
    image: &'a Image,
    table: SymbolTable,
    node: u64,
) -> SymbolNode<'a>
    requires group { IsGroupRead image.now.bytes table }
    requires node { Contains (symbol_nodes_told image.now.bytes table) node }
    ensures { result ≡ symbols_at image.now.bytes (leaf_k image.now.bytes) node }
{
    nodes::symbol_node(image, node)
}
