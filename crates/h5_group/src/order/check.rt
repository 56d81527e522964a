//! The checks of a group's order (File Format Specification 3.0, sections III.A.1 and III.B).

ghost use Rattle.std.specs.Prelude.{◌≡◌, length, IfErr, OnOk};
ghost use Rattle.h5_bytes.specs.Blocks.{Inside};
ghost use Rattle.h5_model.specs.Format.Superblock.{IsSuperblock};
ghost use Rattle.h5_model.specs.Format.Heap.{segment_of};
ghost use Rattle.h5_btree.specs.Walk.Forms.{OfGroup};
ghost use Rattle.h5_btree.specs.Walk.Trees.{IsTree};
ghost use Rattle.h5_group.specs.Nodes.Trees.{group_nodes_blocks};
ghost use Rattle.h5_group.specs.Order.Ordered.{AreNamesOrdered, IsOrderRefused};

use crate::nodes::tree_node;
use crate::order::keys::Names;
use crate::order::names::check_name_order;
use h5_btree::{Tree, check_keys};
use h5_model::OpenFault;
use h5_msg::SymbolTable;
use h5_space::Image;

/// Checks that the names of a group ascend by their bytes, and that they stand between the keys of its B-tree, which
/// do not fall. `segment` is the data segment of the group's heap. A name is the text at its offset there, up to the
/// first zero. Takes no memory.
///
/// That the tree was read, and lies in the image, are the caller's conditions.
///
/// # Errors
///
/// - `NameOrder`, at the first symbol node with a name that is not above the one before it.
/// - `KeyOrder`, at the first such node, depth first: the keys of the node fall, or a name below one of its children
///   is not above the key before that child, or is above the key behind it. It comes only where the names ascend.
pub fn check_order(
    image: &Image,
    segment: &[u8],
    table: SymbolTable,
    tree: &Tree,
) -> Result<(), OpenFault>
    requires superblock { IsSuperblock image.now.bytes }
    requires tree { IsTree image.now.bytes OfGroup table.tree tree.now.nodes.items tree.now.leaves.items }
    requires inside { Inside (length image.now.bytes)
        (group_nodes_blocks image.now.bytes tree.now.nodes.items tree.now.leaves.items) }
    requires segment { segment.now ≡ segment_of image.now.bytes table.heap }
    ensures ordered { OnOk result
        (AreNamesOrdered image.now.bytes segment.now tree.now.nodes.items tree.now.leaves.items) }
    ensures refused { IfErr result (λ fault.
        IsOrderRefused image.now.bytes table tree.now.nodes.items tree.now.leaves.items fault.cause
        fault.address) }
{
    // That names ascend is known below, where the first and the last of a node are compared for all of them.
    check_name_order(image, segment, &tree.leaves)?;
    let root = table.tree();
    let level = tree_node(image, root).level();
    check_keys(image, &Names { segment }, level, root)
}
