//! The checks of the order of a tree of chunks (File Format Specification 3.0, section III.A.1).

ghost use Rattle.std.specs.Prelude.{◌≡◌, length, IfErr, OnOk};
ghost use Rattle.h5_bytes.specs.Blocks.{Inside};
ghost use Rattle.h5_model.specs.Format.Superblock.{IsSuperblock};
ghost use Rattle.h5_btree.specs.Walk.Forms.{OfChunks};
ghost use Rattle.h5_btree.specs.Walk.Trees.{IsTree, nodes_blocks};
ghost use Rattle.h5_chunks.specs.Order.{AreChunksOrdered, IsChunkOrderRefused};

use crate::order::ascending::{bottom_row, check_ascending};
use crate::shape::ChunkShape;
use h5_btree::{Tree, check_keys, tree_node};
use h5_model::OpenFault;
use h5_space::Image;

/// Checks that the chunks of a tree ascend by their offsets, and stand between its keys.
///
/// `KeyOrder`, at the node of level 0 with the later chunk, for the first two chunks that do not ascend; then at the first
/// node, depth first, below a child of which a chunk is below the key before the child, or not below the one behind it.
/// It takes no memory.
///
/// That the tree was read, and stands in the image, are the caller's conditions.
pub(crate) fn check_order(
    image: &Image,
    shape: &ChunkShape<'_>,
    root: u64,
    tree: &Tree,
) -> Result<(), OpenFault>
    requires superblock { IsSuperblock image.now.bytes }
    requires tree { IsTree image.now.bytes (OfChunks shape.now) root
        tree.now.nodes.items tree.now.leaves.items }
    requires inside { Inside (length image.now.bytes) (nodes_blocks image.now.bytes (OfChunks shape.now)
        tree.now.nodes.items tree.now.leaves.items) }
    ensures ordered { OnOk result
        (AreChunksOrdered image.now.bytes shape.now root tree.now.nodes.items) }
    ensures refused { IfErr result (λ fault. IsChunkOrderRefused image.now.bytes shape.now root
        tree.now.nodes.items fault.cause fault.address) }
{
    let row = bottom_row(image, shape, &tree.nodes);
    check_ascending(image, shape, row)?;
    let level = tree_node(image, shape, root).level();
    check_keys(image, shape, level, root)
}
