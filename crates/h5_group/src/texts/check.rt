//! The checks of a group's texts (File Format Specification 3.0, sections III.A.1, III.B and III.D).

ghost use Rattle.std.specs.Prelude.{◌≡◌, length, IfErr, OnOk};
ghost use Rattle.h5_bytes.specs.Blocks.{Inside};
ghost use Rattle.h5_model.specs.Format.Superblock.{IsSuperblock};
ghost use Rattle.h5_model.specs.Format.Heap.{segment_of};
ghost use Rattle.h5_model.specs.Faults.TreeFaults.{all_entries};
ghost use Rattle.h5_btree.specs.Walk.Forms.{OfGroup};
ghost use Rattle.h5_btree.specs.Walk.Trees.{IsTree};
ghost use Rattle.h5_group.specs.Nodes.Trees.{group_nodes_blocks};
ghost use Rattle.h5_group.specs.Texts.Named.{AreTexts, IsFreshHeap};
ghost use Rattle.h5_group.specs.Texts.Refused.{AreTextsRefused, IsFirstTextFault};

use crate::texts::keys::take_keys;
use crate::texts::linked::take_names;
use crate::texts::names::{check_names, has_empty_name};
use h5_btree::Tree;
use h5_heap::Heap;
use h5_model::{Cause, OpenFault};
use h5_msg::SymbolTable;
use h5_space::{Image, fault};

/// Checks the names, the texts of soft links and the keys of a group whose B-tree and heap were read. `segment` is the
/// data segment of the heap. Their bytes there count as taken from then on.
///
/// That the tree and the heap were read, and lie in the image, are the caller's conditions.
///
/// # Errors
///
/// All of these have the address of the heap's header. They are looked for in this order:
///
/// - `HeapName`: the heap has no empty name.
/// - For each entry: `HeapName` if its name is not a text in the heap; `BadName` if the name is not allowed;
///   `HeapName` if the text of a soft link is not in the heap.
/// - `HeapName`: two of these texts share a byte, or one of them shares a byte with the empty name or a free block.
/// - `HeapName`: the same for the texts that keys name.
/// - `NoMemory`, at any time: memory is refused.
pub fn check_texts(
    image: &Image,
    segment: &[u8],
    heap: &mut Heap,
    table: SymbolTable,
    tree: &Tree,
) -> Result<(), OpenFault>
    requires superblock { IsSuperblock image.now.bytes }
    requires tree { IsTree image.now.bytes OfGroup table.tree tree.now.nodes.items tree.now.leaves.items }
    requires inside { Inside (length image.now.bytes)
        (group_nodes_blocks image.now.bytes tree.now.nodes.items tree.now.leaves.items) }
    requires segment { segment.now ≡ segment_of image.now.bytes table.heap }
    requires heap { IsFreshHeap image.now.bytes table.heap heap.old }
    ensures texts { OnOk result
        (AreTexts image.now.bytes (segment_of image.now.bytes table.heap) heap.old.free tree.now.nodes.items
        tree.now.leaves.items) }
    ensures address { IfErr result (λ fault. fault.address ≡ table.heap) }
    ensures refused { IfErr result (λ fault. AreTextsRefused image.now.bytes table fault.cause) }
    ensures first { IfErr result (λ fault. IsFirstTextFault (segment_of image.now.bytes table.heap)
        (all_entries image.now.bytes tree.now.leaves.items) fault.cause) }
{
    if !has_empty_name(image, heap) {
        return Err(fault(Cause::HeapName, table.heap()));
    }
    // Names are looked at once, while they are taken. Only where that fails they are looked at again: what is wrong with
    // a name comes before bytes that texts share.
    if !take_names(image, segment, heap, &tree.leaves) {
        check_names(image, heap, table.heap(), &tree.leaves)?;
        return Err(fault(Cause::HeapName, table.heap()));
    }
    take_keys(image, heap, &tree.nodes)
}
