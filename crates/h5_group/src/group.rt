//! The reading of a group (File Format Specification 3.0, sections III.A.1, III.B, III.D and IV.A.2.r).

ghost use Rattle.std.specs.Prelude.{◌≡◌, length, IfErr, OnOk};
ghost use Rattle.h5_model.specs.Format.Superblock.{IsSuperblock};
ghost use Rattle.h5_model.specs.declared.open_fault.Cause.TheVariants.{NoMemory};
ghost use Rattle.h5_space.specs.Claimed.{HasClaimed};
ghost use Rattle.h5_group.specs.FirstFault.{IsFirstGroupFault};
ghost use Rattle.h5_group.specs.Links.{IsGroupRead, IsGroupReadable};
ghost use Rattle.h5_group.specs.Told.{blocks_told};
ghost use Rattle.h5_group.specs.Walk.{FollowsGroup, IsGroupFault};

use crate::nodes::SymbolNodes;
use crate::order::check_order;
use crate::texts::check_texts;
use h5_btree::read_tree;
use h5_heap::{read_heap, segment_at};
use h5_model::OpenFault;
use h5_msg::SymbolTable;
use h5_space::{Claims, Image};
use std::alloc::Global;

/// Reads the group with this B-tree and this local heap, and claims its blocks.
///
/// The claims end where the image ends, and the image has its superblock: these are the caller's conditions.
///
/// # Errors
///
/// These are looked for in this order, each with the address at which it was found:
///
/// - of the heap: `Truncated`, `Overlap`, `HeapForm`;
/// - of the B-tree and the symbol nodes, depth first: `Truncated`, `Overlap`, `NodeForm`; then `Sibling`, at a node;
/// - `HeapName` and `BadName`, at the header of the heap: a name or a soft link's text is not in the heap, or a name
///   is not allowed;
/// - `NameOrder`, at the first symbol node with a name that is not above the one before it;
/// - `KeyOrder`, at a node: the keys do not bound the names below them.
///
/// `NoMemory` comes where memory is refused. It is the only refusal of a group that is as the format says, in blocks
/// that can all be claimed. After a refusal it is left open which of the blocks are claimed.
pub fn read_group(
    alloc: Global,
    image: &Image,
    claims: &mut Claims,
    table: SymbolTable,
) -> Result<(), OpenFault>
    requires end { claims.old.end ≡ length image.now.bytes }
    requires superblock { IsSuperblock image.now.bytes }
    ensures group { OnOk result (IsGroupRead image.now.bytes table) }
    ensures claimed { OnOk result (HasClaimed claims.old claims.new (blocks_told image.now.bytes table)) }
    ensures end { claims.new.end ≡ claims.old.end }
    ensures walked { OnOk result (FollowsGroup image.now.bytes claims.old.held claims.new.held table) }
    ensures refused { IfErr result (λ fault.
        IsGroupFault image.now.bytes claims.old.held table fault.cause fault.address) }
    ensures first { IfErr result (λ fault.
        IsFirstGroupFault image.now.bytes claims.old.held table fault.cause fault.address) }
    ensures only { IsGroupReadable image.now.bytes table claims.old.held
        → IfErr result (λ fault. fault.cause ≡ NoMemory) }
{
    let mut heap = read_heap(alloc, image, claims, table.heap())?;
    let tree = read_tree(alloc, image, claims, &SymbolNodes, table.tree())?;
    let segment = segment_at(image, table.heap());
    check_texts(image, segment, &mut heap, table, &tree)?;
    check_order(image, segment, table, &tree)?;
    Ok(())
}
