//! The checks of the names and texts of a group's links (File Format Specification 3.0, sections III.B and III.D).

ghost use Rattle.std.specs.Prelude.{◌≡◌, ◌+◌, ◌≤◌, ◌↔◌, IsTrue, length, IfErr, OnOk};
ghost use Rattle.std.specs.List.{AllByRecursion, flat_map};
ghost use Rattle.h5_bytes.specs.Bytes.{byte_at};
ghost use Rattle.h5_bytes.specs.Texts.{text_at};
ghost use Rattle.h5_model.specs.Format.Superblock.{IsSuperblock};
ghost use Rattle.h5_model.specs.Tree.Paths.{is_name};
ghost use Rattle.h5_heap.specs.Kept.{segment_in};
ghost use Rattle.h5_group.specs.Nodes.Stands.{IsSymbolsAt, entries_at};
ghost use Rattle.h5_group.specs.Texts.Linked.{IsEntrySound, AreEntriesSound, IsEntryRefused, AreEntriesRefused};

use crate::nodes::symbol_node;
use h5_heap::Heap;
use h5_model::{Cause, OpenFault, is_link_name};
use h5_snod::{SymbolEntry, SymbolTarget};
use h5_space::Image;

/// Whether the heap's segment begins with the zero of the empty name.
pub(crate) fn has_empty_name(image: &Image, heap: &Heap) -> bool
    requires within { heap.now.segment.at + heap.now.segment.len ≤ length image.now.bytes }
    requires room { 8 ≤ heap.now.segment.len }
    ensures { IsTrue result ↔ (byte_at (segment_in image.now.bytes heap.now) 0 ≡ 0) }
{
    match heap.name(image, 0) {
        Ok(name) => name.is_empty(),
        Err(_) => false,
    }
}

/// Checks the names and texts of the links in these symbol nodes, entry by entry. The address is that of the heap.
pub(crate) fn check_names(
    image: &Image,
    heap: &Heap,
    address: u64,
    symbol_nodes: &[u64],
) -> Result<(), OpenFault>
    requires superblock { IsSuperblock image.now.bytes }
    requires there { AllByRecursion (IsSymbolsAt image.now.bytes) symbol_nodes.now }
    requires within { heap.now.segment.at + heap.now.segment.len ≤ length image.now.bytes }
    requires address { heap.now.at ≡ address }
    ensures sound { OnOk result
        (AreEntriesSound (segment_in image.now.bytes heap.now)
        (flat_map (entries_at image.now.bytes) symbol_nodes.now)) }
    ensures address { IfErr result (λ fault. fault.address ≡ address) }
    ensures refused { IfErr result (λ fault.
        AreEntriesRefused (segment_in image.now.bytes heap.now)
        (flat_map (entries_at image.now.bytes) symbol_nodes.now) fault.cause) }
{
    for at in symbol_nodes {
        check_entries(image, heap, address, *at)?;
    }
    Ok(())
}

/// The same of one symbol node.
fn check_entries(image: &Image, heap: &Heap, address: u64, at: u64) -> Result<(), OpenFault>
    requires superblock { IsSuperblock image.now.bytes }
    requires there { IsSymbolsAt image.now.bytes at }
    requires within { heap.now.segment.at + heap.now.segment.len ≤ length image.now.bytes }
    requires address { heap.now.at ≡ address }
    ensures sound { OnOk result
        (AreEntriesSound (segment_in image.now.bytes heap.now) (entries_at image.now.bytes at)) }
    ensures address { IfErr result (λ fault. fault.address ≡ address) }
    ensures refused { IfErr result (λ fault.
        AreEntriesRefused (segment_in image.now.bytes heap.now) (entries_at image.now.bytes at) fault.cause) }
{
    let node = symbol_node(image, at);
    for k in 0..node.len() {
        check_entry(image, heap, address, node.entry(k))?;
    }
    Ok(())
}

/// Checks the name of a link, and the text of a soft link.
///
/// `HeapName` where there is no text where the name should be, then `BadName`, then `HeapName` for the text.
fn check_entry(
    image: &Image,
    heap: &Heap,
    address: u64,
    entry: SymbolEntry,
) -> Result<(), OpenFault>
    requires within { heap.now.segment.at + heap.now.segment.len ≤ length image.now.bytes }
    requires address { heap.now.at ≡ address }
    ensures sound { OnOk result (IsEntrySound (segment_in image.now.bytes heap.now) entry) }
    ensures address { IfErr result (λ fault. fault.address ≡ address) }
    ensures refused { IfErr result (λ fault.
        IsEntryRefused (segment_in image.now.bytes heap.now) entry fault.cause) }
{
    let name = heap.name(image, entry.name)?;
    if !is_link_name(name) {
        return Err(OpenFault {
            cause: Cause::BadName,
            address,
        });
    }
    if let SymbolTarget::Text(offset) = entry.target {
        heap.name(image, u64::from(offset))?;
    }
    Ok(())
}
