//! The taking of the texts that a group's links name (File Format Specification 3.0, sections III.B and III.D).

ghost use Rattle.std.specs.Prelude.{◌≡◌, ◌+◌, ◌≤◌, ℕ, IsTrue, IsFalse, [], length};
ghost use Rattle.std.specs.List.{AllByRecursion, flat_map};
ghost use Rattle.h5_bytes.specs.Blocks.{cover};
ghost use Rattle.h5_model.specs.Format.Superblock.{IsSuperblock};
ghost use Rattle.h5_heap.specs.Kept.{segment_in};
ghost use Rattle.h5_heap.specs.Spans.{HasTaken};
ghost use Rattle.h5_group.specs.Nodes.Stands.{IsSymbolsAt, entries_at};
ghost use Rattle.h5_group.specs.Texts.Linked.{linked_from, linked_at, IsEntrySound, AreEntriesSound};
ghost use Rattle.h5_group.specs.Texts.Taken.{IsSameHeap, TakesLinked, AreUnsound, AreLinkedRefused};

use crate::nodes::symbol_node;
use crate::texts::allowed::is_allowed;
use h5_heap::Heap;
use h5_snod::{SymbolEntry, SymbolTarget};
use h5_space::Image;

/// Takes the empty name, and the names and soft link texts of these symbol nodes, entry by entry. `segment` is the
/// heap's data segment.
///
/// False where that cannot be done: one of them is no text in the heap, shares a byte with what is free or was taken
/// before, or is a name that a link may not have. Which of the others were taken then is left open.
pub(crate) fn take_names(
    image: &Image,
    segment: &[u8],
    heap: &mut Heap,
    symbol_nodes: &[u64],
) -> bool
    requires superblock { IsSuperblock image.now.bytes }
    requires there { AllByRecursion (IsSymbolsAt image.now.bytes) symbol_nodes.now }
    requires within { heap.old.segment.at + heap.old.segment.len ≤ length image.now.bytes }
    requires segment { segment.now ≡ segment_in image.now.bytes heap.old }
    requires held { (p : ℕ) → cover p heap.old.held ≡ cover p heap.old.free }
    requires none { heap.old.taken ≡ [] }
    ensures taken { IsTrue result → HasTaken (segment_in image.now.bytes heap.new) heap.new
        (flat_map (linked_at image.now.bytes) symbol_nodes.now) [] }
    ensures sound { IsTrue result → AreEntriesSound (segment_in image.now.bytes heap.old)
        (flat_map (entries_at image.now.bytes) symbol_nodes.now) }
    ensures same { IsSameHeap heap.old heap.new }
    ensures refused { IsFalse result → AreEntriesSound (segment_in image.now.bytes heap.old)
        (flat_map (entries_at image.now.bytes) symbol_nodes.now)
        → AreUnsound (segment_in image.now.bytes heap.old) heap.old.free
        (flat_map (linked_at image.now.bytes) symbol_nodes.now) }
{
    match heap.begin_names(image) {
        Ok(()) => take_linked(image, segment, heap, symbol_nodes),
        Err(_) => false,
    }
}

/// The same, where the empty name was taken.
fn take_linked(image: &Image, segment: &[u8], heap: &mut Heap, symbol_nodes: &[u64]) -> bool
    requires superblock { IsSuperblock image.now.bytes }
    requires there { AllByRecursion (IsSymbolsAt image.now.bytes) symbol_nodes.now }
    requires within { heap.old.segment.at + heap.old.segment.len ≤ length image.now.bytes }
    requires segment { segment.now ≡ segment_in image.now.bytes heap.old }
    ensures takes { IsTrue result → TakesLinked image.now.bytes heap.old heap.new
        (flat_map (linked_at image.now.bytes) symbol_nodes.now) }
    ensures sound { IsTrue result → AreEntriesSound (segment_in image.now.bytes heap.old)
        (flat_map (entries_at image.now.bytes) symbol_nodes.now) }
    ensures same { IsSameHeap heap.old heap.new }
    ensures refused { IsFalse result → AreEntriesSound (segment_in image.now.bytes heap.old)
        (flat_map (entries_at image.now.bytes) symbol_nodes.now)
        → AreLinkedRefused image.now.bytes heap.old
        (flat_map (linked_at image.now.bytes) symbol_nodes.now) }
{
    for at in symbol_nodes {
        if !take_entries(image, segment, heap, *at) {
            return false;
        }
    }
    true
}

/// The same of one symbol node.
fn take_entries(image: &Image, segment: &[u8], heap: &mut Heap, at: u64) -> bool
    requires superblock { IsSuperblock image.now.bytes }
    requires there { IsSymbolsAt image.now.bytes at }
    requires within { heap.old.segment.at + heap.old.segment.len ≤ length image.now.bytes }
    requires segment { segment.now ≡ segment_in image.now.bytes heap.old }
    ensures takes { IsTrue result
        → TakesLinked image.now.bytes heap.old heap.new (linked_at image.now.bytes at) }
    ensures sound { IsTrue result
        → AreEntriesSound (segment_in image.now.bytes heap.old) (entries_at image.now.bytes at) }
    ensures same { IsSameHeap heap.old heap.new }
    ensures refused { IsFalse result
        → AreEntriesSound (segment_in image.now.bytes heap.old) (entries_at image.now.bytes at)
        → AreLinkedRefused image.now.bytes heap.old (linked_at image.now.bytes at) }
{
    let node = symbol_node(image, at);
    for k in 0..node.len() {
        if !take_texts(image, segment, heap, node.entry(k)) {
            return false;
        }
    }
    true
}

/// Takes the name of a link, which is one that a link may have, and the text of a soft link.
fn take_texts(image: &Image, segment: &[u8], heap: &mut Heap, entry: SymbolEntry) -> bool
    requires within { heap.old.segment.at + heap.old.segment.len ≤ length image.now.bytes }
    requires segment { segment.now ≡ segment_in image.now.bytes heap.old }
    ensures takes { IsTrue result → TakesLinked image.now.bytes heap.old heap.new (linked_from entry) }
    ensures sound { IsTrue result → IsEntrySound (segment_in image.now.bytes heap.old) entry }
    ensures same { IsSameHeap heap.old heap.new }
    ensures refused { IsFalse result → IsEntrySound (segment_in image.now.bytes heap.old) entry
        → AreLinkedRefused image.now.bytes heap.old (linked_from entry) }
{
    let Ok(name) = heap.take(image, entry.name) else {
        return false;
    };
    if !is_allowed(segment, entry.name, name) {
        return false;
    }
    match entry.target {
        SymbolTarget::Text(offset) => heap.take(image, u64::from(offset)).is_ok(),
        SymbolTarget::Header(_) => true,
    }
}
