//! Texts that come into the heap of a group and go out of it, in place (File Format Specification 3.0, section III.D).

ghost use Rattle.std.specs.Prelude.{◌≡◌, ℕ, ◌+◌, ◌^◌, ◌<◌, ◌≤◌, List, ◌∷◌, false, length};
ghost use Rattle.std.specs.List.{Contains};
ghost use Rattle.h5_bytes.specs.declared.Block.{Block};
ghost use Rattle.h5_model.specs.Edits.Refusal.{has_zero};
ghost use Rattle.h5_model.specs.Format.Heap.{segment_of, segment_block, span_of};
ghost use Rattle.h5_model.specs.Format.Limits.{most_bytes};
ghost use Rattle.h5_model.specs.Format.Sizes.{text_span as span_of_text};
ghost use Rattle.h5_model.specs.Format.Superblock.{leaf_k};
ghost use Rattle.h5_model.specs.Format.Symbols.{Target, symbols_at};
ghost use Rattle.h5_space.specs.Moves.{Spends};
ghost use Rattle.h5_heap.specs.Edited.{HasReleased};
ghost use Rattle.h5_heap.specs.Inserted.{HasInserted, grown_length, needed_bytes, needed_calls};
ghost use Rattle.h5_group.specs.Edited.{IsGroupIn, IsSomeGroup, IsNamedByNoKey, HasGroupMoved, heap_text};
ghost use Rattle.h5_group.specs.KeptNodes.{AreNodesKept, keys_told};
ghost use Rattle.h5_group.specs.Told.{symbol_nodes_told};
ghost use Rattle.h5_group.specs.Ways.{AreWaysKept};

use h5_heap::{free, insert_in_room};
use h5_msg::SymbolTable;
use h5_space::Image;

/// Puts a text into the heap of a group, in room that was reserved, and gives its offset. No link names it yet:
/// it stands on its own. Takes no memory.
///
/// Where the heap's segment becomes longer, `room` bytes are left free in it for a text that comes next.
///
/// That the group stands there, that no byte of the text is zero, and that there is room for what the heap takes
/// for it, are the caller's conditions.
pub(crate) fn add_text(image: &mut Image, table: SymbolTable, text: &[u8], room: u64) -> u64
    requires group { (spare : List ℕ) × IsSomeGroup image.old table spare }
    requires plain { has_zero text.now ≡ false }
    requires low { needed_bytes image.old.bytes table.heap (span_of_text text.now) room ≤ most_bytes }
    requires bytes { needed_bytes image.old.bytes table.heap (span_of_text text.now) room
        ≤ image.old.room_bytes }
    requires blocks { needed_calls image.old.bytes table.heap (span_of_text text.now)
        ≤ image.old.room_blocks }
    requires short { length image.old.bytes
        + needed_bytes image.old.bytes table.heap (span_of_text text.now) room < 2 ^ 63 }
    ensures added { (links : List (List ℕ × Target)) (spare : List ℕ) (blocks : List Block)
        → IsGroupIn image.old table links spare blocks
        → HasGroupMoved image.old image.new table blocks links (result ∷ spare) }
    ensures text { heap_text image.new table result ≡ text.now }
    ensures kept { (links : List (List ℕ × Target)) (spare : List ℕ) (blocks : List Block)
        → IsGroupIn image.old table links spare blocks
        → (offset : ℕ) → Contains spare offset
        → heap_text image.new table offset ≡ heap_text image.old table offset }
    ensures nodes { (links : List (List ℕ × Target)) (spare : List ℕ) (blocks : List Block)
        (group : IsGroupIn image.old table links spare blocks)
        → AreNodesKept image.old image.new table (group.linked).owned }
    ensures keys { keys_told image.new.bytes table ≡ keys_told image.old.bytes table }
    ensures entries { (node : ℕ) → Contains (symbol_nodes_told image.old.bytes table) node
        → symbols_at image.new.bytes (leaf_k image.new.bytes) node
        ≡ symbols_at image.old.bytes (leaf_k image.old.bytes) node }
    ensures next { (len : ℕ) → len ≤ room
        → (needed_bytes image.old.bytes table.heap (span_of_text text.now) room
        + needed_bytes image.new.bytes table.heap len 0
        ≤ grown_length (segment_block image.old.bytes table.heap).len (span_of_text text.now) room)
        × (needed_calls image.old.bytes table.heap (span_of_text text.now)
        + needed_calls image.new.bytes table.heap len ≤ 2) }
    ensures inserted { HasInserted image.old.bytes image.new.bytes table.heap text.now room result }
    ensures spends { Spends image.old image.new
        (needed_bytes image.old.bytes table.heap (span_of_text text.now) room)
        (needed_calls image.old.bytes table.heap (span_of_text text.now)) }
{
    insert_in_room(image, table.heap(), text, room)
}

/// Frees a text of a group's heap: its bytes join the free blocks of the segment. Takes no memory.
///
/// That the group stands there, and that no link and no key of it names the text, are the caller's conditions.
pub(crate) fn free_text(image: &mut Image, table: SymbolTable, offset: u64)
    requires group { (links : List (List ℕ × Target)) × (spare : List ℕ) × (blocks : List Block)
        × (group : IsGroupIn image.old table links (offset ∷ spare) blocks)
        × IsNamedByNoKey image.old table links (offset ∷ spare) blocks group offset }
    ensures freed { (links : List (List ℕ × Target)) (spare : List ℕ) (blocks : List Block)
        (group : IsGroupIn image.old table links (offset ∷ spare) blocks)
        → IsNamedByNoKey image.old table links (offset ∷ spare) blocks group offset
        → HasGroupMoved image.old image.new table blocks links spare }
    ensures kept { (links : List (List ℕ × Target)) (spare : List ℕ) (blocks : List Block)
        → IsGroupIn image.old table links (offset ∷ spare) blocks
        → (other : ℕ) → Contains spare other
        → heap_text image.new table other ≡ heap_text image.old table other }
    ensures nodes { (links : List (List ℕ × Target)) (spare : List ℕ) (blocks : List Block)
        (group : IsGroupIn image.old table links (offset ∷ spare) blocks)
        → IsNamedByNoKey image.old table links (offset ∷ spare) blocks group offset
        → AreNodesKept image.old image.new table (group.linked).owned }
    ensures keys { keys_told image.new.bytes table ≡ keys_told image.old.bytes table }
    ensures ways { AreWaysKept image.old image.new table }
    ensures released { HasReleased image.old.bytes image.new.bytes table.heap offset
        (span_of (segment_of image.old.bytes table.heap) offset).len }
    ensures spends { Spends image.old image.new 0 0 }
{
    free(image, table.heap(), offset);
}
