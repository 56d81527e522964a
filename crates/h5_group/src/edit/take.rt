//! A link taken out of a group (File Format Specification 3.0, sections III.A.1, III.B and III.D).

ghost use Rattle.std.specs.Prelude.{◌≡◌, ℕ, ◌≤◌, ◌++◌, Err, IfNone, IfSome, IsOk, IsTrue, List, [], ◌∷◌, OnErr, OnOk, Some, length, slice_get};
ghost use Rattle.std.specs.List.{Contains};
ghost use Rattle.h5_bytes.specs.declared.Block.{Block};
ghost use Rattle.h5_model.specs.Format.Limits.{most_bytes};
ghost use Rattle.h5_model.specs.Format.Superblock.{k_values};
ghost use Rattle.h5_model.specs.Format.Heap.{segment_of, span_of};
ghost use Rattle.h5_model.specs.Format.Symbols.{Entry, Target, link_of};
ghost use Rattle.h5_space.specs.Moves.{Moves, Spends};
ghost use Rattle.h5_btree.specs.Looked.{steps_of};
ghost use Rattle.h5_heap.specs.Edited.{HasReleased};
ghost use Rattle.h5_group.specs.Edited.{HasGroupMoved, IsGroupIn, IsLinkPut, IsSomeGroup};
ghost use Rattle.h5_group.specs.Exact.{AreExactBut, AreGroupKeys, AreKeysLooked, HasExactKeys};
ghost use Rattle.h5_group.specs.LinkEdits.{IsGroupApart};
ghost use Rattle.h5_group.specs.Links.{HasNone};
ghost use Rattle.h5_group.specs.Nodes.Stands.{entries_at};
ghost use Rattle.h5_group.specs.Removal.{AreReleased, HasNameFreed, HasTextsFreed, IsEntryPlace, offsets_named};
ghost use Rattle.h5_group.specs.Told.{blocks_told, links_told};
ghost use Rattle.h5_group.specs.Ways.{AreWaysKept};

use crate::edit::drop::drop_symbol_node;
use crate::edit::entries::take_entry;
use crate::edit::retire::{look_along, retire_name};
use crate::edit::texts::free_text;
use crate::edit::way::{node_at_end, way_to};
use crate::read::{group_symbol_node, segment};
use h5_btree::{Look, Way};
use h5_msg::SymbolTable;
use h5_snod::{SymbolEntry, SymbolTarget};
use h5_space::{Image, SpaceFault};

/// How many calls of `give` the removal of a link may need: 15 nodes below the root and a symbol node.
pub const REMOVAL_CALLS: u64 = 16;

/// Takes the link of this name out of a group. All other links stay.
///
/// Its entry goes from the symbol node that is found by one way down the tree. The name, and the text of a soft link, become free in the heap,
/// and no key names them any more: where the keys are said to be `exact`, they are looked for along that way alone, and else in each node. A
/// symbol node that is left without entries goes too, as do the nodes above that are left without children, but for the root. The image keeps
/// its length.
///
/// These are the caller's conditions: the group was read, on blocks that share no byte with each other, with the superblock or with a free
/// block; it has a link of this name; its keys are exact where that is said; and the image has at most 2147483648 bytes.
///
/// # Errors
///
/// `NoMemory`, but never where there is room for 16 calls already. A refusal changes nothing.
pub fn remove_link(
    image: &mut Image,
    table: SymbolTable,
    name: &[u8],
    exact: bool,
) -> Result<(), SpaceFault>
    requires group { IsGroupApart image.old table }
    requires short { length image.old.bytes ≤ most_bytes }
    requires there { (t : Target) × Contains (links_told image.old.bytes table) (name.now, t) }
    requires exact { IsTrue exact → HasExactKeys image.old.bytes table }
    ensures taken { OnOk result ((t : Target) → Contains (links_told image.old.bytes table) (name.now, t)
        → IsLinkPut (name.now, t) (links_told image.new.bytes table) (links_told image.old.bytes table)) }
    ensures group { OnOk result (IsGroupApart image.new table) }
    ensures moves { OnOk result (Moves image.old image.new (blocks_told image.old.bytes table)
        (blocks_told image.new.bytes table)) }
    ensures k { OnOk result (k_values image.new.bytes ≡ k_values image.old.bytes) }
    ensures exact { OnOk result (HasExactKeys image.old.bytes table
        → HasExactKeys image.new.bytes table) }
    ensures freed { OnOk result (HasNameFreed image.old.bytes image.new.bytes table name.now) }
    ensures spends { OnOk result (Spends image.old image.new 0 16) }
    ensures cause { OnErr result (result ≡ Err SpaceFault.NoMemory) }
    ensures err { OnErr result (image.new ≡ image.old) }
    ensures covered { 16 ≤ image.old.room_blocks → IsOk result }
{
    image.reserve(0, REMOVAL_CALLS)?;
    take_link(image, table, name, exact);
    Ok(())
}

/// Takes the link of this name out of a group, in room that was reserved. Takes no memory.
fn take_link(image: &mut Image, table: SymbolTable, name: &[u8], exact: bool)
    requires group { (links : List (List ℕ × Target)) × (blocks : List Block)
        × IsGroupIn image.old table links [] blocks }
    requires exact { IsTrue exact → HasExactKeys image.old.bytes table }
    requires blocks { 16 ≤ image.old.room_blocks }
    ensures taken { (links : List (List ℕ × Target)) (blocks : List Block)
        → IsGroupIn image.old table links [] blocks
        → (t : Target) → Contains links (name.now, t)
        → (links' : List (List ℕ × Target)) × IsLinkPut (name.now, t) links' links
        × HasGroupMoved image.old image.new table blocks links' [] }
    ensures freed { (links : List (List ℕ × Target)) (blocks : List Block)
        → IsGroupIn image.old table links [] blocks
        → (t : Target) → Contains links (name.now, t)
        → HasNameFreed image.old.bytes image.new.bytes table name.now }
    ensures exact { HasExactKeys image.old.bytes table → HasExactKeys image.new.bytes table }
    ensures spends { Spends image.old image.new 0 16 }
{
    if let Some(place) = place_of(image, table, name) {
        take_link_at(image, table, &place, exact);
    }
}

/// Where an entry stands: the way to its symbol node, this node's address, and the index of the entry in it.
#[derive(Drop)]
struct EntryPlace {
    way: Way,
    node: u64,
    index: usize,
}

/// Where the entry of this name stands; `None` where the group has no link of it.
fn place_of(image: &Image, table: SymbolTable, name: &[u8]) -> Option<EntryPlace>
    requires group { IsSomeGroup image.now table [] }
    ensures found { IfSome result (IsEntryPlace image.now table name.now) }
    ensures absent { IfNone result (HasNone image.now.bytes table name.now) }
{
    let way = way_to(image, table, name)?;
    let node = node_at_end(image, table, &way);
    let index = group_symbol_node(image, table, node)
        .find(segment(image, table), name)
        .ok()?;
    Some(EntryPlace { way, node, index })
}

/// Takes the entry at this place out, its texts, and its symbol node where no other entry is left.
fn take_link_at(image: &mut Image, table: SymbolTable, place: &EntryPlace, exact: bool)
    requires group { IsSomeGroup image.old table [] }
    requires place { (name : List ℕ) × IsEntryPlace image.old table name place.now }
    requires exact { IsTrue exact → HasExactKeys image.old.bytes table }
    requires blocks { 16 ≤ image.old.room_blocks }
    ensures taken { (e : Entry)
        → slice_get (entries_at image.old.bytes place.now.node) place.now.index ≡ Some e
        → (links : List (List ℕ × Target)) (blocks : List Block)
        → IsGroupIn image.old table links [] blocks
        → (links' : List (List ℕ × Target))
        × IsLinkPut (link_of (segment_of image.old.bytes table.heap) e) links' links
        × HasGroupMoved image.old image.new table blocks links' [] }
    ensures freed { (e : Entry)
        → slice_get (entries_at image.old.bytes place.now.node) place.now.index ≡ Some e
        → HasTextsFreed image.old.bytes image.new.bytes table e }
    ensures exact { HasExactKeys image.old.bytes table → HasExactKeys image.new.bytes table }
    ensures spends { Spends image.old image.new 0 16 }
{
    let symbols = group_symbol_node(image, table, place.node);
    let entry = symbols.entry(place.index);
    let is_last = symbols.len() == 1;
    take_entry(image, table, place.node, place.index);
    free_texts(image, table, entry, &place.way, exact);
    if is_last {
        drop_symbol_node(image, table, &place.way);
    }
}

/// Frees the texts that an entry named, which stood at the end of this way.
fn free_texts(image: &mut Image, table: SymbolTable, entry: SymbolEntry, way: &Way, exact: bool)
    requires group { (links : List (List ℕ × Target)) × (spare : List ℕ) × (blocks : List Block)
        × IsGroupIn image.old table links (offsets_named entry ++ spare) blocks }
    requires exact { IsTrue exact → AreExactBut entry.name image.old.bytes table
        × AreKeysLooked entry.name (Some way.now) image.old.bytes table }
    ensures freed { (links : List (List ℕ × Target)) (spare : List ℕ) (blocks : List Block)
        → IsGroupIn image.old table links (offsets_named entry ++ spare) blocks
        → HasGroupMoved image.old image.new table blocks links spare }
    ensures released { AreReleased image.old.bytes image.new.bytes table.heap (offsets_named entry) }
    ensures exact { AreExactBut entry.name image.old.bytes table
        → AreGroupKeys (λ key. ⊥) image.new.bytes table }
    ensures ways { AreWaysKept image.old image.new table }
    ensures spends { Spends image.old image.new 0 0 }
{
    free_named(image, table, entry.name, look_along(way.steps(), exact));
    if let SymbolTarget::Text(text) = entry.target {
        // No item has this text's key: where keys are exact, none names it but on the left edge of the tree.
        free_named(image, table, u64::from(text), look_along(&[], exact));
    }
}

/// Frees a text of the heap that no link names, and sets the keys that name it to others, which are where they are
/// looked for.
fn free_named(image: &mut Image, table: SymbolTable, offset: u64, look: Look<'_>)
    requires group { (links : List (List ℕ × Target)) × (spare : List ℕ) × (blocks : List Block)
        × IsGroupIn image.old table links (offset ∷ spare) blocks }
    requires looked { AreKeysLooked offset (steps_of look) image.old.bytes table }
    ensures freed { (links : List (List ℕ × Target)) (spare : List ℕ) (blocks : List Block)
        → IsGroupIn image.old table links (offset ∷ spare) blocks
        → HasGroupMoved image.old image.new table blocks links spare }
    ensures released { HasReleased image.old.bytes image.new.bytes table.heap offset
        (span_of (segment_of image.old.bytes table.heap) offset).len }
    ensures exact { AreExactBut offset image.old.bytes table → AreGroupKeys (λ key. ⊥) image.new.bytes table }
    ensures ways { AreWaysKept image.old image.new table }
    ensures spends { Spends image.old image.new 0 0 }
{
    retire_name(image, table, offset, look);
    free_text(image, table, offset);
}
