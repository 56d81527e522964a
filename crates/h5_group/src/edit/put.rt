//! A link put into a group (File Format Specification 3.0, sections III.A.1, III.B and III.D).

ghost use Rattle.std.specs.Prelude.{◌≡◌, ◌↔◌, ℕ, ◌+◌, ◌*◌, ◌^◌, ◌<◌, ◌≤◌, ◌++◌, Err, IsOk, IsTrue, List, [], ◌∷◌, OnErr, OnOk, false, length, max, min, ◌-◌};
ghost use Rattle.std.specs.List.{Contains};
ghost use Rattle.h5_bytes.specs.declared.Block.{Block};
ghost use Rattle.h5_model.specs.Edits.Refusal.{has_zero};
ghost use Rattle.h5_model.specs.Format.Heap.{segment_block, segment_of};
ghost use Rattle.h5_model.specs.Format.Limits.{most_bytes};
ghost use Rattle.h5_model.specs.Format.Nodes.{node_length};
ghost use Rattle.h5_model.specs.Format.Sizes.{symbol_node as symbol_length, text_span as span_of_text};
ghost use Rattle.h5_model.specs.Format.Superblock.{k_values, leaf_k};
ghost use Rattle.h5_model.specs.Format.Symbols.{IsEntry, Target, Text, link_of, symbols_at};
ghost use Rattle.h5_model.specs.Tree.Paths.{is_name};
ghost use Rattle.h5_space.specs.Moves.{Moves, Spends};
ghost use Rattle.h5_heap.specs.Writing.Links.{leads_of, name_and_leads, target_link};
ghost use Rattle.h5_heap.specs.Writing.Written.{texts_span as span};
ghost use Rattle.h5_btree.specs.Insertion.{IsFullWay};
ghost use Rattle.h5_btree.specs.Removal.{EndsInTree};
ghost use Rattle.h5_btree.specs.declared.way.Step.{Step};
ghost use Rattle.h5_snod.specs.Written.{entry_from};
ghost use Rattle.h5_group.specs.Edited.{HasEntryPut, HasGroupMoved, IsEntryFor, IsGroupIn, IsLinkPut, IsNewName, IsSomeGroup, entries_below, heap_text, offsets_of};
ghost use Rattle.h5_group.specs.Exact.{HasExactKeys};
ghost use Rattle.h5_group.specs.KeptNodes.{AreNodesKept};
ghost use Rattle.h5_group.specs.LinkEdits.{IsFullFor, IsGroupApart, IsPlainLead, link_room as room_of, place_target};
ghost use Rattle.h5_group.specs.Links.{HasNone};
ghost use Rattle.h5_group.specs.Nodes.Trees.{kind_in};
ghost use Rattle.h5_group.specs.Told.{blocks_told, links_told, symbol_nodes_told};
ghost use Rattle.h5_group.specs.Ways.{IsWayOf};

use crate::edit::entries::put_entry;
use crate::edit::split::{put_first_entry, split_entry};
use crate::edit::texts::add_text;
use crate::edit::way::{node_at_end, way_to, widen_for};
use crate::nodes::group_kind;
use crate::read::group_symbol_node;
use h5_btree::{InsertFault, MOST_STEPS, Way, is_full_way};
use h5_heap::{ObjectPlace, segment_at, text_span};
use h5_model::{Link, LinkTo};
use h5_msg::SymbolTable;
use h5_snod::{NewSymbol, NewTarget};
use h5_space::{Image, SpaceFault, leaf_k as leaf_of};

/// How many calls of `take` and `give` a link may need: 17 nodes and a symbol node are taken, and a longer segment in place of the old one.
const CALLS: u64 = 20;

/// Puts a link into a group, in the place of its name. The group has no link of this name.
///
/// Its name, and the text of a soft link, come into the heap; its entry comes into the symbol node that is found by one way down the tree,
/// which is cut in two where it is full, as are the nodes above that are full. All other links stay. The room for all that is made before
/// the first change.
///
/// These are the caller's conditions: the group was read, on blocks that share no byte with each other, with the superblock or with a free
/// block; the name is one, and neither it nor the text has a zero byte; and the image has at most 2147483648 bytes.
///
/// # Errors
///
/// `TreeTooDeep` exactly where the root is at level 15, and each node on the way and the symbol node at its end are full. Else `Space`:
/// `ImageFull` where the image has more than 2147483648 bytes with those that a link may take, or `NoMemory`. A refusal changes nothing.
pub fn put_link(
    image: &mut Image,
    table: SymbolTable,
    link: &Link<'_, ObjectPlace>,
) -> Result<(), InsertFault>
    requires group { IsGroupApart image.old table }
    requires short { length image.old.bytes ≤ most_bytes }
    requires new_name { HasNone image.old.bytes table link.now.name.now }
    requires named { IsTrue (is_name link.now.name.now) }
    requires plain { IsPlainLead (leads_of link.now.to) }
    ensures put { OnOk result (IsLinkPut (target_link (name_and_leads link.now))
        (links_told image.old.bytes table) (links_told image.new.bytes table)) }
    ensures group { OnOk result (IsGroupApart image.new table) }
    ensures moves { OnOk result (Moves image.old image.new (blocks_told image.old.bytes table)
        (blocks_told image.new.bytes table)) }
    ensures k { OnOk result (k_values image.new.bytes ≡ k_values image.old.bytes) }
    ensures exact { OnOk result (HasExactKeys image.old.bytes table
        → HasExactKeys image.new.bytes table) }
    ensures spends { OnOk result (Spends image.old image.new
        (room_of image.old.bytes table (span (name_and_leads link.now))) 20) }
    ensures deep { (result ≡ Err InsertFault.TreeTooDeep)
        ↔ IsFullFor image.old.bytes table link.now.name.now }
    ensures full { (result ≡ Err (InsertFault.Space SpaceFault.ImageFull))
        ↔ ((IsFullFor image.old.bytes table link.now.name.now → ⊥)
        × (most_bytes < length image.old.bytes
        + room_of image.old.bytes table (span (name_and_leads link.now)))) }
    ensures err { OnErr result (image.new ≡ image.old) }
    ensures covered { (IsFullFor image.old.bytes table link.now.name.now → ⊥)
        → room_of image.old.bytes table (span (name_and_leads link.now)) ≤ image.old.room_bytes
        → 20 ≤ image.old.room_blocks
        → length image.old.bytes + room_of image.old.bytes table (span (name_and_leads link.now)) ≤ most_bytes
        → IsOk result }
{
    reserve_link(image, table, link, 0, 0)?;
    put_reserved(image, table, link);
    Ok(())
}

/// Makes room for a link in a group, and for so many bytes beside it, which so many calls of `take` and `give` are for.
///
/// That the group was read, as `put_link` asks it, and that the image has at most 2147483648 bytes, are the caller's conditions.
///
/// # Errors
///
/// Those of `put_link`, where the bytes beside the link count as the link's. A refusal changes nothing.
pub fn reserve_link(
    image: &mut Image,
    table: SymbolTable,
    link: &Link<'_, ObjectPlace>,
    bytes: u64,
    calls: u64,
) -> Result<(), InsertFault>
    requires group { IsGroupApart image.old table }
    requires short { length image.old.bytes ≤ most_bytes }
    requires few { calls ≤ 2 ^ 31 }
    ensures room { OnOk result (image.new ≡ record image.old {
      room_bytes = max image.old.room_bytes
          (room_of image.old.bytes table (span (name_and_leads link.now)) + bytes);
      room_blocks = max image.old.room_blocks (20 + calls);
    }) }
    ensures deep { (result ≡ Err InsertFault.TreeTooDeep)
        ↔ IsFullFor image.old.bytes table link.now.name.now }
    ensures full { (result ≡ Err (InsertFault.Space SpaceFault.ImageFull))
        ↔ ((IsFullFor image.old.bytes table link.now.name.now → ⊥)
        × (most_bytes < length image.old.bytes
        + (room_of image.old.bytes table (span (name_and_leads link.now)) + bytes))) }
    ensures err { OnErr result (image.new ≡ image.old) }
    ensures covered { (IsFullFor image.old.bytes table link.now.name.now → ⊥)
        → room_of image.old.bytes table (span (name_and_leads link.now)) + bytes ≤ image.old.room_bytes
        → 20 + calls ≤ image.old.room_blocks
        → length image.old.bytes + (room_of image.old.bytes table (span (name_and_leads link.now)) + bytes)
        ≤ most_bytes
        → IsOk result }
{
    if is_too_deep(image, table, link.name) {
        return Err(InsertFault::TreeTooDeep);
    }
    let room = link_room(image, table, link).saturating_add(bytes);
    let reserved = image.reserve(room, CALLS + calls);
    if let Err(fault) = reserved {
        return Err(InsertFault::Space(fault));
    }
    Ok(())
}

/// Puts a link into a group, in room that `reserve_link` has made. Takes no memory.
///
/// The conditions are those of `put_link`; besides, the tree has room for the name, and the image has the room that a link may take.
pub fn put_reserved(image: &mut Image, table: SymbolTable, link: &Link<'_, ObjectPlace>)
    requires group { IsGroupApart image.old table }
    requires new_name { HasNone image.old.bytes table link.now.name.now }
    requires named { IsTrue (is_name link.now.name.now) }
    requires plain { IsPlainLead (leads_of link.now.to) }
    requires roomy { IsFullFor image.old.bytes table link.now.name.now → ⊥ }
    requires bytes { room_of image.old.bytes table (span (name_and_leads link.now)) ≤ image.old.room_bytes }
    requires calls { 20 ≤ image.old.room_blocks }
    requires short { length image.old.bytes + room_of image.old.bytes table (span (name_and_leads link.now))
        ≤ most_bytes }
    ensures put { IsLinkPut (target_link (name_and_leads link.now))
        (links_told image.old.bytes table) (links_told image.new.bytes table) }
    ensures group { IsGroupApart image.new table }
    ensures moves { Moves image.old image.new (blocks_told image.old.bytes table)
        (blocks_told image.new.bytes table) }
    ensures k { k_values image.new.bytes ≡ k_values image.old.bytes }
    ensures exact { HasExactKeys image.old.bytes table → HasExactKeys image.new.bytes table }
    ensures spends { Spends image.old image.new
        (room_of image.old.bytes table (span (name_and_leads link.now))) 20 }
{
    put_in_room(image, table, link);
}

/// Whether a link of this name would make the group's tree too deep: the root is at level 15, and each node on the way to the name and the
/// symbol node at its end are full. Takes no memory.
///
/// That the group was read, as `put_link` asks it, and that the image has at most 2147483648 bytes, are the caller's conditions.
pub fn is_too_deep(image: &Image, table: SymbolTable, name: &[u8]) -> bool
    requires group { IsGroupApart image.now table }
    requires short { length image.now.bytes ≤ most_bytes }
    ensures { IsTrue result ↔ IsFullFor image.now.bytes table name.now }
{
    let Some(way) = way_to(image, table, name) else {
        return false;
    };
    way.steps().len() == MOST_STEPS
        && is_full_way(image, group_kind(image), &way)
        && is_full(image, table, &way)
}

/// Whether the symbol node at the end of the way has as many entries as it has room for.
fn is_full(image: &Image, table: SymbolTable, way: &Way) -> bool
    requires group { (spare : List ℕ) × IsSomeGroup image.now table spare }
    requires way { (level : ℕ) × (owned : List ℕ) × (list : List ℕ) × (k : ℕ)
        × EndsInTree image.now (kind_in image.now.bytes) table.tree level way.now owned list k }
    ensures { (step : Step) (above : List Step) → way.now ≡ step ∷ above
        → IsTrue result ↔ (length (entries_below image.now table step) ≡ 2 * leaf_k image.now.bytes) }
{
    let node = group_symbol_node(image, table, node_at_end(image, table, way));
    node.len() == 2 * usize::from(leaf_of(image.bytes()))
}

/// How many bytes a link may take: 17 nodes, a symbol node, and a segment that is twice as long as the old one and 16 bytes more than that with
/// the link's texts. Where that is past the largest number it is the largest.
fn link_room(image: &Image, table: SymbolTable, link: &Link<'_, ObjectPlace>) -> u64
    requires group { IsSomeGroup image.now table [] }
    requires short { length image.now.bytes ≤ most_bytes }
    ensures { result ≡ min (room_of image.now.bytes table (span (name_and_leads link.now))) (2 ^ 64 - 1) }
{
    let node = group_kind(image).node_length() as u64;
    let symbols = 8 + 80 * u64::from(leaf_of(image.bytes()));
    let segment = segment_at(image, table.heap()).len() as u64;
    (17 * node + symbols + 2 * segment + 16).saturating_add(texts_length(link))
}

/// How many bytes the texts of a link take in the heap, or the largest number where they are more.
fn texts_length(link: &Link<'_, ObjectPlace>) -> u64
    ensures { result ≡ min (span (name_and_leads link.now)) (2 ^ 64 - 1) }
{
    let name = text_span(link.name) as u64;
    match link.to {
        LinkTo::Object(_) => name,
        LinkTo::Soft(text) => name.saturating_add(text_span(text) as u64),
    }
}

/// Puts a link into a group, in room that was reserved. Takes no memory.
fn put_in_room(image: &mut Image, table: SymbolTable, link: &Link<'_, ObjectPlace>)
    requires group { (links : List (List ℕ × Target)) × (blocks : List Block)
        × IsGroupIn image.old table links [] blocks × IsNewName link.now.name.now links }
    requires named { IsTrue (is_name link.now.name.now) }
    requires plain { IsPlainLead (leads_of link.now.to) }
    requires deep { IsFullFor image.old.bytes table link.now.name.now → ⊥ }
    requires bytes { room_of image.old.bytes table (span (name_and_leads link.now)) ≤ image.old.room_bytes }
    requires blocks { 20 ≤ image.old.room_blocks }
    requires small { length image.old.bytes + room_of image.old.bytes table (span (name_and_leads link.now))
        ≤ most_bytes }
    ensures put { (links : List (List ℕ × Target)) (blocks : List Block)
        → IsGroupIn image.old table links [] blocks → IsNewName link.now.name.now links
        → (links' : List (List ℕ × Target))
        × IsLinkPut (target_link (name_and_leads link.now)) links links'
        × HasGroupMoved image.old image.new table blocks links' [] }
    ensures exact { HasExactKeys image.old.bytes table → HasExactKeys image.new.bytes table }
    ensures spends { Spends image.old image.new (room_of image.old.bytes table (span (name_and_leads
        link.now)))
        20 }
{
    let way = way_to(image, table, link.name);
    let symbol = add_texts(image, table, link);
    match way {
        Some(way) => put_below(image, table, &way, link.name, symbol),
        None => put_first_entry(image, table, symbol),
    }
}

/// Puts the texts of a link into the heap, and gives its entry.
fn add_texts(image: &mut Image, table: SymbolTable, link: &Link<'_, ObjectPlace>) -> NewSymbol
    requires group { IsSomeGroup image.old table [] }
    requires named { IsTrue (is_name link.now.name.now) }
    requires plain { IsPlainLead (leads_of link.now.to) }
    requires bytes { 2 * (segment_block image.old.bytes table.heap).len + span (name_and_leads link.now)
        + 16
        ≤ image.old.room_bytes }
    requires blocks { 2 ≤ image.old.room_blocks }
    requires small { length image.old.bytes
        + (2 * (segment_block image.old.bytes table.heap).len + span (name_and_leads link.now) + 16)
        ≤ most_bytes }
    ensures added { (links : List (List ℕ × Target)) (spare : List ℕ) (blocks : List Block)
        → IsGroupIn image.old table links spare blocks
        → HasGroupMoved image.old image.new table blocks links (offsets_of (entry_from result) ++ spare) }
    ensures link { link_of (segment_of image.new.bytes table.heap) (entry_from result)
        ≡ target_link (name_and_leads link.now) }
    ensures known { IsEntry (entry_from result) }
    ensures nodes { (links : List (List ℕ × Target)) (spare : List ℕ) (blocks : List Block)
        → (g : IsGroupIn image.old table links spare blocks)
        → AreNodesKept image.old image.new table (g.linked).owned }
    ensures entries { (node : ℕ) → Contains (symbol_nodes_told image.old.bytes table) node
        → symbols_at image.new.bytes (leaf_k image.new.bytes) node
        ≡ symbols_at image.old.bytes (leaf_k image.old.bytes) node }
    ensures spends { Spends image.old image.new
        (2 * (segment_block image.old.bytes table.heap).len + span (name_and_leads link.now) + 16) 2 }
{
    match link.to {
        LinkTo::Object(place) => {
            let name = add_text(image, table, link.name, 0);
            NewSymbol {
                name,
                target: target_to(place),
            }
        }
        LinkTo::Soft(text) => add_soft_texts(image, table, link.name, text),
    }
}

/// Where the entry of a link to this object leads.
fn target_to(place: ObjectPlace) -> NewTarget
    ensures { result ≡ place_target place }
{
    match place {
        ObjectPlace::Group { header, tree, heap } => NewTarget::Group { header, tree, heap },
        ObjectPlace::Array(header) => NewTarget::Dataset(header),
    }
}

/// Puts the name and the text of a soft link into the heap, and gives its entry.
fn add_soft_texts(image: &mut Image, table: SymbolTable, name: &[u8], text: &[u8]) -> NewSymbol
    requires group { IsSomeGroup image.old table [] }
    requires named { IsTrue (is_name name.now) }
    requires plain { has_zero text.now ≡ false }
    requires bytes { 2 * (segment_block image.old.bytes table.heap).len + (span_of_text name.now
        + span_of_text text.now) + 16
        ≤ image.old.room_bytes }
    requires blocks { 2 ≤ image.old.room_blocks }
    requires small { length image.old.bytes
        + (2 * (segment_block image.old.bytes table.heap).len + (span_of_text name.now
        + span_of_text text.now) + 16) ≤ most_bytes }
    ensures added { (links : List (List ℕ × Target)) (spare : List ℕ) (blocks : List Block)
        → IsGroupIn image.old table links spare blocks
        → HasGroupMoved image.old image.new table blocks links (offsets_of (entry_from result) ++ spare) }
    ensures link { link_of (segment_of image.new.bytes table.heap) (entry_from result)
        ≡ (name.now, Text text.now) }
    ensures known { IsEntry (entry_from result) }
    ensures nodes { (links : List (List ℕ × Target)) (spare : List ℕ) (blocks : List Block)
        → (g : IsGroupIn image.old table links spare blocks)
        → AreNodesKept image.old image.new table (g.linked).owned }
    ensures entries { (node : ℕ) → Contains (symbol_nodes_told image.old.bytes table) node
        → symbols_at image.new.bytes (leaf_k image.new.bytes) node
        ≡ symbols_at image.old.bytes (leaf_k image.old.bytes) node }
    ensures spends { Spends image.old image.new
        (2 * (segment_block image.old.bytes table.heap).len + (span_of_text name.now
        + span_of_text text.now) + 16) 2 }
{
    // The name comes last: so it is the first of the texts that no link names yet, as its entry has them.
    let behind = add_text(image, table, text, text_span(name) as u64);
    let offset = add_text(image, table, name, 0);
    NewSymbol {
        name: offset,
        target: NewTarget::Text(behind as u32),
    }
}

/// Puts an entry into the symbol node at the end of a way, or into two where that is full.
fn put_below(image: &mut Image, table: SymbolTable, way: &Way, name: &[u8], symbol: NewSymbol)
    requires entry { IsEntryFor image.old table (entry_from symbol) }
    requires text { heap_text image.old table symbol.name ≡ name.now }
    requires way { IsWayOf image.old table name.now way.now }
    requires low { (step : Step) (above : List Step) → way.now ≡ step ∷ above
        → IsFullWay image.old.bytes (kind_in image.old.bytes) way.now
        → length (entries_below image.old table step) ≡ 2 * leaf_k image.old.bytes → length way.now < 16 }
    requires bytes { symbol_length (leaf_k image.old.bytes) + (length way.now
        + 1) * node_length (kind_in image.old.bytes)
        ≤ image.old.room_bytes }
    requires blocks { length way.now + 2 ≤ image.old.room_blocks }
    requires small { length image.old.bytes
        + (symbol_length (leaf_k image.old.bytes) + (length way.now
        + 1) * node_length (kind_in image.old.bytes)) ≤ most_bytes }
    ensures put { HasEntryPut image.old image.new table (entry_from symbol) }
    ensures exact { HasExactKeys image.old.bytes table → HasExactKeys image.new.bytes table }
    ensures spends { Spends image.old image.new
        (symbol_length (leaf_k image.old.bytes) + (length way.now
        + 1) * node_length (kind_in image.old.bytes))
        (length way.now + 2) }
{
    widen_for(image, table, way, name, symbol.name);
    if is_full(image, table, way) {
        split_entry(image, table, way, symbol);
    } else {
        put_entry(image, table, way, symbol);
    }
}
