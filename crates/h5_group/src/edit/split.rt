//! Entries for which a group needs one symbol node more (File Format Specification 3.0, sections III.A.1 and III.B).

ghost use Rattle.std.specs.Prelude.{◌≡◌, ℕ, ◌+◌, ◌*◌, ◌^◌, ◌<◌, ◌≤◌, List, [], ◌∷◌, ◌++◌, drop, length, take};
ghost use Rattle.h5_bytes.specs.Blocks.{Inside};
ghost use Rattle.h5_bytes.specs.Numbers.{word};
ghost use Rattle.h5_model.specs.Format.Heap.{heap_blocks, segment_of};
ghost use Rattle.h5_model.specs.Format.Nodes.{node_at, node_length};
ghost use Rattle.h5_model.specs.Format.Superblock.{leaf_k as leaf_of, highest_k};
ghost use Rattle.h5_model.specs.Format.Symbols.{Entry, IsSymbolNode, symbol_block, symbol_bytes, symbols_at};
ghost use Rattle.h5_space.specs.Moves.{Spends};
ghost use Rattle.h5_space.specs.Whole.{IsApart};
ghost use Rattle.h5_snod.specs.Written.{entry_from};
ghost use Rattle.h5_btree.specs.Held.{AreHeldKeys};
ghost use Rattle.h5_btree.specs.Insertion.{IsFullWay};
ghost use Rattle.h5_btree.specs.Removal.{EndsSomewhere};
ghost use Rattle.h5_btree.specs.declared.way.Step.{Step};
ghost use Rattle.h5_group.specs.Edited.{HasEntryPut, IsEntryFor, IsWayFor, entries_below, heap_text};
ghost use Rattle.h5_group.specs.Exact.{HasExactKeys, HasKeysFor};
ghost use Rattle.h5_group.specs.Nodes.Trees.{kind_in};
ghost use Rattle.h5_group.specs.Split.{AreHalves, AreNewSymbols, IsCutInTwo, follows_in};

use crate::edit::entries::name_place;
use crate::edit::symbols::{drop_entries, keep_entries, put_in};
use crate::edit::way::{NameKeys, node_at_end};
use crate::nodes::group_kind;
use h5_btree::{NodeKind, Way, hold_keys, put_at, put_first};
use h5_bytes::put_u64;
use h5_heap::segment_at;
use h5_msg::SymbolTable;
use h5_snod::{NewSymbol, known_symbol_node, write_symbol_node};
use h5_space::{Image, leaf_k};

/// Bytes of the keys that come in along a way: 8 for each of its levels, which are 16 at most.
const KEYS: usize = 128;

/// Puts the first entry into a group without symbol nodes: a new symbol node, the root's only child, between the empty
/// name and the entry's own.
///
/// That the entry's texts stand in the heap, and that there is room for the symbol node, are the caller's conditions.
/// Takes no memory.
pub(crate) fn put_first_entry(image: &mut Image, table: SymbolTable, symbol: NewSymbol)
    requires entry { IsEntryFor image.old table (entry_from symbol) }
    requires empty { (node_at image.old.bytes (kind_in image.old.bytes) table.tree).children ≡ [] }
    requires bytes { 8 + 80 * leaf_of image.old.bytes ≤ image.old.room_bytes }
    requires blocks { 1 ≤ image.old.room_blocks }
    requires short { length image.old.bytes + (8 + 80 * leaf_of image.old.bytes) < 2 ^ 63 }
    ensures put { HasEntryPut image.old image.new table (entry_from symbol) }
    ensures exact { HasExactKeys image.new.bytes table }
    ensures spends { Spends image.old image.new (8 + 80 * leaf_of image.old.bytes) 1 }
{
    let kind = group_kind(image);
    let leaf = leaf_k(image.bytes());
    let new = new_symbols(image, leaf, symbol);
    let name = symbol.name.to_le_bytes();
    put_first(image, kind, table.tree(), &[0; 8], &name, new);
}

/// Puts an entry into the symbol node to which a way leads, which is full: it is cut in two, and the new half comes into
/// the tree behind the old one.
///
/// These are the caller's conditions: the texts that the entry names stand in the group's heap, and no link names them;
/// no link has its name, which lies between the keys around each child on the way; there is room for the symbol node, for
/// a node for each level and for one more; and the root is not at level 15 where the whole way is full. Takes no memory.
pub(crate) fn split_entry(image: &mut Image, table: SymbolTable, way: &Way, symbol: NewSymbol)
    requires entry { IsEntryFor image.old table (entry_from symbol) }
    requires way { IsWayFor image.old table (heap_text image.old table symbol.name) way.now }
    requires full { (step : Step) (above : List Step) → way.now ≡ step ∷ above
        → length (entries_below image.old table step) ≡ 2 * leaf_of image.old.bytes }
    requires low { IsFullWay image.old.bytes (kind_in image.old.bytes) way.now → length way.now < 16 }
    requires bytes { (8 + 80 * leaf_of image.old.bytes)
        + (length way.now + 1) * node_length (kind_in image.old.bytes) ≤ image.old.room_bytes }
    requires blocks { length way.now + 2 ≤ image.old.room_blocks }
    requires short { length image.old.bytes + ((8 + 80 * leaf_of image.old.bytes)
        + (length way.now + 1) * node_length (kind_in image.old.bytes)) < 2 ^ 63 }
    ensures put { HasEntryPut image.old image.new table (entry_from symbol) }
    ensures exact { HasKeysFor symbol.name image.old.bytes table → HasExactKeys image.new.bytes table }
    ensures spends { Spends image.old image.new ((8 + 80 * leaf_of image.old.bytes)
        + (length way.now + 1) * node_length (kind_in image.old.bytes)) (length way.now + 2) }
{
    let kind = group_kind(image);
    let leaf = leaf_k(image.bytes());
    let node = node_at_end(image, table, way);
    let place = name_place(image, table, node, symbol.name);
    let new = cut(image, leaf, node, place, symbol);
    let keys = keys_behind(image, table, kind, leaf, way, node);
    put_at(image, kind, way, true, &keys, new);
}

/// The keys that come in along a way behind the child at its end, which is a symbol node: the first names the last name
/// in it.
fn keys_behind(
    image: &Image,
    table: SymbolTable,
    kind: NodeKind,
    leaf: u16,
    way: &Way,
    node: u64,
) -> [u8; KEYS]
    requires ends { EndsSomewhere image.now kind way.now }
    requires width { kind.key_length ≡ 8 }
    requires inside { node + (8 + 80 * leaf) ≤ length image.now.bytes }
    requires form { IsSymbolNode leaf (symbol_bytes image.now.bytes leaf node) }
    requires some { 1 ≤ length (symbols_at image.now.bytes leaf node) }
    requires heap { Inside (length image.now.bytes) (heap_blocks image.now.bytes table.heap) }
    ensures first { (front : List Entry) (last : Entry)
        → symbols_at image.now.bytes leaf node ≡ front ++ last ∷ []
        → take 8 result ≡ word last.name }
    ensures held { (step : Step) (above : List Step) → way.now ≡ step ∷ above
        → AreHeldKeys image.now.bytes kind (follows_in (segment_of image.now.bytes table.heap)) step.node
        above
        (step.place + 1) result }
{
    let mut keys = [0; KEYS];
    put_u64(&mut keys, 0, last_name(image, leaf, node));
    let names = NameKeys {
        segment: segment_at(image, table.heap()),
    };
    hold_keys(image, kind, &names, way, true, &mut keys);
    keys
}

/// The offset of the last name in a symbol node.
fn last_name(image: &Image, leaf: u16, node: u64) -> u64
    requires inside { node + (8 + 80 * leaf) ≤ length image.now.bytes }
    requires form { IsSymbolNode leaf (symbol_bytes image.now.bytes leaf node) }
    requires some { 1 ≤ length (symbols_at image.now.bytes leaf node) }
    ensures { (front : List Entry) (last : Entry)
        → symbols_at image.now.bytes leaf node ≡ front ++ last ∷ []
        → result ≡ last.name }
{
    let bytes = image.part(node, 8 + 80 * u64::from(leaf)).unwrap();
    let symbols = known_symbol_node(leaf, bytes);
    symbols.entry(symbols.len() - 1).name
}

/// Takes a block for a symbol node of this entry alone, and gives its address.
fn new_symbols(image: &mut Image, leaf: u16, symbol: NewSymbol) -> u64
    requires some { 1 ≤ leaf }
    requires bytes { 8 + 80 * leaf ≤ image.old.room_bytes }
    requires blocks { 1 ≤ image.old.room_blocks }
    ensures { AreNewSymbols image.old image.new leaf result (entry_from symbol ∷ []) }
{
    let len = 8 + 80 * u64::from(leaf);
    let new = image.take(len);
    let node = image.part_at_mut(new, len);
    write_symbol_node(&[symbol], node);
    new
}

/// Cuts a full symbol node in two, with an entry more at index `j`, and gives where its right half stands.
fn cut(image: &mut Image, leaf: u16, at: u64, j: usize, symbol: NewSymbol) -> u64
    requires inside { at + (8 + 80 * leaf) ≤ length image.old.bytes }
    requires form { IsSymbolNode leaf (symbol_bytes image.old.bytes leaf at) }
    requires full { length (symbols_at image.old.bytes leaf at) ≡ 2 * leaf }
    requires apart { IsApart (symbol_block leaf at ∷ []) image.old.free (length image.old.bytes) }
    requires place { j ≤ 2 * leaf }
    requires some { 1 ≤ leaf }
    requires few { leaf ≤ highest_k }
    requires bytes { 8 + 80 * leaf ≤ image.old.room_bytes }
    requires blocks { 1 ≤ image.old.room_blocks }
    ensures { IsCutInTwo image.old image.new leaf at j (entry_from symbol) result }
{
    let half = usize::from(leaf);
    if j < half {
        let new = halve(image, leaf, at, half - 1);
        put_in(image, leaf, at, j, symbol);
        return new;
    }
    if j == half {
        let new = halve(image, leaf, at, half);
        put_in(image, leaf, at, j, symbol);
        return new;
    }
    let new = halve(image, leaf, at, half + 1);
    put_in(image, leaf, new, j - (half + 1), symbol);
    new
}

/// Cuts a symbol node in two: its first `n` entries stay, and the others are those of a new one, whose address it gives.
fn halve(image: &mut Image, leaf: u16, at: u64, n: usize) -> u64
    requires inside { at + (8 + 80 * leaf) ≤ length image.old.bytes }
    requires form { IsSymbolNode leaf (symbol_bytes image.old.bytes leaf at) }
    requires apart { IsApart (symbol_block leaf at ∷ []) image.old.free (length image.old.bytes) }
    requires place { n ≤ length (symbols_at image.old.bytes leaf at) }
    requires few { leaf ≤ highest_k }
    requires bytes { 8 + 80 * leaf ≤ image.old.room_bytes }
    requires blocks { 1 ≤ image.old.room_blocks }
    ensures { AreHalves image.old image.new leaf at result (take n (symbols_at image.old.bytes leaf at))
        (drop n (symbols_at image.old.bytes leaf at)) }
{
    let len = 8 + 80 * u64::from(leaf);
    let new = image.take(len);
    image.copy(at, len, new);
    drop_entries(image, leaf, new, n);
    keep_entries(image, leaf, at, n);
    new
}
