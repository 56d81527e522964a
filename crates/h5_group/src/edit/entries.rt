//! Entries of a symbol node, put in and taken out where it stands (File Format Specification 3.0, sections III.B and III.C).

ghost use Rattle.std.specs.Prelude.{◌≡◌, ℕ, ◌*◌, ◌<◌, ◌≤◌, Some, List, [], ◌∷◌, length, slice_get};
ghost use Rattle.std.specs.List.{Contains, remove};
ghost use Rattle.h5_bytes.specs.declared.Block.{Block};
ghost use Rattle.h5_model.specs.Format.Heap.{segment_of};
ghost use Rattle.h5_model.specs.Format.Superblock.{leaf_k as leaf_of};
ghost use Rattle.h5_model.specs.Format.Symbols.{Entry, Target, symbols_at};
ghost use Rattle.h5_space.specs.Moves.{Spends};
ghost use Rattle.h5_btree.specs.Removal.{EndsInTree};
ghost use Rattle.h5_btree.specs.declared.way.Step.{Step};
ghost use Rattle.h5_snod.specs.Names.{IsPlace, entry_names};
ghost use Rattle.h5_snod.specs.Written.{entry_from};
ghost use Rattle.h5_group.specs.Edited.{HasEntryPut, HasEntryTaken, IsEntryFor, IsGroupIn, IsNewName, IsSomeGroup, IsWayFor, entries_below, heap_text, node_below};
ghost use Rattle.h5_group.specs.Exact.{AreExactBut, AreFilledBut, AreKeysLooked, HasExactKeys, HasKeysFor};
ghost use Rattle.h5_group.specs.Nodes.Trees.{kind_in};
ghost use Rattle.h5_group.specs.Told.{symbol_nodes_told};

use crate::edit::symbols::{put_in, take_at};
use crate::edit::way::node_at_end;
use crate::read::{group_symbol_node, segment};
use h5_btree::Way;
use h5_bytes::text_from;
use h5_msg::SymbolTable;
use h5_snod::NewSymbol;
use h5_space::{Image, leaf_k};

/// Puts an entry into the symbol node to which a way leads, at the place of its name. Takes no room and no memory.
///
/// These are the caller's conditions: the texts that the entry names stand in the group's heap, and no link names them;
/// no link has its name, which lies between the keys around each child on the way; and the symbol node is not full.
pub(crate) fn put_entry(image: &mut Image, table: SymbolTable, way: &Way, symbol: NewSymbol)
    requires entry { IsEntryFor image.old table (entry_from symbol) }
    requires way { IsWayFor image.old table (heap_text image.old table symbol.name) way.now }
    requires room { (step : Step) (above : List Step) → way.now ≡ step ∷ above
        → length (entries_below image.old table step) < 2 * leaf_of image.old.bytes }
    ensures put { HasEntryPut image.old image.new table (entry_from symbol) }
    ensures exact { HasKeysFor symbol.name image.old.bytes table → HasExactKeys image.new.bytes table }
    ensures segment { segment_of image.new.bytes table.heap ≡ segment_of image.old.bytes table.heap }
    ensures spends { Spends image.old image.new 0 0 }
{
    let node = node_at_end(image, table, way);
    let k = name_place(image, table, node, symbol.name);
    let leaf = leaf_k(image.bytes());
    put_in(image, leaf, node, k, symbol);
}

/// Takes entry `k` out of one of a group's symbol nodes, which may be left without entries. Takes no room and no memory.
pub(crate) fn take_entry(image: &mut Image, table: SymbolTable, node: u64, k: usize)
    requires group { (spare : List ℕ) × IsSomeGroup image.old table spare }
    requires node { Contains (symbol_nodes_told image.old.bytes table) node }
    requires place { k < length (symbols_at image.old.bytes (leaf_of image.old.bytes) node) }
    ensures taken { (e : Entry)
        → slice_get (symbols_at image.old.bytes (leaf_of image.old.bytes) node) k ≡ Some e
        → HasEntryTaken image.old image.new table e }
    ensures exact { (e : Entry)
        → slice_get (symbols_at image.old.bytes (leaf_of image.old.bytes) node) k ≡ Some e
        → HasExactKeys image.old.bytes table
        → (way : List Step) (level : ℕ) (owned list : List ℕ) (number : ℕ)
        → EndsInTree image.old (kind_in image.old.bytes) table.tree level way owned list number
        → ((step : Step) (above : List Step) → way ≡ step ∷ above → node ≡ node_below image.old table step)
        → AreExactBut e.name image.new.bytes table × AreKeysLooked e.name (Some way) image.new.bytes table
        × AreFilledBut node image.new.bytes table }
    ensures ways { (way : List Step) (level : ℕ) (owned list : List ℕ) (number : ℕ)
        → EndsInTree image.old (kind_in image.old.bytes) table.tree level way owned list number
        → EndsInTree image.new (kind_in image.new.bytes) table.tree level way owned list number }
    ensures below { (step : Step) (above : List Step) (level : ℕ) (owned list : List ℕ) (number : ℕ)
        → EndsInTree image.old (kind_in image.old.bytes) table.tree level (step ∷ above) owned list number
        → node_below image.new table step ≡ node_below image.old table step }
    ensures segment { segment_of image.new.bytes table.heap ≡ segment_of image.old.bytes table.heap }
    ensures entries { symbols_at image.new.bytes (leaf_of image.new.bytes) node
        ≡ remove (symbols_at image.old.bytes (leaf_of image.old.bytes) node) k }
    ensures spends { Spends image.old image.new 0 0 }
{
    let leaf = leaf_k(image.bytes());
    take_at(image, leaf, node, k);
}

/// The place of the name at an offset of the heap, which no link has, among those in one of the symbol nodes.
pub(crate) fn name_place(image: &Image, table: SymbolTable, node: u64, offset: u64) -> usize
    requires node { Contains (symbol_nodes_told image.now.bytes table) node }
    requires new_name { (links : List (List ℕ × Target)) × (spare : List ℕ) × (blocks : List Block)
        × IsGroupIn image.now table links spare blocks
        × IsNewName (heap_text image.now table offset) links }
    ensures { IsPlace (entry_names (segment_of image.now.bytes table.heap)
        (symbols_at image.now.bytes (leaf_of image.now.bytes) node))
        (heap_text image.now table offset) result }
{
    let segment = segment(image, table);
    let symbols = group_symbol_node(image, table, node);
    match symbols.find(segment, text_from(segment, offset)) {
        Ok(k) | Err(k) => k,
    }
}
