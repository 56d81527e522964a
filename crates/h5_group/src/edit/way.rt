//! The way to a name in the tree of a group, and the keys along it (File Format Specification 3.0, section III.A.1).

ghost use Rattle.std.specs.Prelude.{◌≡◌, ◌↔◌, ℕ, List, [], ◌∷◌, IfNone, IfSome, IsTrue};
ghost use Rattle.std.specs.List.{Contains};
ghost use Rattle.std.specs.Cmp.Lexicographic.{slice_cmp};
ghost use Rattle.std.specs.Ordering.{is_le, nat_cmp};
ghost use Rattle.h5_bytes.specs.declared.Block.{Block};
ghost use Rattle.h5_model.specs.Format.Heap.{segment_of};
ghost use Rattle.h5_model.specs.Format.Links.{names_in};
ghost use Rattle.h5_model.specs.Format.Nodes.{node_at};
ghost use Rattle.h5_model.specs.Format.Superblock.{leaf_k};
ghost use Rattle.h5_model.specs.Format.Symbols.{Target, symbols_at};
ghost use Rattle.h5_model.specs.Tree.Paths.{is_name};
ghost use Rattle.h5_laws.specs.NameLadders.{key_text};
ghost use Rattle.h5_space.specs.Moves.{Spends};
ghost use Rattle.h5_btree.specs.Insertion.{IsFullWay};
ghost use Rattle.h5_btree.specs.Removal.{EndsInTree};
ghost use Rattle.h5_btree.specs.Widened.{ends_along};
ghost use Rattle.h5_btree.specs.declared.way.Step.{Step};
ghost use Rattle.h5_group.specs.Edited.{HasGroupMoved, IsGroupIn, IsSomeGroup, IsWayFor, entries_below, heap_text, node_below};
ghost use Rattle.h5_group.specs.Exact.{HasExactKeys, HasKeysFor};
ghost use Rattle.h5_group.specs.Nodes.Trees.{kind_in};
ghost use Rattle.h5_group.specs.Told.{symbol_nodes_told};
ghost use Rattle.h5_group.specs.Ways.{HasSpare, IsWayOf, behind_of};

use crate::nodes::{group_kind, tree_node};
use h5_btree::{Ends, Follows, SoughtName, Way, ends_to_widen, find_way, widen};
use h5_bytes::{text_from, u64_at};
use h5_heap::segment_at;
use h5_msg::SymbolTable;
use h5_space::{Image, internal_k};

/// Which key of a group's tree may follow which: one that does not stand for a lower name. The names stand in this
/// segment of its heap.
#[derive(Clone, Copy)]
pub(crate) struct NameKeys<'a> {
    pub(crate) segment: &'a [u8],
}

impl Follows for NameKeys<'_> {
    ghost follows = { λ s key next. is_le (slice_cmp nat_cmp (key_text s.segment.now key) (key_text
        s.segment.now next)) };

    fn may_follow(&self, key: &[u8], next: &[u8]) -> bool {
        text_from(self.segment, u64_at(key, 0))
            .cmp(&text_from(self.segment, u64_at(next, 0)))
            .is_le()
    }
}

/// The way down the group's tree to the symbol node that has this name, or is to have it; `None` where the group has no
/// symbol node. Takes no memory.
pub(crate) fn way_to(image: &Image, table: SymbolTable, name: &[u8]) -> Option<Way>
    requires group { (spare : List ℕ) × IsSomeGroup image.now table spare }
    ensures none { IfNone result ((node_at image.now.bytes (kind_in image.now.bytes) table.tree).children
        ≡ []) }
    ensures leads { IfSome result (λ way. (links : List (List ℕ
        × Target)) (spare : List ℕ) (blocks : List Block)
        → (g : IsGroupIn image.now table links spare blocks)
        → (k : ℕ) × EndsInTree image.now (kind_in image.now.bytes) table.tree (g.linked).level way
        (g.linked).owned (g.linked).symbol_nodes k) }
    ensures sought { IfSome result (IsWayOf image.now table name.now) }
    ensures only { IfSome result (λ way. (step : Step) (above : List Step) → way ≡ step ∷ above
        → Contains (names_in (symbols_at image.now.bytes (leaf_k image.now.bytes))
        (segment_of image.now.bytes table.heap) (symbol_nodes_told image.now.bytes table)) name.now
        → Contains (names_in (symbols_at image.now.bytes (leaf_k image.now.bytes))
        (segment_of image.now.bytes table.heap) (node_below image.now table step ∷ [])) name.now) }
{
    let bytes = image.bytes();
    let sought = SoughtName {
        k: internal_k(bytes),
        segment: segment_at(image, table.heap()),
        name,
    };
    find_way(bytes, table.tree(), &sought).unwrap()
}

/// The address of the symbol node to which a way leads. Takes no memory.
///
/// That a group stands at this tree and this heap, and that the way ends in its tree, are the caller's conditions.
pub(crate) fn node_at_end(image: &Image, table: SymbolTable, way: &Way) -> u64
    requires group { (spare : List ℕ) × IsSomeGroup image.now table spare }
    requires way { (level : ℕ) × (owned : List ℕ) × (list : List ℕ) × (k : ℕ)
        × EndsInTree image.now (kind_in image.now.bytes) table.tree level way.now owned list k }
    ensures node { (step : Step) (above : List Step) → way.now ≡ step ∷ above
        → result ≡ node_below image.now table step }
    ensures one { Contains (symbol_nodes_told image.now.bytes table) result }
{
    let step = way.steps()[0];
    tree_node(image, step.node).child(step.place)
}

/// Lets the end keys of the nodes on a way give way, so that a name lies between the keys around each child on it: a
/// first key that is not below the name becomes the empty name, and a last key that is below it becomes the name itself,
/// whose text stands at `offset` of the heap.
///
/// All links stay, and the symbol node to which the way leads. Takes no room and no memory.
pub(crate) fn widen_for(image: &mut Image, table: SymbolTable, way: &Way, name: &[u8], offset: u64)
    requires group { HasSpare image.old table offset }
    requires text { heap_text image.old table offset ≡ name.now }
    requires name { IsTrue (is_name name.now) }
    requires way { IsWayOf image.old table name.now way.now }
    ensures way { IsWayFor image.new table name.now way.now }
    ensures group { (links : List (List ℕ × Target)) (spare : List ℕ) (blocks : List Block)
        → IsGroupIn image.old table links spare blocks → Contains spare offset
        → HasGroupMoved image.old image.new table blocks links spare }
    ensures exact { HasExactKeys image.old.bytes table → HasKeysFor offset image.new.bytes table }
    ensures below { (step : Step) (above : List Step) → way.now ≡ step ∷ above
        → (node_below image.new table step ≡ node_below image.old table step)
        × (entries_below image.new table step ≡ entries_below image.old table step) }
    ensures segment { segment_of image.new.bytes table.heap ≡ segment_of image.old.bytes table.heap }
    ensures full { IsFullWay image.new.bytes (kind_in image.new.bytes) way.now
        ↔ IsFullWay image.old.bytes (kind_in image.old.bytes) way.now }
    ensures spends { Spends image.old image.new 0 0 }
{
    let kind = group_kind(image);
    let ends = ends_for(image, table, way, name);
    widen(image, kind, way, &ends, &[0; 8], &offset.to_le_bytes());
}

/// Which end keys of the nodes on a way do not let in a name.
fn ends_for(image: &Image, table: SymbolTable, way: &Way, name: &[u8]) -> Ends
    requires group { (spare : List ℕ) × IsSomeGroup image.now table spare }
    requires way { IsWayOf image.now table name.now way.now }
    ensures { result ≡ ends_along (node_at image.now.bytes (kind_in image.now.bytes))
        (behind_of image.now table name.now) 0 way.now }
{
    let sought = SoughtName {
        k: internal_k(image.bytes()),
        segment: segment_at(image, table.heap()),
        name,
    };
    ends_to_widen(image, &sought, way, 0)
}
