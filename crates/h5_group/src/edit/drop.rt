//! A symbol node without entries, taken out of a group's tree (File Format Specification 3.0, sections III.A.1 and III.B).

ghost use Rattle.std.specs.Prelude.{◌≡◌, ℕ, ◌≤◌, List, [], ◌∷◌, length};
ghost use Rattle.h5_model.specs.Format.Heap.{heap_header, segment_of};
ghost use Rattle.h5_space.specs.Moves.{Spends};
ghost use Rattle.h5_btree.specs.Removal.{EndsInTree};
ghost use Rattle.h5_btree.specs.declared.way.Step.{Step};
ghost use Rattle.h5_group.specs.Edited.{HasGroupStayed, IsSomeGroup, entries_below, node_below};
ghost use Rattle.h5_group.specs.Exact.{AreFilledBut, AreGroupKeys, HasExactKeys};
ghost use Rattle.h5_group.specs.Nodes.Trees.{kind_in};

use crate::edit::way::node_at_end;
use crate::nodes::group_kind;
use h5_btree::{Way, take_from};
use h5_msg::SymbolTable;
use h5_space::{Image, leaf_k};

/// Takes the symbol node to which a way leads out of the group's tree, and gives its block back. The links stay. Takes
/// no memory.
///
/// That a group stands at this tree and this heap, that the way ends in its tree, that the symbol node has no entries,
/// and that there is room for a call for each node on the way, are the caller's conditions.
pub(crate) fn drop_symbol_node(image: &mut Image, table: SymbolTable, way: &Way)
    requires group { (spare : List ℕ) × IsSomeGroup image.old table spare }
    requires way { (level : ℕ) × (owned : List ℕ) × (list : List ℕ) × (k : ℕ)
        × EndsInTree image.old (kind_in image.old.bytes) table.tree level way.now owned list k }
    requires empty { (step : Step) (above : List Step) → way.now ≡ step ∷ above
        → entries_below image.old table step ≡ [] }
    requires blocks { length way.now ≤ image.old.room_blocks }
    ensures stayed { HasGroupStayed image.old image.new table }
    ensures exact { (step : Step) (above : List Step) → way.now ≡ step ∷ above
        → AreGroupKeys (λ key. ⊥) image.old.bytes table
        → AreFilledBut (node_below image.old table step) image.old.bytes table
        → HasExactKeys image.new.bytes table }
    ensures header { heap_header image.new.bytes table.heap ≡ heap_header image.old.bytes table.heap }
    ensures segment { segment_of image.new.bytes table.heap ≡ segment_of image.old.bytes table.heap }
    ensures spends { Spends image.old image.new 0 (length way.now) }
{
    let kind = group_kind(image);
    let len = 8 + 80 * u64::from(leaf_k(image.bytes()));
    let node = node_at_end(image, table, way);
    take_from(image, kind, way);
    image.give(node, len);
}
