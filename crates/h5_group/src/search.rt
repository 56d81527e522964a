//! The search for a link by its name (File Format Specification 3.0, sections III.A.1 and III.B).

ghost use Rattle.std.specs.Prelude.{◌≡◌, [], ◌∷◌, IfSome, IfNone};
ghost use Rattle.std.specs.List.{Contains};
ghost use Rattle.h5_model.specs.Format.Superblock.{leaf_k};
ghost use Rattle.h5_model.specs.Format.Heap.{segment_of};
ghost use Rattle.h5_model.specs.Format.Links.{names_in};
ghost use Rattle.h5_model.specs.Format.Symbols.{symbols_at};
ghost use Rattle.h5_group.specs.Links.{IsGroupRead, IsLinkNamed, HasNone};
ghost use Rattle.h5_group.specs.Told.{symbol_nodes_told};

use crate::link::link_in;
use crate::read::{group_symbol_node, segment};
use h5_btree::{SoughtName, find_leaf};
use h5_model::Link;
use h5_msg::SymbolTable;
use h5_space::{Image, internal_k};

/// The link with this name, or `None` where the group has none.
///
/// It goes down the B-tree by its keys, and searches each node and the symbol node by halves. Takes no memory.
pub fn lookup<'a>(image: &'a Image, table: SymbolTable, name: &[u8]) -> Option<Link<'a, u64>>
    requires { IsGroupRead image.now.bytes table }
    ensures found { IfSome result (IsLinkNamed image.now.bytes table name.now) }
    ensures absent { IfNone result (HasNone image.now.bytes table name.now) }
{
    let segment = segment(image, table);
    let Some(at) = node_of(image, table, segment, name) else {
        return None;
    };
    let node = group_symbol_node(image, table, at);
    match node.find(segment, name) {
        Ok(i) => Some(link_in(segment, &node, i).link()),
        Err(_) => None,
    }
}

/// The symbol node that has the name, if the group has it; `None` where the group has no symbol node.
fn node_of(image: &Image, table: SymbolTable, segment: &[u8], name: &[u8]) -> Option<u64>
    requires group { IsGroupRead image.now.bytes table }
    requires segment { segment.now ≡ segment_of image.now.bytes table.heap }
    ensures one { IfSome result (Contains (symbol_nodes_told image.now.bytes table)) }
    ensures only { IfSome result (λ at.
        Contains (names_in (symbols_at image.now.bytes (leaf_k image.now.bytes)) segment.now
        (symbol_nodes_told image.now.bytes table)) name.now
        → Contains (names_in (symbols_at image.now.bytes (leaf_k image.now.bytes)) segment.now (at ∷ []))
        name.now) }
    ensures none { IfNone result (symbol_nodes_told image.now.bytes table ≡ []) }
{
    let bytes = image.bytes();
    let sought = SoughtName {
        k: internal_k(bytes),
        segment,
        name,
    };
    find_leaf(bytes, table.tree(), &sought).unwrap()
}
