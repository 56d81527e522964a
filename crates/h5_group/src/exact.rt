//! Whether a group has exact keys (File Format Specification 3.0, sections III.A.1 and III.B).

ghost use Rattle.std.specs.Prelude.{◌↔◌, ◌≤◌, IsTrue, length};
ghost use Rattle.h5_model.specs.Format.Superblock.{leaf_k as leaf_of, internal_k as internal_of, highest_k};
ghost use Rattle.h5_btree.specs.Retired.{StandsUnder};
ghost use Rattle.h5_group.specs.Exact.{AreFilledUnder, HasExactKeys};
ghost use Rattle.h5_group.specs.Links.{IsGroupRead};
ghost use Rattle.h5_group.specs.Nodes.Trees.{kind_in};
ghost use Rattle.h5_group.specs.Retired.{StandsAt};

use crate::edit::KeysOf;
use crate::nodes::{group_kind, symbol_node, tree_node};
use h5_btree::are_keys_exact;
use h5_msg::SymbolTable;
use h5_space::{Image, leaf_k};

/// Whether the group has exact keys: the key behind each child of a node of its tree names the last link below that
/// child, and each symbol node has an entry. Then a link is taken out of it (`remove_link`) without a look at each key.
///
/// Takes no memory. It looks at each node and each symbol node twice.
pub fn has_exact_keys(image: &Image, table: SymbolTable) -> bool
    requires { IsGroupRead image.now.bytes table }
    ensures { IsTrue result ↔ HasExactKeys image.now.bytes table }
{
    let level = tree_node(image, table.tree()).level();
    // Which keys would give way is of no account here: the keys of entries alone are.
    let keys = KeysOf {
        leaf: leaf_k(image.bytes()),
        offset: 0,
    };
    are_filled(image, u16::from(level) + 1, table.tree())
        && are_keys_exact(image, group_kind(image), table.tree(), &keys)
}

/// Whether each symbol node so many levels below an address has an entry.
fn are_filled(image: &Image, height: u16, at: u64) -> bool
    requires long { 26 ≤ length image.now.bytes }
    requires few { internal_of image.now.bytes ≤ highest_k }
    requires under { StandsUnder (StandsAt (leaf_of image.now.bytes) image.now.bytes) image.now.bytes
        (kind_in image.now.bytes) height at }
    ensures { IsTrue result ↔ AreFilledUnder image.now.bytes height at }
{
    if height == 0 {
        return !symbol_node(image, at).is_empty();
    }
    let node = tree_node(image, at);
    for i in 0..node.len() {
        if !are_filled(image, height - 1, node.child(i)) {
            return false;
        }
    }
    true
}
