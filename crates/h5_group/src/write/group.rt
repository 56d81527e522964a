//! A group's links, one part behind another.
ghost use Rattle.std.specs.Prelude.{◌≡◌, ◌+◌, ◌≤◌, ◌++◌, OnOk, map};
ghost use Rattle.h5_model.specs.Format.Limits.{most_bytes};
ghost use Rattle.h5_model.specs.Format.Superblock.{AreK};
ghost use Rattle.h5_heap.specs.Writing.Links.{name_and_leads};
ghost use Rattle.h5_group.specs.Writing.Written.{links_bytes};
ghost use Rattle.h5_group.specs.Writing.Places.{ArePlaces};

use crate::write::places::GroupPlaces;
use crate::write::symbols::{push_symbol_nodes, symbol_children};
use h5_btree::{NodeKind, push_tree};
use h5_heap::{ObjectPlace, push_heap};
use h5_model::{KValues, Link};
use std::alloc::{AllocError, Global};

/// Appends the B-tree, the heap and the symbol nodes of these links, for an image with these K values. They begin at the address `at`,
/// and `places` says how they lie.
///
/// Takes memory for a child of the tree for each symbol node, besides what it appends.
///
/// # Errors
///
/// `AllocError` if memory is refused. How many of the bytes stand in `out` then is left open.
pub fn push_links(
    alloc: Global,
    out: &mut Vec<u8>,
    k: &KValues,
    at: u64,
    places: &GroupPlaces,
    links: &[Link<'_, ObjectPlace>],
) -> Result<(), AllocError>
    requires k { AreK k.now.leaf k.now.internal }
    requires places { ArePlaces k.now.leaf k.now.internal (map name_and_leads links.now) places.now }
    requires low { at + places.now.length ≤ most_bytes }
    ensures { OnOk result
        (out.new.items ≡ out.old.items
        ++ links_bytes k.now.leaf k.now.internal at (map name_and_leads links.now)) }
{
    let heap = at + places.tree;
    let symbols = heap + 32 + places.segment;
    let children = symbol_children(alloc, k.leaf, symbols, links)?;
    push_tree(alloc, out, &NodeKind::group(k.internal), 0, at, &children)?;
    push_heap(out, heap, places.segment, links)?;
    push_symbol_nodes(out, k.leaf, links)?;
    Ok(())
}
