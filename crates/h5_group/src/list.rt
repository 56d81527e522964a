//! All links of a group (File Format Specification 3.0, section III.B).

ghost use Rattle.std.specs.Prelude.{◌≡◌, ◌+◌, ◌^◌, ◌<◌, [], ◌∷◌, IfOk, MatchOption, OnSome, drop, length, map};
ghost use Rattle.std.specs.Iterator.{YieldsFirst, item_count};
ghost use Rattle.std.specs.List.{Contains};
ghost use Rattle.h5_model.specs.Format.Superblock.{leaf_k};
ghost use Rattle.h5_model.specs.Format.Symbols.{symbols_at, link_of};
ghost use Rattle.h5_group.specs.Links.{IsGroupRead};
ghost use Rattle.h5_group.specs.LinksLeft.{entries_under_way};
ghost use Rattle.h5_group.specs.Told.{links_told, symbol_nodes_told};

use crate::link::{GroupLink, link_in};
use crate::nodes::{self, SymbolNodes};
use crate::read::{group_symbol_node, segment};
use h5_btree::tree_leaves;
use h5_msg::SymbolTable;
use h5_snod::SymbolNode;
use h5_space::Image;
use std::alloc::{AllocError, Global};
use std::marker::Model;

/// The links of a group that are left, in ascending order of the bytes of their names. No step takes memory.
#[derive(Drop)]
pub struct Links<'a> {
    image: &'a Image,
    /// The texts of the group.
    segment: &'a [u8],
    /// The addresses of the symbol nodes, from left to right.
    nodes: Vec<u64>,
    /// How many of these were begun.
    begun: usize,
    /// The one under way, if any was begun.
    node: Option<SymbolNode<'a>>,
    /// The place of its next entry.
    place: usize,
}

impl<'a> Model for Links<'a> {
    ghost use Rattle.std.specs.Prelude.{ℕ, ◌^◌, ◌<◌, ◌≤◌, List, drop, length};
    ghost use Rattle.h5_model.specs.Format.Symbols.{Target};
    ghost use Rattle.h5_group.specs.LinksLeft.{AreSymbolsThere, links_left};

    ghost Value = { List (List ℕ × Target) };

    ghost view = { λ l. links_left l.image.now.bytes l.segment.now l.node l.place (drop l.begun l.nodes.items) };

    ghost invariant = { λ l. AreSymbolsThere l.image.now.bytes (drop l.begun l.nodes.items)
        × (l.begun ≤ length l.nodes.items)
        × (length (links_left l.image.now.bytes l.segment.now l.node l.place (drop l.begun l.nodes.items)) < 2 ^ 64) };
}

impl<'a> Links<'a> {
    /// No links.
    pub fn none(alloc: Global, image: &'a Image) -> Self
        ensures { result ≡ [] }
    {
        Links {
            image,
            segment: &[],
            nodes: Vec::new(alloc),
            begun: 0,
            node: None,
            place: 0,
        }
    }

    /// How many links are left. Looks at each symbol node that is left.
    pub fn len(&self) -> usize
        ensures { result ≡ length self.now }
    {
        let mut count = entries_behind(&self.node, self.place);
        for at in &self.nodes[self.begun..] {
            count += nodes::symbol_node(self.image, *at).len();
        }
        count
    }
}

impl<'a> Iterator for Links<'a> {
    type Item = GroupLink<'a>;

    ghost next_gives = { YieldsFirst (λ left. left) };

    ghost remaining = { item_count (λ left. left) };

    fn next(&mut self) -> Option<GroupLink<'a>> {
        loop {
            if let Some(link) = link_at(self.segment, &self.node, self.place) {
                self.place += 1;
                return Some(link);
            }
            let at = *self.nodes.get(self.begun)?;
            self.node = Some(nodes::symbol_node(self.image, at));
            self.begun += 1;
            self.place = 0;
        }
    }
}

/// The link of entry `i` of the symbol node under way, or `None` where there is no such entry.
fn link_at<'a>(segment: &'a [u8], node: &Option<SymbolNode<'_>>, i: usize) -> Option<GroupLink<'a>>
    ensures link { let links = map (link_of segment.now) (drop i (entries_under_way node.now)) in
        MatchOption result (links ≡ []) (λ link.
        links ≡ link ∷ map (link_of segment.now) (drop (i + 1) (entries_under_way node.now))) }
    ensures next { OnSome result (i + 1 < 2 ^ 64) }
{
    match node {
        Some(node) if i < node.len() => Some(link_in(segment, node, i)),
        _ => None,
    }
}

/// How many entries of the symbol node under way stand from this place on.
fn entries_behind(node: &Option<SymbolNode<'_>>, place: usize) -> usize
    ensures { result ≡ length (drop place (entries_under_way node.now)) }
{
    match node {
        Some(node) => node.len().saturating_sub(place),
        None => 0,
    }
}

/// The links of the group.
///
/// Takes memory for the addresses of the symbol nodes.
///
/// # Errors
///
/// `AllocError` if memory is refused.
pub fn group_links<'a>(
    alloc: Global,
    image: &'a Image,
    table: SymbolTable,
) -> Result<Links<'a>, AllocError>
    requires { IsGroupRead image.now.bytes table }
    ensures { IfOk result (λ links. links ≡ links_told image.now.bytes table) }
{
    Ok(Links {
        image,
        segment: segment(image, table),
        nodes: symbol_nodes(alloc, image, table)?,
        begun: 0,
        node: None,
        place: 0,
    })
}

/// The addresses of the symbol nodes of the group, from left to right.
///
/// Goes down the B-tree row by row, and takes memory for one row and the next.
///
/// # Errors
///
/// `AllocError` if memory is refused.
pub fn symbol_nodes(
    alloc: Global,
    image: &Image,
    table: SymbolTable,
) -> Result<Vec<u64>, AllocError>
    requires { IsGroupRead image.now.bytes table }
    ensures { IfOk result (λ nodes. nodes.items ≡ symbol_nodes_told image.now.bytes table) }
{
    tree_leaves(alloc, image, &SymbolNodes, table.tree())
}

/// How many entries the symbol node at the address `node` has. Takes no memory.
///
/// That it is a symbol node of the group is the caller's condition.
pub fn links_at(image: &Image, table: SymbolTable, node: u64) -> usize
    requires group { IsGroupRead image.now.bytes table }
    requires node { Contains (symbol_nodes_told image.now.bytes table) node }
    ensures { result ≡ length (symbols_at image.now.bytes (leaf_k image.now.bytes) node) }
{
    group_symbol_node(image, table, node).len()
}
