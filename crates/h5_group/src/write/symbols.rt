//! Symbol nodes (File Format Specification 3.0, section III.B) and their entries (section III.C).
ghost use Rattle.std.specs.Prelude.{◌≡◌, ◌+◌, ◌*◌, ◌^◌, ◌<◌, ◌≤◌, ◌++◌, OnOk, IfOk, length, map, sum_by};
ghost use Rattle.std.specs.List.{flat_map};
ghost use Rattle.h5_bytes.specs.Numbers.{zeros};
ghost use Rattle.h5_model.specs.Format.Limits.{most_bytes};
ghost use Rattle.h5_model.specs.Format.Superblock.{highest_k};
ghost use Rattle.h5_model.specs.Format.Sizes.{symbol_node};
ghost use Rattle.h5_heap.specs.Writing.Links.{name_and_leads};
ghost use Rattle.h5_heap.specs.Writing.Written.{links_with_offsets, placed_links, texts_span as span};
ghost use Rattle.h5_group.specs.Writing.Written.{children_of, entry_bytes, last_name_offset, runs_of, written_symbol_node, symbol_for, symbol_nodes};
ghost use Rattle.h5_snod.specs.Written.{head_bytes};

use h5_btree::Child;
use h5_bytes::push_zeros;
use h5_heap::{ObjectPlace, link_span, text_span};
use h5_model::{Link, LinkTo};
use h5_snod::{ENTRY, HEAD, NewSymbol, NewTarget, write_entry, write_head};
use std::alloc::{AllocError, Global};

/// Room for so many bytes. `Ok` has its place.
fn push_room(out: &mut Vec<u8>, len: usize) -> Result<usize, AllocError>
    ensures room { OnOk result (out.new.items ≡ out.old.items ++ zeros len) }
    ensures place { IfOk result (λ at. at ≡ length out.old.items) }
{
    let at = out.len();
    push_zeros(out, len)?;
    Ok(at)
}

/// What stands before the entries of a symbol node.
fn push_head(out: &mut Vec<u8>, count: u16) -> Result<(), AllocError>
    ensures { OnOk result (out.new.items ≡ out.old.items ++ head_bytes count) }
{
    let at = push_room(out, HEAD)?;
    write_head(count, &mut out[at..]);
    Ok(())
}

/// The entry of a link whose name stands at this offset. It has a group's tree and heap, or the offset of a soft link's text.
fn new_symbol(name: u64, link: &Link<'_, ObjectPlace>) -> NewSymbol
    requires { name + span (name_and_leads link.now) < 2 ^ 32 }
    ensures { result ≡ symbol_for (name, name_and_leads link.now) }
{
    let target = match link.to {
        LinkTo::Object(ObjectPlace::Group { header, tree, heap }) => {
            NewTarget::Group { header, tree, heap }
        }
        LinkTo::Object(ObjectPlace::Array(header)) => NewTarget::Dataset(header),
        LinkTo::Soft(_) => NewTarget::Text(name as u32 + text_span(link.name) as u32),
    };
    NewSymbol { name, target }
}

/// The bytes of the entry of a link whose name stands at this offset.
fn push_entry(out: &mut Vec<u8>, name: u64, link: &Link<'_, ObjectPlace>) -> Result<(), AllocError>
    requires { name + span (name_and_leads link.now) < 2 ^ 32 }
    ensures { OnOk result (out.new.items ≡ out.old.items ++ entry_bytes (name, name_and_leads link.now)) }
{
    let at = push_room(out, ENTRY)?;
    write_entry(new_symbol(name, link), &mut out[at..]);
    Ok(())
}

/// The entries of these links, the first name of which stands at this offset. `Ok` has the offset behind their texts.
fn push_entries(
    out: &mut Vec<u8>,
    name: u64,
    links: &[Link<'_, ObjectPlace>],
) -> Result<u64, AllocError>
    requires { name + sum_by span (map name_and_leads links.now) < 2 ^ 32 }
    ensures entries { OnOk result
        (out.new.items ≡ out.old.items
        ++ flat_map entry_bytes (links_with_offsets name (map name_and_leads links.now))) }
    ensures next { IfOk result (λ n. n ≡ name + sum_by span (map name_and_leads links.now)) }
{
    let mut at = name;
    for link in links {
        push_entry(out, at, link)?;
        at += link_span(link) as u64;
    }
    Ok(at)
}

/// A symbol node with room for 2 `leaf` entries, filled from the left; the first name stands at this offset. `Ok` has the offset
/// behind the links' texts.
fn push_symbol_node(
    out: &mut Vec<u8>,
    leaf: u16,
    name: u64,
    links: &[Link<'_, ObjectPlace>],
) -> Result<u64, AllocError>
    requires leaf { leaf ≤ highest_k }
    requires room { length links.now ≤ 2 * leaf }
    requires names { name + sum_by span (map name_and_leads links.now) < 2 ^ 32 }
    ensures node { OnOk result
        (out.new.items
        ≡ out.old.items
        ++ written_symbol_node leaf (links_with_offsets name (map name_and_leads links.now))) }
    ensures next { IfOk result (λ n. n ≡ name + sum_by span (map name_and_leads links.now)) }
{
    push_head(out, links.len() as u16)?;
    let next = push_entries(out, name, links)?;
    push_zeros(out, (2 * usize::from(leaf) - links.len()) * ENTRY)?;
    Ok(next)
}

/// The symbol nodes of all these links.
pub(crate) fn push_symbol_nodes(
    out: &mut Vec<u8>,
    leaf: u16,
    links: &[Link<'_, ObjectPlace>],
) -> Result<(), AllocError>
    requires low { 1 ≤ leaf }
    requires high { leaf ≤ highest_k }
    requires names { 8 + sum_by span (map name_and_leads links.now) < 2 ^ 32 }
    ensures { OnOk result
        (out.new.items ≡ out.old.items
        ++ flat_map (written_symbol_node leaf) (runs_of leaf (placed_links (map name_and_leads links.now)))) }
{
    let room = 2 * usize::from(leaf);
    let mut name = 8;
    let mut from = 0;
    while from < links.len() {
        let end = from + room.min(links.len() - from);
        name = push_symbol_node(out, leaf, name, &links[from..end])?;
        from = end;
    }
    Ok(())
}

/// Where the names of some links stand.
struct Offsets {
    /// The last name's offset.
    last: u64,
    /// The offset behind the last link's texts.
    next: u64,
}

/// The offsets of these links' last name, and behind their texts; the first name stands at this offset.
fn name_offsets(name: u64, links: &[Link<'_, ObjectPlace>]) -> Offsets
    requires { name + sum_by span (map name_and_leads links.now) < 2 ^ 32 }
    ensures last { result.last ≡ last_name_offset 0 (links_with_offsets name (map name_and_leads links.now)) }
    ensures next { result.next ≡ name + sum_by span (map name_and_leads links.now) }
{
    let mut last = 0;
    let mut next = name;
    for link in links {
        last = next;
        next += link_span(link) as u64;
    }
    Offsets { last, next }
}

/// The symbol nodes of these links as the children of the tree, the first of them at this place.
pub(crate) fn symbol_children(
    alloc: Global,
    leaf: u16,
    at: u64,
    links: &[Link<'_, ObjectPlace>],
) -> Result<Vec<Child<u64>>, AllocError>
    requires low { 1 ≤ leaf }
    requires high { leaf ≤ highest_k }
    requires names { 8 + sum_by span (map name_and_leads links.now) < 2 ^ 32 }
    requires nodes { at + symbol_nodes leaf (map name_and_leads links.now) * symbol_node leaf ≤ most_bytes }
    ensures { IfOk result (λ v.
        v.items ≡ children_of leaf at (runs_of leaf (placed_links (map name_and_leads links.now)))) }
{
    let room = 2 * usize::from(leaf);
    let mut children = Vec::new(alloc);
    let mut node = at;
    let mut name = 8;
    let mut from = 0;
    while from < links.len() {
        let end = from + room.min(links.len() - from);
        let Offsets { last, next } = name_offsets(name, &links[from..end]);
        children.push(Child {
            at: node,
            key: last,
        })?;
        node += 8 + 80 * u64::from(leaf);
        name = next;
        from = end;
    }
    Ok(children)
}
