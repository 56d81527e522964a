//! Chunks that are stored behind their tree, as they are appended (File Format Specification 3.0, sections III.A.1 and IV.A.2.i).
ghost use Rattle.std.specs.Prelude.{◌≡◌, ℕ, ℤ, ◌+◌, ◌-◌, ◌*◌, ◌^◌, ◌<◌, ◌≤◌, ◌++◌, ◌∷◌, IfOk, List, OnOk, Some, drop, length, map, nat_le, slice_get};
ghost use Rattle.std.specs.List.{AllByRecursion};
ghost use Rattle.h5_model.specs.Format.Limits.{most_bytes, most_chunk_bytes, highest_level};
ghost use Rattle.h5_model.specs.Format.Superblock.{highest_k};
ghost use Rattle.h5_model.specs.Format.Nodes.{chunk_kind, node_length};
ghost use Rattle.h5_model.specs.Format.PlainLength.{nodes_over as nodes};
ghost use Rattle.h5_model.specs.Tree.Objects.{Chunked};
ghost use Rattle.h5_btree.specs.Writing.Written.{root_level as level};
ghost use Rattle.h5_chunks.specs.Keys.{chunk_key, index_from};
ghost use Rattle.h5_repack.specs.Bodies.Chunks.{chunk_children, chunk_nodes, key_after};
ghost use Rattle.h5_repack.specs.Bodies.Headers.{is_stored};
ghost use Rattle.h5_repack.specs.Blocks.ArrayHeader.{IsLength};
ghost use Rattle.h5_repack.specs.Blocks.StoredChunks.{IsLastKey, chunks_written, key_bytes, with_key_bytes, part_length, parts_bytes};
ghost use Rattle.h5_repack.specs.Blocks.Written.{AreWhole, chunks_of, part_offsets};

use crate::blocks::cells::Cells;
use h5_btree::{Child, MAX_LEVEL, NodeKind, nodes_over, push_tree, root_level};
use h5_chunks::ChunkKey;
use h5_group::MAXIMUM_IMAGE;
use h5_layout::HeldChunks;
use std::alloc::{AllocError, Global};

/// So many bytes, where an image can have as many.
pub(crate) fn length_in_image(len: u64) -> Option<u64>
    ensures { IsLength result len }
{
    if len > MAXIMUM_IMAGE { None } else { Some(len) }
}

/// Whether chunks are stored.
pub(crate) fn has_chunks(cells: &Cells<'_>) -> bool
    ensures { (chunk : List ℕ) → result ≡ is_stored (chunks_of cells.now) (Chunked chunk) }
{
    match cells {
        Cells::Unset => false,
        Cells::Filled => false,
        Cells::Stored(_) => false,
        Cells::Chunks(held) => !held.is_empty(),
    }
}

/// The kind of the tree over chunks, of nodes of this K.
fn kind_of(chunk_k: u16, held: &HeldChunks<'_>) -> NodeKind
    requires { chunk_k ≤ highest_k }
    ensures kind { result ≡ chunk_kind chunk_k (length held.now.chunk) }
    ensures short { result.key_length ≤ 272 }
    ensures ranked { AllByRecursion (λ (part : List ℕ × List ℤ).
        length part.0 ≡ length held.now.chunk) held.now.parts }
{
    NodeKind::chunks(chunk_k, held.chunk().len())
}

/// How many bytes the nodes of a tree of this kind have over so many chunks.
fn nodes_length(kind: &NodeKind, count: u64) -> u64
    requires some { 1 ≤ kind.now.k }
    requires most { kind.now.k ≤ highest_k }
    requires short { kind.now.key_length ≤ 272 }
    requires few { count < 2 ^ 32 }
    ensures exact { result ≡ nodes 64 (2 * kind.now.k) count * node_length kind.now }
    ensures few { result ≤ 2 ^ 58 }
{
    nodes_over(kind, count) * kind.node_length() as u64
}

/// Whether the tree of stored chunks has at most 16 levels.
pub(crate) fn has_low_chunks(chunk_k: u16, held: &HeldChunks<'_>) -> bool
    requires some { 1 ≤ chunk_k }
    requires most { chunk_k ≤ highest_k }
    requires few { length (part_offsets held.now) < 2 ^ 32 }
    ensures { result ≡ nat_le (level chunk_k (length (part_offsets held.now))) highest_level }
{
    root_level(&kind_of(chunk_k, held), held.len() as u64) <= u32::from(MAX_LEVEL)
}

/// How many bytes stored chunks have with their tree; `None` where an image cannot have as many.
pub(crate) fn chunks_length(chunk_k: u16, held: &HeldChunks<'_>) -> Option<u64>
    requires some { 1 ≤ chunk_k }
    requires most { chunk_k ≤ highest_k }
    requires whole { AreWhole held.now }
    ensures { (place : ℕ) → IsLength result (length (chunks_written chunk_k held.now place)) }
{
    let count = held.len() as u64;
    if count == 0 {
        return Some(0);
    }
    let kind = kind_of(chunk_k, held);
    let size = held.chunk_length();
    // Each has at least one byte.
    if count > MAXIMUM_IMAGE {
        return None;
    }
    length_in_image(nodes_length(&kind, count) + count * size)
}

/// The bytes of the key behind a chunk: of that of the next, or of the last key of the tree.
fn key_behind<'a>(held: &'a HeldChunks<'_>, k: usize, last: &'a [u8]) -> &'a [u8]
    requires below { k < length held.now.parts }
    requires last { IsLastKey held.now last.now }
    ensures { (part : List ℕ × List ℤ) → slice_get held.now.parts k ≡ Some part
        → result.now ≡ chunk_key
        (key_after (part_length held.now) held.now.chunk part.0 (drop (k + 1) (part_offsets held.now))) }
{
    if k < held.len() - 1 {
        held.key(k + 1).bytes
    } else {
        last
    }
}

/// The chunks, of so many bytes, as the children of the bottom row of their tree, the first of them at the place `at`; `last` is
/// the last key.
fn children_of<'a>(
    alloc: Global,
    held: &'a HeldChunks<'_>,
    size: u64,
    last: &'a [u8],
    at: u64,
) -> Result<Vec<Child<ChunkKey<'a>>>, AllocError>
    requires size { size ≡ part_length held.now }
    requires small { size ≤ most_chunk_bytes }
    requires last { IsLastKey held.now last.now }
    requires low { at ≤ 2 ^ 62 }
    requires few { length held.now.parts < 2 ^ 32 }
    ensures { IfOk result (λ children. map (with_key_bytes key_bytes) children.items
        ≡ map (with_key_bytes chunk_key)
        (chunk_children (part_length held.now) held.now.chunk at (part_offsets held.now))) }
{
    let mut children = Vec::with_capacity(alloc, held.len())?;
    let mut place = at;
    for k in 0..held.len() {
        let key = ChunkKey {
            bytes: key_behind(held, k, last),
        };
        children.push(Child { at: place, key })?;
        place += size;
    }
    Ok(children)
}

/// The tree of stored chunks, at this place.
fn push_chunk_tree(
    alloc: Global,
    out: &mut Vec<u8>,
    chunk_k: u16,
    held: &HeldChunks<'_>,
    place: u64,
) -> Result<(), AllocError>
    requires some { 1 ≤ length held.now.parts }
    requires low_k { 1 ≤ chunk_k }
    requires high_k { chunk_k ≤ highest_k }
    requires level { level chunk_k (length held.now.parts) ≤ highest_level }
    requires whole { AreWhole held.now }
    requires low { place ≤ most_bytes }
    requires few { length (chunks_written chunk_k held.now place) ≤ most_bytes }
    ensures { OnOk result ((first : List ℕ) (others : List (List ℕ))
        → part_offsets held.now ≡ first ∷ others
        → out.new.items ≡ out.old.items
        ++ chunk_nodes chunk_k (part_length held.now) held.now.chunk first (first ∷ others) place) }
{
    let mut last = Vec::new(alloc);
    held.push_last_key(&mut last)?;
    let kind = kind_of(chunk_k, held);
    let size = held.chunk_length();
    let begin = place + nodes_length(&kind, held.len() as u64);
    let children = children_of(alloc, held, size, &last, begin)?;
    let first = ChunkKey {
        bytes: held.key(0).bytes,
    };
    push_tree(alloc, out, &kind, first, place, &children)
}

/// The chunks, one behind another.
fn push_parts(out: &mut Vec<u8>, held: &HeldChunks<'_>) -> Result<(), AllocError>
    ensures { OnOk result (out.new.items ≡ out.old.items ++ parts_bytes held.now) }
{
    for k in 0..held.len() {
        held.push_chunk(out, k)?;
    }
    Ok(())
}

/// Stored chunks behind their tree, of nodes of this K, which is at this place, where `out` ends. Where there is none, nothing.
///
/// Takes memory for a child of each chunk, and for the nodes of two rows.
pub(crate) fn push_chunks(
    alloc: Global,
    out: &mut Vec<u8>,
    chunk_k: u16,
    held: &HeldChunks<'_>,
    place: u64,
) -> Result<(), AllocError>
    requires some { 1 ≤ chunk_k }
    requires most { chunk_k ≤ highest_k }
    requires level { level chunk_k (length (part_offsets held.now)) ≤ highest_level }
    requires whole { AreWhole held.now }
    requires low { place ≤ most_bytes }
    requires few { length (chunks_written chunk_k held.now place) ≤ most_bytes }
    ensures { OnOk result (out.new.items ≡ out.old.items ++ chunks_written chunk_k held.now place) }
{
    if held.is_empty() {
        return Ok(());
    }
    push_chunk_tree(alloc, out, chunk_k, held, place)?;
    push_parts(out, held)
}
