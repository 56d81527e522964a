//! The order of a dataset's chunks by their offsets (File Format Specification 3.0, section III.A.1).

ghost use Rattle.std.specs.Prelude.{◌≡◌, ◌≢◌, ◌↔◌, ◌∷◌, [], ℕ, None, IsTrue, List, length, IfErr, IfOk, OnOk};
ghost use Rattle.std.specs.List.{AllByRecursion};
ghost use Rattle.h5_model.specs.Format.Superblock.{IsSuperblock};
ghost use Rattle.h5_model.specs.Format.Rows.{AreRows, nodes, row_below};
ghost use Rattle.h5_model.specs.Format.Chunks.{chunks_at, chunks_in};
ghost use Rattle.h5_model.specs.Format.Links.{Before};
ghost use Rattle.h5_btree.specs.Rising.{FallAt, FallFrom, IsAbove, RiseFrom, last_value};
ghost use Rattle.h5_btree.specs.Walk.Below.{reading_in};
ghost use Rattle.h5_btree.specs.Walk.Forms.{OfChunks};
ghost use Rattle.h5_btree.specs.Walk.Stands.{IsNodeAt};
ghost use Rattle.h5_chunks.specs.Between.{offsets_of};

use crate::offsets::Offsets;
use crate::shape::ChunkShape;
use h5_btree::tree_node;
use h5_model::{Cause, OpenFault};
use h5_space::{Image, fault};

/// Checks that the chunks of these nodes of level 0 ascend by their offsets; `KeyOrder` at the first node with a chunk that
/// is not above the one before it. It takes no memory.
pub(crate) fn check_ascending(
    image: &Image,
    shape: &ChunkShape<'_>,
    row: &[u64],
) -> Result<(), OpenFault>
    requires superblock { IsSuperblock image.now.bytes }
    requires nodes { AllByRecursion (IsNodeAt image.now.bytes (OfChunks shape.now)) row.now }
    ensures rise { OnOk result (RiseFrom offsets_of Before None
        (chunks_at (reading_in image.now.bytes (OfChunks shape.now)) (length shape.now.sizes) row.now)) }
    ensures cause { IfErr result (λ fault. fault.cause ≡ Cause.KeyOrder) }
    ensures falls { IfErr result (λ fault. FallAt offsets_of Before
        (λ at. chunks_in (length shape.now.sizes) (reading_in image.now.bytes (OfChunks shape.now) at))
        row.now fault.address) }
{
    let mut last = None;
    for at in row {
        last = check_node(image, shape, *at, last)?;
    }
    Ok(())
}

/// Checks that the chunks of the node of level 0 at this address ascend, from the offsets before them on. Gives the last
/// offsets so far.
fn check_node(
    image: &Image,
    shape: &ChunkShape<'_>,
    at: u64,
    before: Option<Offsets>,
) -> Result<Option<Offsets>, OpenFault>
    requires superblock { IsSuperblock image.now.bytes }
    requires node { IsNodeAt image.now.bytes (OfChunks shape.now) at }
    ensures rise { OnOk result (RiseFrom offsets_of Before before
        (chunks_in (length shape.now.sizes) (reading_in image.now.bytes (OfChunks shape.now) at))) }
    ensures last { IfOk result (λ last. last ≡ last_value offsets_of before
        (chunks_in (length shape.now.sizes) (reading_in image.now.bytes (OfChunks shape.now) at))) }
    ensures refused { IfErr result (λ fault. fault ≡ record { cause = Cause.KeyOrder; address = at }) }
    ensures falls { IfErr result (λ fault. FallFrom offsets_of Before before
        (chunks_in (length shape.now.sizes) (reading_in image.now.bytes (OfChunks shape.now) at))) }
{
    let rank = shape.sizes.len();
    let node = tree_node(image, shape, at);
    let mut last = before;
    for i in 0..node.len() {
        let chunk = Offsets::of_key(rank, node.key(i));
        if !is_above(&last, &chunk) {
            return Err(fault(Cause::KeyOrder, at));
        }
        last = Some(chunk);
    }
    Ok(last)
}

/// Whether offsets are above the last ones, where there are any.
fn is_above(last: &Option<Offsets>, chunk: &Offsets) -> bool
    ensures { IsTrue result ↔ IsAbove Before last.now chunk.now }
{
    match last {
        Some(last) => last.is_before(chunk),
        None => true,
    }
}

/// The nodes of level 0 among the nodes of a tree, which stand row by row from the root down. Takes no memory.
pub(crate) fn bottom_row<'a>(image: &Image, shape: &ChunkShape<'_>, all: &'a [u64]) -> &'a [u64]
    requires superblock { IsSuperblock image.now.bytes }
    requires nodes { AllByRecursion (IsNodeAt image.now.bytes (OfChunks shape.now)) all.now }
    ensures { (level root : ℕ) → AreRows (reading_in image.now.bytes (OfChunks shape.now)) level (root ∷ [])
        → all.now ≡ nodes (reading_in image.now.bytes (OfChunks shape.now)) level (root ∷ [])
        → result.now ≡ row_below (reading_in image.now.bytes (OfChunks shape.now)) level (root ∷ []) }
{
    for (k, at) in all.iter().enumerate() {
        if tree_node(image, shape, *at).level() == 0 {
            return &all[k..];
        }
    }
    &[]
}
