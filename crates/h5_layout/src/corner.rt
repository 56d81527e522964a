//! The cells of a chunk of which the first slices are kept (File Format Specification 3.0, section III.A.1).

ghost use Rattle.std.specs.Prelude.{◌≡◌, ◌↔◌, ℕ, ◌+◌, ◌*◌, ◌<◌, ◌≤◌, ◌++◌, true, IsTrue, OnOk, length, slice_index};
ghost use Rattle.std.specs.List.{AllByRecursion};
ghost use Rattle.h5_model.specs.Format.Chunks.{offsets_in};
ghost use Rattle.h5_model.specs.Format.Fixed.{IsFixed, fits};
ghost use Rattle.h5_model.specs.Format.Limits.{most_chunk_bytes};
ghost use Rattle.h5_model.specs.Format.Plain.{cells_bytes};
ghost use Rattle.h5_model.specs.Tree.Places.{cells};
ghost use Rattle.h5_chunks.specs.Shapes.{AreChunkSizes};
ghost use Rattle.h5_layout.specs.Kept.{corner_values, slices_kept};
ghost use Rattle.h5_layout.specs.Spans.{IsKeptSpan, span_sizes, span_slices};

use crate::address::fill_cells;
use crate::fill::FillTile;
use h5_bytes::{push_bytes, u64_at};
use h5_chunks::OFFSETS;
use h5_model::Fixed;
use std::alloc::AllocError;

/// How many slices a chunk has in a dimension, and how many of them, from the first on, are kept.
#[derive(Clone, Copy)]
pub(crate) struct Span {
    pub(crate) size: u64,
    pub(crate) kept: u64,
}

/// Writes how many slices the chunk with this key has, and how many of them are below the kept sizes, in each dimension.
pub(crate) fn write_spans(chunk: &[u64], kept: &[u64], key: &[u8], spans: &mut [Span])
    requires room { length spans.old ≡ length chunk.now }
    requires rank { length kept.now ≡ length chunk.now }
    requires sizes { AreChunkSizes chunk.now }
    requires long { length key.now ≡ 8 + 8 * (length chunk.now + 1) }
    ensures sizes { span_sizes spans.new ≡ chunk.now }
    ensures slices { span_slices spans.new
        ≡ slices_kept kept.now chunk.now (offsets_in (length chunk.now) key.now) }
    ensures sound { AllByRecursion IsKeptSpan spans.new }
{
    for d in 0..spans.len() {
        let offset = u64_at(key, OFFSETS + 8 * d);
        spans[d] = Span {
            size: chunk[d],
            kept: chunk[d].min(kept[d].saturating_sub(offset)),
        };
    }
}

/// Whether all cells are kept.
fn are_whole(spans: &[Span]) -> bool
    ensures { IsTrue result ↔ (span_slices spans.now ≡ span_sizes spans.now) }
{
    for span in spans {
        if span.kept != span.size {
            return false;
        }
    }
    true
}

/// Appends the cells of a chunk that stand in these bytes, and the fill for those that are not kept. Takes no memory but
/// for what is appended.
pub(crate) fn push_kept(
    out: &mut Vec<u8>,
    fixed: Fixed,
    fill: i128,
    spans: &[Span],
    bytes: &[u8],
) -> Result<(), AllocError>
    requires sound { IsFixed fixed }
    requires of_type { fits fixed fill ≡ true }
    requires spans { AllByRecursion IsKeptSpan spans.now }
    requires long { length bytes.now ≡ cells (span_sizes spans.now) * fixed.size }
    requires small { length bytes.now ≤ most_chunk_bytes }
    ensures { OnOk result (out.new.items ≡ out.old.items ++ cells_bytes fixed
        (corner_values fixed fill (span_sizes spans.now) (span_slices spans.now) bytes.now)) }
{
    if are_whole(spans) {
        return push_bytes(out, bytes);
    }
    push_corner(out, &FillTile::new(fixed, fill), spans, bytes)
}

/// The same of some dimensions, for a fill whose bytes are there.
///
/// Takes no memory but for what is appended. Copies a run of the bytes at a time.
fn push_corner(
    out: &mut Vec<u8>,
    fill: &FillTile,
    spans: &[Span],
    bytes: &[u8],
) -> Result<(), AllocError>
    requires spans { AllByRecursion IsKeptSpan spans.now }
    requires long { length bytes.now ≡ cells (span_sizes spans.now) * fill.now.fixed.size }
    requires small { length bytes.now ≤ most_chunk_bytes }
    ensures { OnOk result (out.new.items ≡ out.old.items ++ cells_bytes fill.now.fixed
        (corner_values fill.now.fixed fill.now.fill (span_sizes spans.now) (span_slices spans.now)
        bytes.now)) }
{
    let cell = fill.size();
    let [first, inner @ ..] = spans else {
        return push_bytes(out, bytes);
    };
    let slice = bytes.len() / first.size as usize;
    let left = (bytes.len() - first.kept as usize * slice) / cell;
    if are_whole(inner) {
        push_bytes(out, &bytes[..first.kept as usize * slice])?;
        return fill.push(out, left);
    }
    for i in 0..first.kept as usize {
        push_corner(out, fill, inner, &bytes[i * slice..(i + 1) * slice])?;
    }
    fill.push(out, left)
}

/// Writes the fill into the cells of a chunk, which stand in these bytes, that are not kept. Takes no memory.
///
/// It writes a run of the fill at a time.
pub(crate) fn fill_corner(bytes: &mut [u8], fixed: &Fixed, fill: i128, spans: &[Span])
    requires bytes { (i : ℕ) → slice_index bytes.old i < 256 }
    requires of_type { fits fixed.now fill ≡ true }
    requires spans { AllByRecursion IsKeptSpan spans.now }
    requires long { length bytes.old ≡ cells (span_sizes spans.now) * fixed.now.size }
    requires small { length bytes.old ≤ most_chunk_bytes }
    ensures { bytes.new ≡ cells_bytes fixed.now
        (corner_values fixed.now fill (span_sizes spans.now) (span_slices spans.now) bytes.old) }
{
    let cell = fixed.size();
    let [first, inner @ ..] = spans else {
        return;
    };
    let slice = bytes.len() / first.size as usize;
    let kept = first.kept as usize * slice;
    let left = (bytes.len() - kept) / cell;
    if are_whole(inner) {
        fill_cells(fixed, fill, left, &mut bytes[kept..]);
        return;
    }
    for i in 0..first.kept as usize {
        fill_corner(&mut bytes[i * slice..(i + 1) * slice], fixed, fill, inner);
    }
    fill_cells(fixed, fill, left, &mut bytes[kept..]);
}
