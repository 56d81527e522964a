//! The boxes of a chunk grid that hold selected cells (File Format Specification 3.0, section III.A.1, chunked raw data).
ghost use Rattle.std.specs.Prelude.{◌≡◌, ◌+◌, ◌*◌, ◌<◌, ◌≤◌, IsTrue, [], ◌∷◌, length, take, drop, MatchOption};
ghost use Rattle.h5_model.specs.Format.Limits.{most_dimensions};
ghost use Rattle.h5_shape.specs.Parts.{numbers_along, spans_from, parts_of};
ghost use Rattle.h5_shape.specs.PartsLeft.{AreBoxed, AreOnAxes, GoesOnTo, IsBoxed, IsOnAxis, parts_from, spans_after};
ghost use Rattle.h5_shape.specs.PartsStand.{GivesPart, IsAtPart, left_parts};

use crate::axes::Axes;
use h5_model::Axis;
use std::marker::Model;

/// The selected numbers of one dimension that lie in one box of the grid, by their positions among all selected
/// numbers of that dimension.
#[derive(Clone, Copy, PartialEq, Eq, Debug)]
pub struct Span {
    /// The first index of the box.
    pub corner: u64,
    /// The position of the first selected number in the box.
    pub from: u64,
    /// How many there are.
    pub length: u64,
}

/// What stands behind the last dimension.
const NO_SPAN: Span = Span {
    corner: 0,
    from: 0,
    length: 0,
};

/// How far the parts have been lent.
#[derive(Clone, Copy)]
enum Progress {
    /// The first is still to be lent.
    Before,
    /// The part that stands here was.
    At,
    /// No part is left.
    Behind,
}

/// The boxes of a grid of chunks that hold a selected cell: those that are left, in row-major order. It takes no
/// memory.
#[derive(Drop)]
pub struct ChunkParts<'a> {
    axes: &'a Axes<'a>,
    chunk: &'a [u64],
    spans: [Span; 32],
    progress: Progress,
}

impl<'a> Model for ChunkParts<'a> {
    ghost use Rattle.std.specs.Prelude.{List};
    ghost use Rattle.h5_shape.specs.declared.parts.Span.{Span};
    ghost use Rattle.std.specs.Prelude.{◌≤◌, length, take};
    ghost use Rattle.h5_shape.specs.PartsStand.{left_parts, IsAtPart};

    ghost Value = { List (List Span) };

    ghost view = { λ p. left_parts p.axes.now p.chunk.now (take (length p.axes.now) p.spans) p.progress };

    ghost invariant = { λ p. (length p.axes.now ≤ 32)
        × IsAtPart p.axes.now p.chunk.now (take (length p.axes.now) p.spans) p.progress };
}

impl<'a> ChunkParts<'a> {
    ghost use Rattle.std.specs.Borrow.{sem};
    ghost use Rattle.h5_shape.specs.Parts.{parts_of};
    ghost use Rattle.h5_shape.specs.PartLent.{EndsWithoutFirst};

    /// No part.
    pub(crate) fn none(axes: &'a Axes<'a>, chunk: &'a [u64]) -> ChunkParts<'a>
        requires { length axes.now ≤ most_dimensions }
        ensures { result ≡ [] }
    {
        ChunkParts {
            axes,
            chunk,
            spans: [NO_SPAN; 32],
            progress: Progress::Behind,
        }
    }

    /// Goes over to the parts of a selection of some cell.
    pub(crate) fn select(&mut self, axes: &'a Axes<'a>, chunk: &'a [u64])
        requires rank { length axes.now ≤ most_dimensions }
        requires boxed { AreBoxed axes.now chunk.now }
        ensures { self.new ≡ parts_of axes.now chunk.now }
    {
        self.axes = axes;
        self.chunk = chunk;
        start(axes, chunk, &mut self.spans[..axes.len()], 0);
        self.progress = Progress::Before;
    }

    /// Lends the next of the parts that are left: for each dimension the selected numbers in its box.
    pub fn next_part(&mut self) -> Option<&[Span]>
        ensures* left { sem 𝓛 (EndsWithoutFirst self.entry) }
        ensures lent { MatchOption result (self.old ≡ []) (λ part. self.old ≡ part.now ∷ drop 1 self.old) }
    {
        let rank = self.axes.len();
        let progress = self.progress;
        if !step(self.axes, self.chunk, &mut self.spans[..rank], progress) {
            self.progress = Progress::Behind;
            return None;
        }
        self.progress = Progress::At;
        Some(&self.spans[..rank])
    }
}

/// Puts the next part in its place. Where there is none, says so.
fn step(axes: &Axes<'_>, chunk: &[u64], spans: &mut [Span], progress: Progress) -> bool
    requires { IsAtPart axes.now chunk.now spans.old progress }
    ensures next { GivesPart axes.now chunk.now (left_parts axes.now chunk.now spans.old progress) result
        spans.new }
    ensures on { IsTrue result → AreOnAxes axes.now chunk.now spans.new }
{
    match progress {
        Progress::Before => true,
        Progress::At => go_on(axes, chunk, spans, 0),
        Progress::Behind => false,
    }
}

/// Puts each dimension from k on to its first span.
fn start(axes: &Axes<'_>, chunk: &[u64], spans: &mut [Span], k: usize)
    requires rank { length spans.old ≡ length axes.now }
    requires boxed { AreBoxed (drop k axes.now) (drop k chunk.now) }
    ensures first { parts_from (drop k axes.now) (drop k chunk.now) (drop k spans.new)
        ≡ parts_of (drop k axes.now) (drop k chunk.now) }
    ensures on { AreOnAxes (drop k axes.now) (drop k chunk.now) (drop k spans.new) }
{
    if k >= spans.len() {
        return;
    }
    start(axes, chunk, spans, k + 1);
    spans[k] = span_at(&axes.at(k), chunk[k], 0);
}

/// Goes to the next part of the dimensions from k on. Behind the last it goes to the first, and says so.
fn go_on(axes: &Axes<'_>, chunk: &[u64], spans: &mut [Span], k: usize) -> bool
    requires { AreOnAxes (drop k axes.now) (drop k chunk.now) (drop k spans.old) }
    ensures next { GoesOnTo (drop k axes.now) (drop k chunk.now) (drop k spans.old) result
        (drop k spans.new) }
    ensures on { AreOnAxes (drop k axes.now) (drop k chunk.now) (drop k spans.new) }
    ensures kept { take k spans.new ≡ take k spans.old }
{
    if k >= spans.len() {
        return false;
    }
    if go_on(axes, chunk, spans, k + 1) {
        return true;
    }
    let span = spans[k];
    let axis = axes.at(k);
    if span.from + (span.length - 1) < last_position(&axis) {
        spans[k] = span_at(&axis, chunk[k], span.from + span.length);
        return true;
    }
    spans[k] = span_at(&axis, chunk[k], 0);
    false
}

/// The position of the last selected number.
fn last_position(axis: &Axis) -> u64
    requires { IsBoxed axis.now 1 }
    ensures { result + 1 ≡ axis.now.count * axis.now.block }
{
    (axis.count - 1) * axis.block + (axis.block - 1)
}

/// The span from the selected number at a position to the last one in its box.
fn span_at(axis: &Axis, size: u64, from: u64) -> Span
    requires boxed { IsBoxed axis.now size }
    requires inside { from < axis.now.count * axis.now.block }
    ensures first { spans_from size from (drop from (numbers_along axis.now))
        ≡ result ∷ spans_after axis.now size result }
    ensures from { result.from ≡ from }
    ensures on { IsOnAxis axis.now size result }
{
    let stride = axis.stride.max(axis.block);
    let first = axis.start + from / axis.block * stride + from % axis.block;
    let corner = first - first % size;
    let reach = corner.saturating_add(size - 1) - axis.start;
    let blocks = reach / stride;
    let last = if blocks < axis.count {
        blocks * axis.block + (reach % stride).min(axis.block - 1)
    } else {
        last_position(axis)
    };
    Span {
        corner,
        from,
        length: last - from + 1,
    }
}
