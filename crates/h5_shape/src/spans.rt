//! Which of the numbers that axes select lie in a box of the chunk grid (File Format Specification 3.0, section III.A.1, chunked raw data).

ghost use Rattle.std.specs.Prelude.{◌≡◌, ◌+◌, ◌^◌, ◌<◌, ◌≤◌, ◌↔◌, IsTrue, true, false, length, drop};
ghost use Rattle.h5_model.specs.Views.Selection.{fits_along, overlaps};
ghost use Rattle.h5_shape.specs.InBox.{AreApart, AreSpans, AreSpansIn, IsBelow, IsSpanIn};

use crate::axes::Axes;
use crate::parts::Span;
use h5_model::Axis;

/// Writes, for each dimension from `k` on, which selected numbers lie in the box with this first index and these
/// sizes. Answers whether there is one in each dimension: whether the box holds a selected cell. It takes time by the
/// number of dimensions alone.
pub fn spans_in(
    axes: &Axes<'_>,
    corner: &[u64],
    chunk: &[u64],
    spans: &mut [Span],
    k: usize,
) -> bool
    requires spans { length spans.old ≡ length axes.now }
    requires corner { length corner.now ≡ length axes.now }
    requires chunk { length chunk.now ≡ length axes.now }
    requires apart { AreApart axes.now }
    ensures each { AreSpansIn (drop k axes.now) (drop k corner.now) (drop k chunk.now) (drop k spans.new) }
    ensures some { IsTrue result ↔ AreSpans (drop k axes.now) (drop k spans.new) }
{
    if k >= spans.len() {
        return true;
    }
    let some = spans_in(axes, corner, chunk, spans, k + 1);
    let span = span_in(&axes.at(k), corner[k], chunk[k]);
    let here = span.length > 0;
    spans[k] = span;
    here && some
}

/// The positions of the selected numbers from a first one on, of so many.
fn span_in(axis: &Axis, corner: u64, size: u64) -> Span
    requires apart { overlaps axis.now ≡ false }
    requires top { fits_along (2 ^ 63) axis.now ≡ true }
    ensures { IsSpanIn axis.now corner size result }
{
    let from = numbers_below(axis, u128::from(corner));
    let end = numbers_below(axis, u128::from(corner) + u128::from(size));
    Span {
        corner,
        from: from as u64,
        length: end.saturating_sub(from) as u64,
    }
}

/// How many of the numbers that an axis selects are below one. They rise by their positions, so these are the first.
pub(crate) fn numbers_below(axis: &Axis, x: u128) -> u128
    requires { overlaps axis.now ≡ false }
    ensures { IsBelow axis.now x result }
{
    let start = u128::from(axis.start);
    if x <= start || axis.block == 0 {
        return 0;
    }
    let far = x - start;
    let count = u128::from(axis.count);
    let block = u128::from(axis.block);
    let stride = u128::from(axis.stride.max(axis.block));
    let full = far / stride;
    if full >= count {
        return count * block;
    }
    full * block + (far % stride).min(block)
}
