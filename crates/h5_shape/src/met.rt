//! The boxes of a grid that an edit and a view both meet (File Format Specification 3.0, section III.A.1, chunked raw data).
ghost use Rattle.std.specs.Prelude.{◌≡◌, ℕ, ◌^◌, ◌-◌, ◌%◌, ◌<◌, ◌≤◌, ◌==◌, IsTrue, List, MatchOption, [], drop, false, length, min, replicate};
ghost use Rattle.std.specs.Iterator.{YieldsFirst, item_count};
ghost use Rattle.std.specs.List.{AllByRecursion, list_any};
ghost use Rattle.h5_model.specs.Format.Limits.{most_dimensions};
ghost use Rattle.h5_model.specs.Views.Selection.{Within, overlaps};
ghost use Rattle.h5_shape.specs.MetFirsts.{AreRanked, AreTestedOf, HasCorner, HasNextBox, IsTestOf, LieBeside, ShareNoBox, firsts_left, is_lost_at, is_reduced as is_reduced_to, is_written_at, last_along, loses_box, meets_along, meets_box, met_firsts, passes_box, reaches_past as reaches_past_of};
ghost use Rattle.h5_shape.specs.PartCells.{part_corner};
ghost use Rattle.h5_shape.specs.declared.parts.Span.{Span as SpanOfPart};

use crate::axes::Axes;
use crate::dims::{Dims, MAX_RANK, is_inside};
use crate::parts::{ChunkParts, Span};
use crate::slab::Slab;
use crate::spans::numbers_below;
use h5_model::Axis;
use std::marker::Model;

/// What a box is to hold besides.
#[derive(Clone, Copy)]
enum MetTest<'a> {
    /// An index that these axes select.
    Selects(&'a Axes<'a>),
    /// An index inside the sizes that is not inside those kept.
    Loses { sizes: &'a [u64], kept: &'a [u64] },
}

/// The boxes of a grid that an edit and a view both meet: those that are left, each by its first index, in row-major
/// order. It takes no memory.
#[derive(Drop)]
pub struct MetBoxes<'a> {
    parts: ChunkParts<'a>,
    grid: &'a [u64],
    test: MetTest<'a>,
}

impl<'a> Model for MetBoxes<'a> {
    ghost use Rattle.std.specs.Prelude.{List, ℕ};
    ghost use Rattle.h5_shape.specs.MetFirsts.{AreTested, firsts_left};

    ghost Value = { List (List ℕ) };

    ghost view = { λ m. firsts_left m.test m.grid.now m.parts };

    ghost invariant = { λ m. AreTested m.test m.grid.now m.parts };
}

/// Whether a write and a view lie so far apart that no box of the grid of chunks holds a cell of both: in some dimension
/// one selection ends before the box in which the other one begins. It takes time by the number of dimensions; where it
/// says `false`, `written_boxes` tells which boxes are met, if any.
///
/// That there are as many dimensions of each is the caller's condition.
pub fn lie_apart(grid: &Dims, written: &Slab<'_>, view: &Slab<'_>) -> bool
    requires grid { length grid.now ≡ length written.now }
    ensures { IsTrue result → (sizes : List ℕ) → length sizes ≡ length written.now
        → met_firsts sizes grid.now (is_written_at sizes written.now) view.now ≡ [] }
{
    let grid = grid.sizes();
    has_zero(grid) || lie_beside(grid, written.axes(), view.axes(), 0)
}

/// The boxes of the grid of chunks that hold a cell of a write and a cell of a view, for any array that the write is
/// within. `None` where a size of the boxes is 0: then there is none.
///
/// Each box that the write meets is looked at once, in time by the number of dimensions. That there are as many
/// dimensions of each, and that no selected index of the write passes `u64::MAX`, are the caller's conditions.
pub fn written_boxes<'a>(
    grid: &'a Dims,
    written: &'a Slab<'a>,
    view: &'a Slab<'a>,
) -> Option<MetBoxes<'a>>
    requires grid { length grid.now ≡ length written.now }
    requires view { length view.now ≡ length written.now }
    requires top { Within (replicate (length written.now) (2 ^ 64)) written.now }
    ensures { (sizes : List ℕ) → length sizes ≡ length written.now → Within sizes written.now
        → let met = met_firsts sizes grid.now (is_written_at sizes written.now) view.now in
        MatchOption result (met ≡ []) (λ boxes. boxes ≡ met) }
{
    let grid = grid.sizes();
    if has_zero(grid) {
        return None;
    }
    let test = MetTest::Selects(view.axes());
    Some(tested_boxes(written, grid, test))
}

/// The boxes of the grid of chunks that hold a cell of a view and a cell that the array loses when it gets the sizes
/// `kept`. The cell of the view may be outside the array. `None` where no size is reduced: then no box is met.
///
/// Each box that the view meets is looked at once, in time by the number of dimensions. That there are as many
/// dimensions of each, and that no selected index of the view passes `u64::MAX`, are the caller's conditions.
pub fn lost_boxes<'a>(
    sizes: &'a Dims,
    kept: &'a Dims,
    grid: &'a Dims,
    view: &'a Slab<'a>,
) -> Option<MetBoxes<'a>>
    requires sizes { length sizes.now ≡ length view.now }
    requires kept { length kept.now ≡ length view.now }
    requires grid { length grid.now ≡ length view.now }
    requires top { Within (replicate (length view.now) (2 ^ 64)) view.now }
    ensures { let met = met_firsts sizes.now grid.now (is_lost_at sizes.now kept.now) view.now in
        MatchOption result (met ≡ []) (λ boxes. boxes ≡ met) }
{
    let grid = grid.sizes();
    if has_zero(grid) {
        return None;
    }
    if !is_reduced(sizes.sizes(), kept.sizes()) {
        return None;
    }
    let test = MetTest::Loses {
        sizes: sizes.sizes(),
        kept: kept.sizes(),
    };
    Some(tested_boxes(view, grid, test))
}

/// The boxes of these sizes, none of them 0, that hold a selected index and pass a test.
fn tested_boxes<'a>(slab: &'a Slab<'a>, grid: &'a [u64], test: MetTest<'a>) -> MetBoxes<'a>
    requires few { length grid.now ≤ most_dimensions }
    requires sized { list_any (λ d. d == 0) grid.now ≡ false }
    requires rank { length grid.now ≡ length slab.now }
    requires top { Within (replicate (length slab.now) (2 ^ 64)) slab.now }
    requires test { IsTestOf test grid.now }
    ensures { AreTestedOf slab.now grid.now test.entry result }
{
    MetBoxes {
        parts: slab.chunk_parts(grid),
        grid,
        test,
    }
}

impl<'a> Iterator for MetBoxes<'a> {
    type Item = Dims;

    ghost next_gives = { YieldsFirst (λ left. left) };

    ghost remaining = { item_count (λ left. left) };

    fn next(&mut self) -> Option<Dims> {
        let mut first = [0; MAX_RANK];
        let rank = self.grid.len();
        if !next_met(&mut self.parts, self.grid, self.test, &mut first[..rank]) {
            return None;
        }
        Dims::new(&first[..rank])
    }
}

/// Whether a size is 0.
fn has_zero(sizes: &[u64]) -> bool
    ensures { result ≡ list_any (λ d. d == 0) sizes.now }
{
    sizes.iter().any(|size| *size == 0)
}

/// Whether less than some size is kept.
fn is_reduced(sizes: &[u64], kept: &[u64]) -> bool
    ensures { result ≡ is_reduced_to sizes.now kept.now }
{
    let [size, sizes @ ..] = sizes else {
        return false;
    };
    let [bound, kept @ ..] = kept else {
        return false;
    };
    bound < size || is_reduced(sizes, kept)
}

/// Whether in some dimension from k on one selection ends before the box in which the other one begins.
fn lie_beside(grid: &[u64], one: &Axes<'_>, other: &Axes<'_>, k: usize) -> bool
    requires { list_any (λ d. d == 0) grid.now ≡ false }
    ensures { IsTrue result → LieBeside (drop k grid.now) (drop k one.now) (drop k other.now) }
{
    if k >= grid.len() || k >= one.len() || k >= other.len() {
        return false;
    }
    are_boxes_apart(grid[k], &one.at(k), &other.at(k)) || lie_beside(grid, one, other, k + 1)
}

/// Whether the axis that starts first ends before the box in which the other one starts.
fn are_boxes_apart(size: u64, one: &Axis, other: &Axis) -> bool
    requires { 0 < size }
    ensures { IsTrue result → ShareNoBox size one.now other.now }
{
    if one.start > other.start {
        return ends_before_box(other, size, one.start);
    }
    ends_before_box(one, size, other.start)
}

/// Whether an axis ends before the box in which a number stands.
fn ends_before_box(axis: &Axis, size: u64, number: u64) -> bool
    requires { 0 < size }
    ensures { IsTrue result → last_along axis.now < number - number % size }
{
    last(axis) < number - number % size
}

/// The last number of an axis that has one, or `u64::MAX` where it is greater.
fn last(axis: &Axis) -> u64
    ensures { result ≡ min (last_along axis.now) (2 ^ 64 - 1) }
{
    let further = axis.count.saturating_sub(1).saturating_mul(axis.stride);
    axis.start
        .saturating_add(further)
        .saturating_add(axis.block.saturating_sub(1))
}

/// Goes to the next part whose box passes the test, and writes its first index. Where there is none, says so.
fn next_met(parts: &mut ChunkParts<'_>, grid: &[u64], test: MetTest<'_>, first: &mut [u64]) -> bool
    requires rank { length first.old ≡ length grid.now }
    requires test { IsTestOf test grid.now }
    requires ranks { AreRanked grid.now parts.old }
    ensures next { HasNextBox (firsts_left test.entry grid.now parts.old) result
        (firsts_left test.entry grid.now parts.new) first.new }
    ensures ranks { AreRanked grid.now parts.new }
{
    while next_corner(parts, first) {
        if passes(test, grid, first) {
            return true;
        }
    }
    false
}

/// Writes the first index of the box of the next part. Where no part is left, says so.
fn next_corner(parts: &mut ChunkParts<'_>, corner: &mut [u64]) -> bool
    requires { AllByRecursion (λ (part : List SpanOfPart). length part ≡ length corner.old) parts.old }
    ensures { HasCorner parts.old result parts.new corner.new }
{
    let Some(part) = parts.next_part() else {
        return false;
    };
    write_corner(part, corner);
    true
}

/// Writes the first index of a part's box.
fn write_corner(part: &[Span], corner: &mut [u64])
    requires { length part.now ≡ length corner.old }
    ensures { corner.new ≡ part_corner part.now }
{
    for k in 0..corner.len() {
        corner[k] = part[k].corner;
    }
}

/// Whether the box with this first index passes.
fn passes(test: MetTest<'_>, grid: &[u64], first: &[u64]) -> bool
    requires { IsTestOf test grid.now }
    ensures { result ≡ passes_box test.entry grid.now first.now }
{
    match test {
        MetTest::Selects(axes) => meets(axes, grid, first),
        MetTest::Loses { sizes, kept } => loses(sizes, kept, grid, first),
    }
}

/// Whether the axes select an index of the box.
fn meets(axes: &Axes<'_>, grid: &[u64], first: &[u64]) -> bool
    requires { list_any overlaps axes.now ≡ false }
    ensures { result ≡ meets_box axes.now grid.now first.now }
{
    let Some(axis) = axes.first() else {
        return true;
    };
    let [size, grid @ ..] = grid else {
        return true;
    };
    let [at, first @ ..] = first else {
        return true;
    };
    meets_size(&axis, *at, *size) && meets(&axes.rest(), grid, first)
}

/// Whether an axis selects one of so many numbers from a first one on.
fn meets_size(axis: &Axis, first: u64, size: u64) -> bool
    requires { overlaps axis.now ≡ false }
    ensures { result ≡ meets_along axis.now first size }
{
    let end = u128::from(first) + u128::from(size);
    numbers_below(axis, u128::from(first)) < numbers_below(axis, end)
}

/// Whether the box holds an index inside the sizes that is not inside those kept.
fn loses(sizes: &[u64], kept: &[u64], grid: &[u64], first: &[u64]) -> bool
    ensures { result ≡ loses_box sizes.now kept.now grid.now first.now }
{
    is_inside(sizes, first) && reaches_past(sizes, kept, grid, first)
}

/// Whether what lies inside the sizes of the box reaches past those kept in some dimension.
fn reaches_past(sizes: &[u64], kept: &[u64], grid: &[u64], first: &[u64]) -> bool
    ensures { result ≡ reaches_past_of sizes.now kept.now grid.now first.now }
{
    let [size, sizes @ ..] = sizes else {
        return false;
    };
    let [bound, kept @ ..] = kept else {
        return false;
    };
    let [length, grid @ ..] = grid else {
        return false;
    };
    let [at, first @ ..] = first else {
        return false;
    };
    *bound < at.saturating_add(*length).min(*size) || reaches_past(sizes, kept, grid, first)
}
