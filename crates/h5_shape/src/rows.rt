//! Selected cells as rows of groups (HDF5 dataspace reference, H5Sselect_hyperslab).
ghost use Rattle.std.specs.Prelude.{◌≡◌, ℕ, ◌+◌, ◌*◌, ◌/◌, ◌%◌, ◌^◌, ◌<◌, ◌≤◌, ◌≢◌, ◌∷◌, [], MatchOption, false, true, length};
ghost use Rattle.std.specs.List.{list_any};
ghost use Rattle.h5_model.specs.Format.Limits.{most_cells};
ghost use Rattle.h5_model.specs.Tree.Places.{cells};
ghost use Rattle.h5_model.specs.Views.Selection.{fits_all, overlaps, selection_of, selects_none};
ghost use Rattle.h5_shape.specs.SpacedPlaces.{ArePlacesBelow};
ghost use Rattle.h5_shape.specs.PartCells.{selection_shape};
ghost use Rattle.h5_shape.specs.Rows.{HasGaps, IsRowed, IsWalk, cells_at, cells_in, groups_ahead, repeated_place, row_cells, selected_place};

use crate::axes::Axes;

/// Rows of cells: each row has groups of consecutive cells, a step apart.
#[derive(Clone, Copy, Debug)]
pub(crate) struct CellRows {
    /// How many cells a group has.
    pub(crate) length: u64,
    /// How many places the next group of a row begins behind the one before it.
    step: u64,
    /// How many groups of a row follow its first.
    more: u64,
    /// How many rows there are.
    count: u64,
}

/// A cell that was reached by its number among those selected.
#[derive(Clone, Copy)]
struct Reached {
    /// Its place among the cells of the array.
    place: u64,
    /// How many cells the array has.
    cells: u64,
    /// How many times the number goes past all selected cells.
    around: u64,
}

/// A walk over the rows of a selection, group by group. The sizes of the array and the axes are lent, so a move costs the
/// same for any number of dimensions.
#[derive(Debug, Drop)]
pub(crate) struct RowWalk<'a> {
    sizes: &'a [u64],
    axes: &'a Axes<'a>,
    pub(crate) rows: CellRows,
    /// How many groups of the row under way are to come.
    pub(crate) left: u64,
    /// How many rows are to come.
    behind: u64,
    /// The number of the first cell of the next row among those selected.
    next: u64,
}

impl CellRows {
    /// One row of one cell.
    pub(crate) fn one_cell() -> CellRows
        ensures { result ≡ record { length = 1; step = 0; more = 0; count = 1 } }
    {
        CellRows {
            length: 1,
            step: 0,
            more: 0,
            count: 1,
        }
    }

    /// Goes from one cell over to the cells of a selection. Returns how many cells the sizes have.
    fn select(&mut self, sizes: &[u64], axes: &Axes<'_>) -> u64
        requires rank { length sizes.now ≡ length axes.now }
        requires fits { fits_all sizes.now axes.now ≡ true }
        requires some { selects_none axes.now ≡ false }
        requires apart { list_any overlaps axes.now ≡ false }
        requires small { cells sizes.now ≤ most_cells }
        requires one { self.old ≡ record { length = 1; step = 0; more = 0; count = 1 } }
        ensures cells { result ≡ cells sizes.now }
        ensures all { cells_in self.new ≡ cells (selection_shape axes.now) }
        ensures few { cells_in self.new ≤ cells sizes.now }
        ensures rowed { IsRowed (selected_place sizes.now axes.now) self.new }
        ensures gaps { HasGaps self.new }
    {
        let [size, sizes @ ..] = sizes else {
            return 1;
        };
        let Some(axis) = axes.first() else {
            return 1;
        };
        let below = self.select(sizes, &axes.rest());
        self.repeat(axis.block, below);
        if axis.count > 1 {
            self.repeat(axis.count, axis.stride * below);
        }
        *size * below
    }

    /// Repeats all cells `count` times, `step` apart.
    fn repeat(&mut self, count: u64, step: u64)
        requires some { 0 < count }
        requires room { cells_in self.old * count ≤ most_cells }
        requires long { 0 < self.old.length }
        requires rows { 0 < self.old.count }
        requires gaps { HasGaps self.old }
        ensures cells { cells_in self.new ≡ cells_in self.old * count }
        ensures rowed { (place : ℕ → ℕ) → IsRowed place self.old
            → IsRowed (repeated_place place (cells_in self.old) step) self.new }
        ensures gaps { HasGaps self.new }
    {
        if count == 1 {
            return;
        }
        if self.count > 1 || self.more > 0 {
            self.count *= count;
            return;
        }
        if step == self.length {
            self.length *= count;
            return;
        }
        self.step = step;
        self.more = count - 1;
    }

    /// How many cells a row has.
    fn row_cells(&self) -> u64
        requires long { 0 < self.now.length }
        requires small { row_cells self.now < 2 ^ 64 }
        ensures { result ≡ row_cells self.now }
    {
        (self.more + 1) * self.length
    }
}

impl<'a> RowWalk<'a> {
    /// No group.
    pub(crate) fn none(sizes: &'a [u64], axes: &'a Axes<'a>) -> RowWalk<'a>
        ensures long { 0 < result.rows.length }
    {
        RowWalk {
            sizes,
            axes,
            rows: CellRows::one_cell(),
            left: 0,
            behind: 0,
            next: 0,
        }
    }

    /// The groups of the cells that these axes select of an array of these sizes, behind the first group. Returns the place
    /// of that one besides.
    pub(crate) fn of(sizes: &'a [u64], axes: &'a Axes<'a>) -> (RowWalk<'a>, u64)
        requires rank { length sizes.now ≡ length axes.now }
        requires fits { fits_all sizes.now axes.now ≡ true }
        requires some { selects_none axes.now ≡ false }
        requires apart { list_any overlaps axes.now ≡ false }
        requires small { cells sizes.now ≤ most_cells }
        ensures walk { IsWalk result.0 }
        ensures long { 0 < result.0.rows.length }
        ensures all { cells_at result.0.rows.length (result.1 ∷ groups_ahead result.0 result.1)
            ≡ selection_of sizes.now axes.now }
    {
        let mut rows = CellRows::one_cell();
        rows.select(sizes, axes);
        let place = place_at(sizes, axes, 0).place;
        let walk = RowWalk {
            sizes,
            axes,
            rows,
            left: rows.more,
            behind: rows.count - 1,
            next: rows.row_cells(),
        };
        (walk, place)
    }

    /// Goes to the next group of the row from the one at this place, and returns its place. The two do not touch.
    ///
    /// That the row has one is the caller's condition.
    #[inline(always)]
    pub(crate) fn step_in_row(&mut self, place: u64) -> u64
        requires some { 0 < self.old.left }
        requires walk { IsWalk self.old }
        requires small { ArePlacesBelow (2 ^ 64) (groups_ahead self.old place) }
        ensures next { groups_ahead self.old place ≡ result ∷ groups_ahead self.new result }
        ensures gap { result ≢ place + self.old.rows.length }
        ensures walk { IsWalk self.new }
        ensures rows { self.new.rows ≡ self.old.rows }
    {
        self.left -= 1;
        place + self.rows.step
    }

    /// Goes to the next group from the one at this place, or to none behind the last.
    pub(crate) fn next_place(&mut self, place: u64) -> Option<u64>
        requires walk { IsWalk self.old }
        requires small { ArePlacesBelow (2 ^ 64) (groups_ahead self.old place) }
        ensures next { MatchOption result (groups_ahead self.old place ≡ [])
            (λ next. groups_ahead self.old place ≡ next ∷ groups_ahead self.new next) }
        ensures walk { IsWalk self.new }
        ensures rows { self.new.rows ≡ self.old.rows }
    {
        if self.left > 0 {
            return Some(self.step_in_row(place));
        }
        if self.behind == 0 {
            return None;
        }
        let first = place_at(self.sizes, self.axes, self.next).place;
        self.left = self.rows.more;
        self.behind -= 1;
        self.next += self.rows.row_cells();
        Some(first)
    }
}

/// The selected cell of this number, where all of them are counted in row-major order, and again behind the last.
fn place_at(sizes: &[u64], axes: &Axes<'_>, number: u64) -> Reached
    requires rank { length sizes.now ≡ length axes.now }
    requires fits { fits_all sizes.now axes.now ≡ true }
    requires some { selects_none axes.now ≡ false }
    requires apart { list_any overlaps axes.now ≡ false }
    requires small { cells sizes.now ≤ most_cells }
    ensures place { result.place
        ≡ selected_place sizes.now axes.now (number % cells (selection_shape axes.now)) }
    ensures around { result.around ≡ number / cells (selection_shape axes.now) }
    ensures cells { result.cells ≡ cells sizes.now }
    ensures inside { result.place < cells sizes.now }
{
    let [size, sizes @ ..] = sizes else {
        return Reached {
            place: 0,
            cells: 1,
            around: number,
        };
    };
    let Some(axis) = axes.first() else {
        return Reached {
            place: 0,
            cells: 1,
            around: number,
        };
    };
    let below = place_at(sizes, &axes.rest(), number);
    let selected = axis.count * axis.block;
    let position = below.around % selected;
    let index = axis.start + position / axis.block * axis.stride + position % axis.block;
    Reached {
        place: index * below.cells + below.place,
        cells: *size * below.cells,
        around: below.around / selected,
    }
}
