//! The selected cells as runs of consecutive places.
ghost use Rattle.std.specs.Prelude.{◌≡◌, ◌≤◌, [], false, length};
ghost use Rattle.std.specs.Iterator.{YieldsFirst, item_count};
ghost use Rattle.std.specs.List.{list_any};
ghost use Rattle.h5_model.specs.Format.Limits.{most_cells};
ghost use Rattle.h5_model.specs.Tree.Places.{cells};
ghost use Rattle.h5_model.specs.Views.Selection.{Within, overlaps, selection_of, selects_none};
ghost use Rattle.h5_shape.specs.Runs.{cell_runs};

use crate::axes::Axes;
use crate::rows::RowWalk;
use std::marker::Model;

/// Consecutive row-major places.
#[derive(Clone, Copy, PartialEq, Eq, Debug)]
pub struct CellRun {
    /// The first place.
    pub place: u64,
    /// How many there are.
    pub length: u64,
}

/// The runs of consecutive places of the selected cells: those that are left, in row-major order. Each is as long as
/// it can be. It takes no memory.
#[derive(Debug, Drop)]
pub struct CellRuns<'a> {
    walk: RowWalk<'a>,
    place: u64,
    has_more: bool,
}

impl<'a> Model for CellRuns<'a> {
    ghost use Rattle.std.specs.Prelude.{List};
    ghost use Rattle.h5_shape.specs.declared.runs.CellRun.{CellRun};
    ghost use Rattle.h5_shape.specs.Runs.{cell_runs};
    ghost use Rattle.h5_shape.specs.Rows.{left_of, IsRoomy};

    ghost Value = { List CellRun };

    ghost view = { λ s. cell_runs (left_of s.walk s.place s.has_more) };

    ghost invariant = { λ s. IsRoomy s.walk s.place s.has_more };
}

impl<'a> CellRuns<'a> {
    /// No run.
    pub(crate) fn none(sizes: &'a [u64], axes: &'a Axes<'a>) -> CellRuns<'a>
        ensures { result ≡ [] }
    {
        CellRuns {
            walk: RowWalk::none(sizes, axes),
            place: 0,
            has_more: false,
        }
    }

    /// The runs of the cells that these axes select.
    pub(crate) fn of(sizes: &'a [u64], axes: &'a Axes<'a>) -> CellRuns<'a>
        requires rank { length sizes.now ≡ length axes.now }
        requires within { Within sizes.now axes.now }
        requires some { selects_none axes.now ≡ false }
        requires apart { list_any overlaps axes.now ≡ false }
        requires small { cells sizes.now ≤ most_cells }
        ensures { result ≡ cell_runs (selection_of sizes.now axes.now) }
    {
        let (walk, place) = RowWalk::of(sizes, axes);
        CellRuns {
            walk,
            place,
            has_more: true,
        }
    }
}

impl<'a> Iterator for CellRuns<'a> {
    type Item = CellRun;

    ghost next_gives = { YieldsFirst (λ left. left) };

    ghost remaining = { item_count (λ left. left) };

    // Inlined: most runs are one group of a row, with little to do.
    #[inline(always)]
    fn next(&mut self) -> Option<CellRun> {
        if !self.has_more {
            return None;
        }
        let place = self.place;
        let length = self.walk.rows.length;
        if self.walk.left > 0 {
            self.place = self.walk.step_in_row(place);
            return Some(CellRun { place, length });
        }
        let mut end = place + length;
        self.has_more = false;
        while let Some(next) = self.walk.next_place(self.place) {
            self.place = next;
            if next != end {
                self.has_more = true;
                break;
            }
            end += self.walk.rows.length;
        }
        Some(CellRun {
            place,
            length: end - place,
        })
    }
}
