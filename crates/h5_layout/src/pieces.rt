//! The selected cells of an array in pieces.

ghost use Rattle.std.specs.Prelude.{◌≡◌, ℕ, ◌<◌, [], MatchOption, Some, length};
ghost use Rattle.std.specs.Iterator.{at_most};
ghost use Rattle.h5_layout.specs.Pieces.{CellsLeft, GivesPiece};
ghost use Rattle.h5_layout.specs.Runs.{AreRunsBelow, places_left};

use crate::cells::StoredCells;
use h5_shape::{CellRun, CellRuns};
use std::marker::Model;

/// A piece of the cells of an array, as they stand in the image.
#[derive(Debug, Drop)]
pub enum Piece<'a> {
    /// The bytes of cells, one behind the other, each in as many bytes as the type has.
    Bytes(&'a [u8]),
    /// Cells that are not stored, each of which reads the fill.
    Fill {
        /// How many there are.
        cells: u64,
    },
}

/// The selected cells of an array in pieces: those that are left, in row-major order. No step takes memory. A piece is lent
/// by the image; the array, and what says which of its cells are selected, are lent besides.
#[derive(Debug, Drop)]
pub struct Runs<'a, 'r> {
    cells: StoredCells<'a, 'r>,
    /// What is left of the run under way.
    run: CellRun,
    /// The runs that follow, if any do.
    runs: Option<CellRuns<'r>>,
}

impl<'a, 'r> Model for Runs<'a, 'r> {
    ghost use Rattle.std.specs.Prelude.{length};
    ghost use Rattle.h5_layout.specs.Pieces.{CellsLeft};
    ghost use Rattle.h5_layout.specs.Runs.{AreRunsBelow, cells_left, places_left};

    ghost Value = { CellsLeft };

    ghost view = { λ r. cells_left r.cells (places_left r.run r.runs) };

    ghost invariant = { λ r. AreRunsBelow (length r.cells.values) r.run r.runs };
}

impl<'a, 'r> Runs<'a, 'r> {
    ghost use Rattle.h5_layout.specs.Runs.{AreRunsBelow, cells_left, places_left};

    /// The cells of a run, and of the runs that follow.
    pub(crate) fn new(cells: StoredCells<'a, 'r>, run: CellRun, runs: Option<CellRuns<'r>>) -> Self
        requires { AreRunsBelow (length cells.values) run runs }
        ensures { result ≡ cells_left cells.entry (places_left run runs.entry) }
    {
        Runs { cells, run, runs }
    }
}

impl<'a, 'r> Iterator for Runs<'a, 'r> {
    type Item = Piece<'a>;

    ghost next_gives = { GivesPiece };

    ghost remaining = { λ r. at_most (length r.values) };

    // Inlined, as `StoredCells::piece` is: few loops go over pieces.
    #[inline(always)]
    fn next(&mut self) -> Option<Piece<'a>> {
        let run = run_under_way(self.run, &mut self.runs)?;
        let (piece, cells) = self.cells.piece(run.place, run.length);
        self.run = CellRun {
            place: run.place + cells,
            length: run.length - cells,
        };
        Some(piece)
    }
}

/// What is left of a run, or where nothing is the run that follows.
// Inlined, as `CellRuns::next` is.
#[inline(always)]
fn run_under_way(run: CellRun, runs: &mut Option<CellRuns<'_>>) -> Option<CellRun>
    ensures step { MatchOption result
        ((places_left run runs.old ≡ []) × (runs.new ≡ runs.old))
        (λ next. places_left run runs.old ≡ places_left next runs.new) }
    ensures below { (n : ℕ) → AreRunsBelow n run runs.old → MatchOption result
        (AreRunsBelow n run runs.new)
        (λ next. (0 < next.length) × AreRunsBelow n next runs.new) }
{
    if run.length > 0 {
        return Some(run);
    }
    match runs {
        Some(runs) => runs.next(),
        None => None,
    }
}
