//! An array with the image in which its cells stand.

ghost use Rattle.std.specs.Prelude.{◌≡◌, ◌+◌, ◌<◌, ◌≤◌, false, true, IfSome, IsSome, MatchOption, [], ◌∷◌, length};
ghost use Rattle.h5_model.specs.Edits.Refusal.{is_chunked};
ghost use Rattle.h5_model.specs.Format.Limits.{most_cells};
ghost use Rattle.h5_model.specs.Tree.Objects.{Chunked};
ghost use Rattle.h5_model.specs.Tree.Places.{IsInside, cells as cells_of};
ghost use Rattle.h5_model.specs.Scripts.Reading.{cell_at};
ghost use Rattle.h5_model.specs.Views.Selection.{Within, is_one_run, selection_of};
ghost use Rattle.h5_model.specs.Views.Shown.{is_in_line, is_lent, selected_values};
ghost use Rattle.h5_model.specs.Format.Described.{storage_of};
ghost use Rattle.h5_shape.specs.OneRun.{IsOneRun};
ghost use Rattle.h5_shape.specs.Runs.{cell_runs};
ghost use Rattle.h5_layout.specs.Data.{AreDataRead, IsSoundDataset, dataset_told};
ghost use Rattle.h5_layout.specs.Lent.{AreInLine, IsLent, IsStandingSelection};
ghost use Rattle.h5_layout.specs.Runs.{HasBytes, IsPieceAt};

use crate::array::{ArrayRef, block_bytes};
use crate::cells::{StoredCells, run_bytes};
use crate::pieces::{Piece, Runs};
use crate::values::Values;
use h5_model::Fixed;
use h5_msg::{Layout, value_at};
use h5_shape::{CellRun, Dims, HyperRef, Slab, one_run};
use h5_space::Image;
use std::marker::Model;

/// An array with the image in which its cells stand, in any layout.
#[derive(Debug, Drop)]
pub struct StoredArray<'a> {
    image: &'a Image,
    array: ArrayRef<'a>,
}

impl<'a> Model for StoredArray<'a> {
    ghost use Rattle.h5_model.specs.Tree.Objects.{Dataset};
    ghost use Rattle.h5_layout.specs.Data.{AreDataRead, dataset_told};

    ghost Value = { Dataset };

    ghost view = { λ s. dataset_told s.image.now.bytes s.array };

    ghost invariant = { λ s. AreDataRead s.image.now.bytes s.array.fixed s.array.layout };
}

impl<'a> StoredArray<'a> {
    /// The array of this description in this image. That its data stand there is the caller's condition.
    pub fn new(image: &'a Image, array: ArrayRef<'a>) -> Self
        requires { AreDataRead image.now.bytes array.fixed array.layout }
        ensures { result ≡ dataset_told image.now.bytes array.entry }
    {
        StoredArray { image, array }
    }

    /// The description.
    pub fn array(&self) -> &ArrayRef<'a>
        ensures fixed { result.now.fixed ≡ self.now.fixed }
        ensures sizes { result.now.sizes ≡ self.now.sizes }
        ensures maxima { result.now.maxima ≡ self.now.maxima }
        ensures fill { result.now.fill ≡ self.now.fill }
        ensures storage { self.now.storage ≡ storage_of result.now.sizes result.now.layout }
        ensures sound { IsSoundDataset self.now }
    {
        // Its type, its fill and its sizes are sound.
        let _fixed = self.array.fixed();
        let _fill = self.array.fill();
        let _dims = self.array.dims();
        &self.array
    }

    /// The type of the cells.
    pub fn fixed(&self) -> Fixed
        ensures { result ≡ self.now.fixed }
    {
        self.array.fixed()
    }

    /// The sizes of the array.
    pub fn dims(&self) -> &Dims
        ensures { result.now ≡ self.now.sizes }
    {
        self.array.dims()
    }

    /// The sizes of its chunks, or `None` where it is not in chunks. It takes no memory.
    pub fn chunk(&self) -> Option<Dims>
        ensures { MatchOption result (is_chunked self.now.storage ≡ false) (λ sizes.
            self.now.storage ≡ Chunked sizes) }
    {
        match self.array.layout() {
            Layout::Compact(_) => None,
            Layout::Contiguous(_) => None,
            Layout::Chunked { sizes, .. } => Some(sizes.dims()),
        }
    }

    /// The value of a cell that was never written.
    pub fn fill(&self) -> i128
        ensures { result ≡ self.now.fill }
    {
        self.array.fill()
    }

    /// Whether its cells are stored one behind another. Those of a compact array are, and those of a contiguous one
    /// that has storage.
    pub fn stored(&self) -> bool
        ensures { result ≡ is_in_line self.now.storage }
    {
        match self.array.layout() {
            Layout::Compact(_) => true,
            Layout::Contiguous(block) => block.is_some() && self.array.cells() > 0,
            Layout::Chunked { .. } => false,
        }
    }

    /// The bytes of the selected cells as they stand in the image: `Some` exactly where its cells are stored one behind
    /// another, and the selected ones are one run. Takes no memory.
    ///
    /// That the selection has as many dimensions as the array, and is within its sizes, is the caller's condition.
    pub fn lent(&self, slab: &Slab<'_>) -> Option<&'a [u8]>
        requires rank { length slab.now ≡ length self.now.sizes }
        requires within { Within self.now.sizes slab.now }
        ensures { MatchOption result (is_lent self.now slab.now ≡ false) (λ bytes.
            IsLent self.now slab.now bytes.now) }
    {
        let bytes = self.line()?;
        let run = single_run(slab, self.array.dims())?;
        Some(run_bytes(&self.array.fixed(), bytes, &run))
    }

    /// The bytes of the selected cells as they stand in the image, where the four lists select cells of the array that
    /// stand one behind another there: cells of one row of a chunk, of a contiguous block, or in the header. `None` where
    /// they do not, or where the lists are no selection within the sizes. In a block and in the header, selected cells
    /// that are one run are always found; in chunks it is left open which are. Takes no memory.
    pub fn standing(&self, hyper: &HyperRef<'_>) -> Option<&'a [u8]>
        ensures bytes { IfSome result (λ bytes. IsStandingSelection self.now hyper.now bytes.now) }
        ensures found { is_in_line self.now.storage ≡ true
            → (run : CellRun) → IsOneRun self.now.sizes hyper.now run → IsSome result }
    {
        let run = one_run(self.array().dims(), hyper)?;
        if let Some(bytes) = self.line() {
            return Some(run_bytes(&self.array.fixed(), bytes, &run));
        }
        let (piece, cells) = self.piece(run.place, run.length);
        if cells < run.length {
            return None;
        }
        match piece {
            Piece::Bytes(bytes) => Some(bytes),
            Piece::Fill { .. } => None,
        }
    }

    /// A piece of its cells from a place on, with at most so many, and how many it has.
    // A call of its own: the room for what is found of chunks is cleared where chunks are sought alone.
    #[inline(never)]
    fn piece(&self, place: u64, most: u64) -> (Piece<'a>, u64)
        requires some { 0 < most }
        requires below { place + most ≤ length self.now.cells }
        ensures piece { IsPieceAt (record {
          fixed = self.now.fixed;
          fill = self.now.fill;
          values = self.now.cells;
        }) place most result.0 result.1 }
        ensures bytes { HasBytes result.0 }
    {
        self.cells().piece(place, most)
    }

    /// The bytes in which its cells stand one behind another.
    fn line(&self) -> Option<&'a [u8]>
        ensures { MatchOption result (is_in_line self.now.storage ≡ false) (λ bytes.
            AreInLine self.now bytes.now) }
    {
        match self.array.layout() {
            Layout::Compact(bytes) => Some(bytes),
            Layout::Contiguous(block) => block_bytes(self.image, *block),
            Layout::Chunked { .. } => None,
        }
    }

    /// The value of a cell, by its index.
    ///
    /// That the index is inside the sizes is the caller's condition.
    pub fn cell(&self, index: &[u64]) -> i128
        requires { IsInside self.now.sizes index.now }
        ensures { result ≡ cell_at self.now index.now }
    {
        let place = self.array.dims().place(index);
        match self.cells().piece(place, 1).0 {
            Piece::Bytes(bytes) => value_at(&self.array.fixed(), bytes, 0),
            Piece::Fill { .. } => self.array.fill(),
        }
    }

    /// The selected cells, in pieces, in row-major order. Takes no memory.
    ///
    /// That the selection is within the sizes is the caller's condition.
    pub fn runs<'r>(&'r self, slab: &'r Slab<'_>) -> Runs<'a, 'r>
        requires rank { length slab.now ≡ length self.now.sizes }
        requires within { Within self.now.sizes slab.now }
        ensures { result ≡ record {
          fixed = self.now.fixed;
          fill = self.now.fill;
          values = selected_values self.now slab.now;
        } }
    {
        let runs = slab.runs(self.array.dims());
        Runs::new(self.cells(), NO_CELL, Some(runs))
    }

    /// All cells, in pieces, in row-major order. Takes no memory.
    pub fn all(&self) -> Runs<'a, '_>
        ensures { result ≡ record {
          fixed = self.now.fixed;
          fill = self.now.fill;
          values = self.now.cells;
        } }
    {
        let whole = CellRun {
            place: 0,
            length: self.array.cells(),
        };
        Runs::new(self.cells(), whole, None)
    }

    /// The values of all cells, in row-major order. Each is decoded when it is asked for. Takes no memory.
    pub fn values(&self) -> Values<'_>
        ensures { result ≡ self.now.cells }
    {
        Values::new(self.fixed(), self.fill(), self.all())
    }

    /// All cells, where they stand.
    fn cells(&self) -> StoredCells<'a, '_>
        ensures { result ≡ record {
          fixed = self.now.fixed;
          fill = self.now.fill;
          values = self.now.cells;
        } }
    {
        StoredCells::new(self.image, &self.array)
    }
}

/// The run of the selected cells, where they are one.
fn single_run(slab: &Slab<'_>, dims: &Dims) -> Option<CellRun>
    requires rank { length dims.now ≡ length slab.now }
    requires within { Within dims.now slab.now }
    requires small { cells_of dims.now ≤ most_cells }
    ensures { MatchOption result (is_one_run dims.now slab.now ≡ false) (λ run.
        cell_runs (selection_of dims.now slab.now) ≡ run ∷ []) }
{
    let mut runs = slab.runs(dims);
    let run = runs.next()?;
    if runs.next().is_some() {
        return None;
    }
    Some(run)
}

/// The run of no cell.
const NO_CELL: CellRun = CellRun {
    place: 0,
    length: 0,
};
