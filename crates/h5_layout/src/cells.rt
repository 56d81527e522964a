//! The cells of an array where they stand (File Format Specification 3.0, section IV.A.2.i).

ghost use Rattle.std.specs.Prelude.{◌≡◌, ℕ, ℤ, ◌+◌, ◌*◌, ◌<◌, ◌≤◌, length, slice_index};
ghost use Rattle.std.specs.List.{range_with_len};
ghost use Rattle.h5_model.specs.Format.Cells.{cell_of, value_in};
ghost use Rattle.h5_model.specs.Format.Limits.{most_cells};
ghost use Rattle.h5_model.specs.Tree.Places.{cells as cells_of, index_of};
ghost use Rattle.h5_layout.specs.CellData.{HasCellRoom, value_of_cell};
ghost use Rattle.h5_layout.specs.Data.{AreDataRead, dataset_told, stored_chunks};
ghost use Rattle.h5_layout.specs.Runs.{AreCellBytes, HasBytes, IsPieceAt, IsWholePiece};

use crate::array::{ArrayRef, block_bytes};
use crate::grid::ChunkGrid;
use crate::pieces::Piece;
use h5_model::Fixed;
use h5_msg::Layout;
use h5_shape::CellRun;
use h5_space::Image;
use std::marker::Model;

/// Where the cells of an array stand.
#[derive(Debug, Drop)]
pub(crate) enum CellData<'a, 'r> {
    /// Nowhere: each reads the fill.
    Filled,
    /// One behind the other in these bytes.
    InLine(&'a [u8]),
    /// In chunks.
    InChunks(ChunkGrid<'a, 'r>),
}

/// All cells of an array.
#[derive(Debug, Drop)]
pub(crate) struct StoredCells<'a, 'r> {
    fixed: Fixed,
    fill: i128,
    count: u64,
    held: CellData<'a, 'r>,
}

impl<'a, 'r> Model for StoredCells<'a, 'r> {
    ghost use Rattle.std.specs.Prelude.{◌≤◌};
    ghost use Rattle.h5_model.specs.Format.Limits.{most_cells};
    ghost use Rattle.h5_layout.specs.CellData.{HasCellRoom, all_cells};
    ghost use Rattle.h5_layout.specs.Pieces.{CellsLeft};

    ghost Value = { CellsLeft };

    ghost view = { λ s. all_cells s.fixed s.fill s.count s.held };

    ghost invariant = { λ s. (s.count ≤ most_cells) × HasCellRoom s.fixed s.count s.held };
}

impl<'a, 'r> StoredCells<'a, 'r> {
    /// The cells of this array, whose data stand in the image.
    pub(crate) fn new(image: &'a Image, array: &'r ArrayRef<'a>) -> Self
        requires { AreDataRead image.now.bytes array.now.fixed array.now.layout }
        ensures { result ≡ record {
          fixed = array.now.fixed;
          fill = array.now.fill;
          values = (dataset_told image.now.bytes array.now).cells;
        } }
    {
        StoredCells {
            fixed: array.fixed(),
            fill: array.fill(),
            count: array.cells(),
            held: data_of(image, array),
        }
    }

    /// A piece of the cells from a place on, with at most so many, and how many it has.
    // Inlined: what is done for each piece shows beside the few cells that one has.
    #[inline(always)]
    pub(crate) fn piece(&mut self, place: u64, most: u64) -> (Piece<'a>, u64)
        requires some { 0 < most }
        requires below { place + most ≤ length self.old.values }
        ensures same { self.new ≡ self.old }
        ensures piece { IsPieceAt self.old place most result.0 result.1 }
        ensures small { length self.old.values ≤ most_cells }
        ensures bytes { HasBytes result.0 }
    {
        match &mut self.held {
            CellData::Filled => (Piece::Fill { cells: most }, most),
            CellData::InLine(bytes) => (whole_piece(&self.fixed, bytes, place, most), most),
            CellData::InChunks(grid) => {
                let row = grid.row_at(place);
                let cells = most.min(row.cells);
                match grid.bytes_at(row.at) {
                    Some(bytes) => (whole_piece(&self.fixed, bytes, row.place, cells), cells),
                    None => (Piece::Fill { cells }, cells),
                }
            }
        }
    }
}

/// Where the cells of this array stand.
fn data_of<'a, 'r>(image: &'a Image, array: &'r ArrayRef<'a>) -> CellData<'a, 'r>
    requires { AreDataRead image.now.bytes array.now.fixed array.now.layout }
    ensures room { HasCellRoom array.now.fixed (cells_of array.now.sizes) result }
    ensures values { (fill : ℤ) (place : ℕ) → place < cells_of array.now.sizes
        → value_of_cell array.now.fixed fill result place
        ≡ cell_of image.now.bytes array.now.fixed fill array.now.sizes array.now.layout
        (stored_chunks image.now.bytes array.now.fixed array.now.layout) (index_of array.now.sizes place) }
{
    match array.layout() {
        Layout::Compact(bytes) => CellData::InLine(bytes),
        Layout::Contiguous(block) => match block_bytes(image, *block) {
            Some(bytes) => CellData::InLine(bytes),
            None => CellData::Filled,
        },
        Layout::Chunked { sizes, tree } => {
            let Some(root) = tree else {
                return CellData::Filled;
            };
            let size = array.fixed().size() as u64;
            CellData::InChunks(ChunkGrid::new(image, array.dims(), sizes, size, *root))
        }
    }
}

/// The bytes of so many cells from a place on.
fn whole_piece<'a>(fixed: &Fixed, bytes: &'a [u8], place: u64, cells: u64) -> Piece<'a>
    requires some { 0 < cells }
    requires room { (place + cells) * fixed.now.size ≤ length bytes.now }
    ensures piece { IsWholePiece fixed.now bytes.now place cells result }
    ensures bytes { HasBytes result }
{
    let run = CellRun {
        place,
        length: cells,
    };
    Piece::Bytes(run_bytes(fixed, bytes, &run))
}

/// The bytes of a run of cells.
pub(crate) fn run_bytes<'a>(fixed: &Fixed, bytes: &'a [u8], run: &CellRun) -> &'a [u8]
    requires { (run.now.place + run.now.length) * fixed.now.size ≤ length bytes.now }
    ensures cells { AreCellBytes fixed.now bytes.now run.now.place run.now.length result.now }
    ensures bytes { (i : ℕ) → slice_index result.now i < 256 }
{
    let start = run.place as usize * fixed.size();
    let end = start + run.length as usize * fixed.size();
    &bytes[start..end]
}
