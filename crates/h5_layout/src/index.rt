//! The chunks of an array by its sizes, those of a chunk, and their tree (File Format Specification 3.0, section III.A.1).

ghost use Rattle.std.specs.Prelude.{◌≡◌, ◌↔◌, ◌+◌, ◌*◌, ◌<◌, ◌≤◌, IfSome, IsFalse, IsTrue, length};
ghost use Rattle.h5_model.specs.Format.Limits.{most_chunk_bytes};
ghost use Rattle.h5_model.specs.Tree.Places.{cells as cells_of};
ghost use Rattle.h5_chunks.specs.Shapes.{AreChunkSizes};
ghost use Rattle.h5_layout.specs.ChunkCells.{AreBeside, Grid, IsGrid, chunk_of, place_in_chunk};
ghost use Rattle.h5_layout.specs.GridKept.{GoesOnFound, IsChunkRow, IsGridKept, IsRowOf, grid_in, no_row, no_chunk_found};

use crate::beside::{ChunkCorner, RowCursor};
use crate::grid::{ChunkRow, GridRef, chunk_bytes, copy_short_sizes};
use h5_msg::ChunkSizes;
use h5_shape::{Dims, MAX_RANK};
use h5_space::Image;
use std::marker::Model;

/// Cells of an array that stand one behind another in a row of a chunk, up to the end of the row.
#[derive(Debug, Drop)]
pub(crate) struct FoundRow {
    /// The place of the first of them in the array.
    pub(crate) start: u64,
    /// How many there are.
    pub(crate) cells: u64,
    /// The place of the first of them in the chunk.
    pub(crate) inner: u64,
    /// The address of the chunk, where it is stored.
    pub(crate) at: Option<u64>,
    /// Where the chunk begins.
    pub(crate) corner: ChunkCorner,
    /// How many chunks behind the first of those beside one another the chunk stands, where that is known.
    pub(crate) number: Option<u64>,
}

impl FoundRow {
    /// No cell.
    pub(crate) fn none() -> Self
        ensures { result ≡ no_row }
    {
        FoundRow {
            start: 0,
            cells: 0,
            inner: 0,
            at: None,
            corner: ChunkCorner {
                place: 0,
                column: 0,
            },
            number: None,
        }
    }

    /// Whether it has the cell at this place.
    #[inline(always)]
    pub(crate) fn has(&self, place: u64) -> bool
        ensures { IsTrue result
            ↔ ((self.now.start ≤ place) × (place < self.now.start + self.now.cells)) }
    {
        place >= self.start && place - self.start < self.cells
    }

    /// Its cells from this place on.
    ///
    /// That it is a row of an array in chunks, and has the place, are the caller's conditions.
    #[inline(always)]
    pub(crate) fn cells_from(&self, place: u64) -> ChunkRow
        requires row { (g : Grid) × IsGrid g × IsRowOf g self.now }
        requires since { self.now.start ≤ place }
        requires until { place < self.now.start + self.now.cells }
        ensures { (g : Grid) → IsGrid g → IsRowOf g self.now → IsChunkRow g place result }
    {
        let on = place - self.start;
        ChunkRow {
            at: self.at,
            place: self.inner + on,
            cells: self.cells - on,
        }
    }
}

/// An array in chunks: its sizes, those of a chunk, how many bytes a chunk has, the root of the tree, where chunks were
/// found, and the last row of a chunk, which has no cell at first. It borrows nothing, so that the image can be written
/// meanwhile.
#[derive(Drop)]
pub(crate) struct ChunkIndex {
    root: u64,
    rank: usize,
    sizes: [u64; 32],
    chunk: [u32; 32],
    chunk_bytes: u64,
    cursor: RowCursor,
    row: FoundRow,
}

impl Model for ChunkIndex {
    ghost use Rattle.std.specs.Prelude.{◌≤◌, take};
    ghost use Rattle.h5_layout.specs.GridKept.{GridKept};

    ghost Value = { GridKept };

    ghost view = { λ g. record {
      sizes = take g.rank g.sizes;
      shape = record { sizes = take g.rank g.chunk; bytes = g.chunk_bytes };
      root = g.root;
      cursor = g.cursor;
      row = g.row;
    } };

    ghost invariant = { λ g. g.rank ≤ 32 };
}

impl ChunkIndex {
    /// An array of these sizes and chunk sizes, with cells of so many bytes, whose chunks stand below this root.
    pub(crate) fn new(dims: &Dims, chunk_sizes: &ChunkSizes<'_>, size: u64, root: u64) -> Self
        requires rank { length chunk_sizes.now ≡ length dims.now }
        requires cell { 1 ≤ size }
        requires small { cells_of chunk_sizes.now * size ≤ most_chunk_bytes }
        ensures exact { result ≡ record {
          sizes = dims.now;
          shape = record { sizes = chunk_sizes.now; bytes = cells_of chunk_sizes.now * size };
          root = root;
          cursor = no_chunk_found;
          row = no_row;
        } }
        ensures sound { AreChunkSizes chunk_sizes.now }
    {
        let rank = chunk_sizes.rank();
        let mut sizes = [0; MAX_RANK];
        sizes[..rank].copy_from_slice(dims.sizes());
        let mut chunk = [0; MAX_RANK];
        copy_short_sizes(chunk_sizes, &mut chunk[..rank]);
        ChunkIndex {
            root,
            rank,
            sizes,
            chunk,
            chunk_bytes: chunk_bytes(chunk_sizes, size),
            cursor: RowCursor::new(),
            row: FoundRow::none(),
        }
    }

    /// The cells from this place on that stand one behind the other in a row of a chunk. Where they are among those that
    /// were found last, nothing is sought.
    // Inlined, so that what it gives passes through no memory.
    #[inline(always)]
    pub(crate) fn row_at(&mut self, image: &Image, place: u64) -> ChunkRow
        requires kept { IsGridKept image.now.bytes self.old }
        requires below { place < cells_of self.old.sizes }
        ensures same { self.new ≡ record self.old { cursor = self.new.cursor; row = self.new.row } }
        ensures kept { IsGridKept image.now.bytes self.new }
        ensures some { 0 < result.cells }
        ensures beside { AreBeside self.old.sizes self.old.shape.sizes place result.cells }
        ensures place { result.place ≡ place_in_chunk (grid_in image.now.bytes self.old) place }
        ensures room { result.place + result.cells ≤ cells_of self.old.shape.sizes }
        ensures at { result.at ≡ chunk_of (grid_in image.now.bytes self.old) place }
        ensures inside { IfSome result.at (λ at. at + self.old.shape.bytes ≤ length image.now.bytes) }
    {
        self.seek(image, place);
        self.row.cells_from(place)
    }

    /// Makes the row that was found last one that has this place.
    #[inline(always)]
    fn seek(&mut self, image: &Image, place: u64)
        requires kept { IsGridKept image.now.bytes self.old }
        requires below { place < cells_of self.old.sizes }
        ensures same { self.new ≡ record self.old { cursor = self.new.cursor; row = self.new.row } }
        ensures kept { IsGridKept image.now.bytes self.new }
        ensures since { self.new.row.start ≤ place }
        ensures until { place < self.new.row.start + self.new.row.cells }
    {
        if self.row.has(place) || self.step_row(image, place) {
            return;
        }
        self.find_row(image, place);
    }

    /// Makes the row that was found last the one behind it, as `GridRef::step_row` does. Returns whether it did.
    // Inlined, so that the grid is never in memory: read back from there, it would wait for all cells written before it.
    #[inline(always)]
    fn step_row(&mut self, image: &Image, place: u64) -> bool
        requires kept { IsGridKept image.now.bytes self.old }
        requires below { place < cells_of self.old.sizes }
        ensures exact { IsTrue result
            ↔ GoesOnFound self.old.sizes self.old.shape.sizes self.old.cursor.beside self.old.row place }
        ensures unchanged { IsFalse result → self.new ≡ self.old }
        ensures same { self.new ≡ record self.old { row = self.new.row } }
        ensures kept { IsGridKept image.now.bytes self.new }
        ensures since { IsTrue result → self.new.row.start ≤ place }
        ensures until { IsTrue result → place < self.new.row.start + self.new.row.cells }
    {
        let chunk = ChunkSizes::new(&self.chunk[..self.rank]);
        let sizes = &self.sizes[..self.rank];
        let grid = GridRef::new(image, sizes, &chunk, self.chunk_bytes, self.root);
        grid.step_row(&self.cursor.beside, &mut self.row, place)
    }

    /// Makes the row that was found last one that has this place, by what is sought in the tree.
    // Apart from `step_row`, as in `GridRef`.
    #[inline(never)]
    fn find_row(&mut self, image: &Image, place: u64)
        requires kept { IsGridKept image.now.bytes self.old }
        requires below { place < cells_of self.old.sizes }
        ensures same { self.new ≡ record self.old { cursor = self.new.cursor; row = self.new.row } }
        ensures kept { IsGridKept image.now.bytes self.new }
        ensures since { self.new.row.start ≤ place }
        ensures until { place < self.new.row.start + self.new.row.cells }
    {
        let chunk = ChunkSizes::new(&self.chunk[..self.rank]);
        let sizes = &self.sizes[..self.rank];
        let grid = GridRef::new(image, sizes, &chunk, self.chunk_bytes, self.root);
        grid.find_row(&mut self.cursor, &mut self.row, place);
    }
}
