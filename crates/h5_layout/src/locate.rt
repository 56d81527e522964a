//! Where a cell stands in its chunk, and where the chunk begins (File Format Specification 3.0, section III.A.1).

ghost use Rattle.std.specs.Prelude.{◌≡◌, ◌<◌, ◌≤◌, length};
ghost use Rattle.h5_model.specs.Format.Limits.{most_cells, most_chunk_bytes};
ghost use Rattle.h5_model.specs.Tree.Grid.{corner_of, inner_of};
ghost use Rattle.h5_model.specs.Tree.Places.{cells as cells_of, index_of, place_of};
ghost use Rattle.h5_chunks.specs.Shapes.{AreChunkSizes};
ghost use Rattle.h5_layout.specs.ChunkCells.{AreBeside, left_in_row};
ghost use Rattle.h5_layout.specs.FoundChunks.{IsFirstCell};

use crate::beside::ChunkCorner;
use h5_msg::ChunkSizes;

/// Cells that stand one behind another in a row of a chunk.
#[derive(Clone, Copy)]
pub(crate) struct RowInChunk {
    /// The place of the first of them in the chunk.
    pub(crate) inner: u64,
    /// How many there are, up to the end of the chunk's row and of the array's.
    pub(crate) cells: u64,
    /// Where the chunk begins.
    pub(crate) corner: ChunkCorner,
}

/// The cells from a place on that stand one behind another in a row of the chunk that has it.
pub(crate) fn row_in_chunk(sizes: &[u64], chunk: &ChunkSizes<'_>, place: u64) -> RowInChunk
    requires rank { length chunk.now ≡ length sizes.now }
    requires sizes { AreChunkSizes chunk.now }
    requires few { cells_of sizes.now ≤ most_cells }
    requires small { cells_of chunk.now ≤ most_chunk_bytes }
    requires below { place < cells_of sizes.now }
    ensures first { IsFirstCell sizes.now chunk.now result.corner }
    ensures corner { index_of sizes.now result.corner.place
        ≡ corner_of chunk.now (index_of sizes.now place) }
    ensures inner { result.inner
        ≡ place_of chunk.now (inner_of chunk.now (index_of sizes.now place)) }
    ensures some { 0 < result.cells }
    ensures beside { AreBeside sizes.now chunk.now place result.cells }
    ensures all { 0 < length sizes.now → result.cells ≡ left_in_row sizes.now chunk.now place }
{
    let mut rest = place;
    let mut inner = 0;
    let mut stride = 1;
    let mut corner = 0;
    let mut step = 1;
    let mut column = 0;
    let mut cells = 1;
    let mut k = sizes.len();
    while k > 0 {
        k -= 1;
        let size = u64::from(chunk.size(k));
        let index = rest % sizes[k];
        rest /= sizes[k];
        let within = index % size;
        let first = index - within;
        if k + 1 == sizes.len() {
            cells = (sizes[k] - index).min(size - within);
            column = first;
        }
        inner += within * stride;
        stride *= size;
        corner += first * step;
        step *= sizes[k];
    }
    RowInChunk {
        inner,
        cells,
        corner: ChunkCorner {
            place: corner,
            column,
        },
    }
}

/// Writes the index of the cell at a place.
pub(crate) fn write_index(sizes: &[u64], place: u64, index: &mut [u64])
    requires room { length index.old ≡ length sizes.now }
    requires below { place < cells_of sizes.now }
    ensures { index.new ≡ index_of sizes.now place }
{
    let mut rest = place;
    let mut k = sizes.len();
    while k > 0 {
        k -= 1;
        index[k] = rest % sizes[k];
        rest /= sizes[k];
    }
}
