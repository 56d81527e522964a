//! The cells of an array in chunks (File Format Specification 3.0, section III.A.1).

ghost use Rattle.std.specs.Prelude.{◌≡◌, ◌≢◌, ◌↔◌, ℕ, List, ◌+◌, ◌-◌, ◌*◌, ◌^◌, ◌<◌, ◌≤◌, IfNone, IfSome, IsFalse, IsTrue, length, get_or, option_map};
ghost use Rattle.std.specs.FinMap.{get};
ghost use Rattle.std.specs.List.{AllByRecursion};
ghost use Rattle.h5_model.specs.Format.Limits.{most_cells, most_chunk_bytes};
ghost use Rattle.h5_model.specs.Tree.Places.{cells as cells_of, index_of};
ghost use Rattle.h5_chunks.specs.Cursor.{IsCursor};
ghost use Rattle.h5_chunks.specs.Read.{AreChunksRead};
ghost use Rattle.h5_chunks.specs.Shapes.{AreChunkSizes};
ghost use Rattle.h5_chunks.specs.Told.{chunks_told};
ghost use Rattle.h5_layout.specs.ChunkCells.{AreBeside, AreChunkBytes, IsGrid, chunk_of, place_in_chunk};
ghost use Rattle.h5_layout.specs.FoundChunks.{AreChunksBeside, IsFirstCell, IsNumberBeside, corner_beside};
ghost use Rattle.h5_layout.specs.GridKept.{GoesOn, GoesOnFound, HasNext, IsFoundIn, IsRowOf, next_cells};

use crate::beside::{ChunkCorner, FoundChunks, RowCursor};
use crate::index::FoundRow;
use crate::locate::{row_in_chunk, write_index};
use h5_chunks::{ChunkCursor, ChunkShape, chunk_from};
use h5_msg::ChunkSizes;
use h5_shape::{Dims, MAX_RANK};
use h5_space::Image;
use std::marker::Model;

/// An array in chunks, and the image in which they stand, with what was found of it last. The sizes of both are lent.
#[derive(Debug, Drop)]
pub(crate) struct ChunkGrid<'a, 'r> {
    grid: GridRef<'a, 'r>,
    cursor: RowCursor,
    row: FoundRow,
}

impl<'a, 'r> Model for ChunkGrid<'a, 'r> {
    ghost use Rattle.h5_layout.specs.ChunkCells.{Grid};
    ghost use Rattle.h5_layout.specs.GridKept.{IsFoundIn};

    ghost Value = { Grid };

    ghost view = { λ g. g.grid };

    ghost invariant = { λ g. IsFoundIn g.grid g.cursor g.row };
}

/// An array in chunks, and the image in which they stand, with the sizes of both lent.
#[derive(Debug, Drop)]
pub(crate) struct GridRef<'a, 'g> {
    image: &'a Image,
    root: u64,
    sizes: &'g [u64],
    chunk: &'g ChunkSizes<'g>,
    chunk_bytes: u64,
    /// How many columns the array has: its last size, or 0 where it has no dimensions.
    columns: u64,
    /// How many of them a chunk has: its last size.
    width: u64,
}

impl<'a, 'g> Model for GridRef<'a, 'g> {
    ghost use Rattle.std.specs.Prelude.{◌≡◌, ◌-◌, length, get_or};
    ghost use Rattle.h5_layout.specs.ChunkCells.{Grid, IsGrid};

    ghost Value = { Grid };

    ghost view = { λ g. record {
      image = g.image.now.bytes;
      sizes = g.sizes.now;
      shape = record { sizes = g.chunk.now; bytes = g.chunk_bytes };
      root = g.root;
    } };

    ghost invariant = { λ g. IsGrid (record {
      image = g.image.now.bytes;
      sizes = g.sizes.now;
      shape = record { sizes = g.chunk.now; bytes = g.chunk_bytes };
      root = g.root;
    }) × (g.columns ≡ get_or g.sizes.now (length g.sizes.now - 1) 0)
        × (g.width ≡ get_or g.chunk.now (length g.sizes.now - 1) 0) };
}

/// Where some cells stand one behind the other in a chunk.
#[derive(Clone, Copy)]
pub(crate) struct ChunkRow {
    /// The address of the chunk, where it is stored.
    pub(crate) at: Option<u64>,
    /// The place of the first cell in the chunk.
    pub(crate) place: u64,
    /// How many cells there are.
    pub(crate) cells: u64,
}

impl<'a, 'r> ChunkGrid<'a, 'r> {
    /// An array of these sizes and chunk sizes, with cells of so many bytes, whose chunks stand below this root.
    pub(crate) fn new(
        image: &'a Image,
        dims: &'r Dims,
        chunk_sizes: &'r ChunkSizes<'r>,
        size: u64,
        root: u64,
    ) -> Self
        requires rank { length chunk_sizes.now ≡ length dims.now }
        requires few { cells_of dims.now ≤ most_cells }
        requires cell { 1 ≤ size }
        requires small { cells_of chunk_sizes.now * size ≤ most_chunk_bytes }
        requires stored { AreChunksRead image.now.bytes
            (record { sizes = chunk_sizes.now; bytes = cells_of chunk_sizes.now * size }) root }
        ensures { result ≡ record {
          image = image.now.bytes;
          sizes = dims.now;
          shape = record { sizes = chunk_sizes.now; bytes = cells_of chunk_sizes.now * size };
          root = root;
        } }
    {
        let chunk_bytes = chunk_bytes(chunk_sizes, size);
        ChunkGrid {
            grid: GridRef::new(image, dims.sizes(), chunk_sizes, chunk_bytes, root),
            cursor: RowCursor::new(),
            row: FoundRow::none(),
        }
    }

    /// The cells from this place on that stand one behind the other in a row of a chunk.
    // Inlined, as `GridRef::row_at` is.
    #[inline(always)]
    pub(crate) fn row_at(&mut self, place: u64) -> ChunkRow
        requires { place < cells_of self.old.sizes }
        ensures same { self.new ≡ self.old }
        ensures some { 0 < result.cells }
        ensures beside { AreBeside self.old.sizes self.old.shape.sizes place result.cells }
        ensures place { result.place ≡ place_in_chunk self.old place }
        ensures room { result.place + result.cells ≤ cells_of self.old.shape.sizes }
        ensures at { result.at ≡ chunk_of self.old place }
        ensures inside { IfSome result.at (λ at. at + self.old.shape.bytes ≤ length self.old.image) }
    {
        self.grid.row_at(&mut self.cursor, &mut self.row, place)
    }

    /// The bytes of the chunk at this address, where it is stored.
    pub(crate) fn bytes_at(&self, at: Option<u64>) -> Option<&'a [u8]>
        requires { IfSome at (λ at. at + self.now.shape.bytes ≤ length self.now.image) }
        ensures { AreChunkBytes self.now at (option_map (λ b. b.now) result) }
    {
        self.grid.bytes_at(at)
    }
}

impl<'a, 'g> GridRef<'a, 'g> {
    /// The array of these sizes, in chunks of these sizes and of so many bytes, below this root.
    ///
    /// That it is one, whose chunks stand in the image, is the caller's condition.
    pub(crate) fn new(
        image: &'a Image,
        sizes: &'g [u64],
        chunk: &'g ChunkSizes<'g>,
        chunk_bytes: u64,
        root: u64,
    ) -> Self
        requires { IsGrid (record {
          image = image.now.bytes;
          sizes = sizes.now;
          shape = record { sizes = chunk.now; bytes = chunk_bytes };
          root = root;
        }) }
        ensures { result ≡ record {
          image = image.now.bytes;
          sizes = sizes.now;
          shape = record { sizes = chunk.now; bytes = chunk_bytes };
          root = root;
        } }
    {
        let (columns, width) = match sizes.last() {
            Some(columns) => (*columns, u64::from(chunk.size(sizes.len() - 1))),
            None => (0, 0),
        };
        GridRef {
            image,
            root,
            sizes,
            chunk,
            chunk_bytes,
            columns,
            width,
        }
    }

    /// The cells from this place on that stand one behind the other in a row of a chunk. Where they are among those that
    /// were found last, nothing is sought.
    // Inlined: a grid that was made for this row alone, and read back from memory, would wait for all writes of cells before it.
    #[inline(always)]
    pub(crate) fn row_at(&self, cursor: &mut RowCursor, row: &mut FoundRow, place: u64) -> ChunkRow
        requires below { place < cells_of self.now.sizes }
        requires found { IsFoundIn self.now cursor.old row.old }
        ensures found { IsFoundIn self.now cursor.new row.new }
        ensures some { 0 < result.cells }
        ensures beside { AreBeside self.now.sizes self.now.shape.sizes place result.cells }
        ensures place { result.place ≡ place_in_chunk self.now place }
        ensures room { result.place + result.cells ≤ cells_of self.now.shape.sizes }
        ensures at { result.at ≡ chunk_of self.now place }
        ensures inside { IfSome result.at (λ at. at + self.now.shape.bytes ≤ length self.now.image) }
    {
        self.seek(cursor, row, place);
        row.cells_from(place)
    }

    /// The bytes of the chunk at this address, where it is stored.
    fn bytes_at(&self, at: Option<u64>) -> Option<&'a [u8]>
        requires { IfSome at (λ at. at + self.now.shape.bytes ≤ length self.now.image) }
        ensures { AreChunkBytes self.now at (option_map (λ b. b.now) result) }
    {
        let Some(at) = at else {
            return None;
        };
        let bytes = self.image.bytes();
        let end = at + self.chunk_bytes;
        Some(&bytes[at as usize..end as usize])
    }

    /// Makes the row that was found last one that has this place.
    #[inline(always)]
    fn seek(&self, cursor: &mut RowCursor, row: &mut FoundRow, place: u64)
        requires below { place < cells_of self.now.sizes }
        requires found { IsFoundIn self.now cursor.old row.old }
        ensures found { IsFoundIn self.now cursor.new row.new }
        ensures since { row.new.start ≤ place }
        ensures until { place < row.new.start + row.new.cells }
    {
        if row.has(place) || self.step_row(&cursor.beside, row, place) {
            return;
        }
        self.find_row(cursor, row, place);
    }

    /// Makes the row that was found last one that has this place, by what is sought in the tree.
    // Apart from `step_row`, which serves most pieces: what is sought in the tree is far longer.
    #[inline(never)]
    pub(crate) fn find_row(&self, cursor: &mut RowCursor, row: &mut FoundRow, place: u64)
        requires below { place < cells_of self.now.sizes }
        requires found { IsFoundIn self.now cursor.old row.old }
        ensures found { IsFoundIn self.now cursor.new row.new }
        ensures since { row.new.start ≤ place }
        ensures until { place < row.new.start + row.new.cells }
    {
        self.place_row(row, place);
        row.at = self.address_beside(cursor, row.corner, &mut row.number);
    }

    /// Makes the row that was found last the one behind it, where that has this place, and its chunk is one of those that
    /// were found beside one another. Returns whether it did; else the row is as it was.
    // Inlined, as `row_at` is.
    #[inline(always)]
    pub(crate) fn step_row(&self, beside: &FoundChunks, row: &mut FoundRow, place: u64) -> bool
        requires grid { IsGrid self.now }
        requires below { place < cells_of self.now.sizes }
        requires beside { AreChunksBeside (chunks_told self.now.image self.now.shape self.now.root)
            self.now.sizes self.now.shape.sizes beside.now }
        requires row { 0 < row.old.cells → IsRowOf self.now row.old }
        requires number { IsNumberBeside self.now.shape.sizes (index_of self.now.sizes beside.now.first.place)
            (index_of self.now.sizes row.old.corner.place) row.old.number }
        ensures exact { IsTrue result
            ↔ GoesOnFound self.now.sizes self.now.shape.sizes beside.now row.old place }
        ensures same { IsFalse result → row.new ≡ row.old }
        ensures row { 0 < row.new.cells → IsRowOf self.now row.new }
        ensures number { IsNumberBeside self.now.shape.sizes (index_of self.now.sizes beside.now.first.place)
            (index_of self.now.sizes row.new.corner.place) row.new.number }
        ensures since { IsTrue result → row.new.start ≤ place }
        ensures until { IsTrue result → place < row.new.start + row.new.cells }
    {
        if !self.goes_on(row, place) {
            return false;
        }
        let Some(at) = beside.address_of(next_number(row.number)) else {
            return false;
        };
        self.go_on(row);
        row.at = Some(at);
        true
    }

    /// Makes a row one that has this place. The address of its chunk is left as it was.
    #[inline(always)]
    fn place_row(&self, row: &mut FoundRow, place: u64)
        requires below { place < cells_of self.now.sizes }
        requires row { 0 < row.old.cells → IsRowOf self.now row.old }
        requires number { (first : List ℕ) × IsNumberBeside self.now.shape.sizes first
            (index_of self.now.sizes row.old.corner.place) row.old.number }
        ensures since { row.new.start ≤ place }
        ensures until { place < row.new.start + row.new.cells }
        ensures number { (first : List ℕ)
            → IsNumberBeside self.now.shape.sizes first
            (index_of self.now.sizes row.old.corner.place) row.old.number
            → IsNumberBeside self.now.shape.sizes first
            (index_of self.now.sizes row.new.corner.place) row.new.number }
        ensures row { IsRowOf self.now (record row.new { at = chunk_of self.now row.new.start }) }
    {
        if self.goes_on(row, place) {
            self.go_on(row);
            return;
        }
        let found = row_in_chunk(self.sizes, self.chunk, place);
        row.start = place;
        row.cells = found.cells;
        row.inner = found.inner;
        row.corner = found.corner;
        row.number = None;
    }

    /// Makes a row the one behind it, which is in the next chunk: nothing is divided, and the chunk's number is known if
    /// that of the last one was. The address of the chunk is left as it was.
    #[inline(always)]
    fn go_on(&self, row: &mut FoundRow)
        requires below { row.old.start + row.old.cells < cells_of self.now.sizes }
        requires row { IsRowOf self.now row.old }
        requires next { HasNext self.now.sizes self.now.shape.sizes row.old }
        requires number { (first : List ℕ) × IsNumberBeside self.now.shape.sizes first
            (index_of self.now.sizes row.old.corner.place) row.old.number }
        ensures start { row.new.start ≡ row.old.start + row.old.cells }
        ensures cells { row.new.cells ≡ next_cells self.now.sizes self.now.shape.sizes row.old }
        ensures next { row.new.number ≡ option_map (λ k. k + 1) row.old.number }
        ensures number { (first : List ℕ)
            → IsNumberBeside self.now.shape.sizes first
            (index_of self.now.sizes row.old.corner.place) row.old.number
            → IsNumberBeside self.now.shape.sizes first
            (index_of self.now.sizes row.new.corner.place) row.new.number }
        ensures row { IsRowOf self.now (record row.new { at = chunk_of self.now row.new.start }) }
    {
        let width = self.width;
        let number = next_number(row.number);
        let inner = row.inner + row.cells - width;
        let corner = ChunkCorner {
            place: row.corner.place + width,
            column: row.corner.column + width,
        };
        row.start += row.cells;
        row.cells = width.min(self.columns - corner.column);
        row.corner = corner;
        row.inner = inner;
        row.number = number;
    }

    /// Whether the row goes on in the next chunk, which has the cell at this place in it.
    #[inline(always)]
    fn goes_on(&self, row: &FoundRow, place: u64) -> bool
        ensures { IsTrue result ↔ GoesOn self.now.sizes self.now.shape.sizes row.now place }
    {
        if self.sizes.is_empty() || row.cells == 0 || place < row.start {
            return false;
        }
        let on = place - row.start;
        let columns = self.columns.saturating_sub(row.corner.column);
        on >= row.cells && on - row.cells < self.width.min(columns.saturating_sub(self.width))
    }

    /// The address of the chunk that begins there, where it is stored, and its number among those that were found beside
    /// one another. The tree is read only where it is none of them; then it comes among them.
    #[inline(always)]
    fn address_beside(
        &self,
        cursor: &mut RowCursor,
        corner: ChunkCorner,
        number: &mut Option<u64>,
    ) -> Option<u64>
        requires some { 0 < cells_of self.now.sizes }
        requires corner { IsFirstCell self.now.sizes self.now.shape.sizes corner }
        requires number { IsNumberBeside self.now.shape.sizes
            (index_of self.now.sizes cursor.old.beside.first.place)
            (index_of self.now.sizes corner.place) number.old }
        requires cursor { IsCursor self.now.image self.now.shape self.now.root cursor.old.tree }
        requires beside { AreChunksBeside (chunks_told self.now.image self.now.shape self.now.root)
            self.now.sizes self.now.shape.sizes cursor.old.beside }
        ensures exact { result ≡ get (chunks_told self.now.image self.now.shape self.now.root)
            (index_of self.now.sizes corner.place) }
        ensures cursor { IsCursor self.now.image self.now.shape self.now.root cursor.new.tree }
        ensures beside { AreChunksBeside (chunks_told self.now.image self.now.shape self.now.root)
            self.now.sizes self.now.shape.sizes cursor.new.beside }
        ensures number { IsNumberBeside self.now.shape.sizes
            (index_of self.now.sizes cursor.new.beside.first.place)
            (index_of self.now.sizes corner.place) number.new }
    {
        let behind = match *number {
            Some(number) => Some(number),
            None => self.number_of(cursor.beside.first, corner),
        };
        *number = behind;
        if let Some(at) = cursor.beside.address_of(behind) {
            return Some(at);
        }
        let at = self.address_of(&mut cursor.tree, corner.place)?;
        *number = cursor.beside.put(corner, behind, at);
        Some(at)
    }

    /// How many chunks behind the first one another one stands, by where they begin; `None` where it does not stand
    /// beside it, or stands before it.
    fn number_of(&self, first: ChunkCorner, corner: ChunkCorner) -> Option<u64>
        requires some { 0 < cells_of self.now.sizes }
        requires first { IsFirstCell self.now.sizes self.now.shape.sizes first }
        requires corner { IsFirstCell self.now.sizes self.now.shape.sizes corner }
        ensures number { IsNumberBeside self.now.shape.sizes (index_of self.now.sizes first.place)
            (index_of self.now.sizes corner.place) result }
        ensures none { IfNone result ((k : ℕ) → index_of self.now.sizes corner.place
            ≢ corner_beside self.now.shape.sizes (index_of self.now.sizes first.place) k) }
    {
        // Without dimensions there is one chunk.
        if self.sizes.is_empty() {
            return Some(0);
        }
        if corner.place < first.place || corner.column < first.column {
            return None;
        }
        let columns = corner.column - first.column;
        if corner.place - first.place != columns {
            return None;
        }
        Some(columns / self.width)
    }

    /// The address of the chunk whose first cell has this place, where it is stored.
    // A call of its own: its room for sizes and offsets is cleared where the tree is read alone.
    #[inline(never)]
    fn address_of(&self, cursor: &mut ChunkCursor, corner: u64) -> Option<u64>
        requires below { corner < cells_of self.now.sizes }
        requires cursor { IsCursor self.now.image self.now.shape self.now.root cursor.old }
        ensures exact { result ≡ get (chunks_told self.now.image self.now.shape self.now.root)
            (index_of self.now.sizes corner) }
        ensures cursor { IsCursor self.now.image self.now.shape self.now.root cursor.new }
    {
        let rank = self.sizes.len();
        let mut offsets = [0; MAX_RANK];
        write_index(self.sizes, corner, &mut offsets[..rank]);
        let mut sizes = [0; MAX_RANK];
        copy_sizes(self.chunk, &mut sizes[..rank]);
        let shape = ChunkShape::new(&sizes[..rank], self.chunk_bytes);
        chunk_from(self.image, &shape, self.root, cursor, &offsets[..rank])
    }
}

/// The number of the chunk behind the one with this number.
#[inline(always)]
fn next_number(number: Option<u64>) -> Option<u64>
    requires { IfSome number (λ k. k + 1 < 2 ^ 64) }
    ensures { result ≡ option_map (λ k. k + 1) number }
{
    Some(number? + 1)
}

/// Copies chunk sizes.
pub(crate) fn copy_sizes(from: &ChunkSizes<'_>, to: &mut [u64])
    requires { length to.old ≡ length from.now }
    ensures same { to.new ≡ from.now }
    ensures sound { AreChunkSizes from.now }
    ensures short { AllByRecursion (λ size. size < 2 ^ 32) from.now }
{
    let rank = from.rank();
    for k in 0..rank {
        to[k] = u64::from(from.size(k));
    }
}

/// Copies chunk sizes as they are stored, in four bytes each.
pub(crate) fn copy_short_sizes(from: &ChunkSizes<'_>, to: &mut [u32])
    requires { length to.old ≡ length from.now }
    ensures { to.new ≡ from.now }
{
    let rank = from.rank();
    for k in 0..rank {
        to[k] = from.size(k);
    }
}

/// How many bytes a chunk has.
pub(crate) fn bytes_of(chunk: &[u64], size: u64) -> u64
    requires cell { 1 ≤ size }
    requires sizes { AreChunkSizes chunk.now }
    requires small { cells_of chunk.now * size ≤ most_chunk_bytes }
    ensures { result ≡ cells_of chunk.now * size }
{
    let [first, rest @ ..] = chunk else {
        return size;
    };
    first * bytes_of(rest, size)
}

/// How many bytes a chunk of these sizes has.
pub(crate) fn chunk_bytes(chunk: &ChunkSizes<'_>, size: u64) -> u64
    requires cell { 1 ≤ size }
    requires small { cells_of chunk.now * size ≤ most_chunk_bytes }
    ensures exact { result ≡ cells_of chunk.now * size }
    ensures sound { AreChunkSizes chunk.now }
{
    let rank = chunk.rank();
    let mut sizes = [0; MAX_RANK];
    copy_sizes(chunk, &mut sizes[..rank]);
    bytes_of(&sizes[..rank], size)
}
