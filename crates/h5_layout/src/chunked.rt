//! An array in chunks without its image: what its header says of them (File Format Specification 3.0, sections III.A.1
//! and IV.A.2.i).

ghost use Rattle.std.specs.Prelude.{◌≡◌, ◌*◌, ◌≤◌, true};
ghost use Rattle.h5_model.specs.Format.Fixed.{IsFixed, fits};
ghost use Rattle.h5_model.specs.Format.Limits.{most_chunk_bytes};
ghost use Rattle.h5_model.specs.Tree.Places.{cells as cells_of};
ghost use Rattle.h5_chunks.specs.Shapes.{AreChunkSizes};
ghost use Rattle.h5_layout.specs.ArrayChunks.{AreSoundChunks, IsChunked, IsInChunksOf};
ghost use Rattle.h5_layout.specs.ArrayEdits.{IsArrayApart, described_in};
ghost use Rattle.h5_layout.specs.Data.{chunk_shape};
ghost use Rattle.h5_layout.specs.Stored.{IsArray};

use crate::array::ArrayRef;
use crate::copied::CellsToFill;
use crate::grid::{bytes_of, copy_sizes};
use crate::read::known_array;
use h5_chunks::ChunkShape;
use h5_header::{HeaderRef, Messages};
use h5_model::Fixed;
use h5_msg::Layout;
use h5_shape::MAX_RANK;
use h5_space::Image;
use std::marker::Model;

/// An array in chunks, as its header describes it: the type of its cells, their fill, the sizes of a chunk, and the root of
/// the tree. It borrows nothing, so that the image can be edited meanwhile.
#[derive(Drop)]
pub struct ChunkedArray {
    fixed: Fixed,
    fill: i128,
    rank: usize,
    sizes: [u64; 32],
    chunk_length: u64,
    root: Option<u64>,
}

impl Model for ChunkedArray {
    ghost use Rattle.std.specs.Prelude.{◌≡◌, ◌≤◌, ◌*◌, take};
    ghost use Rattle.h5_model.specs.Tree.Places.{cells};
    ghost use Rattle.h5_layout.specs.ArrayChunks.{ArrayChunks, AreSoundChunks};

    ghost Value = { ArrayChunks };

    ghost view = { λ a. record {
      fixed = a.fixed;
      fill = a.fill;
      chunk = take a.rank a.sizes;
      root = a.root;
    } };

    ghost invariant = { λ a. (a.rank ≤ 32)
        × (a.chunk_length ≡ cells (take a.rank a.sizes) * a.fixed.size)
        × AreSoundChunks (record {
          fixed = a.fixed;
          fill = a.fill;
          chunk = take a.rank a.sizes;
          root = a.root;
        }) };
}

impl ChunkedArray {
    /// The array of these messages, which is in chunks.
    pub(crate) fn new(image: &Image, messages: &Messages) -> ChunkedArray
        requires array { IsArrayApart image.now messages.now }
        requires chunked { IsChunked (described_in image.now.bytes messages.now).layout }
        ensures chunks { IsInChunksOf (described_in image.now.bytes messages.now) result }
        ensures sound { AreSoundChunks result }
    {
        let array = known_array(&HeaderRef::new(image, messages));
        ChunkedArray::of(&array)
    }

    /// The array with this description, which is in chunks.
    pub(crate) fn of(array: &ArrayRef<'_>) -> ChunkedArray
        requires { IsChunked array.now.layout }
        ensures chunks { IsInChunksOf array.now result }
        ensures sound { AreSoundChunks result }
        ensures array { IsArray array.now }
    {
        let Layout::Chunked {
            sizes: chunk_sizes,
            tree,
        } = array.layout()
        else {
            unreachable!()
        };
        let fixed = array.fixed();
        let rank = chunk_sizes.rank();
        let mut sizes = [0; MAX_RANK];
        copy_sizes(chunk_sizes, &mut sizes[..rank]);
        let chunk_length = bytes_of(&sizes[..rank], fixed.size() as u64);
        ChunkedArray {
            fixed,
            fill: array.fill(),
            rank,
            sizes,
            chunk_length,
            root: *tree,
        }
    }

    /// The type of the cells.
    pub(crate) fn fixed(&self) -> Fixed
        ensures fixed { result ≡ self.now.fixed }
        ensures sound { IsFixed self.now.fixed }
    {
        self.fixed
    }

    /// The value of a cell that was never written.
    pub(crate) fn fill(&self) -> i128
        ensures value { result ≡ self.now.fill }
        ensures of_type { fits self.now.fixed self.now.fill ≡ true }
    {
        self.fill
    }

    /// The sizes of a chunk.
    pub(crate) fn sizes(&self) -> &[u64]
        ensures sizes { result.now ≡ self.now.chunk }
        ensures sound { AreChunkSizes self.now.chunk }
    {
        &self.sizes[..self.rank]
    }

    /// How many bytes a chunk has.
    pub(crate) fn chunk_length(&self) -> u64
        ensures exact { result ≡ cells_of self.now.chunk * self.now.fixed.size }
        ensures few { result ≤ most_chunk_bytes }
    {
        self.chunk_length
    }

    /// The cells of one chunk, each of which is to be the fill.
    pub(crate) fn cells(&self) -> CellsToFill
        ensures fixed { result.fixed ≡ self.now.fixed }
        ensures fill { result.fill ≡ self.now.fill }
        ensures count { result.count ≡ cells_of self.now.chunk }
        ensures sound { AreSoundChunks self.now }
    {
        CellsToFill {
            fixed: self.fixed,
            fill: self.fill,
            count: bytes_of(self.sizes(), 1),
        }
    }

    /// What the chunks have in common.
    pub(crate) fn shape(&self) -> ChunkShape<'_>
        ensures { result ≡ chunk_shape self.now.fixed self.now.chunk }
    {
        ChunkShape::new(&self.sizes[..self.rank], self.chunk_length)
    }

    /// The root of their tree, where there is one.
    pub(crate) fn root(&self) -> Option<u64>
        ensures { result ≡ self.now.root }
    {
        self.root
    }
}
