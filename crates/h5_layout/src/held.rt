//! The chunks of an array that are handed on, to be written anew (File Format Specification 3.0, sections III.A.1 and
//! IV.A.2.i).

ghost use Rattle.std.specs.Prelude.{◌≡◌, ℕ, ℤ, ◌+◌, ◌-◌, ◌*◌, ◌^◌, ◌<◌, ◌≤◌, ◌++◌, ◌==◌, List, Option, Some, IfOk, OnOk, length, map, slice_get};
ghost use Rattle.std.specs.FinMap.{entries, retain_keys};
ghost use Rattle.std.specs.List.{AllByRecursion};
ghost use Rattle.std.specs.Option.{ForSome};
ghost use Rattle.h5_model.specs.Format.Chunks.{IsChunkKey, offsets_in};
ghost use Rattle.h5_model.specs.Format.Fixed.{IsFixed};
ghost use Rattle.h5_model.specs.Format.Layout.{InChunks};
ghost use Rattle.h5_model.specs.Format.Limits.{most_chunk_bytes};
ghost use Rattle.h5_model.specs.Format.Plain.{cells_bytes};
ghost use Rattle.h5_model.specs.Tree.Places.{cells as cells_of, is_inside};
ghost use Rattle.h5_chunks.specs.Held.{IsChunkPlace, place_entry};
ghost use Rattle.h5_chunks.specs.Keys.{chunk_key, index_from};
ghost use Rattle.h5_chunks.specs.Read.{AreChunksRead};
ghost use Rattle.h5_chunks.specs.Shapes.{AreChunkSizes};
ghost use Rattle.h5_layout.specs.Data.{AreDataRead};
ghost use Rattle.h5_layout.specs.HeldChunks.{held_cells};
ghost use Rattle.h5_layout.specs.Kept.{chunks_below_root, smaller_sizes};

use crate::array::ArrayRef;
use crate::chunked::ChunkedArray;
use crate::corner::{Span, push_kept, write_spans};
use h5_chunks::{ChunkKey, ChunkPlace, ChunkShape, held_places, push_last_key};
use h5_model::Fixed;
use h5_shape::{Dims, MAX_RANK};
use h5_space::Image;
use std::alloc::{AllocError, Global};
use std::marker::Model;

/// The stored chunks that hold a cell of an array, in the order of their offsets, as they are handed on to be
/// written. The array has, or is to have, some sizes; a cell of a chunk outside these sizes reads the fill.
#[derive(Drop)]
pub struct HeldChunks<'a> {
    image: &'a Image,
    array: ChunkedArray,
    kept: [u64; 32],
    places: Vec<ChunkPlace<'a>>,
}

impl<'a> Model for HeldChunks<'a> {
    ghost use Rattle.h5_layout.specs.HeldChunks.{HeldCells};
    ghost use Rattle.h5_layout.specs.Kept.{AreKept, array_kept, kept_cells};

    ghost Value = { HeldCells };

    ghost view = { λ h. kept_cells (array_kept h.image.now.bytes h.array h.kept) h.places.items };

    ghost invariant = { λ h. AreKept (array_kept h.image.now.bytes h.array h.kept) h.places.items };
}

impl<'a> HeldChunks<'a> {
    /// The stored chunks that hold a cell of the array once it has these sizes. `array` is in chunks. A cell of such
    /// a chunk reads the fill if it is outside the old or the new sizes.
    ///
    /// Takes memory for the place of each chunk that it gives, and for the addresses of the nodes of two rows of the
    /// tree. That the data were read, and that the array is in chunks and has as many dimensions as `sizes`, are the
    /// caller's conditions.
    ///
    /// # Errors
    ///
    /// `AllocError` if memory is refused.
    pub fn new(
        alloc: Global,
        image: &'a Image,
        array: &ArrayRef<'a>,
        sizes: &Dims,
    ) -> Result<HeldChunks<'a>, AllocError>
        requires data { AreDataRead image.now.bytes array.now.fixed array.now.layout }
        requires rank { length sizes.now ≡ length array.now.sizes }
        requires chunked { (chunk : List ℕ) × (root : Option ℕ) × (array.now.layout ≡ InChunks chunk root) }
        ensures { IfOk result (λ h. (chunk : List ℕ) (root : Option ℕ)
            → array.now.layout ≡ InChunks chunk root
            → h ≡ held_cells image.now.bytes array.now chunk sizes.now) }
    {
        let chunked = ChunkedArray::of(array);
        let rank = chunked.sizes().len();
        let mut kept = [0; MAX_RANK];
        copy_smaller(array.dims().sizes(), sizes.sizes(), &mut kept[..rank]);
        let shape = chunked.shape();
        let places = places_below(alloc, image, &shape, chunked.root(), sizes.sizes())?;
        Ok(HeldChunks {
            image,
            array: chunked,
            kept,
            places,
        })
    }

    /// How many chunks there are.
    pub fn len(&self) -> usize
        ensures { result ≡ length self.now.parts }
    {
        self.places.len()
    }

    /// Whether there are none.
    pub fn is_empty(&self) -> bool
        ensures { result ≡ (length self.now.parts == 0) }
    {
        self.places.is_empty()
    }

    /// The sizes of a chunk in cells, at most 32, none of which is 0. Each chunk has an offset for each of them.
    pub fn chunk(&self) -> &[u64]
        ensures sizes { result.now ≡ self.now.chunk }
        ensures sound { AreChunkSizes self.now.chunk }
        ensures short { AllByRecursion (λ size. size < 2 ^ 32) self.now.chunk }
        ensures ranked { AllByRecursion (λ (part : List ℕ × List ℤ).
            length part.0 ≡ length self.now.chunk) self.now.parts }
    {
        self.array.sizes()
    }

    /// The type of the cells.
    pub fn fixed(&self) -> Fixed
        ensures fixed { result ≡ self.now.fixed }
        ensures sound { IsFixed self.now.fixed }
    {
        self.array.fixed()
    }

    /// How many bytes a chunk has.
    pub fn chunk_length(&self) -> u64
        ensures exact { result ≡ cells_of self.now.chunk * self.now.fixed.size }
        ensures few { result ≤ most_chunk_bytes }
        ensures some { 1 ≤ result }
    {
        self.array.chunk_length()
    }

    /// The key of chunk `k`, as it stands in the tree.
    pub fn key(&self, k: usize) -> ChunkKey<'a>
        requires { k < length self.now.parts }
        ensures { (part : List ℕ × List ℤ) → slice_get self.now.parts k ≡ Some part
            → result.bytes.now ≡ chunk_key (record {
              bytes = cells_of self.now.chunk * self.now.fixed.size;
              offsets = part.0;
            }) }
    {
        written_key(self.places[k].key)
    }

    /// Appends the key that stands behind the last chunk and belongs to no chunk.
    ///
    /// # Errors
    ///
    /// `AllocError` if memory is refused.
    pub fn push_last_key(&self, out: &mut Vec<u8>) -> Result<(), AllocError>
        requires { 1 ≤ length self.now.parts }
        ensures { (part : List ℕ × List ℤ) → slice_get self.now.parts (length self.now.parts - 1) ≡ Some part
            → OnOk result (out.new.items ≡ out.old.items ++ chunk_key (record {
              bytes = 0;
              offsets = index_from part.0 self.now.chunk;
            })) }
    {
        push_last_key(out, self.places[self.places.len() - 1].key, self.chunk())
    }

    /// Appends the bytes of the cells of chunk `k`. Takes no memory but for what is appended.
    ///
    /// # Errors
    ///
    /// `AllocError` if memory is refused.
    pub fn push_chunk(&self, out: &mut Vec<u8>, k: usize) -> Result<(), AllocError>
        requires { k < length self.now.parts }
        ensures { (part : List ℕ × List ℤ) → slice_get self.now.parts k ≡ Some part
            → OnOk result (out.new.items ≡ out.old.items ++ cells_bytes self.now.fixed part.1) }
    {
        let place = self.places[k];
        let length = self.array.chunk_length();
        let bytes = &self.image.bytes()[place.at as usize..(place.at + length) as usize];
        let chunk = self.array.sizes();
        let rank = chunk.len();
        let mut spans = [Span { size: 1, kept: 1 }; MAX_RANK];
        let spans = &mut spans[..rank];
        write_spans(chunk, &self.kept[..rank], place.key, spans);
        push_kept(out, self.array.fixed(), self.array.fill(), spans, bytes)
    }
}

/// The chunks below this root that hold a cell of an extent of these sizes, where there is one.
fn places_below<'a>(
    alloc: Global,
    image: &'a Image,
    shape: &ChunkShape<'_>,
    root: Option<u64>,
    sizes: &[u64],
) -> Result<Vec<ChunkPlace<'a>>, AllocError>
    requires chunks { ForSome root (λ root. AreChunksRead image.now.bytes shape.now root) }
    requires rank { length sizes.now ≡ length shape.now.sizes }
    ensures held { IfOk result (λ places. map (place_entry (length shape.now.sizes)) places.items
        ≡ entries (retain_keys (chunks_below_root image.now.bytes shape.now root) (is_inside sizes.now))) }
    ensures each { IfOk result (λ places.
        AllByRecursion (IsChunkPlace image.now.bytes shape.now) places.items) }
{
    match root {
        Some(root) => held_places(alloc, image, shape, root, sizes),
        None => Ok(Vec::new(alloc)),
    }
}

/// Copies the smaller of two sizes in each dimension, in cells, the one that runs slowest first. Takes no memory.
///
/// That all three have as many dimensions is the caller's condition.
pub fn copy_smaller(old: &[u64], new: &[u64], to: &mut [u64])
    requires room { length to.old ≡ length old.now }
    requires rank { length new.now ≡ length old.now }
    ensures { to.new ≡ smaller_sizes old.now new.now }
{
    for d in 0..to.len() {
        to[d] = old[d].min(new[d]);
    }
}

/// The key of a whole chunk, as it is written.
fn written_key(bytes: &[u8]) -> ChunkKey<'_>
    ensures { (sizes : List ℕ) (size : ℕ) → length bytes.now ≡ 8 + 8 * (length sizes + 1)
        → IsChunkKey sizes size bytes.now → result.bytes.now ≡ chunk_key (record {
          bytes = size;
          offsets = offsets_in (length sizes) bytes.now;
        }) }
{
    ChunkKey { bytes }
}
