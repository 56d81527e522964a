//! Data Layout messages, version 3 (File Format Specification 3.0, section IV.A.2.i).

ghost use Rattle.std.specs.Prelude.{◌≡◌, ℕ, ◌+◌, ◌-◌, ◌*◌, ◌^◌, ◌<◌, ◌≤◌, ◌==◌, List, None, Some, MatchResult, false, length, map, min, option_map, slice_index};
ghost use Rattle.std.specs.Option.{ForSome};
ghost use Rattle.std.specs.List.{list_any, range_with_len};
ghost use Rattle.h5_bytes.specs.Bytes.{number_at};
ghost use Rattle.h5_bytes.specs.Blocks.{block};
ghost use Rattle.h5_model.specs.Format.Layout.{InBlock, InChunks, InMessage, chunked_layout, compact_layout, contiguous_layout, layout_of, short_numbers_at};
ghost use Rattle.h5_model.specs.Format.Bodies.{chunked_bytes, compact_bytes, contiguous_bytes};
ghost use Rattle.h5_model.specs.Format.Limits.{most_dimensions};
ghost use Rattle.h5_model.specs.Format.Plain.{with_zeros};
ghost use Rattle.h5_msg.specs.ChunkSizes.{AreSizesThere, sizes_at};
ghost use Rattle.h5_msg.specs.Layouts.{layout_in};
ghost use Rattle.h5_model.specs.Tree.Places.{cells as cells_of};

use crate::fault::FormFault;
use byteorder::{ByteOrder, LittleEndian};
use h5_bytes::{Block, UNDEF, u16_at, u32_at, u64_at};
use h5_model::Fixed;
use h5_shape::{Dims, MAX_RANK};
use std::marker::Model;

/// Where the chunk sizes begin.
const CHUNK_SIZES: usize = 11;

/// Where compact data begin.
const COMPACT_DATA: usize = 4;

/// How many bytes the body of a contiguous array's Data Layout message has as it is written.
pub const CONTIGUOUS_LENGTH: usize = 18;

/// How many bytes the body of a compact array's Data Layout message has as it is written, with `bytes` bytes of data.
pub fn compact_length(bytes: usize) -> usize
    requires { bytes < 2 ^ 16 }
    ensures { result ≡ 4 + bytes }
{
    COMPACT_DATA + bytes
}

/// How many bytes the body of a chunked array's Data Layout message has as it is written.
pub fn chunked_length(rank: usize) -> usize
    requires { rank ≤ most_dimensions }
    ensures { result ≡ 11 + 4 * (rank + 1) }
{
    CHUNK_SIZES + 4 * (rank + 1)
}

/// Where chunk sizes stand.
#[derive(Clone, Copy, Debug)]
enum SizesIn<'a> {
    /// So many in the body of a Data Layout message.
    Body { body: &'a [u8], rank: usize },
    /// One after another, as they were handed over.
    Row(&'a [u32]),
}

/// Chunk sizes in cells, as a Data Layout message has them, or as they were handed over.
#[derive(Debug, Drop)]
pub struct ChunkSizes<'a> {
    place: SizesIn<'a>,
}

impl<'a> Model for ChunkSizes<'a> {
    ghost use Rattle.h5_msg.specs.ChunkSizes.{AreSizesThere, sizes_at};
    ghost use Rattle.std.specs.Prelude.{◌≡◌, ◌==◌, ◌≤◌, ℕ, List, length, false};
    ghost use Rattle.std.specs.List.{list_any};

    ghost Value = { List ℕ };

    ghost view = { λ a. sizes_at a.place };

    ghost invariant = { λ a. AreSizesThere a.place × (length (sizes_at a.place) ≤ 32) × (list_any (λ n. n == 0) (sizes_at a.place) ≡ false) };
}

impl<'a> ChunkSizes<'a> {
    /// Chunk sizes that are handed over, none of which is 0.
    pub fn new(sizes: &'a [u32]) -> Self
        requires few { length sizes.now ≤ most_dimensions }
        requires some { list_any (λ n. n == 0) sizes.now ≡ false }
        ensures { result ≡ sizes.now }
    {
        ChunkSizes {
            place: SizesIn::Row(sizes),
        }
    }

    /// How many dimensions there are.
    pub fn rank(&self) -> usize
        ensures rank { result ≡ length self.now }
        ensures most { result ≤ most_dimensions }
    {
        match self.place {
            SizesIn::Body { rank, .. } => rank,
            SizesIn::Row(sizes) => sizes.len(),
        }
    }

    /// The chunk size in a dimension.
    pub fn size(&self, k: usize) -> u32
        requires { k < length self.now }
        ensures size { result ≡ slice_index self.now k }
        ensures some { 1 ≤ result }
    {
        size_at(self.place, k)
    }

    /// The chunk sizes, none of which is 0. It takes no memory.
    pub fn dims(&self) -> Dims
        ensures sizes { result ≡ self.now }
        ensures few { length self.now ≤ most_dimensions }
        ensures some { list_any (λ n. n == 0) self.now ≡ false }
    {
        let mut sizes = [0; MAX_RANK];
        let rank = self.rank();
        read_sizes(self.place, &mut sizes[..rank]);
        Dims::new(&sizes[..rank]).unwrap()
    }
}

/// Reads the chunk sizes that stand there.
fn read_sizes(place: SizesIn<'_>, sizes: &mut [u64])
    requires there { AreSizesThere place }
    requires few { length (sizes_at place) ≤ most_dimensions }
    requires room { length sizes.old ≡ length (sizes_at place) }
    ensures { sizes.new ≡ sizes_at place.entry }
{
    for k in 0..sizes.len() {
        sizes[k] = u64::from(size_at(place, k));
    }
}

/// The chunk size in a dimension.
fn size_at(place: SizesIn<'_>, k: usize) -> u32
    requires there { AreSizesThere place }
    requires few { length (sizes_at place) ≤ most_dimensions }
    requires within { k < length (sizes_at place) }
    ensures { result ≡ slice_index (sizes_at place.entry) k }
{
    match place {
        SizesIn::Body { body, .. } => u32_at(body, CHUNK_SIZES + 4 * k),
        SizesIn::Row(sizes) => sizes[k],
    }
}

/// Where a dataset's cells are: in the message, in a block, or in chunks.
#[derive(Debug, Drop)]
pub enum Layout<'a> {
    /// The bytes of the cells.
    Compact(&'a [u8]),
    /// The block that the cells stand in, where they are stored.
    Contiguous(Option<Block>),
    /// The chunk sizes, and the address of the chunks' B-tree where there is one.
    Chunked {
        sizes: ChunkSizes<'a>,
        tree: Option<u64>,
    },
}

/// How many bytes cells of these sizes need, or 2^128 - 1 where that is more.
fn bytes_needed(sizes: &[u64], size: usize) -> u128
    ensures { result ≡ min (cells_of sizes.now * size) (2 ^ 128 - 1) }
{
    let [first, rest @ ..] = sizes else {
        return size as u128;
    };
    u128::from(*first).saturating_mul(bytes_needed(rest, size))
}

/// Reads a Data Layout message of a dataset of these sizes and this type.
///
/// # Errors
///
/// `LayoutForm` if the message has another form than those that docs/FORMAT.md lists.
#[tactic(auto, unfolding(h5_model::specs::Format::Layout::layout_of))]
pub fn read_layout<'a>(dims: &Dims, fixed: &Fixed, body: &'a [u8]) -> Result<Layout<'a>, FormFault>
    ensures { MatchResult result
        (λ layout. layout_of dims.now fixed.now.size body.now ≡ Some (layout_in layout))
        (λ fault. (fault ≡ FormFault.LayoutForm) × (layout_of dims.now fixed.now.size body.now ≡ None)) }
{
    if body.len() < 2 || body[0] != 3 {
        return Err(FormFault::LayoutForm);
    }
    match body[1] {
        0 => read_compact(bytes_needed(dims.sizes(), fixed.size()), body),
        1 => read_contiguous(bytes_needed(dims.sizes(), fixed.size()), body),
        2 => read_chunked(dims.sizes().len(), fixed.size(), body),
        _ => Err(FormFault::LayoutForm),
    }
}

/// Class 0: a size and that many bytes.
fn read_compact(need: u128, body: &[u8]) -> Result<Layout<'_>, FormFault>
    ensures { MatchResult result
        (λ layout. compact_layout need body.now ≡ Some (layout_in layout))
        (λ fault. (fault ≡ FormFault.LayoutForm) × (compact_layout need body.now ≡ None)) }
{
    if body.len() < 4 {
        return Err(FormFault::LayoutForm);
    }
    let size = usize::from(u16_at(body, 2));
    if body.len() < 4 + size || need > size as u128 {
        return Err(FormFault::LayoutForm);
    }
    Ok(Layout::Compact(&body[4..4 + need as usize]))
}

/// Class 1: an address and a size, which counts where there is an address.
fn read_contiguous(need: u128, body: &[u8]) -> Result<Layout<'_>, FormFault>
    ensures { MatchResult result
        (λ layout. contiguous_layout need body.now ≡ Some (layout_in layout))
        (λ fault. (fault ≡ FormFault.LayoutForm) × (contiguous_layout need body.now ≡ None)) }
{
    if body.len() < CONTIGUOUS_LENGTH {
        return Err(FormFault::LayoutForm);
    }
    let at = u64_at(body, 2);
    let len = u64_at(body, 10);
    if at == UNDEF {
        return Ok(Layout::Contiguous(None));
    }
    if need > u128::from(len) {
        return Err(FormFault::LayoutForm);
    }
    Ok(Layout::Contiguous(Some(Block { at, len })))
}

/// Class 2: one more than the rank, the tree's address, the chunk sizes and last the size of an element.
fn read_chunked(rank: usize, size: usize, body: &[u8]) -> Result<Layout<'_>, FormFault>
    requires { rank ≤ most_dimensions }
    ensures { MatchResult result
        (λ layout. chunked_layout rank size body.now ≡ Some (layout_in layout))
        (λ fault. (fault ≡ FormFault.LayoutForm) × (chunked_layout rank size body.now ≡ None)) }
{
    if rank == 0 || body.len() < CHUNK_SIZES + 4 * (rank + 1) || usize::from(body[2]) != rank + 1 {
        return Err(FormFault::LayoutForm);
    }
    let element = u32_at(body, CHUNK_SIZES + 4 * rank) as usize;
    if element != size || has_zero(body, 0, rank) {
        return Err(FormFault::LayoutForm);
    }
    let tree = u64_at(body, 3);
    Ok(Layout::Chunked {
        sizes: ChunkSizes {
            place: SizesIn::Body { body, rank },
        },
        tree: if tree == UNDEF { None } else { Some(tree) },
    })
}

/// Whether one of so many chunk sizes from dimension `k` on is 0.
#[tactic(auto, using(crate::proofs::LayoutLaws::zero_step))]
fn has_zero(body: &[u8], k: usize, count: usize) -> bool
    requires { 11 + 4 * (k + count) ≤ length body.now }
    ensures { result ≡ list_any (λ n.
        n == 0) (map (λ i. number_at body.now (11 + 4 * i) 4) (range_with_len k count)) }
{
    if count == 0 {
        return false;
    }
    u32_at(body, CHUNK_SIZES + 4 * k) == 0 || has_zero(body, k + 1, count - 1)
}

/// Writes the Data Layout message of a compact array with these data, and zeros behind it.
pub fn write_compact_layout(data: &[u8], bytes: &mut [u8])
    requires short { length «data».now < 2 ^ 16 }
    requires room { 4 + length «data».now ≤ length bytes.old }
    ensures written { bytes.new ≡ with_zeros (compact_bytes «data».now) (length bytes.old) }
    ensures reads { (sizes : List ℕ) (size : ℕ) → cells_of sizes * size ≡ length «data».now
        → layout_of sizes size bytes.new ≡ Some (InMessage «data».now) }
{
    let (head, behind) = bytes.split_at_mut(COMPACT_DATA);
    let (stored, padding) = behind.split_at_mut(data.len());
    head.copy_from_slice(&[3, 0, 0, 0]);
    LittleEndian::write_u16(&mut head[2..], data.len() as u16);
    stored.copy_from_slice(data);
    padding.fill(0);
}

/// Writes the Data Layout message of a contiguous array, and zeros behind it. `address` is that of its block, `None`
/// where there is none; `len` is its length in bytes.
pub fn write_contiguous_layout(address: Option<u64>, len: u64, bytes: &mut [u8])
    requires address { ForSome address (λ at. at < 2 ^ 64 - 1) }
    requires room { 18 ≤ length bytes.old }
    ensures written { bytes.new ≡ with_zeros (contiguous_bytes address len) (length bytes.old) }
    ensures reads { (sizes : List ℕ) (size : ℕ) → cells_of sizes * size ≤ len
        → layout_of sizes size bytes.new ≡ Some (InBlock (option_map (λ at. block at len) address)) }
{
    let (head, behind) = bytes.split_at_mut(2);
    head.copy_from_slice(&[3, 1]);
    behind.fill(0);
    LittleEndian::write_u64(behind, address.unwrap_or(UNDEF));
    LittleEndian::write_u64(&mut behind[8..], len);
}

/// Writes the Data Layout message of a chunked array of this type, and zeros behind it. `chunk` has the sizes of a
/// chunk in cells; `tree` is the address of the chunks' B-tree, `None` where there is none.
#[tactic(auto, using(crate::proofs::LayoutLaws::short_words_long))]
pub fn write_chunked_layout(chunk: &[u32], tree: Option<u64>, fixed: &Fixed, bytes: &mut [u8])
    requires dimensions { 1 ≤ length chunk.now }
    requires rank { length chunk.now ≤ most_dimensions }
    requires sizes { list_any (λ n. n == 0) chunk.now ≡ false }
    requires address { ForSome tree (λ at. at < 2 ^ 64 - 1) }
    requires room { 11 + 4 * (length chunk.now + 1) ≤ length bytes.old }
    ensures written { bytes.new
        ≡ with_zeros (chunked_bytes chunk.now tree fixed.now.size) (length bytes.old) }
    ensures reads { (sizes : List ℕ) → length sizes ≡ length chunk.now
        → layout_of sizes fixed.now.size bytes.new ≡ Some (InChunks chunk.now tree) }
{
    let (head, behind) = bytes.split_at_mut(3);
    let (root, behind) = behind.split_at_mut(8);
    let (sizes, behind) = behind.split_at_mut(4 * chunk.len());
    let (element, padding) = behind.split_at_mut(4);
    head.copy_from_slice(&[3, 2, chunk.len() as u8 + 1]);
    LittleEndian::write_u64(root, tree.unwrap_or(UNDEF));
    LittleEndian::write_u32_into(chunk, sizes);
    LittleEndian::write_u32(element, fixed.size() as u32);
    padding.fill(0);
}
