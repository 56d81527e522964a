//! The bytes of cells (File Format Specification 3.0, section IV.A.2.d, class 0), and where they stand.
ghost use Rattle.std.specs.Prelude.{◌≡◌, ℕ, ◌-◌, ◌*◌, ◌^◌, ◌<◌, ◌≤◌, ◌++◌, OnOk, nat_le, true, length, replicate};
ghost use Rattle.h5_model.specs.Format.Fixed.{bytes_of, fits};
ghost use Rattle.h5_bytes.specs.Numbers.{zeros};
ghost use Rattle.h5_model.specs.Format.Limits.{most_bytes, highest_level};
ghost use Rattle.h5_model.specs.Format.Superblock.{highest_k};
ghost use Rattle.h5_model.specs.Format.Plain.{cells_bytes};
ghost use Rattle.h5_model.specs.Tree.Places.{cells as cells_of};
ghost use Rattle.h5_btree.specs.Writing.Written.{root_level};
ghost use Rattle.h5_repack.specs.Blocks.ArrayHeader.{IsArrayToWrite, IsLength, address_written, are_stored as are_cells_stored, data_written, has_data};
ghost use Rattle.h5_repack.specs.Blocks.Parts.{copies};
ghost use Rattle.h5_repack.specs.Blocks.Written.{chunks_of};

use crate::blocks::chunks::{
    chunks_length, has_chunks, has_low_chunks, length_in_image, push_chunks,
};
use h5_bytes::push_bytes;
use h5_layout::{ArrayRef, HeldChunks, Layout};
use h5_model::Fixed;
use h5_types::encode;
use std::alloc::{AllocError, Global};

/// The cells of an array to be written.
#[derive(Drop)]
pub enum Cells<'a> {
    /// Each is the fill value, and none is stored, but those of a compact array.
    Unset,
    /// Each is the fill value. They are stored in the block of a contiguous array; no chunk is.
    Filled,
    /// The bytes of the cells of an array that is not in chunks, one after another.
    Stored(&'a [u8]),
    /// The chunks that are stored of an array in chunks. Each cell in another chunk is the fill value.
    Chunks(HeldChunks<'a>),
}

/// How many cells are appended at a time.
const TILE: u64 = 1024;

/// The bytes of a value of the type, and zeros behind them.
fn value_bytes(fixed: &Fixed, value: i128) -> [u8; 8]
    requires { fits fixed.now value ≡ true }
    ensures { result ≡ bytes_of fixed.now value ++ zeros (8 - fixed.now.size) }
{
    let mut room = [0; 8];
    let _ = encode(fixed, value, &mut room[..fixed.size()]);
    room
}

/// The bytes, so many times.
#[tactic(auto, using(crate::proofs::BlockLaws::Copies::copies_steps))]
fn push_copies(out: &mut Vec<u8>, bytes: &[u8], count: u64) -> Result<(), AllocError>
    ensures { OnOk result (out.new.items ≡ out.old.items ++ copies count bytes.now) }
{
    for _copy in 0..count {
        push_bytes(out, bytes)?;
    }
    Ok(())
}

/// So many cells of one value.
pub(crate) fn push_cells(
    alloc: Global,
    out: &mut Vec<u8>,
    fixed: &Fixed,
    value: i128,
    count: u64,
) -> Result<(), AllocError>
    requires { fits fixed.now value ≡ true }
    ensures { OnOk result (out.new.items ≡ out.old.items ++ cells_bytes fixed.now (replicate count value)) }
{
    let room = value_bytes(fixed, value);
    let cell = &room[..fixed.size()];
    let mut tile = Vec::new(alloc);
    push_copies(&mut tile, cell, TILE)?;
    push_copies(out, &tile, count / TILE)?;
    push_copies(out, cell, count % TILE)?;
    Ok(())
}

/// How many bytes the cells of an array have where they are stored.
pub(crate) fn cells_length(array: &ArrayRef<'_>) -> u64
    ensures exact { result ≡ cells_of array.now.sizes * array.now.fixed.size }
    ensures few { result ≤ 2 ^ 43 }
{
    array.cells() * array.fixed().size() as u64
}

/// Whether so many cells in one block are stored: those that are the fill where there are any.
fn are_stored(cells: &Cells<'_>, count: u64) -> bool
    ensures { result ≡ are_cells_stored cells.now count }
{
    match cells {
        Cells::Unset => false,
        Cells::Filled => count > 0,
        Cells::Stored(_) => true,
        Cells::Chunks(_) => false,
    }
}

/// Whether an array with these cells has data behind its header: cells, or chunks with their tree.
fn stores_data(array: &ArrayRef<'_>, cells: &Cells<'_>) -> bool
    ensures { result ≡ has_data array.now cells.now }
{
    match array.layout() {
        Layout::Compact(_) => false,
        Layout::Contiguous(_) => are_stored(cells, array.cells()),
        Layout::Chunked { .. } => has_chunks(cells),
    }
}

/// How many bytes of data stand behind the header of an array with these cells; `None` where an image cannot have as
/// many. `chunk_k` is K of the nodes of the tree over chunks.
pub fn data_length(chunk_k: u16, array: &ArrayRef<'_>, cells: &Cells<'_>) -> Option<u64>
    requires some { 1 ≤ chunk_k }
    requires most { chunk_k ≤ highest_k }
    requires array { IsArrayToWrite array.now cells.now }
    ensures { (place : ℕ) → IsLength result (length (data_written chunk_k cells.now array.now place)) }
{
    if !stores_data(array, cells) {
        return Some(0);
    }
    match cells {
        Cells::Unset => unreachable!(),
        Cells::Filled => length_in_image(cells_length(array)),
        Cells::Stored(bytes) => length_in_image(bytes.len() as u64),
        Cells::Chunks(held) => chunks_length(chunk_k, held),
    }
}

/// Whether the tree of the chunks that are stored, of nodes of this K, has at most 16 levels.
pub(crate) fn has_low_tree(chunk_k: u16, cells: &Cells<'_>) -> bool
    requires some { 1 ≤ chunk_k }
    requires most { chunk_k ≤ highest_k }
    requires few { length (chunks_of cells.now) < 2 ^ 32 }
    ensures { result ≡ nat_le (root_level chunk_k (length (chunks_of cells.now))) highest_level }
{
    match cells {
        Cells::Unset => true,
        Cells::Filled => true,
        Cells::Stored(_) => true,
        Cells::Chunks(held) => has_low_chunks(chunk_k, held),
    }
}

/// The address of the data of an array with these cells. `place` is where they begin, if there are any; `None` where
/// there are none.
pub fn cells_address(array: &ArrayRef<'_>, cells: &Cells<'_>, place: u64) -> Option<u64>
    ensures { result ≡ address_written array.now cells.now place }
{
    if stores_data(array, cells) {
        Some(place)
    } else {
        None
    }
}

/// Appends the data of an array with these cells, where it has any behind its header: one block, or the tree of its
/// chunks, of nodes of the K `chunk_k`, and the chunks. `place` is the address at which `out` ends.
///
/// # Errors
///
/// `AllocError` if memory is refused.
pub fn push_data(
    alloc: Global,
    out: &mut Vec<u8>,
    chunk_k: u16,
    array: &ArrayRef<'_>,
    cells: &Cells<'_>,
    place: u64,
) -> Result<(), AllocError>
    requires some { 1 ≤ chunk_k }
    requires most { chunk_k ≤ highest_k }
    requires array { IsArrayToWrite array.now cells.now }
    requires level { root_level chunk_k (length (chunks_of cells.now)) ≤ highest_level }
    requires low { place ≤ most_bytes }
    requires few { length (data_written chunk_k cells.now array.now place) ≤ most_bytes }
    ensures { OnOk result (out.new.items ≡ out.old.items ++ data_written chunk_k cells.now array.now place) }
{
    if !stores_data(array, cells) {
        return Ok(());
    }
    match cells {
        Cells::Unset => unreachable!(),
        Cells::Filled => push_cells(alloc, out, &array.fixed(), array.fill(), array.cells()),
        Cells::Stored(bytes) => push_bytes(out, bytes),
        Cells::Chunks(held) => push_chunks(alloc, out, chunk_k, held, place),
    }
}
