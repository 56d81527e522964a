//! Data Layout messages, as they are appended (File Format Specification 3.0, section IV.A.2.i).
ghost use Rattle.std.specs.Prelude.{◌≡◌, ℕ, ◌+◌, ◌*◌, ◌-◌, ◌^◌, ◌<◌, ◌≤◌, ◌==◌, ◌++◌, OnOk, Option, false, length, replicate};
ghost use Rattle.std.specs.List.{list_any};
ghost use Rattle.std.specs.Option.{ForSome};
ghost use Rattle.h5_model.specs.Format.Messages.{most_body_bytes};
ghost use Rattle.h5_model.specs.Format.Bodies.{chunked_bytes, compact_bytes, contiguous_bytes, padded_body};
ghost use Rattle.h5_model.specs.Format.Layout.{most_compact_bytes};
ghost use Rattle.h5_model.specs.Format.Plain.{cells_bytes, message_bytes};
ghost use Rattle.h5_model.specs.Format.Sizes.{layout_size};
ghost use Rattle.h5_model.specs.Tree.Places.{cells as cells_of};
ghost use Rattle.h5_repack.specs.Blocks.ArrayHeader.{FitsLayout, IsArrayToWrite, cells_written, in_chunks, layout_written, storage_written};
ghost use Rattle.h5_repack.specs.Blocks.Written.{HasRoom};
ghost use Rattle.h5_repack.specs.declared.blocks.cells.Cells.{Cells as NewCells};

use crate::blocks::cells::{Cells, cells_length, push_cells};
use crate::blocks::header::{message_length, push_message_room};
use h5_layout::{ArrayRef, Layout};
use h5_model::Fixed;
use h5_model::message_type::DATA_LAYOUT;
use h5_msg::{
    CONTIGUOUS_LENGTH, ChunkSizes, chunked_length, compact_length, write_chunked_layout,
    write_compact_layout, write_contiguous_layout,
};
use h5_shape::MAX_RANK;
use std::alloc::AllocError;

/// Whether the cells of an array are in chunks.
pub(crate) fn is_in_chunks(array: &ArrayRef<'_>) -> bool
    ensures { result ≡ in_chunks array.now.layout }
{
    match array.layout() {
        Layout::Compact(_) => false,
        Layout::Contiguous(_) => false,
        Layout::Chunked { .. } => true,
    }
}

/// How many bytes the body of an array's layout message has.
fn layout_body_length(array: &ArrayRef<'_>) -> usize
    requires { FitsLayout (cells_of array.now.sizes * array.now.fixed.size) array.now.layout }
    ensures exact { (c : NewCells)
        → result ≡ layout_size array.now.sizes (storage_written array.now c) array.now.fixed.size }
    ensures few { result ≤ most_body_bytes }
{
    match array.layout() {
        Layout::Compact(_) => compact_length(cells_length(array) as usize),
        Layout::Contiguous(_) => CONTIGUOUS_LENGTH,
        Layout::Chunked { sizes, .. } => chunked_length(sizes.rank()),
    }
}

/// How many bytes the layout message of an array has.
pub(crate) fn layout_length(array: &ArrayRef<'_>) -> u64
    requires { FitsLayout (cells_of array.now.sizes * array.now.fixed.size) array.now.layout }
    ensures exact { (c : NewCells) (address : Option ℕ)
        → HasRoom c (cells_of array.now.sizes * array.now.fixed.size)
        → result ≡ length (message_bytes (8, padded_body (layout_written array.now c address))) }
    ensures few { result ≤ 65536 }
{
    message_length(layout_body_length(array))
}

/// The layout message of an array with these cells, whose data or whose tree stand at this address, or nowhere.
pub(crate) fn push_layout(
    out: &mut Vec<u8>,
    array: &ArrayRef<'_>,
    cells: &Cells<'_>,
    address: Option<u64>,
) -> Result<(), AllocError>
    requires array { IsArrayToWrite array.now cells.now }
    requires address { ForSome address (λ at. at < 2 ^ 64 - 1) }
    ensures { OnOk result (out.new.items
        ≡ out.old.items ++ message_bytes (8, padded_body (layout_written array.now cells.now address))) }
{
    match array.layout() {
        Layout::Compact(_) => push_compact(out, array, cells),
        Layout::Contiguous(_) => push_contiguous(out, address, cells_length(array)),
        Layout::Chunked { sizes, .. } => push_chunked(out, sizes, address, &array.fixed()),
    }
}

/// The layout message of a compact array with these cells.
fn push_compact(
    out: &mut Vec<u8>,
    array: &ArrayRef<'_>,
    cells: &Cells<'_>,
) -> Result<(), AllocError>
    requires few { cells_of array.now.sizes * array.now.fixed.size ≤ most_compact_bytes }
    requires room { HasRoom cells.now (cells_of array.now.sizes * array.now.fixed.size) }
    ensures { OnOk result (out.new.items
        ≡ out.old.items
        ++ message_bytes (8, padded_body (compact_bytes (cells_written cells.now array.now)))) }
{
    match cells {
        Cells::Unset => push_compact_fill(out, array),
        Cells::Filled => push_compact_fill(out, array),
        Cells::Stored(bytes) => push_compact_data(out, bytes),
        // No chunk is in a header.
        Cells::Chunks(_) => push_compact_fill(out, array),
    }
}

/// The layout message of a compact array, each cell of which is the fill.
fn push_compact_fill(out: &mut Vec<u8>, array: &ArrayRef<'_>) -> Result<(), AllocError>
    requires { cells_of array.now.sizes * array.now.fixed.size ≤ most_compact_bytes }
    ensures { OnOk result (out.new.items ≡ out.old.items ++ message_bytes (
      8,
      padded_body
          (compact_bytes (cells_bytes array.now.fixed (replicate (cells_of array.now.sizes) array.now.fill))),
    )) }
{
    let alloc = *out.allocator();
    let mut filled = Vec::new(alloc);
    push_cells(
        alloc,
        &mut filled,
        &array.fixed(),
        array.fill(),
        array.cells(),
    )?;
    push_compact_data(out, &filled)?;
    Ok(())
}

/// The layout message of a compact array whose cells are these bytes.
fn push_compact_data(out: &mut Vec<u8>, bytes: &[u8]) -> Result<(), AllocError>
    requires { length bytes.now ≤ most_compact_bytes }
    ensures { OnOk result
        (out.new.items ≡ out.old.items ++ message_bytes (8, padded_body (compact_bytes bytes.now))) }
{
    let at = push_message_room(out, DATA_LAYOUT, compact_length(bytes.len()))?;
    write_compact_layout(bytes, &mut out[at..]);
    Ok(())
}

/// The layout message of so many bytes of data in one block at this address, or nowhere.
fn push_contiguous(out: &mut Vec<u8>, address: Option<u64>, len: u64) -> Result<(), AllocError>
    requires { ForSome address (λ at. at < 2 ^ 64 - 1) }
    ensures { OnOk result
        (out.new.items ≡ out.old.items ++ message_bytes (8, padded_body (contiguous_bytes address len))) }
{
    let at = push_message_room(out, DATA_LAYOUT, CONTIGUOUS_LENGTH)?;
    write_contiguous_layout(address, len, &mut out[at..]);
    Ok(())
}

/// The layout message of chunks of these sizes, whose tree is at this address, or nowhere.
fn push_chunked(
    out: &mut Vec<u8>,
    sizes: &ChunkSizes<'_>,
    tree: Option<u64>,
    fixed: &Fixed,
) -> Result<(), AllocError>
    requires ranked { 1 ≤ length sizes.now }
    requires some { list_any (λ n. n == 0) sizes.now ≡ false }
    requires address { ForSome tree (λ at. at < 2 ^ 64 - 1) }
    ensures { OnOk result (out.new.items
        ≡ out.old.items ++ message_bytes (8, padded_body (chunked_bytes sizes.now tree fixed.now.size))) }
{
    let mut room = [0; MAX_RANK];
    let chunk = &mut room[..sizes.rank()];
    read_chunk(sizes, chunk);
    let at = push_message_room(out, DATA_LAYOUT, chunked_length(chunk.len()))?;
    write_chunked_layout(chunk, tree, fixed, &mut out[at..]);
    Ok(())
}

/// Reads the sizes of chunks.
fn read_chunk(sizes: &ChunkSizes<'_>, chunk: &mut [u32])
    requires { length chunk.old ≡ length sizes.now }
    ensures { chunk.new ≡ sizes.now }
{
    for k in 0..chunk.len() {
        chunk[k] = sizes.size(k);
    }
}
