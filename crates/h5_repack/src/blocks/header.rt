//! Object headers, version 1, in one block, and the messages of a group and of an array (File Format Specification 3.0,
//! section IV.A).
ghost use Rattle.std.specs.Prelude.{◌≡◌, ℕ, ◌+◌, ◌-◌, ◌*◌, ◌^◌, ◌<◌, ◌≤◌, ◌++◌, Bool, IfOk, OnOk, Option, if◌then◌else◌, true, length, nat_lt, not};
ghost use Rattle.std.specs.Option.{ForSome};
ghost use Rattle.h5_bytes.specs.Texts.{pad8};
ghost use Rattle.h5_model.specs.Format.Bodies.{pair_bytes};
ghost use Rattle.h5_model.specs.Format.Fixed.{fits};
ghost use Rattle.h5_model.specs.Format.Limits.{most_bytes};
ghost use Rattle.h5_model.specs.Format.Messages.{most_messages, most_body_bytes};
ghost use Rattle.h5_model.specs.Format.Plain.{message_bytes, messages_bytes};
ghost use Rattle.h5_model.specs.Format.Sizes.{message_size};
ghost use Rattle.h5_model.specs.Tree.Places.{cells as cells_of};
ghost use Rattle.h5_msg.specs.Times.{time_number};
ghost use Rattle.h5_model.specs.Format.Described.{Described};
ghost use Rattle.h5_repack.specs.Bodies.Bodies.{fill_message, fill_messages, type_message};
ghost use Rattle.h5_repack.specs.Blocks.ArrayHeader.{FitsLayout, IsArrayToWrite, group_written, header_written, in_chunks, messages_count as count_of, messages_size as size_of};
ghost use Rattle.h5_repack.specs.Blocks.Parts.{message_head, message_room, prefix_bytes};
ghost use Rattle.h5_repack.specs.Blocks.Written.{HasRoom};
ghost use Rattle.h5_repack.specs.declared.blocks.cells.Cells.{Cells as NewCells};

use crate::blocks::cells::Cells;
use crate::blocks::layout::{is_in_chunks, layout_length, push_layout};
use crate::blocks::others::Others;
use crate::blocks::space::{push_space, space_length};
use h5_bytes::{push_bytes, push_middle, push_short, push_zeros};
use h5_group::MAX_MESSAGES;
use h5_layout::ArrayRef;
use h5_model::Fixed;
use h5_model::message_type::{DATATYPE, FILL_VALUE, SYMBOL_TABLE};
use h5_msg::{
    AllocationTime, DATATYPE_LENGTH, SYMBOL_TABLE_LENGTH, SymbolTable, fill_length, write_datatype,
    write_fill, write_symbol_table,
};
use std::alloc::AllocError;

/// Bytes of the header of a group that has no other messages: its prefix, and the message with the addresses of its tree and heap.
pub const GROUP_HEADER: u64 = 40;

/// The prefix of a header: its count of messages, its reference count and the bytes of its messages.
fn push_prefix(
    out: &mut Vec<u8>,
    messages: u16,
    references: u32,
    size: u32,
) -> Result<(), AllocError>
    ensures { OnOk result (out.new.items ≡ out.old.items ++ prefix_bytes references messages size) }
{
    push_bytes(out, &[1, 0])?;
    push_short(out, messages)?;
    push_middle(out, references)?;
    push_middle(out, size)?;
    push_zeros(out, 4)?;
    Ok(())
}

/// What stands before a message's body: its type and the body's size.
fn push_message_head(out: &mut Vec<u8>, kind: u16, size: u16) -> Result<(), AllocError>
    ensures { OnOk result (out.new.items ≡ out.old.items ++ message_head kind size) }
{
    push_short(out, kind)?;
    push_short(out, size)?;
    push_zeros(out, 4)?;
    Ok(())
}

/// A message with this body.
pub(crate) fn push_message(out: &mut Vec<u8>, kind: u16, body: &[u8]) -> Result<(), AllocError>
    requires { length body.now < 65536 }
    ensures { OnOk result (out.new.items ≡ out.old.items ++ message_bytes (kind, body.now)) }
{
    push_message_head(out, kind, body.len() as u16)?;
    push_bytes(out, body)
}

/// How many bytes a body of so many has in a message: a multiple of 8.
fn body_length(size: usize) -> usize
    requires { size ≤ most_body_bytes }
    ensures value { result ≡ pad8 size }
    ensures few { result ≤ most_body_bytes }
{
    (size + 7) / 8 * 8
}

/// How many bytes a message has with a body of so many.
pub(crate) fn message_length(size: usize) -> u64
    requires { size ≤ most_body_bytes }
    ensures { result ≡ message_size size }
{
    8 + body_length(size) as u64
}

/// What stands before a message's body of so many bytes, and zeros for the body, raised to a multiple of 8. `Ok` has the place of
/// the body.
pub(crate) fn push_message_room(
    out: &mut Vec<u8>,
    kind: u16,
    size: usize,
) -> Result<usize, AllocError>
    requires { size ≤ most_body_bytes }
    ensures room { OnOk result (out.new.items ≡ out.old.items ++ message_room kind size) }
    ensures place { IfOk result (λ at. at ≡ length out.old.items + 8) }
{
    let length = body_length(size);
    push_message_head(out, kind, length as u16)?;
    let at = out.len();
    push_zeros(out, length)?;
    Ok(at)
}

/// The message with the addresses of a group's tree and heap.
fn push_symbol_table(out: &mut Vec<u8>, tree: u64, heap: u64) -> Result<(), AllocError>
    ensures { OnOk result (out.new.items ≡ out.old.items ++ message_bytes (17, pair_bytes tree heap)) }
{
    let at = push_message_room(out, SYMBOL_TABLE, SYMBOL_TABLE_LENGTH)?;
    write_symbol_table(SymbolTable::new(tree, heap), &mut out[at..]);
    Ok(())
}

/// The datatype message of an array.
fn push_type(out: &mut Vec<u8>, fixed: &Fixed) -> Result<(), AllocError>
    ensures { OnOk result (out.new.items ≡ out.old.items ++ message_bytes (type_message fixed.now)) }
{
    let at = push_message_room(out, DATATYPE, DATATYPE_LENGTH)?;
    write_datatype(fixed, &mut out[at..]);
    Ok(())
}

/// When space for the cells of an array is made: for chunks when they are stored, for other cells with the array.
fn allocation_time(chunked: bool) -> AllocationTime
    ensures { time_number result ≡ (if chunked then 3 else 1) }
{
    if chunked {
        AllocationTime::Incremental
    } else {
        AllocationTime::Early
    }
}

/// The fill value message of an array, by whether its cells are in chunks.
fn push_fill(out: &mut Vec<u8>, chunked: bool, fixed: &Fixed, fill: i128) -> Result<(), AllocError>
    requires { fits fixed.now fill ≡ true }
    ensures { OnOk result
        (out.new.items ≡ out.old.items ++ message_bytes (fill_message chunked fixed.now fill)) }
{
    let at = push_message_room(out, FILL_VALUE, fill_length(fixed))?;
    write_fill(allocation_time(chunked), fixed, fill, &mut out[at..]);
    Ok(())
}

/// How many bytes the header of a group has, with its prefix, its Symbol Table message and these other messages.
pub fn group_header_length(others: &Others) -> u64
    requires { others.now.count + 1 ≤ most_messages }
    ensures exact { (tree heap : ℕ) → result ≡ length (group_written tree heap others.now) }
    ensures few { result ≤ 2 ^ 33 }
    ensures holds { length others.now.bytes ≤ result }
{
    GROUP_HEADER + others.bytes().len() as u64
}

/// Appends the header of a group: a Symbol Table message with the addresses of its B-tree and heap, and these other
/// messages behind it. `group_header_length` says whether there is room for them.
///
/// # Errors
///
/// `AllocError` if memory is refused.
pub fn push_group_header(
    out: &mut Vec<u8>,
    tree: u64,
    heap: u64,
    others: &Others,
) -> Result<(), AllocError>
    requires few { others.now.count + 1 ≤ most_messages }
    requires low { length others.now.bytes ≤ most_bytes }
    ensures { OnOk result (out.new.items ≡ out.old.items ++ group_written tree heap others.now) }
{
    let bytes = others.bytes();
    push_prefix(out, 1 + others.count() as u16, 1, 24 + bytes.len() as u32)?;
    push_symbol_table(out, tree, heap)?;
    push_bytes(out, bytes)?;
    Ok(())
}

/// Whether the fill has a message of its own: the header can count it.
fn has_fill(others: &Others) -> bool
    requires { others.now.count ≤ most_messages }
    ensures { result ≡ not (nat_lt most_messages (4 + others.now.count)) }
{
    4 + others.count() <= MAX_MESSAGES
}

/// How many bytes the fill value message of an array has, where there is one.
fn fill_message_length(fixed: &Fixed, fill: i128, others: &Others) -> u64
    requires { others.now.count ≤ most_messages }
    ensures exact { (chunked : Bool)
        → result ≡ length (messages_bytes (fill_messages chunked fixed.now fill others.now.count)) }
    ensures few { result ≤ 24 }
{
    if has_fill(others) {
        message_length(fill_length(fixed))
    } else {
        0
    }
}

/// The fill value message of an array, where there is one.
fn push_fill_message(
    out: &mut Vec<u8>,
    array: &ArrayRef<'_>,
    others: &Others,
) -> Result<(), AllocError>
    requires { others.now.count ≤ most_messages }
    ensures { OnOk result (out.new.items ≡ out.old.items ++ messages_bytes
        (fill_messages (in_chunks array.now.layout) array.now.fixed array.now.fill others.now.count)) }
{
    if !has_fill(others) {
        return Ok(());
    }
    push_fill(out, is_in_chunks(array), &array.fixed(), array.fill())
}

/// How many messages an array's header has, with these behind its own.
fn messages_count(others: &Others) -> u16
    requires { others.now.count + 3 ≤ most_messages }
    ensures { (a : Described) (c : NewCells) (address : Option ℕ) → result ≡ count_of a c others.now address }
{
    let count = others.count() as u16;
    if has_fill(others) {
        4 + count
    } else {
        3 + count
    }
}

/// How many bytes these have.
fn messages_size(array: &ArrayRef<'_>, others: &Others) -> u64
    requires same { length array.now.maxima ≡ length array.now.sizes }
    requires fits { FitsLayout (cells_of array.now.sizes * array.now.fixed.size) array.now.layout }
    requires few { others.now.count + 3 ≤ most_messages }
    ensures exact { (c : NewCells) (address : Option ℕ)
        → HasRoom c (cells_of array.now.sizes * array.now.fixed.size)
        → result ≡ size_of array.now c others.now address }
    ensures few { result + 16 ≤ 2 ^ 33 }
    ensures added { result ≤ length others.now.bytes + 66112 }
    ensures holds { length others.now.bytes ≤ result }
{
    let bytes = others.bytes().len() as u64;
    let space = space_length(array);
    let fill = fill_message_length(&array.fixed(), array.fill(), others);
    let layout = layout_length(array);
    space + 24 + fill + layout + bytes
}

/// How many bytes the header of an array has, with its prefix, its own messages and these other messages.
///
/// That the cells of a compact array fit in a message is the caller's condition.
pub fn array_header_length(array: &ArrayRef<'_>, others: &Others) -> u64
    requires same { length array.now.maxima ≡ length array.now.sizes }
    requires fits { FitsLayout (cells_of array.now.sizes * array.now.fixed.size) array.now.layout }
    requires few { others.now.count + 3 ≤ most_messages }
    ensures exact { (c : NewCells) (count : ℕ) (address : Option ℕ)
        → HasRoom c (cells_of array.now.sizes * array.now.fixed.size)
        → result ≡ length (header_written count array.now c others.now address) }
    ensures few { result ≤ 2 ^ 33 }
    ensures holds { length others.now.bytes ≤ result }
{
    16 + messages_size(array, others)
}

/// Appends the header of an array with these cells, and with these other messages behind its own. `references` is the
/// count of links that lead to it; `address` is where its data or the tree of its chunks stand, `None` where nothing
/// is stored.
///
/// `array_header_length` says whether there is room for the messages; `cells_address` gives the address. For a
/// compact array whose cells are all the fill, memory is taken for the cells as well.
///
/// # Errors
///
/// `AllocError` if memory is refused.
pub fn push_array_header(
    out: &mut Vec<u8>,
    array: &ArrayRef<'_>,
    cells: &Cells<'_>,
    others: &Others,
    address: Option<u64>,
    references: u32,
) -> Result<(), AllocError>
    requires array { IsArrayToWrite array.now cells.now }
    requires few { others.now.count + 3 ≤ most_messages }
    requires address { ForSome address (λ at. at < 2 ^ 64 - 1) }
    requires low { length others.now.bytes ≤ most_bytes }
    ensures { OnOk result (out.new.items
        ≡ out.old.items ++ header_written references array.now cells.now others.now address) }
{
    push_prefix(
        out,
        messages_count(others),
        references,
        messages_size(array, others) as u32,
    )?;
    push_space(out, array)?;
    push_type(out, &array.fixed())?;
    push_fill_message(out, array, others)?;
    push_layout(out, array, cells, address)?;
    push_bytes(out, others.bytes())?;
    Ok(())
}
