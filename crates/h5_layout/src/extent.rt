//! Other sizes in the header of an array in chunks, where the header stands (File Format Specification 3.0, section
//! IV.A.2.b).

ghost use Rattle.std.specs.Prelude.{◌≡◌, ◌+◌, ◌*◌, ◌==◌, ◌≤◌, true, false, length, position};
ghost use Rattle.h5_model.specs.Edits.Refusal.{are_maxima};
ghost use Rattle.h5_model.specs.Format.Described.{HasArray};
ghost use Rattle.h5_model.specs.Format.Limits.{most_dimensions};
ghost use Rattle.h5_model.specs.Format.MessageTypes.{dataspace_kind};
ghost use Rattle.h5_space.specs.Moves.{Spends};
ghost use Rattle.h5_header.specs.Listed.{messages_in};
ghost use Rattle.h5_layout.specs.ArrayEdits.{IsArrayApart, described_in};
ghost use Rattle.h5_layout.specs.ExtentNow.{HasExtentNow};
ghost use Rattle.h5_layout.specs.Told.{array_told};
ghost use Rattle.h5_layout.specs.Extents.{CanHaveSizes, HasExtentRoom, HasSizesNow, MayHaveSizes, extent_room, lacks_maxima as lacks_any};

use crate::bodies::one_body;
use h5_header::{HeaderRef, Messages, find_message};
use h5_model::message_type::DATASPACE;
use h5_msg::{dataspace_length, has_maxima, read_dataspace, write_bounded_dataspace};
use h5_shape::MAX_RANK;
use h5_space::Image;

/// Whether the Dataspace message of an array has no maxima, so that other sizes need another message. Takes no memory.
///
/// That the array was read is the caller's condition.
pub fn lacks_maxima(header: &HeaderRef<'_>) -> bool
    requires { HasArray header.now.messages (array_told header.now.messages) }
    ensures { result ≡ lacks_any header.now.messages }
{
    !has_maxima(one_body(header, DATASPACE))
}

/// Gives an array in chunks other sizes in its header, where that stands. Its chunks stay. Takes no memory.
///
/// The sizes come into the Dataspace message. Where that has no maxima it becomes NIL, and a message with maxima, which
/// are the sizes from before, comes in as any message does.
///
/// These are the caller's conditions: the array was read, with its data, on blocks that share no byte with each other,
/// with the superblock or with a free block; it can have these sizes; and where a message is needed, there is room for
/// it in the header, and in the image for a block of 40 bytes and 16 for each size.
pub fn set_sizes(image: &mut Image, messages: &mut Messages, sizes: &[u64])
    requires array { IsArrayApart image.old messages.old }
    requires sizes { CanHaveSizes (described_in image.old.bytes messages.old) sizes.now }
    requires room { MayHaveSizes image.old messages.old sizes.now }
    ensures sized { HasSizesNow image.old image.new messages.old messages.new sizes.now }
    ensures spends { Spends image.old image.new
        (extent_room (messages_in image.old.bytes messages.old.list) sizes.now) 1 }
{
    let mut room = [None; MAX_RANK];
    let (lacks, maxima) = read_maxima(&HeaderRef::new(image, messages), &mut room);
    if lacks {
        add_extent(image, messages, sizes, maxima);
    } else {
        write_extent(image, messages, sizes, maxima);
    }
}

/// Whether the Dataspace message of an array has no maxima, and the largest sizes as it has them, written to the front of
/// `room`; `None` is unlimited.
fn read_maxima<'a>(
    header: &HeaderRef<'_>,
    room: &'a mut [Option<u64>; MAX_RANK],
) -> (bool, &'a [Option<u64>])
    requires { HasArray header.now.messages (array_told header.now.messages) }
    ensures lacks { result.0 ≡ lacks_any header.now.messages }
    ensures maxima { result.1.now ≡ (array_told header.now.messages).maxima }
{
    let body = one_body(header, DATASPACE);
    let extent = read_dataspace(body).unwrap();
    let rank = extent.rank();
    for k in 0..rank {
        room[k] = extent.maximum(k);
    }
    (!has_maxima(body), &room[..rank])
}

/// The sizes of an array as its Dataspace message has them, written to the front of `room`. No other message is read.
/// Takes no memory.
///
/// That the array was read is the caller's condition.
pub fn sizes_of<'r>(header: &HeaderRef<'_>, room: &'r mut [u64; MAX_RANK]) -> &'r [u64]
    requires { HasArray header.now.messages (array_told header.now.messages) }
    ensures { result.now ≡ (array_told header.now.messages).sizes }
{
    let extent = read_dataspace(one_body(header, DATASPACE)).unwrap();
    let rank = extent.rank();
    for k in 0..rank {
        room[k] = extent.size(k);
    }
    &room[..rank]
}

/// Writes a Dataspace message with these sizes and maxima where one with maxima stands.
///
/// These are the caller's conditions: the array was read; its Dataspace message has maxima, as many as there are sizes
/// now; and no size is above its maximum.
fn write_extent(image: &mut Image, messages: &Messages, sizes: &[u64], maxima: &[Option<u64>])
    requires array { IsArrayApart image.old messages.now }
    requires ranked { length sizes.now ≡ length (described_in image.old.bytes messages.now).sizes }
    requires bounds { are_maxima sizes.now maxima.now ≡ true }
    requires has { lacks_any (messages_in image.old.bytes messages.now.list) ≡ false }
    ensures extent { HasExtentNow image.old image.new messages.now messages.now
        (record { sizes = sizes.now; maxima = maxima.now }) }
    ensures spends { Spends image.old image.new 0 0 }
{
    // The image is not longer than memory.
    let _bytes = image.bytes();
    let message = find_message(messages, DATASPACE).unwrap();
    let body = image.part_at_mut(message.at, u64::from(message.size));
    write_bounded_dataspace(sizes, maxima, body);
}

/// Puts a Dataspace message with these sizes and maxima in, where one without maxima becomes NIL.
///
/// These are the caller's conditions: the array was read; there are at most 32 sizes, and none is above its maximum; and
/// there is room for the message.
fn add_extent(image: &mut Image, messages: &mut Messages, sizes: &[u64], maxima: &[Option<u64>])
    requires array { IsArrayApart image.old messages.old }
    requires rank { length sizes.now ≤ most_dimensions }
    requires bounds { are_maxima sizes.now maxima.now ≡ true }
    requires room { HasExtentRoom image.old messages.old sizes.now }
    ensures extent { HasExtentNow image.old image.new messages.old messages.new
        (record { sizes = sizes.now; maxima = maxima.now }) }
    ensures spends { Spends image.old image.new (40 + 16 * length sizes.now) 1 }
{
    let mut room = [0; 8 + 16 * MAX_RANK];
    let body = &mut room[..dataspace_length(sizes.len(), true)];
    write_bounded_dataspace(sizes, maxima, body);
    let k = extent_place(messages).unwrap();
    messages.blank(image, k);
    messages.put(image, DATASPACE, body);
}

/// Where the first Dataspace message stands among the messages.
fn extent_place(messages: &Messages) -> Option<usize>
    ensures { result ≡ position (λ m. m.kind == dataspace_kind) messages.now.list }
{
    messages.list().iter().position(|m| m.kind == DATASPACE)
}
