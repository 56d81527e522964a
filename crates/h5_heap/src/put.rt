//! A text that comes into a heap in place (File Format Specification 3.0, section III.D).

ghost use Rattle.std.specs.Prelude.{◌≡◌, ℕ, ◌+◌, ◌*◌, ◌^◌, ◌<◌, ◌≤◌, ◌↔◌, Some, None, MatchOption, IfOk, OnOk, OnErr, IsOk, Err, length};
ghost use Rattle.std.specs.List.{find};
ghost use Rattle.h5_bytes.specs.Bytes.{part, with_part};
ghost use Rattle.h5_bytes.specs.Texts.{pad8};
ghost use Rattle.h5_model.specs.Format.Heap.{segment_of, segment_block, heap_blocks, segment_size, free_head, segment_place};
ghost use Rattle.h5_model.specs.Format.Limits.{most_bytes};
ghost use Rattle.h5_model.specs.Format.Plain.{padded_text};
ghost use Rattle.h5_model.specs.Format.Sizes.{text_span as span_of_text};
ghost use Rattle.h5_space.specs.Whole.{IsApart};
ghost use Rattle.h5_space.specs.Moves.{Moves, Spends};
ghost use Rattle.h5_heap.specs.Chain.{HasChain, free_from};
ghost use Rattle.h5_heap.specs.Edited.{IsStandingHeap, free_blocks};
ghost use Rattle.h5_heap.specs.Inserted.{InsertsText, HasInserted, grown_length, needed_bytes, needed_calls};
ghost use Rattle.h5_heap.specs.Sought.{is_enough};

use crate::chain::{find_free, release, take_front};
use crate::edit::segment_and_list;
use crate::header::{HEADER, segment_at};
use crate::write::text_span;
use h5_bytes::{Block, put_u64};
use h5_space::{Image, MAXIMUM_IMAGE, SpaceFault};

/// Puts a text into the heap at `heap`, and gives its offset. The heap may have a longer segment then.
///
/// `room` is for a text that comes next: where the segment grows, a free block of so many bytes is left.
/// That the heap stands there, on blocks that are not free, is the caller's condition. A text with a zero
/// byte is read back up to that byte.
///
/// # Errors
///
/// `ImageFull` where the image would pass 2147483648 bytes with the new segment, else `NoMemory`; neither
/// where a free block is long enough, or there is room for a longer segment. A refusal changes nothing.
pub fn insert(image: &mut Image, heap: u64, text: &[u8], room: u64) -> Result<u64, SpaceFault>
    requires standing { IsStandingHeap image.old.bytes heap }
    requires apart { IsApart (heap_blocks image.old.bytes heap) image.old.free (length image.old.bytes) }
    ensures full { (result ≡ Err SpaceFault.ImageFull)
        ↔ (most_bytes < length image.old.bytes
        + needed_bytes image.old.bytes heap (span_of_text text.now) room) }
    ensures inserted { IfOk result (λ at.
        HasInserted image.old.bytes image.new.bytes heap text.now room at) }
    ensures moves { OnOk result (Moves image.old image.new (heap_blocks image.old.bytes heap)
        (heap_blocks image.new.bytes heap)) }
    ensures err { OnErr result (image.new ≡ image.old) }
    ensures covered { needed_bytes image.old.bytes heap (span_of_text text.now) room ≤ image.old.room_bytes
        → needed_calls image.old.bytes heap (span_of_text text.now) ≤ image.old.room_blocks
        → length image.old.bytes + needed_bytes image.old.bytes heap (span_of_text text.now) room ≤ most_bytes
        → IsOk result }
{
    let Some(bytes) = text_room(image, heap, text, room) else {
        return Err(SpaceFault::ImageFull);
    };
    // a longer segment is taken, and the old one given back
    let blocks = if bytes > 0 { 2 } else { 0 };
    image.reserve(bytes, blocks)?;
    Ok(insert_in_room(image, heap, text, room))
}

/// How many bytes `insert_in_room` takes for this text: 0 where a free block of the heap is long enough, else
/// those of a longer segment; `None` where they are more than 2147483648. Takes no memory.
pub fn text_room(image: &Image, heap: u64, text: &[u8], room: u64) -> Option<u64>
    requires standing { IsStandingHeap image.now.bytes heap }
    ensures { MatchOption result
        (most_bytes < needed_bytes image.now.bytes heap (span_of_text text.now) room)
        (λ n. (n ≡ needed_bytes image.now.bytes heap (span_of_text text.now) room) × (n ≤ most_bytes)) }
{
    let (segment, first) = segment_and_list(image, heap);
    let span = text_span(text) as u64;
    match find_free(segment_at(image, heap), first, span) {
        Some(_) => Some(0),
        None => longer(segment.len, span, room),
    }
}

/// How long a segment of `size` bytes becomes for a text of `span` bytes, or `None` where it is more than
/// 2147483648 bytes.
fn longer(size: u64, span: u64, room: u64) -> Option<u64>
    ensures { MatchOption result (most_bytes < grown_length size span room)
        (λ n. (n ≡ grown_length size span room) × (n ≤ most_bytes)) }
{
    let len = size
        .checked_mul(2)?
        .checked_add(span)?
        .checked_add(room)?
        .checked_add(16)?;
    if len > MAXIMUM_IMAGE { None } else { Some(len) }
}

/// Puts a text into the heap at `heap`, in room that was reserved, and gives its offset. Takes no memory.
///
/// It stands at the beginning of the first free block that is long enough. Where there is none the segment
/// becomes longer: twice as long, and so much more as the text, `room` and 16 bytes need. The text is behind
/// the old bytes then, a free block behind it, and the old segment is given back.
///
/// That the heap stands there, on blocks that are not free, that `text_room` tells how many bytes it takes,
/// and that there is room for these and, where it takes some, for two calls, are the caller's conditions.
pub fn insert_in_room(image: &mut Image, heap: u64, text: &[u8], room: u64) -> u64
    requires standing { IsStandingHeap image.old.bytes heap }
    requires apart { IsApart (heap_blocks image.old.bytes heap) image.old.free (length image.old.bytes) }
    requires low { needed_bytes image.old.bytes heap (span_of_text text.now) room ≤ most_bytes }
    requires bytes { needed_bytes image.old.bytes heap (span_of_text text.now) room ≤ image.old.room_bytes }
    requires blocks { needed_calls image.old.bytes heap (span_of_text text.now) ≤ image.old.room_blocks }
    ensures inserted { HasInserted image.old.bytes image.new.bytes heap text.now room result }
    ensures moves { Moves image.old image.new (heap_blocks image.old.bytes heap)
        (heap_blocks image.new.bytes heap) }
    ensures spends { Spends image.old image.new
        (needed_bytes image.old.bytes heap (span_of_text text.now) room)
        (needed_calls image.old.bytes heap (span_of_text text.now)) }
{
    let (_, first) = segment_and_list(image, heap);
    let span = text_span(text) as u64;
    match find_free(segment_at(image, heap), first, span) {
        Some(block) => {
            fill_free(image, heap, block, text);
            block.at
        }
        None => grow(image, heap, text, room),
    }
}

/// Puts a text at the beginning of a free block of the heap, the first that is long enough.
fn fill_free(image: &mut Image, heap: u64, block: Block, text: &[u8])
    requires standing { IsStandingHeap image.old.bytes heap }
    requires found { find (is_enough (span_of_text text.now)) (free_blocks image.old.bytes heap)
        ≡ Some block }
    ensures inserted { (room : ℕ)
        → HasInserted image.old.bytes image.new.bytes heap text.now room block.at }
    ensures moves { Moves image.old image.new (heap_blocks image.old.bytes heap)
        (heap_blocks image.new.bytes heap) }
    ensures spends { Spends image.old image.new 0 0 }
{
    let (place, first) = segment_and_list(image, heap);
    let first = put_in_front(image.part_at_mut(place.at, place.len), first, block, text);
    put_u64(image.part_at_mut(heap, HEADER), 16, first);
}

/// Puts a text into a longer segment, and gives its offset.
fn grow(image: &mut Image, heap: u64, text: &[u8], room: u64) -> u64
    requires standing { IsStandingHeap image.old.bytes heap }
    requires apart { IsApart (heap_blocks image.old.bytes heap) image.old.free (length image.old.bytes) }
    requires none { find (is_enough (span_of_text text.now)) (free_blocks image.old.bytes heap)
        ≡ None }
    requires low { grown_length (segment_block image.old.bytes heap).len (span_of_text text.now) room
        ≤ most_bytes }
    requires bytes { grown_length (segment_block image.old.bytes heap).len (span_of_text text.now) room
        ≤ image.old.room_bytes }
    requires blocks { 2 ≤ image.old.room_blocks }
    ensures inserted { HasInserted image.old.bytes image.new.bytes heap text.now room result }
    ensures moves { Moves image.old image.new (heap_blocks image.old.bytes heap)
        (heap_blocks image.new.bytes heap) }
    ensures spends { Spends image.old image.new
        (grown_length (segment_block image.old.bytes heap).len (span_of_text text.now) room) 2 }
{
    let (old, first) = segment_and_list(image, heap);
    let len = 2 * old.len + text_span(text) as u64 + room + 16;
    let at = image.take(len);
    image.copy(old.at, old.len, at);
    let first = put_behind(image.part_at_mut(at, len), old.len, first, text);
    put_segment(image.part_at_mut(heap, HEADER), at, len, first);
    image.give(old.at, old.len);
    padded(old.len)
}

/// The next multiple of 8.
fn padded(len: u64) -> u64
    requires { len < 2 ^ 63 }
    ensures { result ≡ pad8 len }
{
    (len + 7) / 8 * 8
}

/// Writes into a heap's header that its segment has `len` bytes from `at` on, and where its list of free
/// blocks begins.
fn put_segment(header: &mut [u8], at: u64, len: u64, first: u64)
    requires { length header.old ≡ 32 }
    ensures size { segment_size header.new ≡ len }
    ensures first { free_head header.new ≡ first }
    ensures place { segment_place header.new ≡ at }
    ensures kept { part 0 8 header.new ≡ part 0 8 header.old }
    ensures long { length header.new ≡ 32 }
{
    put_u64(header, 8, len);
    put_u64(header, 16, first);
    put_u64(header, 24, at);
}

/// Puts a text at the beginning of a free block, the first of the list from `first` on that is long enough,
/// and gives the offset from which the list goes on then.
fn put_in_front(segment: &mut [u8], first: u64, block: Block, text: &[u8]) -> u64
    requires chain { HasChain segment.old first }
    requires found { find (is_enough (span_of_text text.now)) (free_from segment.old first)
        ≡ Some block }
    ensures inserted { (room : ℕ) → InsertsText segment.old segment.new first result text.now room block.at }
    ensures long { length segment.new ≡ length segment.old }
{
    let first = take_front(segment, first, block, text_span(text) as u64);
    put_text(segment, block.at, text);
    first
}

/// Puts a text behind the first `size` bytes of a segment, from whose `first` on there are free blocks in
/// them, makes all behind it one more, and gives the offset from which the list goes on then.
fn put_behind(segment: &mut [u8], size: u64, first: u64, text: &[u8]) -> u64
    requires size { size ≤ length segment.old }
    requires chain { HasChain (part 0 size segment.old) first }
    requires none { find (is_enough (span_of_text text.now))
        (free_from (part 0 size segment.old) first) ≡ None }
    requires room { pad8 size + span_of_text text.now + 16 ≤ length segment.old }
    ensures inserted { (room : ℕ) → length segment.old ≡ grown_length size (span_of_text text.now) room
        → InsertsText (part 0 size segment.old) segment.new first result text.now room (pad8 size) }
    ensures long { length segment.new ≡ length segment.old }
{
    let at = padded(size);
    let end = at + text_span(text) as u64;
    let stop = segment.len() as u64;
    let first = release(segment, first, end, stop);
    put_text(segment, at, text);
    first
}

/// Writes a text at `at`, with its zero and its padding.
fn put_text(segment: &mut [u8], at: u64, text: &[u8])
    requires { at + span_of_text text.now ≤ length segment.old }
    ensures { segment.new ≡ with_part at (padded_text text.now) segment.old }
{
    let at = at as usize;
    fill_text(text, &mut segment[at..at + text_span(text)]);
}

/// Writes a text over bytes that it fills with its zero and its padding.
fn fill_text(text: &[u8], bytes: &mut [u8])
    requires { length bytes.old ≡ span_of_text text.now }
    ensures { bytes.new ≡ padded_text text.now }
{
    let (front, behind) = bytes.split_at_mut(text.len());
    front.copy_from_slice(text);
    behind.fill(0);
}
