//! Edits of a heap in place (File Format Specification 3.0, section III.D).

ghost use Rattle.std.specs.Prelude.{◌≡◌, ℕ, ◌+◌, ◌-◌, ◌≤◌, length};
ghost use Rattle.h5_bytes.specs.Bytes.{with_field};
ghost use Rattle.h5_bytes.specs.Blocks.{holds, cover};
ghost use Rattle.h5_model.specs.Format.Heap.{segment_of, segment_block, span_of, heap_blocks};
ghost use Rattle.h5_space.specs.Moves.{Moves};
ghost use Rattle.h5_heap.specs.Edited.{IsStandingHeap, HasReleased, first_free, free_blocks};
ghost use Rattle.h5_heap.specs.Spans.{IsSpan};

use crate::chain::release;
use crate::free_list::END;
use crate::header::HEADER;
use crate::text::span_len;
use h5_bytes::{Block, UNDEF, put_u64, text_from, u64_at};
use h5_space::Image;

/// Frees the text at `offset` of the heap at `heap`: its bytes join the free blocks of the segment. Eight bytes
/// without a free neighbour stay unused. Takes no memory.
///
/// These are the caller's conditions: the heap stands there, the text lies in its segment and shares no byte with a
/// free block, and no link and no key names it any more.
pub fn free(image: &mut Image, heap: u64, offset: u64)
    requires standing { IsStandingHeap image.old.bytes heap }
    requires span { IsSpan (segment_of image.old.bytes heap) offset }
    requires apart { (p : ℕ) → cover p (free_blocks image.old.bytes heap)
        + holds p offset (span_of (segment_of image.old.bytes heap) offset).len ≤ 1 }
    ensures freed { HasReleased image.old.bytes image.new.bytes heap offset
        (span_of (segment_of image.old.bytes heap) offset).len }
    ensures moves { Moves image.old image.new (heap_blocks image.old.bytes heap)
        (heap_blocks image.old.bytes heap) }
    ensures free { image.new.free ≡ image.old.free }
    ensures room { (image.new.room_bytes ≡ image.old.room_bytes)
        × (image.new.room_blocks ≡ image.old.room_blocks) }
{
    let (place, first) = segment_and_list(image, heap);
    let segment = image.part_at_mut(place.at, place.len);
    let end = offset + span_len(text_from(segment, offset).len()) as u64;
    let first = release(segment, first, offset, end);
    put_u64(image.part_at_mut(heap, HEADER), 16, first);
}

/// Where the segment of the heap at `heap` lies, and the offset from which its list of free blocks goes on.
pub(crate) fn segment_and_list(image: &Image, heap: u64) -> (Block, u64)
    requires { heap + 32 ≤ length image.now.bytes }
    ensures segment { result.0 ≡ segment_block image.now.bytes heap }
    ensures first { result.1 ≡ first_free image.now.bytes heap }
{
    let header = image.part(heap, HEADER).unwrap();
    let segment = Block {
        at: u64_at(header, 24),
        len: u64_at(header, 8),
    };
    let head = u64_at(header, 16);
    (segment, if head == UNDEF { END } else { head })
}
