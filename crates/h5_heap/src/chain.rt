//! The list of free blocks in a segment, followed without memory (File Format Specification 3.0, section III.D).

ghost use Rattle.std.specs.Prelude.{◌≡◌, ◌-◌, ◌%◌, ℕ, ◌+◌, ◌≤◌, ◌^◌, ◌<◌, ◌≢◌, [], ◌∷◌, Some, not, IfSome, length};
ghost use Rattle.std.specs.List.{find, filter};
ghost use Rattle.h5_bytes.specs.Bytes.{number_at, with_field};
ghost use Rattle.h5_bytes.specs.Blocks.{block, holds, cover};
ghost use Rattle.h5_model.specs.Format.Heap.{IsFree};
ghost use Rattle.h5_heap.specs.Chain.{HasChain, ListsAt, Stands, ComesBehind, Relists, free_from};
ghost use Rattle.h5_heap.specs.Chain.{Ascends, put_behind};
ghost use Rattle.h5_heap.specs.Sought.{is_enough, begins_at, ends_at};
ghost use Rattle.h5_heap.specs.Around.{IsNeighbour};
ghost use Rattle.h5_heap.specs.Released.{IsJoinedLeft, IsJoinedRight, Releases, begin_of, stop_of};
ghost use Rattle.h5_heap.specs.Inserted.{IsFront, rest_of};

use crate::around::{Neighbour, look_around};
use crate::free_list::{END, LEAST_FREE};
use h5_bytes::{Block, put_u64, u64_at};

/// The first free block of the list from `first` on that has `len` bytes or more.
pub(crate) fn find_free(segment: &[u8], first: u64, len: u64) -> Option<Block>
    requires { HasChain segment.now first }
    ensures { result ≡ find (is_enough len) (free_from segment.now first) }
{
    let mut next = first;
    while next != END {
        let block = Block {
            at: next,
            len: u64_at(segment, next as usize + 8),
        };
        if len <= block.len {
            return Some(block);
        }
        next = u64_at(segment, next as usize);
    }
    None
}

/// Takes the free block at `at` out of the list from `first` on, to which the one at `place` leads, or the
/// list's beginning, and gives the offset from which the list goes on then.
fn unlink_behind(segment: &mut [u8], first: u64, place: Option<u64>, at: u64) -> u64
    requires chain { HasChain segment.old first }
    requires led { ComesBehind (free_from segment.old first) place
        (block at (number_at segment.old (at + 8) 8)) }
    ensures relists { Relists segment.old segment.new first result
        (block at (number_at segment.old (at + 8) 8) ∷ []) [] }
    ensures listed { free_from segment.old first
        ≡ put_behind place (block at (number_at segment.old (at + 8) 8)) (free_from segment.new result) }
    ensures still { IfSome place (λ p. ListsAt segment.new result p) }
{
    let next = u64_at(segment, at as usize);
    match place {
        Some(place) => {
            put_u64(segment, place as usize, next);
            first
        }
        None => next,
    }
}

/// The offset of the free block that leads to the one at `at`, or `None` where the list begins with it.
fn led_from(segment: &[u8], first: u64, at: u64) -> Option<u64>
    requires chain { HasChain segment.now first }
    requires there { Stands at (free_from segment.now first) }
    ensures { ComesBehind (free_from segment.now first) result
        (block at (number_at segment.now (at + 8) 8)) }
{
    if first == at {
        return None;
    }
    Some(place_before(segment, first, at))
}

/// The offset of the free block that leads to the one at `at`, which is not the first.
fn place_before(segment: &[u8], first: u64, at: u64) -> u64
    requires chain { HasChain segment.now first }
    requires later { first ≢ at }
    requires there { Stands at (free_from segment.now first) }
    ensures { ComesBehind (free_from segment.now first) (Some result)
        (block at (number_at segment.now (at + 8) 8)) }
{
    let mut place = first;
    let mut next = u64_at(segment, first as usize);
    while next != at {
        place = next;
        next = u64_at(segment, place as usize);
    }
    place
}

/// Puts a block into the list from `first` on, behind the one at `place` or before all, and gives the offset
/// from which the list goes on then.
///
/// That there is such a place, and that the block has a free block's form, lies in the segment and shares no
/// byte with the free ones, are the caller's conditions.
fn link_behind(segment: &mut [u8], first: u64, place: Option<u64>, block: Block) -> u64
    requires chain { HasChain segment.old first }
    requires place { IfSome place (λ p. ListsAt segment.old first p) }
    requires free { IsFree block }
    requires inside { block.at + block.len ≤ length segment.old }
    requires apart { (p : ℕ) → cover p (free_from segment.old first) + holds p block.at block.len ≤ 1 }
    ensures relists { Relists segment.old segment.new first result [] (block ∷ []) }
    ensures listed { free_from segment.new result
        ≡ put_behind place block (free_from segment.old first) }
{
    match place {
        Some(place) => {
            let next = u64_at(segment, place as usize);
            put_block(segment, block, next);
            put_u64(segment, place as usize, block.at);
            first
        }
        None => {
            put_block(segment, block, first);
            block.at
        }
    }
}

/// Writes what a free block begins with: the next one's offset, and its own size.
fn put_block(segment: &mut [u8], block: Block, next: u64)
    requires free { IsFree block }
    requires inside { block.at + block.len ≤ length segment.old }
    ensures { segment.new ≡ with_field (with_field segment.old block.at 8 next) (block.at + 8) 8 block.len }
{
    put_u64(segment, block.at as usize, next);
    put_u64(segment, block.at as usize + 8, block.len);
}

/// Takes `left`, the free block that ends before `at`, if there is one, out of the list from `first` on, and
/// gives the offset from which the list goes on then, and where the free bytes before `at` begin.
fn join_left(segment: &mut [u8], first: u64, at: u64, left: Option<Neighbour>) -> (u64, u64)
    requires chain { HasChain segment.old first }
    requires left { IsNeighbour (ends_at at) (free_from segment.old first) left }
    requires aligned { at % 8 ≡ 0 }
    ensures relists { Relists segment.old segment.new first result.0
        (block result.1 (at - result.1) ∷ []) [] }
    ensures joined { IsJoinedLeft (free_from segment.old first) at result.1 }
    ensures begin { result.1 ≡ begin_of (free_from segment.old first) at }
    ensures rest { free_from segment.new result.0
        ≡ filter (λ b. not (ends_at at b)) (free_from segment.old first) }
    ensures same { result.1 ≡ at → (segment.new ≡ segment.old) × (result.0 ≡ first) }
{
    match left {
        Some(left) => (
            unlink_behind(segment, first, left.place, left.block.at),
            left.block.at,
        ),
        None => (first, at),
    }
}

/// Takes `right`, the free block that begins at `end`, if there is one, out of the list from `first` on, and
/// gives the offset from which the list goes on then, and where the free bytes from `end` on end.
fn join_right(segment: &mut [u8], first: u64, end: u64, right: Option<Neighbour>) -> (u64, u64)
    requires chain { HasChain segment.old first }
    requires right { IsNeighbour (begins_at end) (free_from segment.old first) right }
    requires inside { end ≤ length segment.old }
    ensures relists { Relists segment.old segment.new first result.0 (block end (result.1 - end) ∷ []) [] }
    ensures joined { IsJoinedRight (free_from segment.old first) end result.1 (length segment.old) }
    ensures stop { result.1 ≡ stop_of (free_from segment.old first) end }
    ensures rest { free_from segment.new result.0
        ≡ filter (λ b. not (begins_at end b)) (free_from segment.old first) }
{
    match right {
        Some(right) => (
            unlink_behind(segment, first, right.place, right.block.at),
            right.block.at + right.block.len,
        ),
        None => (first, end),
    }
}

/// Makes the bytes from `at` to `end` free, joined with their free neighbours, and gives the offset from
/// which the list goes on then. Eight bytes without a neighbour stay unused. The list is followed once.
///
/// That they begin at a multiple of 8, lie in the segment and share none with the free blocks is the
/// caller's condition.
pub(crate) fn release(segment: &mut [u8], first: u64, at: u64, end: u64) -> u64
    requires chain { HasChain segment.old first }
    requires aligned { at % 8 ≡ 0 }
    requires filled { at < end }
    requires inside { end ≤ length segment.old }
    requires apart { (p : ℕ) → cover p (free_from segment.old first) + holds p at (end - at) ≤ 1 }
    ensures { Releases segment.old segment.new first result at (end - at) }
{
    let around = look_around(segment, first, at, end);
    let (first, begin) = join_left(segment, first, at, around.left);
    let (first, stop) = join_right(segment, first, end, around.right);
    let len = stop - begin;
    if len < LEAST_FREE {
        return first;
    }
    link_behind(segment, first, around.below, Block { at: begin, len })
}

/// Takes the first `len` bytes of a free block, the first of the list from `first` on that is long enough,
/// and gives the offset from which the list goes on then. What is left of the block stays free in its place
/// in the list, where it is enough for a free block.
pub(crate) fn take_front(segment: &mut [u8], first: u64, block: Block, len: u64) -> u64
    requires chain { HasChain segment.old first }
    requires found { find (is_enough len) (free_from segment.old first) ≡ Some block }
    requires aligned { len % 8 ≡ 0 }
    ensures relists { Relists segment.old segment.new first result (block ∷ []) (rest_of len block) }
    ensures front { IsFront (free_from segment.old first) (free_from segment.new result) block.at len }
    ensures ascending { Ascends (free_from segment.old first) → Ascends (free_from segment.new result) }
{
    let place = led_from(segment, first, block.at);
    let first = unlink_behind(segment, first, place, block.at);
    let rest = Block {
        at: block.at + len,
        len: block.len - len,
    };
    if rest.len < LEAST_FREE {
        return first;
    }
    link_behind(segment, first, place, rest)
}
