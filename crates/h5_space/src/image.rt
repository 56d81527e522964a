ghost use Rattle.std.specs.Prelude.{◌≡◌, ℕ, ◌+◌, ◌≤◌, ◌^◌, ◌<◌, [], take, drop, ◌++◌, IsSome, IfSome, ◌↔◌, length, IsTrue, IsOk, IfOk, OnOk, OnErr, Err, max, replicate};
ghost use Rattle.std.specs.Borrow.{sem, LendsBoth, Array, u8};
ghost use Rattle.h5_bytes.specs.Bytes.{part, with_part};
ghost use Rattle.h5_bytes.specs.Blocks.{holds, cover};
ghost use Rattle.h5_model.specs.Format.Limits.{most_bytes};
ghost use Rattle.h5_space.specs.Space.{IsSpaced, growth, next_place};
ghost use Rattle.h5_space.specs.Lending.{gap, StandApart, LendsPart, LendsPartIf, LendsAround, LendsTwoPartsIf};

use crate::free_list::{cut, first_fit, put_back};
use crate::superblock::MAXIMUM_IMAGE;
use h5_bytes::Block;
use std::alloc::{AllocError, Global};
use std::marker::Model;

/// Why room could not be reserved.
#[derive(Clone, Copy, Debug, PartialEq, Eq)]
pub enum SpaceFault {
    /// The image would pass 2147483648 bytes.
    ImageFull,
    /// A growth was refused.
    NoMemory,
}

/// The bytes of a file, and which of them are free.
///
/// A block is taken and given back within room that was reserved before. So a change of several steps can run out of
/// memory only before its first step. `Debug` leaves the bytes out.
#[derive(Drop)]
#[derive_where(Debug)]
pub struct Image {
    #[derive_where(skip)]
    bytes: Vec<u8>,
    free: Vec<Block>,
    room_bytes: u64,
    room_blocks: u64,
}

impl Model for Image {
    ghost use Rattle.h5_space.specs.Space.{Space};

    ghost Value = { Space };

    ghost use Rattle.h5_space.specs.Room.{IsImage};

    ghost view = { λ s. record { bytes = s.bytes.items; free = s.free.items; room_bytes = s.room_bytes; room_blocks = s.room_blocks } };

    ghost invariant = { IsImage };
}

impl Image {
    /// The image with these bytes. No block of it is free and no room is reserved. Takes no memory.
    pub fn new(alloc: Global, bytes: Vec<u8>) -> Image
        ensures { result ≡ record { bytes = bytes.items; free = []; room_bytes = 0; room_blocks = 0 } }
    {
        Image {
            bytes,
            free: Vec::new(alloc),
            room_bytes: 0,
            room_blocks: 0,
        }
    }

    /// All bytes, those of free blocks too. Takes no memory.
    pub fn bytes(&self) -> &[u8]
        ensures { result.now ≡ self.now.bytes }
    {
        self.bytes.as_slice()
    }

    /// The free blocks, in the order of their addresses. None is empty, and neighbours are joined. Takes no memory.
    pub fn free(&self) -> &[Block]
        ensures blocks { result.now ≡ self.now.free }
        ensures joined { IsSpaced self.now.free (length self.now.bytes) }
    {
        self.free.as_slice()
    }

    /// Gives the bytes up as they are. Takes no memory.
    pub fn into_bytes(self) -> Vec<u8>
        ensures { result.items ≡ self.bytes }
    {
        let Image {
            bytes,
            free,
            room_bytes: _,
            room_blocks: _,
        } = self;
        drop(free);
        bytes
    }

    /// Another image with the same bytes and the same free blocks. No room is reserved in it.
    ///
    /// # Errors
    ///
    /// `AllocError` if memory is refused.
    pub fn copy_of(&self, alloc: Global) -> Result<Image, AllocError>
        ensures { IfOk result (λ x. x ≡ record self.now { room_bytes = 0; room_blocks = 0 }) }
    {
        let free = Vec::from_slice(alloc, self.free.as_slice())?;
        let mut copy = Image::new(alloc, Vec::from_slice(alloc, self.bytes.as_slice())?);
        copy.free = free;
        Ok(copy)
    }

    /// Whether the `len` bytes from place `at` end by the end of the image. Takes no memory.
    pub fn has(&self, at: u64, len: u64) -> bool
        ensures { IsTrue result ↔ (at + len ≤ length self.now.bytes) }
    {
        let size = self.bytes.len() as u64;
        at <= size && len <= size - at
    }

    /// The `len` bytes from place `at`, or `None` where they pass the end. Takes no memory.
    pub fn part(&self, at: u64, len: u64) -> Option<&[u8]>
        ensures inside { IsSome result ↔ (at + len ≤ length self.now.bytes) }
        ensures value { IfSome result (λ x. x.now ≡ part at len self.now.bytes) }
        ensures size { IfSome result (λ x. length x.now ≡ len) }
    {
        if !self.has(at, len) {
            return None;
        }
        Some(&self.bytes[at as usize..(at + len) as usize])
    }

    /// The `len` bytes from place `at`, for writing: what is written changes these bytes alone.
    ///
    /// That they end by the end of the image is the caller's condition; `has` tests it. Takes no
    /// memory.
    pub fn part_at_mut(&mut self, at: u64, len: u64) -> &mut [u8]
        requires { at + len ≤ length self.old.bytes }
        ensures* lends { sem 𝓛 (LendsPart self.entry at result) }
        ensures value { result.now ≡ part at len self.old.bytes }
        ensures size { length result.now ≡ len }
    {
        self.bytes.slice_mut(at as usize..(at + len) as usize)
    }

    /// The `len` bytes from place `at`, for writing, or `None` where they pass the end: what is written changes these
    /// bytes alone. Takes no memory.
    pub fn part_mut(&mut self, at: u64, len: u64) -> Option<&mut [u8]>
        ensures* lends { sem 𝓛 (LendsPartIf self.entry at result) }
        ensures inside { IsSome result ↔ (at + len ≤ length self.old.bytes) }
        ensures value { IfSome result (λ x. x.now ≡ part at len self.old.bytes) }
        ensures size { IfSome result (λ x. length x.now ≡ len) }
    {
        if !self.has(at, len) {
            return None;
        }
        Some(self.part_at_mut(at, len))
    }

    /// Whether two blocks end by the end of the image and share no byte.
    fn has_apart(&self, at: u64, len: u64, other: u64, size: u64) -> bool
        ensures fits { length self.now.bytes < 2 ^ 64 }
        ensures apart { IsTrue result ↔ StandApart at len other size (length self.now.bytes) }
    {
        let end = self.bytes.len() as u64;
        if at > end || len > end - at || other > end || size > end - other {
            return false;
        }
        share_none(at, len, other, size)
    }

    /// The `first` bytes from place `at`, and the `second` bytes that stand `gap` bytes behind them, for writing.
    fn around_mut(&mut self, at: u64, first: u64, gap: u64, second: u64) -> (&mut [u8], &mut [u8])
        requires inside { at + (first + (gap + second)) ≤ length self.old.bytes }
        requires fits { first + (gap + second) < 2 ^ 64 }
        ensures* lends { sem 𝓛 (LendsAround self.entry at first gap result) }
        ensures first { result.0.now ≡ part at first self.old.bytes }
        ensures second { result.1.now ≡ part (at + first + gap) second self.old.bytes }
    {
        let range = self.part_at_mut(at, first + gap + second);
        let (front, rest) = halves(range, first as usize);
        let (_, back) = halves(rest, gap as usize);
        (front, back)
    }

    /// The bytes of two blocks, for writing, in the order asked for, whichever stands first in the image: what is
    /// written changes these bytes alone. `None` where one of them passes the end, or the two share a byte. An empty
    /// block shares none. Takes no memory.
    pub fn two_parts_mut(&mut self, first: Block, second: Block) -> Option<(&mut [u8], &mut [u8])>
        ensures* lends { sem 𝓛 (LendsTwoPartsIf self.entry first second result) }
        ensures apart { IsSome result
            ↔ StandApart first.at first.len second.at second.len (length self.old.bytes) }
        ensures first { IfSome result (λ r. r.0.now ≡ part first.at first.len self.old.bytes) }
        ensures second { IfSome result (λ r. r.1.now ≡ part second.at second.len self.old.bytes) }
    {
        if !self.has_apart(first.at, first.len, second.at, second.len) {
            return None;
        }
        let gap = gap_between(first.at, first.len, second.at, second.len);
        if first.at <= second.at {
            Some(self.around_mut(first.at, first.len, gap, second.len))
        } else {
            let (back, front) = self.around_mut(second.at, second.len, gap, first.len);
            Some((front, back))
        }
    }

    /// Reserves room: for `bytes` bytes to be taken, and for `blocks` calls of `take` and `give`.
    ///
    /// Room that an earlier call reserved and that is not used up yet counts: the room is then the larger of the two.
    /// No memory is taken where there is enough already.
    ///
    /// # Errors
    ///
    /// The first of these that holds. A refusal changes nothing.
    ///
    /// - `ImageFull`: the bytes of the image and those asked for are more than 2147483648 together.
    /// - `NoMemory`: memory is refused.
    pub fn reserve(&mut self, bytes: u64, blocks: u64) -> Result<(), SpaceFault>
        ensures full { (result ≡ Err SpaceFault.ImageFull) ↔ (most_bytes < length self.old.bytes + bytes) }
        ensures ok { OnOk result (self.new ≡ record self.old {
          room_bytes = max self.old.room_bytes bytes;
          room_blocks = max self.old.room_blocks blocks;
        }) }
        ensures err { OnErr result (self.new ≡ self.old) }
        ensures covered { bytes ≤ self.old.room_bytes → blocks ≤ self.old.room_blocks
            → length self.old.bytes + bytes ≤ most_bytes → IsOk result }
    {
        let size = self.bytes.len() as u64;
        if size > MAXIMUM_IMAGE || bytes > MAXIMUM_IMAGE - size {
            return Err(SpaceFault::ImageFull);
        }
        if self.room_bytes < bytes {
            if self.bytes.reserve(bytes as usize).is_err() {
                return Err(SpaceFault::NoMemory);
            }
        }
        if self.room_blocks < blocks {
            if self.free.reserve(blocks as usize).is_err() {
                return Err(SpaceFault::NoMemory);
            }
        }
        self.room_bytes = self.room_bytes.max(bytes);
        self.room_blocks = self.room_blocks.max(blocks);
        Ok(())
    }

    /// Copies the `len` bytes from place `from` to place `to`. No other byte changes. The two places may share bytes.
    ///
    /// That both end by the end of the image is the caller's condition. Takes no memory.
    pub fn copy(&mut self, from: u64, len: u64, to: u64)
        requires from { from + len ≤ length self.old.bytes }
        requires to { to + len ≤ length self.old.bytes }
        ensures { self.new ≡ record self.old {
          bytes = with_part to (part from len self.old.bytes) self.old.bytes;
        } }
    {
        self.bytes
            .copy_within(from as usize..(from + len) as usize, to as usize);
    }

    /// Where a block of `len` bytes will stand, if it is the next one that is taken. Takes no memory.
    pub fn place_for(&self, len: u64) -> u64
        ensures { result ≡ next_place len self.now }
    {
        let fit = first_fit(self.free.as_slice(), len);
        match fit {
            Some(k) => self.free[k].at,
            None => self.bytes.len() as u64,
        }
    }

    /// Takes a block of `len` bytes, and gives its address, the one that `place_for` gives.
    ///
    /// It is cut out of a free block where one is long enough, and keeps the bytes that it has there. Otherwise it
    /// stands behind the old end, and is zero. It uses `len` bytes and one block of the reserved room; that these are
    /// there is the caller's condition. Takes no memory.
    pub fn take(&mut self, len: u64) -> u64
        requires bytes { len ≤ self.old.room_bytes }
        requires blocks { 1 ≤ self.old.room_blocks }
        ensures place { result ≡ next_place len self.old }
        ensures bytes { self.new.bytes ≡ self.old.bytes ++ replicate (growth len self.old.free) 0 }
        ensures inside { result + len ≤ length self.new.bytes }

        // The bytes taken are those that are free no more, or those behind the old end.
        ensures taken { (p : ℕ) → cover p self.new.free + holds p result len
            ≡ cover p self.old.free + holds p (length self.old.bytes) (growth len self.old.free) }
        ensures joined { IsSpaced self.new.free (length self.new.bytes) }
        ensures room_bytes { self.new.room_bytes + len ≡ self.old.room_bytes }
        ensures room_blocks { self.new.room_blocks + 1 ≡ self.old.room_blocks }
    {
        self.room_bytes -= len;
        self.room_blocks -= 1;
        match first_fit(self.free.as_slice(), len) {
            Some(k) => cut(&mut self.free, k, len),
            None => {
                let end = self.bytes.len();
                let _ = self.bytes.resize(end + len as usize, 0);
                end as u64
            }
        }
    }

    /// Makes the `len` bytes from place `at` free, joined with free neighbours. Their values stay.
    ///
    /// It uses one block of the reserved room. That it is there, that the bytes lie in the image, and that none of
    /// them is free, are the caller's conditions. Takes no memory.
    pub fn give(&mut self, at: u64, len: u64)
        requires inside { at + len ≤ length self.old.bytes }
        requires held { (p : ℕ) → cover p self.old.free + holds p at len ≤ 1 }
        requires blocks { 1 ≤ self.old.room_blocks }
        ensures bytes { self.new.bytes ≡ self.old.bytes }
        ensures given { (p : ℕ) → cover p self.new.free ≡ cover p self.old.free + holds p at len }
        ensures joined { IsSpaced self.new.free (length self.new.bytes) }
        ensures room_bytes { self.new.room_bytes ≡ self.old.room_bytes }
        ensures room_blocks { self.new.room_blocks + 1 ≡ self.old.room_blocks }
    {
        self.room_blocks -= 1;
        if len > 0 {
            let end = self.bytes.len() as u64;
            put_back(&mut self.free, end, at, len);
        }
    }
}

/// Whether two blocks share no byte. An empty block shares none.
fn share_none(at: u64, len: u64, other: u64, size: u64) -> bool
    requires first { at + len < 2 ^ 64 }
    requires second { other + size < 2 ^ 64 }
    ensures { IsTrue result ↔ ((p : ℕ) → holds p at len + holds p other size ≤ 1) }
{
    if len == 0 || size == 0 {
        return true;
    }
    if at <= other {
        at + len <= other
    } else {
        other + size <= at
    }
}

/// How many bytes stand between two blocks that share none.
fn gap_between(at: u64, len: u64, other: u64, size: u64) -> u64
    requires first { at + len < 2 ^ 64 }
    requires second { other + size < 2 ^ 64 }
    ensures { result ≡ gap at len other size }
{
    if at <= other {
        other.saturating_sub(at + len)
    } else {
        at.saturating_sub(other + size)
    }
}

/// The first `len` bytes and those behind them, for writing.
fn halves(bytes: &mut [u8], len: usize) -> (&mut [u8], &mut [u8])
    requires { len ≤ length bytes.old }
    ensures* lends { sem 𝓛 (LendsBoth (Array u8 0) (Array u8 0) (Array u8 0) bytes.entry result ◌++◌) }
    ensures front { result.0.now ≡ take len bytes.old }
    ensures back { result.1.now ≡ drop len bytes.old }
{
    bytes.split_at_mut(len)
}
