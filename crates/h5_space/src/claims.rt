ghost use Rattle.std.specs.Prelude.{◌≡◌, ℕ, ◌+◌, ◌<◌, ◌≤◌, ◌^◌, [], ◌∷◌, ◌++◌, ◌↔◌, OnOk, OnErr, IsOk, Err, IfErr, IfSome, IfNone, length};
ghost use Rattle.std.specs.List.{All};
ghost use Rattle.h5_bytes.specs.Blocks.{block, holds, cover, Separate};
ghost use Rattle.h5_space.specs.Claimed.{Shares};
ghost use Rattle.h5_space.specs.Indexed.{IsLastBefore};

use crate::addresses::AddressMap;
use crate::image::Image;
use h5_bytes::Block;
use std::alloc::Global;
use std::marker::Model;

/// Why a block cannot be claimed.
#[derive(Clone, Copy, Debug, PartialEq, Eq)]
pub enum ClaimFault {
    /// The block passes the end.
    Truncated,
    /// The block shares a byte with a claimed one.
    Overlap,
    /// A growth was refused.
    NoMemory,
}

/// The blocks that were claimed, all of them below an end. No two of them share a byte.
///
/// Only which bytes they hold counts, so a claimed block grows where another one is claimed at its end. A claim
/// searches them twice at most, in whatever order they come, and once where a block grows.
#[derive(Drop)]
pub struct Claims {
    end: u64,
    // In the order in which they were begun.
    held: Vec<Block>,
    // From the place of a block to its index. A block that grows keeps both, so nothing is written here for it.
    places: AddressMap<usize>,
}

impl Model for Claims {
    ghost use Rattle.h5_space.specs.Claimed.{Claimed};

    ghost Value = { Claimed };

    ghost use Rattle.h5_space.specs.Indexed.{IsIndexed};

    ghost view = { λ s. record { end = s.end; held = s.held.items } };

    ghost invariant = { λ s. IsIndexed s.held.items s.places s.end };
}

impl Claims {
    /// Claims of an image with `end` bytes, of which no byte is claimed. Takes no memory.
    pub fn new(alloc: Global, end: u64) -> Claims
        ensures { result ≡ record { end = end; held = [] } }
    {
        Claims {
            end,
            held: Vec::new(alloc),
            places: AddressMap::new(alloc),
        }
    }

    /// Claims the `len` bytes from address `at`. A block of 0 bytes shares no byte with another one, and takes no
    /// memory.
    ///
    /// # Errors
    ///
    /// The first of these that holds. A refused claim changes nothing.
    ///
    /// - `Truncated`: the block passes the end.
    /// - `Overlap`: one of its bytes is claimed already.
    /// - `NoMemory`: memory is refused.
    pub fn claim(&mut self, at: u64, len: u64) -> Result<(), ClaimFault>
        ensures inside { OnOk result (at + len ≤ self.old.end) }
        ensures claimed { OnOk result ((p : ℕ)
            → cover p self.new.held ≡ cover p self.old.held + holds p at len) }
        ensures separate { Separate self.new.held }
        ensures end { self.new.end ≡ self.old.end }
        ensures truncated { (result ≡ Err ClaimFault.Truncated) ↔ (self.old.end < at + len) }
        ensures overlap { (result ≡ Err ClaimFault.Overlap)
            ↔ ((at + len ≤ self.old.end) × Shares self.old.held at len) }
        ensures empty { len ≡ 0 → at ≤ self.old.end → IsOk result }
        ensures err { OnErr result (self.new ≡ self.old) }
    {
        if at > self.end || len > self.end - at {
            return Err(ClaimFault::Truncated);
        }
        if len == 0 {
            return Ok(());
        }
        if let Some(index) = self.last_before(at + len) {
            let before = self.held[index];
            let end = before.at + before.len;
            if end > at {
                return Err(ClaimFault::Overlap);
            }
            if end == at {
                // The block before grows in its place, which takes no memory.
                self.held[index].len += len;
                return Ok(());
            }
        }
        self.begin(at, len)
    }

    /// In how many blocks the claimed bytes are kept: as many as `give_all` uses of the reserved room. Blocks that were
    /// claimed one behind another may count as one. Takes no memory.
    pub fn len(&self) -> u64
        ensures count { result ≡ length self.now.held }
        ensures small { result < 2 ^ 63 }
    {
        self.held.len() as u64
    }

    /// Makes all claimed bytes free, joined with free neighbours. Their values stay.
    ///
    /// It uses as many blocks of the reserved room as `len` says. That these are there, that all claimed bytes lie in
    /// the image, and that none of them is free, are the caller's conditions. Takes no memory.
    pub fn give_all(&self, image: &mut Image)
        requires inside { self.now.end ≤ length image.old.bytes }
        requires held { (p : ℕ) → cover p image.old.free + cover p self.now.held ≤ 1 }
        requires blocks { length self.now.held ≤ image.old.room_blocks }
        ensures bytes { image.new.bytes ≡ image.old.bytes }
        ensures given { (p : ℕ)
            → cover p image.new.free ≡ cover p image.old.free + cover p self.now.held }
        ensures room_bytes { image.new.room_bytes ≡ image.old.room_bytes }
        ensures room_blocks { image.new.room_blocks + length self.now.held ≡ image.old.room_blocks }
    {
        // In ascending order, so that no block moves those that were given before it.
        for index in self.places.values() {
            let block = self.held[index];
            image.give(block.at, block.len);
        }
    }

    /// The index of the last block that begins before `place`. Where bytes end at `place`, the blocks that begin behind
    /// it share none of them, and of the others none ends behind this one.
    fn last_before(&self, place: u64) -> Option<usize>
        ensures found { IfSome result (IsLastBefore self.now.held place) }
        ensures none { IfNone result (All (λ b. place ≤ b.at) self.now.held) }
    {
        let (_, index) = self.places.last_before(place)?;
        Some(index)
    }

    /// Keeps bytes that are not claimed as a block of their own. A refusal changes nothing.
    fn begin(&mut self, at: u64, len: u64) -> Result<(), ClaimFault>
        requires filled { 0 < len }
        requires inside { at + len ≤ self.old.end }
        requires free { (p : ℕ) → cover p self.old.held + holds p at len ≤ 1 }
        ensures begun { OnOk result ((p : ℕ)
            → cover p self.new.held ≡ cover p self.old.held + holds p at len) }
        ensures separate { Separate self.new.held }
        ensures end { self.new.end ≡ self.old.end }
        ensures refused { IfErr result (λ fault. fault ≡ ClaimFault.NoMemory) }
        ensures err { OnErr result (self.new ≡ self.old) }
    {
        // The room comes first, so that no place without its block stays in the map where memory is refused.
        if self.held.reserve(1).is_err() {
            return Err(ClaimFault::NoMemory);
        }
        if self.places.insert(at, self.held.len()).is_err() {
            return Err(ClaimFault::NoMemory);
        }
        self.held.push_reserved(Block { at, len });
        Ok(())
    }
}
