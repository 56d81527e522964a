//! The texts of a heap (File Format Specification 3.0, section III.D).

ghost use Rattle.std.specs.Prelude.{◌≡◌, ℕ, ◌+◌, ◌%◌, ◌<◌, ◌≤◌, ◌⊎◌, ◌↔◌, IsTrue, List, [], ◌∷◌, ◌++◌, length, IfOk, IfErr, OnOk, OnErr};
ghost use Rattle.std.specs.List.{Contains};
ghost use Rattle.h5_bytes.specs.Bytes.{byte_at};
ghost use Rattle.h5_bytes.specs.Blocks.{holds, cover, Separate};
ghost use Rattle.h5_bytes.specs.Texts.{text_at};
ghost use Rattle.h5_space.specs.Claimed.{Shares};
ghost use Rattle.h5_heap.specs.Kept.{segment_in};
ghost use Rattle.h5_heap.specs.Spans.{IsSpan, Takes, TakesOnce, IsNotEmpty, IsUntaken, IsUnnamed, HasTaken, HasNamed};

use crate::heap::Heap;
use crate::text::{span_len, text_in};
use crate::units::{UNIT, UnitState};
use h5_model::{Cause, OpenFault};
use h5_space::{Image, fault};

/// Bytes of the empty name, at the beginning of a segment.
const EMPTY_NAME: u64 = 8;

// That the segment lies in the image is the caller's condition of each call: it does in the image from
// which the heap was read.
impl Heap {
    /// The text at `offset` of the segment. Takes no memory.
    ///
    /// # Errors
    ///
    /// `HeapName`, at the header, if the offset is no multiple of 8, or if the text with its zero and its padding is
    /// not in the segment.
    pub fn name<'a>(&self, image: &'a Image, offset: u64) -> Result<&'a [u8], OpenFault>
        requires { self.now.segment.at + self.now.segment.len ≤ length image.now.bytes }
        ensures text { IfOk result (λ x. x.now ≡ text_at (segment_in image.now.bytes self.now) offset) }
        ensures span { OnOk result (IsSpan (segment_in image.now.bytes self.now) offset) }
        ensures fault { IfErr result (λ fault.
            fault ≡ record { cause = Cause.HeapName; address = self.now.at }) }
        ensures refused { IfErr result (λ fault. IsSpan (segment_in image.now.bytes self.now) offset → ⊥) }
    {
        match text_in(self.segment_bytes(image), offset) {
            Some(text) => Ok(text),
            None => Err(fault(Cause::HeapName, self.at)),
        }
    }

    /// Takes the empty name, before any other text: the first 8 bytes of the segment, of which the first is zero.
    /// Takes no memory.
    ///
    /// # Errors
    ///
    /// `HeapName`, at the header: the first byte is not zero, or one of the 8 bytes is in a free block. Then nothing
    /// changes.
    pub fn begin_names(&mut self, image: &Image) -> Result<(), OpenFault>
        requires { self.old.segment.at + self.old.segment.len ≤ length image.now.bytes }
        ensures zero { OnOk result (byte_at (segment_in image.now.bytes self.old) 0 ≡ 0) }
        ensures held { OnOk result (self.new ≡ record self.old { held = self.new.held }) }
        ensures claimed { OnOk result
            ((p : ℕ) → cover p self.new.held ≡ cover p self.old.held + holds p 0 8) }
        ensures begun { OnOk result
            (((p : ℕ) → cover p self.old.held ≡ cover p self.old.free) → self.old.taken ≡ []
            → HasTaken (segment_in image.now.bytes self.old) self.new [] []) }
        ensures address { IfErr result (λ fault. fault.address ≡ self.old.at) }
        ensures refused { IfErr result (λ fault.
            IsNotEmpty (segment_in image.now.bytes self.old) self.old.held fault.cause) }
        ensures err { OnErr result (self.new ≡ self.old) }
    {
        if self.segment_bytes(image)[0] != 0 {
            return Err(fault(Cause::HeapName, self.at));
        }
        self.claim(0, EMPTY_NAME, UnitState::Taken)
    }

    /// Takes the text at `offset`, which a link names. No other link may have one of its bytes. Takes no memory.
    ///
    /// # Errors
    ///
    /// `HeapName`, at the header: as of [`Heap::name`]; or the text shares a byte with the empty name, a free block, or
    /// a text that was taken before. Then nothing changes.
    #[inline(always)]
    pub fn take<'a>(&mut self, image: &'a Image, offset: u64) -> Result<&'a [u8], OpenFault>
        requires { self.old.segment.at + self.old.segment.len ≤ length image.now.bytes }
        ensures text { IfOk result (λ x. x.now ≡ text_at (segment_in image.now.bytes self.old) offset) }
        ensures span { OnOk result (IsSpan (segment_in image.now.bytes self.old) offset) }
        ensures takes { OnOk result (Takes (segment_in image.now.bytes self.old) self.old self.new offset) }
        ensures taken { OnOk result ((linked loose : List ℕ)
            → HasTaken (segment_in image.now.bytes self.old) self.old linked loose
            → HasTaken (segment_in image.now.bytes self.old) self.new (linked ++ offset ∷ []) loose) }
        ensures address { IfErr result (λ fault. fault.address ≡ self.old.at) }
        ensures refused { IfErr result (λ fault.
            IsUntaken (segment_in image.now.bytes self.old) self.old.held offset fault.cause) }
        ensures err { OnErr result (self.new ≡ self.old) }
    {
        let text = self.name(image, offset)?;
        self.claim(offset, span_len(text.len()) as u64, UnitState::Begin)?;
        Ok(text)
    }

    /// The text at `offset`, which a key of a B-tree names: the empty name, a text that was taken, or one that shares
    /// no byte with any of these and is taken now. Takes no memory.
    ///
    /// # Errors
    ///
    /// Those of [`Heap::take`].
    pub fn key<'a>(&mut self, image: &'a Image, offset: u64) -> Result<&'a [u8], OpenFault>
        requires { self.old.segment.at + self.old.segment.len ≤ length image.now.bytes }
        ensures text { IfOk result (λ x. x.now ≡ text_at (segment_in image.now.bytes self.old) offset) }
        ensures span { OnOk result (IsSpan (segment_in image.now.bytes self.old) offset) }
        ensures names { OnOk result
            (TakesOnce (segment_in image.now.bytes self.old) self.old self.new offset) }
        ensures named { OnOk result ((linked loose : List ℕ)
            → HasTaken (segment_in image.now.bytes self.old) self.old linked loose
            → HasNamed (segment_in image.now.bytes self.old) self.new linked loose offset) }
        ensures address { IfErr result (λ fault. fault.address ≡ self.old.at) }
        ensures refused { IfErr result (λ fault.
            IsUnnamed (segment_in image.now.bytes self.old) self.old offset fault.cause) }
        ensures err { OnErr result (self.new ≡ self.old) }
    {
        if self.is_known(offset) {
            self.name(image, offset)
        } else {
            self.take(image, offset)
        }
    }

    /// Whether the offset is that of the empty name, or of a text that was taken.
    fn is_known(&self, offset: u64) -> bool
        ensures { IsTrue result ↔ ((offset ≡ 0) ⊎ Contains self.now.taken offset) }
    {
        offset == 0 || self.units.begins(offset)
    }

    /// Claims bytes of the segment, whole units of which `first` is the first from then on.
    fn claim(&mut self, offset: u64, len: u64, first: UnitState) -> Result<(), OpenFault>
        requires inside { offset + len ≤ self.old.segment.len }
        requires aligned { offset % 8 ≡ 0 }
        requires whole { len % 8 ≡ 0 }
        requires filled { 0 < len }
        requires text { (first ≡ UnitState.Begin) ⊎ (first ≡ UnitState.Taken) }
        ensures held { self.new ≡ record self.old { held = self.new.held; taken = self.new.taken } }
        ensures claimed { OnOk result ((p : ℕ)
            → cover p self.new.held ≡ cover p self.old.held + holds p offset len) }
        ensures separate { Separate self.new.held }
        ensures begun { first ≡ UnitState.Begin → OnOk result ((x : ℕ)
            → Contains self.new.taken x ↔ ((x ≡ offset) ⊎ Contains self.old.taken x)) }
        ensures empty { first ≡ UnitState.Taken → self.new.taken ≡ self.old.taken }
        ensures fault { IfErr result (λ fault.
            fault ≡ record { cause = Cause.HeapName; address = self.old.at }) }
        ensures refused { OnErr result (Shares self.old.held offset len) }
        ensures err { OnErr result (self.new ≡ self.old) }
    {
        let begin = (offset / UNIT) as usize;
        let end = begin + (len / UNIT) as usize;
        if !self.units.claim(begin, end, first) {
            return Err(fault(Cause::HeapName, self.at));
        }
        Ok(())
    }

    /// The bytes of the segment.
    fn segment_bytes<'a>(&self, image: &'a Image) -> &'a [u8]
        requires { self.now.segment.at + self.now.segment.len ≤ length image.now.bytes }
        ensures { result.now ≡ segment_in image.now.bytes self.now }
    {
        image.part(self.segment.at, self.segment.len).unwrap()
    }
}
