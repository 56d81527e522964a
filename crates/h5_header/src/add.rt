//! A message more in an object header, wherever there is room for it.

ghost use Rattle.std.specs.Prelude.{◌≡◌, ◌≢◌, ◌↔◌, ℕ, ◌<◌, ◌≤◌, ◌+◌, ◌^◌, ◌%◌, ◌==◌, ◌&&◌, nat_le, length, max, position, Some, Err, OnOk, OnErr, IsOk};
ghost use Rattle.h5_model.specs.Format.Limits.{most_bytes};
ghost use Rattle.h5_model.specs.Format.MessageTypes.{nil_kind, continuation_kind};
ghost use Rattle.h5_model.specs.Format.Messages.{prefix_at, reference_count, most_messages};
ghost use Rattle.h5_space.specs.Moves.{Moves, Spends};
ghost use Rattle.h5_space.specs.Whole.{IsApart};
ghost use Rattle.h5_header.specs.Listed.{messages_in};
ghost use Rattle.h5_header.specs.Standing.{IsStanding};
ghost use Rattle.h5_header.specs.Added.{AddsMessage, HasMovable, IsPutInNil, may_move};

use crate::header::Messages;
use h5_model::message_type::{DATATYPE, SYMBOL_TABLE};
use h5_space::{Image, SpaceFault};

/// Messages that a header has at most: its total is 16 bits wide (File Format Specification 3.0, section IV.A.1.a).
pub const MAX_MESSAGES: usize = 65535;

/// Bytes of a new block beside the body of the message that is added: two heads, and 16 bytes of the message that moves
/// there.
const BLOCK_OVERHEAD: u64 = 32;

/// Why a message could not be added to a header.
#[derive(Clone, Copy, Debug, PartialEq, Eq)]
pub enum AddFault {
    /// The header's total, with this message and a Continuation more, would pass 65535.
    HeaderFull,
    /// The image would pass 2147483648 bytes.
    ImageFull,
    /// A growth was refused.
    NoMemory,
}

impl Messages {
    /// The index of the first message that may move into a new block: a Symbol Table, or a Datatype, with the 16 bytes
    /// that count. Takes no memory.
    fn find_movable(&self) -> Option<usize>
        ensures { result ≡ position may_move self.now.list }
    {
        self.list().iter().position(|m| (m.kind == SYMBOL_TABLE || m.kind == DATATYPE)
            && 16 <= m.size)
    }

    /// Puts a message into the space of the first NIL message of its size or more, or else into a new block, behind the
    /// first message that may move. Takes no memory, and uses the room of one message.
    ///
    /// The caller's conditions: the body has a multiple of 8 bytes, and fewer than 2^16; the message is no Continuation;
    /// the header stands in the image, shares no byte with a free block, and has a message that may move; the total stays
    /// below 65536; there is room for the message, and in the image for a block with 32 bytes more than the body.
    /// `make_room` looks at the total, and makes the room.
    pub fn put(&mut self, image: &mut Image, kind: u16, body: &[u8])
        requires movable { HasMovable (messages_in image.old.bytes self.old.list) }
        requires padded { length body.now % 8 ≡ 0 }
        requires low { length body.now < 2 ^ 16 }
        requires own { kind ≢ continuation_kind }
        requires total { length self.old.list < 65534 }
        requires room { 1 ≤ self.old.room }
        requires bytes { 32 + length body.now ≤ image.old.room_bytes }
        requires calls { 1 ≤ image.old.room_blocks }
        requires apart { IsApart self.old.blocks image.old.free (length image.old.bytes) }
        requires standing { IsStanding image.old.bytes self.old }
        ensures standing { IsStanding image.new.bytes self.new }
        ensures added { AddsMessage (messages_in image.old.bytes self.old.list)
            (messages_in image.new.bytes self.new.list) kind body.now }
        ensures reused { (k : ℕ)
            → position (λ m. m.kind == nil_kind && nat_le (length body.now) m.size) self.old.list ≡ Some k
            → IsPutInNil (messages_in image.old.bytes self.old.list)
            (messages_in image.new.bytes self.new.list) kind body.now × (self.new.blocks ≡ self.old.blocks) }
        ensures header { self.new.header ≡ self.old.header }
        ensures count { reference_count (prefix_at image.new.bytes self.new.header)
            ≡ reference_count (prefix_at image.old.bytes self.old.header) }
        ensures moves { Moves image.old image.new self.old.blocks self.new.blocks }
        ensures spends { Spends image.old image.new (32 + length body.now) 1 }
        ensures room { self.new.room + 1 ≡ self.old.room }
    {
        if let Some(k) = self.find_nil(body.len() as u16) {
            self.put_into(image, k, kind, body);
        } else {
            let k = self.find_movable().unwrap();
            self.put_block(image, k, kind, body);
        }
    }

    /// Makes room for a message more, with a body of `size` bytes, and for the block that it may need. Takes no memory
    /// where there is room already.
    ///
    /// # Errors
    ///
    /// `HeaderFull`: the header's total plus 2 passes 65535. Else `ImageFull`: the image would pass 2147483648 bytes with
    /// a new block, which has 32 bytes more than the body. Else `NoMemory`, but never where there is room already. A
    /// refusal changes nothing but what room there is.
    pub fn make_room(&mut self, image: &mut Image, size: u16) -> Result<(), AddFault>
        ensures header_full { (result ≡ Err AddFault.HeaderFull)
            ↔ (most_messages < length self.old.list + 2) }
        ensures image_full { (result ≡ Err AddFault.ImageFull)
            ↔ ((length self.old.list + 2 ≤ most_messages)
            × (most_bytes < length image.old.bytes + (32 + size))) }
        ensures kept { OnOk result (self.new ≡ record self.old { room = max self.old.room 1 }) }
        ensures made { OnOk result (image.new ≡ record image.old {
          room_bytes = max image.old.room_bytes (32 + size);
          room_blocks = max image.old.room_blocks 1;
        }) }
        ensures refused { OnErr result (self.new ≡ self.old) }
        ensures as_it_was { OnErr result (image.new ≡ record image.old {
          room_bytes = image.new.room_bytes;
          room_blocks = image.new.room_blocks;
        }) }
        ensures covered { length self.old.list + 2 ≤ most_messages
            → length image.old.bytes + (32 + size) ≤ most_bytes
            → 1 ≤ self.old.room
            → 32 + size ≤ image.old.room_bytes
            → 1 ≤ image.old.room_blocks
            → IsOk result }
    {
        if self.list().len() + 2 > MAX_MESSAGES {
            return Err(AddFault::HeaderFull);
        }
        match image.reserve(BLOCK_OVERHEAD + size as u64, 1) {
            Ok(()) => {}
            Err(SpaceFault::ImageFull) => return Err(AddFault::ImageFull),
            Err(SpaceFault::NoMemory) => return Err(AddFault::NoMemory),
        }
        if self.reserve().is_err() {
            return Err(AddFault::NoMemory);
        }
        Ok(())
    }

    /// Adds a message: in the space of the first NIL message of its size or more, or else in a new block, behind a Symbol
    /// Table or a Datatype that moves there. Takes no memory where there is room already.
    ///
    /// The caller's conditions: the body has a multiple of 8 bytes, and fewer than 2^16; the message is no Continuation;
    /// the header stands in the image, shares no byte with a free block, and has a message that may move.
    ///
    /// # Errors
    ///
    /// Those of [`Messages::make_room`], as it names them.
    pub fn add(&mut self, image: &mut Image, kind: u16, body: &[u8]) -> Result<(), AddFault>
        requires movable { HasMovable (messages_in image.old.bytes self.old.list) }
        requires padded { length body.now % 8 ≡ 0 }
        requires low { length body.now < 2 ^ 16 }
        requires own { kind ≢ continuation_kind }
        requires apart { IsApart self.old.blocks image.old.free (length image.old.bytes) }
        requires standing { IsStanding image.old.bytes self.old }
        ensures header_full { (result ≡ Err AddFault.HeaderFull)
            ↔ (most_messages < length self.old.list + 2) }
        ensures image_full { (result ≡ Err AddFault.ImageFull)
            ↔ ((length self.old.list + 2 ≤ most_messages)
            × (most_bytes < length image.old.bytes + (32 + length body.now))) }
        ensures standing { OnOk result (IsStanding image.new.bytes self.new) }
        ensures added { OnOk result (AddsMessage (messages_in image.old.bytes self.old.list)
            (messages_in image.new.bytes self.new.list) kind body.now) }
        ensures reused { OnOk result ((k : ℕ)
            → position (λ m. m.kind == nil_kind && nat_le (length body.now) m.size) self.old.list ≡ Some k
            → IsPutInNil (messages_in image.old.bytes self.old.list)
            (messages_in image.new.bytes self.new.list) kind body.now × (self.new.blocks ≡ self.old.blocks)) }
        ensures header { OnOk result (self.new.header ≡ self.old.header) }
        ensures count { OnOk result (reference_count (prefix_at image.new.bytes self.new.header)
            ≡ reference_count (prefix_at image.old.bytes self.old.header)) }
        ensures moves { OnOk result (Moves image.old image.new self.old.blocks self.new.blocks) }
        ensures spends { OnOk result (Spends image.old image.new (32 + length body.now) 1) }
        ensures room { OnOk result (self.new.room + 1 ≡ max self.old.room 1) }
        ensures refused { OnErr result (self.new ≡ self.old) }
        ensures as_it_was { OnErr result (image.new ≡ record image.old {
          room_bytes = image.new.room_bytes;
          room_blocks = image.new.room_blocks;
        }) }
        ensures covered { length self.old.list + 2 ≤ most_messages
            → length image.old.bytes + (32 + length body.now) ≤ most_bytes
            → 1 ≤ self.old.room
            → 32 + length body.now ≤ image.old.room_bytes
            → 1 ≤ image.old.room_blocks
            → IsOk result }
    {
        self.make_room(image, body.len() as u16)?;
        self.put(image, kind, body);
        Ok(())
    }
}
