//! A message more in an object header, in a block of its own (File Format Specification 3.0, sections IV.A.1.a and
//! IV.A.2.q).

ghost use Rattle.std.specs.Prelude.{◌≡◌, ◌≢◌, ◌⊎◌, ℕ, ◌<◌, ◌≤◌, ◌+◌, ◌-◌, ◌^◌, ◌%◌, ◌==◌, [], ◌∷◌, ◌++◌, length, take, count_by};
ghost use Rattle.h5_bytes.specs.Numbers.{word};
ghost use Rattle.h5_model.specs.Format.MessageTypes.{datatype_kind, continuation_kind, symbol_table_kind};
ghost use Rattle.h5_model.specs.Format.Messages.{prefix_at, reference_count};
ghost use Rattle.h5_model.specs.Format.Plain.{messages_bytes};
ghost use Rattle.h5_space.specs.Moves.{Moves, Spends};
ghost use Rattle.h5_space.specs.Whole.{IsApart};
ghost use Rattle.h5_header.specs.Listed.{messages_in};
ghost use Rattle.h5_header.specs.Standing.{IsStanding, kept_at};
ghost use Rattle.h5_header.specs.Added.{IsPutInBlock, lengths, named_in, spans};

use crate::claims::PREFIX;
use crate::header::Messages;
use crate::message::Message;
use crate::put::write_message;
use h5_bytes::{Block, put_u16, put_u64};
use h5_model::message_type::CONTINUATION;
use h5_space::Image;

/// Writes two messages over bytes that they fill.
fn write_two(first_kind: u16, first: &[u8], kind: u16, body: &[u8], bytes: &mut [u8])
    requires room { length bytes.old ≡ 16 + length first.now + length body.now }
    requires first { length first.now < 2 ^ 16 }
    requires size { length body.now < 2 ^ 16 }
    ensures { bytes.new ≡ messages_bytes ((first_kind, first.now) ∷ (kind, body.now) ∷ []) }
{
    let (front, behind) = bytes.split_at_mut(8 + first.len());
    write_message(first_kind, first, front);
    write_message(kind, body, behind);
}

/// The body of a Continuation that names a block: its address and its length.
#[tactic(auto, unfolding(h5_bytes::specs::Bytes::with_part))]
fn name_of(block: Block) -> [u8; 16]
    ensures { result ≡ word block.at ++ word block.len }
{
    let mut name = [0; 16];
    put_u64(&mut name, 0, block.at);
    put_u64(&mut name, 8, block.len);
    name
}

/// Writes a message into a block, behind one that moves there with the first bytes of its body. What that one leaves
/// becomes the Continuation that names the block.
fn write_block(
    image: &mut Image,
    moved: Message,
    first: &[u8; 16],
    block: Block,
    kind: u16,
    body: &[u8],
)
    requires head { 8 ≤ moved.at }
    requires there { moved.at + 16 ≤ length image.old.bytes }
    requires room { block.at + block.len ≤ length image.old.bytes }
    requires long { block.len ≡ 32 + length body.now }
    requires size { length body.now < 2 ^ 16 }
    ensures { image.new ≡ record image.old {
      bytes = named_in moved first.now block kind body.now image.old.bytes;
    } }
{
    write_two(
        moved.kind,
        first,
        kind,
        body,
        image.part_at_mut(block.at, block.len),
    );
    let name = name_of(block);
    image.part_at_mut(moved.at, 16).copy_from_slice(&name);
    put_u16(image.part_at_mut(moved.at - 8, 2), 0, CONTINUATION);
}

impl Messages {
    /// How many blocks are named before message `k`, with the header's own.
    fn blocks_before(&self, k: usize) -> usize
        requires { k ≤ length self.now.list }
        ensures { result ≡ 1 + count_by (λ m. m.kind == continuation_kind) (take k self.now.list) }
    {
        1 + self.list()[..k]
            .iter()
            .filter(|m| m.kind == CONTINUATION)
            .count()
    }

    /// How many messages stand in the first `n` blocks.
    ///
    /// That so many of them fill these blocks is the caller's condition.
    fn messages_in_blocks(&self, n: usize) -> usize
        requires known { n ≤ length self.now.blocks }
        requires small { lengths (take n self.now.blocks) < 2 ^ 64 }
        requires filled { (j : ℕ) × (j ≤ length self.now.list)
            × (16 + spans (take j self.now.list) ≡ lengths (take n self.now.blocks)) }
        ensures known { result ≤ length self.now.list }
        ensures filled { 16 + spans (take result self.now.list) ≡ lengths (take n self.now.blocks) }
    {
        let bytes: u64 = self.blocks()[..n].iter().map(|b| b.len).sum();
        let mut left = bytes - PREFIX;
        let mut count = 0;
        while left > 0 {
            left -= 8 + self.list()[count].size as u64;
            count += 1;
        }
        count
    }

    /// Puts a message into a new block, behind message `k`, a Symbol Table or a Datatype, which moves there and leaves a
    /// Continuation. Takes no memory, and uses the room of one message.
    ///
    /// The caller's conditions: message `k` has 16 bytes or more; the body has a multiple of 8 bytes, and fewer than
    /// 2^16; the message is no Continuation; the header stands in the image, and shares no byte with a free block; the
    /// total stays below 65536; there is room for the message, and in the image for a block with 32 bytes more than the
    /// body.
    pub(crate) fn put_block(&mut self, image: &mut Image, k: usize, kind: u16, body: &[u8])
        requires known { k < length self.old.list }
        requires may_move { ((kept_at self.old.list k).kind ≡ symbol_table_kind)
            ⊎ ((kept_at self.old.list k).kind ≡ datatype_kind) }
        requires wide { 16 ≤ (kept_at self.old.list k).size }
        requires padded { length body.now % 8 ≡ 0 }
        requires low { length body.now < 2 ^ 16 }
        requires own { kind ≢ continuation_kind }
        requires total { length self.old.list < 65534 }
        requires room { 1 ≤ self.old.room }
        requires bytes { 32 + length body.now ≤ image.old.room_bytes }
        requires calls { 1 ≤ image.old.room_blocks }
        requires apart { IsApart self.old.blocks image.old.free (length image.old.bytes) }
        requires standing { IsStanding image.old.bytes self.old }
        ensures standing { IsStanding image.new.bytes self.new }
        ensures added { IsPutInBlock (messages_in image.old.bytes self.old.list)
            (messages_in image.new.bytes self.new.list) kind body.now }
        ensures header { self.new.header ≡ self.old.header }
        ensures count { reference_count (prefix_at image.new.bytes self.new.header)
            ≡ reference_count (prefix_at image.old.bytes self.old.header) }
        ensures moves { Moves image.old image.new self.old.blocks self.new.blocks }
        ensures spends { Spends image.old image.new (32 + length body.now) 1 }
        ensures room { self.new.room + 1 ≡ self.old.room }
    {
        let moved = self.list()[k];
        let len = 32 + body.len() as u64;
        let block = Block {
            at: image.take(len),
            len,
        };
        let mut first = [0; 16];
        first.copy_from_slice(&image.bytes()[moved.at as usize..moved.at as usize + 16]);
        write_block(image, moved, &first, block, kind, body);
        let named = self.blocks_before(k);
        let place = self.messages_in_blocks(named);
        let moved = Message {
            kind: moved.kind,
            at: block.at + 8,
            size: 16,
        };
        let put = Message {
            kind,
            at: block.at + 32,
            size: body.len() as u16,
        };
        self.keep_in_block(k, place, moved, put, named, block);
        let total = self.list().len() as u16;
        put_u16(image.part_at_mut(self.header(), 16), 2, total);
    }
}
