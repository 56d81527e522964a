//! A message more in an object header.

ghost use Rattle.std.specs.Prelude.{◌≡◌, ◌≢◌, ◌<◌, ◌≤◌, ◌+◌, ◌^◌, ◌%◌, ◌++◌, ◌==◌, ◌&&◌, nat_le, length, drop, position};
ghost use Rattle.h5_bytes.specs.Numbers.{short, zeros};
ghost use Rattle.h5_model.specs.Format.Messages.{prefix_at, reference_count, most_messages};
ghost use Rattle.h5_model.specs.Format.MessageTypes.{nil_kind, continuation_kind};
ghost use Rattle.h5_model.specs.Format.Plain.{message_bytes, messages_bytes};
ghost use Rattle.h5_space.specs.Moves.{Moves, Spends};
ghost use Rattle.h5_header.specs.Listed.{messages_in};
ghost use Rattle.h5_header.specs.Standing.{IsStanding, kept_at, said_in};
ghost use Rattle.h5_header.specs.Added.{IsPutInNil};

use crate::header::Messages;
use h5_bytes::put_u16;
use h5_model::message_type::NIL;
use h5_space::Image;

/// Writes the head of a message.
#[tactic(auto, unfolding(h5_bytes::specs::Bytes::with_part))]
fn write_head(kind: u16, size: u16, head: &mut [u8])
    requires { length head.old ≡ 8 }
    ensures { head.new ≡ short kind ++ (short size ++ zeros 4) }
{
    head.copy_from_slice(&[0, 0, 0, 0, 0, 0, 0, 0]);
    put_u16(head, 0, kind);
    put_u16(head, 2, size);
}

/// Writes a message over bytes that it fills.
pub(crate) fn write_message(kind: u16, body: &[u8], bytes: &mut [u8])
    requires room { length bytes.old ≡ 8 + length body.now }
    requires size { length body.now < 2 ^ 16 }
    ensures { bytes.new ≡ message_bytes (kind, body.now) }
{
    let (head, behind) = bytes.split_at_mut(8);
    write_head(kind, body.len() as u16, head);
    behind.copy_from_slice(body);
}

/// Makes these bytes a NIL message, whose body keeps its bytes.
fn write_nil(bytes: &mut [u8])
    requires room { 8 ≤ length bytes.old }
    requires size { length bytes.old < 2 ^ 16 + 8 }
    ensures { bytes.new ≡ message_bytes (0, drop 8 bytes.old) }
{
    let size = (bytes.len() - 8) as u16;
    let (head, _) = bytes.split_at_mut(8);
    write_head(NIL, size, head);
}

/// Writes a message over the first of these bytes. Those behind it become a NIL message.
fn write_in_nil(kind: u16, body: &[u8], bytes: &mut [u8])
    requires fits { 8 + length body.now ≤ length bytes.old }
    requires head { 8 + length body.now < length bytes.old → 16 + length body.now ≤ length bytes.old }
    requires size { length bytes.old < 2 ^ 16 + 8 }
    ensures { bytes.new ≡ messages_bytes (said_in kind body.now bytes.old) }
{
    let (first, rest) = bytes.split_at_mut(8 + body.len());
    write_message(kind, body, first);
    if !rest.is_empty() {
        write_nil(rest);
    }
}

impl Messages {
    /// The first NIL message of `size` bytes or more. Takes no memory.
    pub fn find_nil(&self, size: u16) -> Option<usize>
        ensures { result ≡ position (λ m. m.kind == nil_kind && nat_le size m.size) self.now.list }
    {
        self.list()
            .iter()
            .position(|m| m.kind == NIL && size <= m.size)
    }

    /// Puts a message into NIL message `k`, which has its size or more. What that leaves stays NIL. Takes no memory,
    /// and uses the room of one message.
    ///
    /// These are the caller's conditions: there is such a message; the body has a multiple of 8 bytes and is no
    /// Continuation's; the total of messages stays below 65536; and there is room.
    pub fn put_into(&mut self, image: &mut Image, k: usize, kind: u16, body: &[u8])
        requires known { k < length self.old.list }
        requires nil { (kept_at self.old.list k).kind ≡ nil_kind }
        requires fits { length body.now ≤ (kept_at self.old.list k).size }
        requires padded { length body.now % 8 ≡ 0 }
        requires own { kind ≢ continuation_kind }
        requires total { length self.old.list < most_messages }
        requires room { 1 ≤ self.old.room }
        requires standing { IsStanding image.old.bytes self.old }
        ensures standing { IsStanding image.new.bytes self.new }
        ensures added { IsPutInNil (messages_in image.old.bytes self.old.list)
            (messages_in image.new.bytes self.new.list) kind body.now }
        ensures header { self.new.header ≡ self.old.header }
        ensures count { reference_count (prefix_at image.new.bytes self.new.header)
            ≡ reference_count (prefix_at image.old.bytes self.old.header) }
        ensures blocks { self.new.blocks ≡ self.old.blocks }
        ensures moves { Moves image.old image.new self.old.blocks self.new.blocks }
        ensures spends { Spends image.old image.new 0 0 }
        ensures room_kept { (image.new.room_bytes ≡ image.old.room_bytes)
            × (image.new.room_blocks ≡ image.old.room_blocks) }
        ensures room { self.new.room + 1 ≡ self.old.room }
    {
        // The image is not longer than memory.
        let _bytes = image.bytes();
        let nil = self.list()[k];
        write_in_nil(
            kind,
            body,
            image.part_at_mut(nil.at - 8, nil.size as u64 + 8),
        );
        self.keep_in(k, kind, body.len() as u16);
        let total = self.list().len() as u16;
        put_u16(image.part_at_mut(self.header(), 16), 2, total);
    }
}
