//! Edits of an object header in place.

ghost use Rattle.std.specs.Prelude.{◌≡◌, ◌≢◌, ◌<◌, length};
ghost use Rattle.h5_model.specs.Format.MessageTypes.{continuation_kind};
ghost use Rattle.h5_model.specs.Format.Messages.{prefix_at, reference_count};
ghost use Rattle.h5_space.specs.Moves.{Moves, Spends};
ghost use Rattle.h5_header.specs.Listed.{messages_in};
ghost use Rattle.h5_header.specs.Standing.{IsStanding, kept_at, with_nil, with_body};

use crate::header::Messages;
use crate::message::Message;
use h5_bytes::{put_u16, put_u32};
use h5_model::message_type::NIL;
use h5_space::Image;

impl Messages {
    /// Sets the reference count. Takes no memory.
    pub fn set_links(&self, image: &mut Image, links: u32)
        requires standing { IsStanding image.old.bytes self.now }
        ensures standing { IsStanding image.new.bytes self.now }
        ensures messages { messages_in image.new.bytes self.now.list
            ≡ messages_in image.old.bytes self.now.list }
        ensures count { reference_count (prefix_at image.new.bytes self.now.header) ≡ links }
        ensures moves { Moves image.old image.new self.now.blocks self.now.blocks }
        ensures length { length image.new.bytes ≡ length image.old.bytes }
        ensures room { (image.new.room_bytes ≡ image.old.room_bytes)
            × (image.new.room_blocks ≡ image.old.room_blocks) }
    {
        put_u32(image.part_at_mut(self.header(), 16), 4, links);
    }

    /// Makes message `k` NIL. Takes no memory.
    ///
    /// That there is such a message, and that it is no Continuation, are the caller's conditions.
    pub fn blank(&mut self, image: &mut Image, k: usize)
        requires known { k < length self.old.list }
        requires own { (kept_at self.old.list k).kind ≢ continuation_kind }
        requires standing { IsStanding image.old.bytes self.old }
        ensures standing { IsStanding image.new.bytes self.new }
        ensures messages { messages_in image.new.bytes self.new.list
            ≡ with_nil (messages_in image.old.bytes self.old.list) k }
        ensures header { self.new.header ≡ self.old.header }
        ensures count { reference_count (prefix_at image.new.bytes self.new.header)
            ≡ reference_count (prefix_at image.old.bytes self.old.header) }
        ensures blocks { self.new.blocks ≡ self.old.blocks }
        ensures room { self.new.room ≡ self.old.room }
        ensures moves { Moves image.old image.new self.old.blocks self.new.blocks }
        ensures spends { Spends image.old image.new 0 0 }
        ensures room_kept { (image.new.room_bytes ≡ image.old.room_bytes)
            × (image.new.room_blocks ≡ image.old.room_blocks) }
    {
        let message = self.list()[k];
        put_u16(image.part_at_mut(message.at - 8, 2), 0, NIL);
        self.set(
            k,
            Message {
                kind: NIL,
                at: message.at,
                size: message.size,
            },
        );
    }

    /// Writes the body of message `k`. Takes no memory.
    ///
    /// That there is such a message, that it is no Continuation, and that the body has its size are the
    /// caller's conditions.
    pub fn write_body(&self, image: &mut Image, k: usize, body: &[u8])
        requires known { k < length self.now.list }
        requires own { (kept_at self.now.list k).kind ≢ continuation_kind }
        requires size { length body.now ≡ (kept_at self.now.list k).size }
        requires standing { IsStanding image.old.bytes self.now }
        ensures standing { IsStanding image.new.bytes self.now }
        ensures messages { messages_in image.new.bytes self.now.list
            ≡ with_body (messages_in image.old.bytes self.now.list) k body.now }
        ensures count { reference_count (prefix_at image.new.bytes self.now.header)
            ≡ reference_count (prefix_at image.old.bytes self.now.header) }
        ensures moves { Moves image.old image.new self.now.blocks self.now.blocks }
        ensures room { (image.new.room_bytes ≡ image.old.room_bytes)
            × (image.new.room_blocks ≡ image.old.room_blocks) }
    {
        let message = self.list()[k];
        image
            .part_at_mut(message.at, message.size as u64)
            .copy_from_slice(body);
    }
}
