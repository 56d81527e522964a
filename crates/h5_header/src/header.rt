//! The messages of an object header (File Format Specification 3.0, section IV.A.1.a).

ghost use Rattle.std.specs.Prelude.{◌≡◌, ◌+◌, ◌<◌, ◌≤◌, [], Some, length, ◌++◌, ◌-◌, ◌^◌, max, take, drop, slice_get, slice_set, option_map, IfOk, IfErr, OnOk, OnErr, IsOk};
ghost use Rattle.std.specs.List.{insert};
ghost use Rattle.h5_bytes.specs.Blocks.{Separate};
ghost use Rattle.h5_bytes.specs.Bytes.{byte_at};
ghost use Rattle.h5_model.specs.Format.MessageTypes.{continuation_kind};
ghost use Rattle.h5_model.specs.Format.Messages.{prefix_at, reference_count};
ghost use Rattle.h5_header.specs.Listed.{messages_in, IsWithin};
ghost use Rattle.h5_header.specs.Standing.{kept_at, kept_with_nil};
ghost use Rattle.h5_header.specs.Progress.{ReadThrough, Stops};

use crate::block::read_block;
use crate::blocks::Blocks;
use crate::claims::{PREFIX, claim_prefix};
use crate::message::{HEAD, Message};
use h5_bytes::{Block, u16_at, u32_at};
use h5_model::message_type::{CONTINUATION, NIL};
use h5_model::{Cause, OpenFault};
use h5_space::{Claims, Image, claim, fault};
use std::alloc::{AllocError, Global};
use std::marker::Model;

/// The messages of an object header, in the order in which they stand in its blocks.
///
/// It keeps where the messages stand, and no byte of the image. One more message is kept in room that was reserved.
/// So an edit can run out of memory only before its first change.
#[derive(Drop)]
pub struct Messages {
    header: u64,
    list: Vec<Message>,
    blocks: Blocks,
    room: usize,
}

impl Model for Messages {
    ghost use Rattle.h5_header.specs.Listed.{Listed};

    ghost Value = { Listed };

    ghost use Rattle.h5_header.specs.Room.{IsRoomKept};

    ghost view = { λ s. record { header = s.header; list = s.list.items; blocks = s.blocks.items; room = s.room } };

    ghost invariant = { IsRoomKept };
}

impl Messages {
    /// What is kept of a header with these messages in these blocks, with room for no message more. Takes no memory.
    pub(crate) fn of(header: u64, list: Vec<Message>, blocks: Blocks) -> Messages
        ensures { result ≡ record { header = header; list = list.items; blocks = blocks.items; room = 0 } }
    {
        Messages {
            header,
            list,
            blocks,
            room: 0,
        }
    }

    /// The address of the header. Takes no memory.
    pub fn header(&self) -> u64
        ensures { result ≡ self.now.header }
    {
        self.header
    }

    /// The messages in order, NIL and Continuation messages among them. Takes no memory.
    pub fn list(&self) -> &[Message]
        ensures { result.now ≡ self.now.list }
    {
        &self.list
    }

    /// The blocks: the prefix with the first block of messages, then those that Continuations name, in
    /// the order of these. Takes no memory.
    pub fn blocks(&self) -> &[Block]
        ensures { result.now ≡ self.now.blocks }
    {
        self.blocks.as_slice()
    }

    /// The body of message `k`. Takes no memory.
    ///
    /// That there is such a message, and that it lies in the image, are the caller's conditions; it does
    /// in the image from which the messages were read.
    pub fn body<'a>(&self, image: &'a Image, k: usize) -> &'a [u8]
        requires known { k < length self.now.list }
        requires within { IsWithin (length image.now.bytes) self.now.list }
        ensures { option_map (λ m.
            m.body) (slice_get (messages_in image.now.bytes self.now.list) k) ≡ Some result.now }
    {
        let message = self.list[k];
        &image.bytes()[message.at as usize..message.at as usize + message.size as usize]
    }

    /// The reference count: how many hard links lead to the header. Takes no memory.
    ///
    /// That the header's prefix lies in the image is the caller's condition.
    pub fn links(&self, image: &Image) -> u32
        requires { self.now.header + 16 ≤ length image.now.bytes }
        ensures { result ≡ reference_count (prefix_at image.now.bytes self.now.header) }
    {
        u32_at(image.bytes(), self.header as usize + 4)
    }

    /// Makes room for one message more: for two more messages and one more block, which it may need. Takes no memory
    /// if the room is there already.
    ///
    /// # Errors
    ///
    /// `AllocError` if memory is refused. Then nothing changes.
    pub fn reserve(&mut self) -> Result<(), AllocError>
        ensures ok { OnOk result (self.new ≡ record self.old { room = max self.old.room 1 }) }
        ensures err { OnErr result (self.new ≡ self.old) }
        ensures covered { 1 ≤ self.old.room → IsOk result }
    {
        if self.room == 0 {
            self.list.reserve(2)?;
            self.blocks.reserve()?;
            self.room = 1;
        }
        Ok(())
    }

    /// Keeps a message of `size` bytes in the place of message `k`, and behind it the NIL message that is
    /// left. Uses the room of one message. Takes no memory.
    pub(crate) fn keep_in(&mut self, k: usize, kind: u16, size: u16)
        requires known { k < length self.old.list }
        requires fits { size ≤ (kept_at self.old.list k).size }
        requires head { size < (kept_at self.old.list k).size → size + 8 ≤ (kept_at self.old.list k).size }
        requires small { (kept_at self.old.list k).at + (kept_at self.old.list k).size < 2 ^ 64 }
        requires room { 1 ≤ self.old.room }
        ensures { self.new ≡ record self.old {
          list = take k self.old.list
              ++ (kept_with_nil kind size (kept_at self.old.list k) ++ drop (k + 1) self.old.list);
          room = self.old.room - 1;
        } }
    {
        let old = self.list[k];
        self.list[k] = Message {
            kind,
            at: old.at,
            size,
        };
        if size < old.size {
            let rest = Message {
                kind: NIL,
                at: old.at + size as u64 + 8,
                size: old.size - size - 8,
            };
            let _ = self.list.insert(k + 1, rest);
        }
        self.room -= 1;
    }

    /// Keeps a Continuation in the place of message `k`, two messages from place `at` of the list on, and
    /// their block at place `named` of the blocks. Uses the room of one message. Takes no memory.
    pub(crate) fn keep_in_block(
        &mut self,
        k: usize,
        at: usize,
        first: Message,
        second: Message,
        named: usize,
        block: Block,
    )
        requires known { k < length self.old.list }
        requires within { at ≤ length self.old.list }
        requires among { named ≤ length self.old.blocks }
        requires room { 1 ≤ self.old.room }
        ensures { self.new ≡ record self.old {
          list = insert (insert
              (slice_set self.old.list k (record (kept_at self.old.list k) { kind = continuation_kind }))
              at first) (at + 1) second;
          blocks = insert self.old.blocks named block;
          room = self.old.room - 1;
        } }
    {
        let old = self.list[k];
        self.list[k] = Message {
            kind: CONTINUATION,
            at: old.at,
            size: old.size,
        };
        let _ = self.list.insert(at, first);
        let _ = self.list.insert(at + 1, second);
        self.blocks.insert_reserved(named, block);
        self.room -= 1;
    }

    /// Keeps this message in the place of message `k`. Takes no memory.
    pub(crate) fn set(&mut self, k: usize, message: Message)
        requires { k < length self.old.list }
        ensures { self.new ≡ record self.old { list = slice_set self.old.list k message } }
    {
        self.list[k] = message;
    }
}

/// Reads all blocks of a header, in the order in which they are named.
pub(crate) fn read_header(
    alloc: Global,
    image: &[u8],
    claims: &mut Claims,
    header: u64,
) -> Result<Messages, OpenFault>
    requires { claims.old.end ≡ length image.now }
    ensures header { IfOk result (λ m. m.header ≡ header) }
    ensures read { IfOk result (λ m.
        ReadThrough image.now header claims.old.held claims.new.held m.list m.blocks (length m.blocks)) }
    ensures within { IfOk result (λ m. IsWithin (length image.now) m.list) }
    ensures version { OnOk result (byte_at (prefix_at image.now header) 0 ≡ 1) }
    ensures separate { OnOk result (Separate claims.new.held) }
    ensures end { claims.new.end ≡ claims.old.end }
    ensures refused { IfErr result (λ fault.
        Stops image.now header claims.old.held fault.cause fault.address) }
{
    let first = claim_prefix(image, claims, header)?;
    let Ok(mut list) = list_for(alloc, image, first) else {
        return Err(fault(Cause::NoMemory, header));
    };
    let mut blocks = Blocks::one(alloc, first);
    let behind = Block {
        at: header + PREFIX,
        len: first.len - PREFIX,
    };
    if let Err(cause) = read_block(image, behind, &mut list, &mut blocks) {
        return Err(fault(cause, header));
    }
    let mut next = 1;
    while next < blocks.as_slice().len() {
        let block = blocks.as_slice()[next];
        claim(claims, block)?;
        if let Err(cause) = read_block(image, block, &mut list, &mut blocks) {
            return Err(fault(cause, header));
        }
        next += 1;
    }
    Ok(Messages::of(header, list, blocks))
}

/// An empty list with room for the messages of a header with this first block: for as many as the header says it has, if
/// the block can hold so many.
fn list_for(alloc: Global, image: &[u8], first: Block) -> Result<Vec<Message>, AllocError>
    requires prefix { PREFIX ≤ first.len }
    requires inside { first.at + first.len ≤ length image.now }
    ensures { IfOk result (λ list. list.items ≡ []) }
{
    let said = u64::from(u16_at(image, first.at as usize + 2));
    let mut list = Vec::new(alloc);
    list.reserve(said.min(first.len / HEAD) as usize)?;
    Ok(list)
}
