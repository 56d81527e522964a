//! What will be kept of a header that is to be made (File Format Specification 3.0, section IV.A.1.a).

ghost use Rattle.std.specs.Prelude.{◌≡◌, ℕ, ◌+◌, ◌≤◌, [], ◌∷◌, IfOk, List, length};
ghost use Rattle.h5_bytes.specs.Blocks.{block};
ghost use Rattle.h5_bytes.specs.Bytes.{part};
ghost use Rattle.h5_model.specs.Format.Limits.{most_bytes};
ghost use Rattle.h5_model.specs.Format.Messages.{Message as Said};
ghost use Rattle.h5_header.specs.Laid.{IsHeaderBytes};
ghost use Rattle.h5_header.specs.Listed.{messages_in, IsWithin};

use crate::blocks::Blocks;
use crate::claims::PREFIX;
use crate::header::Messages;
use crate::message::{HEAD, Message};
use h5_bytes::{Block, u16_at};
use std::alloc::{AllocError, Global};

impl Messages {
    /// What will be kept of a header in one block, once its bytes stand at the address `header`.
    ///
    /// That the bytes are those of such a header, and end by 2147483648, are the caller's conditions. Takes memory for the messages.
    ///
    /// # Errors
    ///
    /// `AllocError` if memory is refused.
    pub fn laid(alloc: Global, header: u64, bytes: &[u8]) -> Result<Messages, AllocError>
        requires header { (ms : List Said) × IsHeaderBytes bytes.now header ms }
        requires low { header + length bytes.now ≤ most_bytes }
        ensures header { IfOk result (λ m. m.header ≡ header) }
        ensures block { IfOk result (λ m. m.blocks ≡ block header (length bytes.now) ∷ []) }
        ensures within { IfOk result (λ m. IsWithin (header + length bytes.now) m.list) }
        ensures messages { IfOk result (λ m. (ms : List Said) → IsHeaderBytes bytes.now header ms
            → (image : List ℕ) → part header (length bytes.now) image ≡ bytes.now
            → messages_in image m.list ≡ ms) }
    {
        let mut list = Vec::new(alloc);
        let mut at = PREFIX as usize;
        while at < bytes.len() {
            let size = u16_at(bytes, at + 2);
            list.push(Message {
                kind: u16_at(bytes, at),
                at: header + at as u64 + HEAD,
                size,
            })?;
            at += HEAD as usize + size as usize;
        }
        let first = Block {
            at: header,
            len: bytes.len() as u64,
        };
        Ok(Messages::of(header, list, Blocks::one(alloc, first)))
    }
}
