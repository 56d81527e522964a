//! The blocks of an object header as they are kept (File Format Specification 3.0, section IV.A.1.a).

ghost use Rattle.std.specs.Prelude.{◌≡◌, ◌+◌, ◌≤◌, [], ◌∷◌, ◌++◌, length, OnOk};
ghost use Rattle.std.specs.List.{insert};

use h5_bytes::Block;
use std::alloc::{AllocError, Global};
use std::marker::Model;
use std::slice;

/// The blocks of a header: at least one.
///
/// Nearly every header has just one, so that one is kept in the value itself and takes no memory.
#[derive(Drop)]
pub(crate) struct Blocks {
    /// The only block, while `all` is empty.
    first: Block,
    /// All blocks, once there are several, and none before.
    all: Vec<Block>,
}

impl Model for Blocks {
    ghost use Rattle.std.specs.Prelude.{max, vec_capacity};
    ghost use Rattle.h5_header.specs.KeptBlocks.{KeptBlocks, blocks_of};

    ghost Value = { KeptBlocks };

    ghost view = { λ s. record { items = blocks_of s.first s.all.items; capacity = max 1 (vec_capacity s.all) } };
}

impl Blocks {
    /// One block. Takes no memory.
    pub(crate) fn one(alloc: Global, first: Block) -> Blocks
        ensures { result ≡ record { items = first ∷ []; capacity = 1 } }
    {
        Blocks {
            first,
            all: Vec::new(alloc),
        }
    }

    /// The blocks, the first among them. Takes no memory.
    pub(crate) fn as_slice(&self) -> &[Block]
        ensures { result.now ≡ self.now.items }
    {
        if self.all.is_empty() {
            slice::from_ref(&self.first)
        } else {
            &self.all
        }
    }

    /// Makes room for one block more. Takes no memory if the room is there already.
    ///
    /// # Errors
    ///
    /// `AllocError` if memory is refused.
    pub(crate) fn reserve(&mut self) -> Result<(), AllocError>
        ensures items { self.new.items ≡ self.old.items }
        ensures ok { OnOk result (length self.new.items + 1 ≤ self.new.capacity) }
        ensures capacity { self.old.capacity ≤ self.new.capacity }
    {
        let more = if self.all.is_empty() { 2 } else { 1 };
        self.all.reserve(more)
    }

    /// Puts a block at place `at`, for which room was made. Takes no memory.
    pub(crate) fn insert_reserved(&mut self, at: usize, block: Block)
        requires within { at ≤ length self.old.items }
        requires room { length self.old.items + 1 ≤ self.old.capacity }
        ensures items { self.new.items ≡ insert self.old.items at block }
        ensures capacity { self.new.capacity ≡ self.old.capacity }
    {
        if self.all.is_empty() {
            self.all.push_reserved(self.first);
        }
        let _ = self.all.insert(at, block);
    }

    /// Adds a block behind the others.
    ///
    /// # Errors
    ///
    /// `AllocError` if memory is refused.
    pub(crate) fn push(&mut self, block: Block) -> Result<(), AllocError>
        ensures { OnOk result (self.new.items ≡ self.old.items ++ block ∷ []) }
    {
        self.reserve()?;
        let end = self.as_slice().len();
        self.insert_reserved(end, block);
        Ok(())
    }
}
