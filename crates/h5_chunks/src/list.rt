//! Chunks that are kept by their keys (File Format Specification 3.0, section III.A.1).

ghost use Rattle.std.specs.Prelude.{◌≡◌, ◌==◌, ◌^◌, ◌<◌, ◌≤◌, ◌++◌, ◌∷◌, [], OnOk, length, slice_index_or};
ghost use Rattle.h5_model.specs.Format.Chunks.{offsets_in};
ghost use Rattle.h5_model.specs.Format.Limits.{most_dimensions};
ghost use Rattle.h5_chunks.specs.Lists.{IsKeyOf, key_length as length_of_key};

use crate::key::{OFFSETS, key_length};
use crate::shape::ChunkShape;
use h5_btree::LONGEST_KEY;
use h5_bytes::{put_u32, put_u64};
use std::alloc::{AllocError, Global};
use std::marker::Model;

/// Chunks of one tree, kept as keys, one behind another.
#[derive(Drop)]
pub struct ChunkList {
    rank: usize,
    chunk_length: u64,
    keys: Vec<u8>,
}

impl Model for ChunkList {
    ghost use Rattle.std.specs.Prelude.{map};
    ghost use Rattle.h5_model.specs.Format.Chunks.{offsets_in};
    ghost use Rattle.h5_chunks.specs.Lists.{AreKeysOf, ChunkOffsets, keys_in};

    ghost Value = { ChunkOffsets };

    ghost view = { λ n. record {
      rank = n.rank;
      bytes = n.chunk_length;
      offsets = map (offsets_in n.rank) (keys_in n.rank n.keys.items);
    } };

    ghost invariant = { λ n. AreKeysOf n.rank n.chunk_length n.keys.items };
}

impl ChunkList {
    /// No chunk yet, of those of this shape. Takes no memory.
    pub fn new(alloc: Global, shape: &ChunkShape<'_>) -> ChunkList
        ensures { result ≡ record {
          rank = length shape.now.sizes;
          bytes = shape.now.bytes;
          offsets = [];
        } }
    {
        ChunkList {
            rank: shape.sizes.len(),
            chunk_length: shape.bytes,
            keys: Vec::new(alloc),
        }
    }

    /// Appends the chunk at these offsets.
    ///
    /// That there are as many as the tree has dimensions, and that a chunk has fewer than 2^32 bytes, are the caller's
    /// conditions.
    ///
    /// # Errors
    ///
    /// `AllocError` if memory is refused.
    pub fn push(&mut self, offsets: &[u64]) -> Result<(), AllocError>
        requires rank { length offsets.now ≡ self.old.rank }
        requires small { self.old.bytes < 2 ^ 32 }
        ensures { OnOk result (self.new ≡ record self.old {
          offsets = self.old.offsets ++ offsets.now ∷ [];
        }) }
    {
        let length = key_length(self.rank);
        let mut key = [0; LONGEST_KEY];
        write_key(&mut key[..length], self.chunk_length, offsets);
        self.push_key(&key[..length])
    }

    /// Appends the chunk with this key.
    ///
    /// That it is the key of a chunk of so many dimensions and bytes is the caller's condition.
    ///
    /// # Errors
    ///
    /// `AllocError` if memory is refused.
    pub fn push_key(&mut self, key: &[u8]) -> Result<(), AllocError>
        requires { IsKeyOf self.old.rank self.old.bytes key.now }
        ensures { OnOk result (self.new ≡ record self.old {
          offsets = self.old.offsets ++ offsets_in self.old.rank key.now ∷ [];
        }) }
    {
        self.keys.extend_from_slice(key)
    }

    /// How many there are.
    pub fn len(&self) -> usize
        ensures { result ≡ length self.now.offsets }
    {
        self.keys.len() / key_length(self.rank)
    }

    /// Whether there are none.
    pub fn is_empty(&self) -> bool
        ensures { result ≡ (length self.now.offsets == 0) }
    {
        self.len() == 0
    }

    /// The key of chunk `k`.
    pub fn key(&self, k: usize) -> &[u8]
        requires { k < length self.now.offsets }
        ensures key { IsKeyOf self.now.rank self.now.bytes result.now }
        ensures offsets { offsets_in self.now.rank result.now ≡ slice_index_or self.now.offsets k [] }
    {
        let length = key_length(self.rank);
        let start = k * length;
        &self.keys[start..start + length]
    }
}

/// Writes the key of a chunk of `bytes` bytes at these offsets.
fn write_key(key: &mut [u8], bytes: u64, offsets: &[u64])
    requires few { length offsets.now ≤ most_dimensions }
    requires long { length key.old ≡ length_of_key (length offsets.now) }
    requires small { bytes < 2 ^ 32 }
    ensures key { IsKeyOf (length offsets.now) bytes key.new }
    ensures offsets { offsets_in (length offsets.now) key.new ≡ offsets.now }
{
    put_u32(key, 0, bytes as u32);
    put_u32(key, 4, 0);
    put_u64(key, OFFSETS + 8 * offsets.len(), 0);
    for d in 0..offsets.len() {
        put_u64(key, OFFSETS + 8 * d, offsets[d]);
    }
}
