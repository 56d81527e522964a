//! What the chunks of a dataset have in common, and their trees (File Format Specification 3.0, sections III.A.1 and
//! IV.A.2.i).

ghost use Rattle.std.specs.Prelude.{◌≡◌, ℕ, ◌+◌, ◌<◌, List, IfErr, OnOk, length, slice_index_or};
ghost use Rattle.std.specs.List.{AllByRecursion};
ghost use Rattle.h5_bytes.specs.Blocks.{Separate, cover, holds};
ghost use Rattle.h5_model.specs.Format.Superblock.{IsSuperblock};
ghost use Rattle.h5_btree.specs.Walk.Below.{IsBottom};
ghost use Rattle.h5_btree.specs.Walk.Forms.{IsKeyedAt, OfChunks, kind_of, leaf_length};
ghost use Rattle.h5_btree.specs.Walk.Refused.{IsLeafRefused};
ghost use Rattle.h5_chunks.specs.Shapes.{AreChunkSizes};

use crate::key::is_chunk_key;
use h5_btree::{Leaves, Node, NodeKind, Trees};
use h5_bytes::Block;
use h5_model::{Cause, OpenFault};
use h5_space::{Claims, Image, chunk_k, claim, fault};
use std::marker::Model;

/// The sizes of a dataset's chunks in cells, and how many bytes one chunk has.
#[derive(Drop)]
pub struct ChunkShape<'a> {
    pub(crate) sizes: &'a [u64],
    pub(crate) bytes: u64,
}

impl<'a> Model for ChunkShape<'a> {
    ghost use Rattle.h5_model.specs.Format.Reached.{Shape};
    ghost use Rattle.h5_chunks.specs.Shapes.{AreChunkSizes};

    ghost Value = { Shape };

    ghost view = { λ a. record { sizes = a.sizes.now; bytes = a.bytes } };

    ghost invariant = { λ a. AreChunkSizes a.sizes.now };
}

impl<'a> ChunkShape<'a> {
    /// Chunks of these sizes, in cells, and of `bytes` bytes each. That there are at most 32 sizes, none of which is
    /// 0, is the caller's condition.
    pub fn new(sizes: &'a [u64], bytes: u64) -> Self
        requires { AreChunkSizes sizes.now }
        ensures sizes { result.sizes ≡ sizes.now }
        ensures bytes { result.bytes ≡ bytes }
    {
        ChunkShape { sizes, bytes }
    }
}

impl Trees for ChunkShape<'_> {
    ghost form = { λ s. OfChunks s };

    fn kind(&self, image: &Image) -> NodeKind {
        NodeKind::chunks(chunk_k(image.bytes()), self.sizes.len())
    }
}

impl Leaves for ChunkShape<'_> {
    fn claim_leaf(
        &self,
        _image: &Image,
        claims: &mut Claims,
        at: u64,
        node: &Node<'_>,
        i: usize,
    ) -> Result<(), OpenFault>
        requires end { claims.old.end ≡ length _image.now.bytes }
        requires superblock { IsSuperblock _image.now.bytes }
        requires keys { AllByRecursion (λ (key : List ℕ).
            length key ≡ (kind_of _image.now.bytes (OfChunks self.now)).key_length) node.now.keys }
        requires place { i < length node.now.children }
        requires more { i < length node.now.keys }
        ensures bottom { OnOk result (IsBottom _image.now.bytes (OfChunks self.now)
            (slice_index_or node.now.children i 0)) }
        ensures keyed { OnOk result (IsKeyedAt (OfChunks self.now) node.now i) }
        ensures claimed { OnOk result
            ((p : ℕ)
            → cover p claims.new.held ≡ cover p claims.old.held
            + holds p (slice_index_or node.now.children i 0)
            (leaf_length _image.now.bytes (OfChunks self.now))) }
        ensures separate { OnOk result (Separate claims.new.held) }
        ensures end { claims.new.end ≡ claims.old.end }
        ensures refused { IfErr result (λ fault. IsLeafRefused _image.now.bytes (OfChunks self.now)
            claims.old.held at node.now i fault.cause fault.address) }
        ensures key_first { (IsKeyedAt (OfChunks self.now) node.now i → ⊥)
            → (result ≡ Err (record { cause = Cause.ChunkKey; address = at }))
            × (claims.new ≡ claims.old) }
    {
        if !is_chunk_key(self.sizes, self.bytes, node.key(i)) {
            return Err(fault(Cause::ChunkKey, at));
        }
        let block = Block {
            at: node.child(i),
            len: self.bytes,
        };
        claim(claims, block)
    }
}
