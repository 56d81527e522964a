//! Kinds of B-trees, by the keys of their nodes (File Format Specification 3.0, section III.A.1).

ghost use Rattle.std.specs.Prelude.{◌≡◌, ◌*◌, ◌≤◌};
ghost use Rattle.h5_model.specs.Format.Limits.{most_dimensions};
ghost use Rattle.h5_model.specs.Format.Superblock.{highest_k};
ghost use Rattle.h5_model.specs.Format.Nodes.{chunk_kind, group_kind, node_length as length_of};

use std::marker::Model;

/// The kind of a B-tree: the type of its nodes, the length of a key in bytes, and K, which is at most 32767.
#[derive(Clone, Copy, Debug, PartialEq, Eq)]
pub struct NodeKind {
    type_byte: u8,
    key_length: u16,
    k: u16,
}

impl Model for NodeKind {
    ghost use Rattle.std.specs.Prelude.{◌≤◌};
    ghost use Rattle.h5_model.specs.Format.Nodes.{Kind};
    ghost use Rattle.h5_model.specs.Format.Superblock.{highest_k};

    ghost Value = { Kind };

    ghost view = { λ a. record { type_byte = a.type_byte; key_length = a.key_length; k = a.k } };

    ghost invariant = { λ a. (8 ≤ a.key_length) × (a.key_length ≤ 272) × (a.k ≤ highest_k) };

    ghost inverse = { λ d. record { type_byte = d.type_byte; key_length = d.key_length; k = d.k } };
}

impl NodeKind {
    /// The tree of a group. A key is the offset of a name in the group's heap. That K is at most 32767 is the caller's
    /// condition.
    pub fn group(k: u16) -> Self
        requires { k ≤ highest_k }
        ensures { result ≡ group_kind k }
    {
        NodeKind {
            type_byte: 0,
            key_length: 8,
            k,
        }
    }

    /// The tree of a dataset's chunks. A key has a size, a filter mask, and an offset for each dimension and for the
    /// element. That K is at most 32767, and that there are at most 32 dimensions, is the caller's condition.
    pub fn chunks(k: u16, rank: usize) -> Self
        requires k { k ≤ highest_k }
        requires rank { rank ≤ most_dimensions }
        ensures { result ≡ chunk_kind k rank }
    {
        NodeKind {
            type_byte: 1,
            key_length: 8 + 8 * (rank as u16 + 1),
            k,
        }
    }

    /// The byte that says of which kind a node is.
    pub fn type_byte(&self) -> u8
        ensures { result ≡ self.now.type_byte }
    {
        self.type_byte
    }

    /// How many bytes a key has.
    pub fn key_length(&self) -> usize
        ensures length { result ≡ self.now.key_length }
        ensures least { 8 ≤ result }
        ensures most { result ≤ 272 }
    {
        usize::from(self.key_length)
    }

    /// How many children a node has room for.
    pub fn capacity(&self) -> usize
        ensures capacity { result ≡ 2 * self.now.k }
        ensures most { result ≤ 65534 }
    {
        2 * usize::from(self.k)
    }

    /// How many bytes a node has.
    pub fn node_length(&self) -> usize
        ensures length { result ≡ length_of self.now }
        ensures few { self.now.k ≤ highest_k }
    {
        24 + self.key_length() + self.capacity() * (self.key_length() + 8)
    }
}
