//! What a tree is over (File Format Specification 3.0, sections III.A.1 and III.B).

ghost use Rattle.std.specs.Prelude.{◌≡◌, ℕ, ◌+◌, ◌<◌, ◌≤◌, List, length, slice_index_or, IfErr, OnOk};
ghost use Rattle.std.specs.List.{AllByRecursion};
ghost use Rattle.h5_bytes.specs.Blocks.{holds, cover, Separate};
ghost use Rattle.h5_model.specs.Format.Superblock.{IsSuperblock, highest_k};
ghost use Rattle.h5_btree.specs.Walk.Forms.{TreeForm, kind_of, leaf_length, IsKeyedAt};
ghost use Rattle.h5_btree.specs.Walk.Below.{IsBottom};
ghost use Rattle.h5_btree.specs.Walk.Refused.{IsLeafRefused};

use crate::kind::NodeKind;
use crate::node::Node;
use h5_model::OpenFault;
use h5_space::{Claims, Image};

/// The trees of one form: of groups, or of chunks of some shape.
pub trait Trees {
    /// The form of the trees.
    ghost form: { Self → TreeForm };

    /// The kind of their nodes.
    fn kind(&self, image: &Image) -> NodeKind
        requires long { 26 ≤ length image.now.bytes }
        requires few { (kind_of image.now.bytes (form self.now)).k ≤ highest_k }
        ensures { result ≡ kind_of image.now.bytes (form self.now) };
}

/// What the trees of one form are over: symbol nodes, or chunks.
pub trait Leaves: Trees {
    /// Claims what child `i` of a node of level 0 leads to. The node stands at the address `at`.
    ///
    /// # Errors
    ///
    /// - `ChunkKey`, at the node: key `i` is none that the leaf may have.
    /// - `Truncated`, `Overlap`, at the leaf: it passes the end, or shares a byte with a claimed block.
    /// - `NodeForm`, at the leaf: it has another form.
    /// - `NoMemory`: memory is refused.
    fn claim_leaf(
        &self,
        image: &Image,
        claims: &mut Claims,
        at: u64,
        node: &Node<'_>,
        i: usize,
    ) -> Result<(), OpenFault>
        requires end { claims.old.end ≡ length image.now.bytes }
        requires superblock { IsSuperblock image.now.bytes }
        requires keys { AllByRecursion (λ (key : List ℕ).
            length key ≡ (kind_of image.now.bytes (Self.form self.now)).key_length) node.now.keys }
        requires place { i < length node.now.children }
        requires more { i < length node.now.keys }
        ensures bottom { OnOk result (IsBottom image.now.bytes (Self.form self.now)
            (slice_index_or node.now.children i 0)) }
        ensures keyed { OnOk result (IsKeyedAt (Self.form self.now) node.now i) }
        ensures claimed { OnOk result
            ((p : ℕ)
            → cover p claims.new.held ≡ cover p claims.old.held
            + holds p (slice_index_or node.now.children i 0)
            (leaf_length image.now.bytes (Self.form self.now))) }
        ensures separate { OnOk result (Separate claims.new.held) }
        ensures end { claims.new.end ≡ claims.old.end }
        ensures refused { IfErr result (λ fault. IsLeafRefused image.now.bytes (Self.form self.now)
            claims.old.held at node.now i fault.cause fault.address) };
}
