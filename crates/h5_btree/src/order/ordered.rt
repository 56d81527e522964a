//! How the keys of trees of one form are ordered (File Format Specification 3.0, section III.A.1).

ghost use Rattle.std.specs.Prelude.{◌≡◌, ◌↔◌, ℕ, IsTrue, List, length};
ghost use Rattle.std.specs.List.{AllByRecursion};
ghost use Rattle.h5_model.specs.Format.Rows.{Node};
ghost use Rattle.h5_model.specs.Format.Superblock.{IsSuperblock};
ghost use Rattle.h5_laws.specs.Ladders.{Bottom, IsOrderedBy, LieBetween, Sides, all_of};
ghost use Rattle.h5_btree.specs.Walk.Below.{IsBottom, reading_in};
ghost use Rattle.h5_btree.specs.Walk.Forms.{kind_of};

use crate::node::Node;
use crate::walk::Trees;
use h5_space::Image;

/// How the keys of the trees of one form are ordered, and what stands between them.
///
/// Nodes are those of trees that were read, as they stand in the image. No call takes memory.
pub trait Ordered: Trees {
    /// What stands between keys: names, or chunks.
    ghost Item: { Type 0 };

    /// What may stand on the two sides of a key, and which key may be the next one.
    ghost sides: { Self → Sides (List ℕ) Item };

    /// What stands at each child of a node of level 0.
    ghost bottom: { Self → List ℕ → Bottom Item };

    /// What is known of a node of level 0 before its keys are looked at: names in ascending order need no
    /// comparison of each with a key.
    ghost known: { Self → List ℕ → Node → Type 0 };

    /// Whether what stands at each child of a node of level 0 is between the keys around it, each of which may be the
    /// next one.
    fn is_ordered(&self, image: &Image, node: &Node<'_>) -> bool
        requires superblock { IsSuperblock image.now.bytes }
        requires level { node.now.level ≡ 0 }
        requires keys { AllByRecursion (λ (key : List ℕ).
            length key ≡ (kind_of image.now.bytes (Self.form self.now)).key_length) node.now.keys }
        requires leaves { AllByRecursion (IsBottom image.now.bytes (Self.form self.now)) node.now.children }
        requires known { known self.now image.now.bytes node.now }
        ensures { IsTrue result ↔ IsOrderedBy (sides self.now)
            (reading_in image.now.bytes (Self.form self.now)) (bottom self.now image.now.bytes) node.now };

    /// Whether what stands at the children of a node of level 0 is between two keys.
    fn lie_between(&self, image: &Image, node: &Node<'_>, low: &[u8], high: &[u8]) -> bool
        requires superblock { IsSuperblock image.now.bytes }
        requires keys { AllByRecursion (λ (key : List ℕ).
            length key ≡ (kind_of image.now.bytes (Self.form self.now)).key_length) node.now.keys }
        requires leaves { AllByRecursion (IsBottom image.now.bytes (Self.form self.now)) node.now.children }
        requires known { known self.now image.now.bytes node.now }
        requires low { length low.now ≡ (kind_of image.now.bytes (Self.form self.now)).key_length }
        requires high { length high.now ≡ (kind_of image.now.bytes (Self.form self.now)).key_length }
        ensures { IsTrue result ↔ LieBetween (sides self.now) low.now high.now
            (all_of (bottom self.now image.now.bytes node.now)) };

    /// Whether a key may be the next one behind another.
    fn may_follow(&self, image: &Image, key: &[u8], next: &[u8]) -> bool
        requires key { length key.now ≡ (kind_of image.now.bytes (Self.form self.now)).key_length }
        requires next { length next.now ≡ (kind_of image.now.bytes (Self.form self.now)).key_length }
        ensures { IsTrue result ↔ (sides self.now).Rise key.now next.now };
}
