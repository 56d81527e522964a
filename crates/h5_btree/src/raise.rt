//! A root that is raised one level, since one child more comes in and it is full (File Format Specification 3.0, section
//! III.A.1).

ghost use Rattle.std.specs.Prelude.{◌≡◌, ◌≢◌, ℕ, suc, ◌+◌, ◌*◌, ◌^◌, ◌<◌, ◌≤◌, List, [], ◌∷◌, length, slice_index_or};
ghost use Rattle.h5_model.specs.Format.Limits.{highest_level};
ghost use Rattle.h5_model.specs.Format.Nodes.{IsNode, entries_in, node_at, node_bytes, node_length};
ghost use Rattle.h5_space.specs.Moves.{Spends};
ghost use Rattle.h5_space.specs.Space.{Space};
ghost use Rattle.h5_btree.specs.Insertion.{IsChildPut, IsClimbing, IsRootRaised, KeepsEntries, MayRaise, Owns};
ghost use Rattle.h5_btree.specs.Rewritten.{IsRewritten};

use crate::edit::{copy_node, keep_children, set_child, set_key, set_left, set_level, set_right};
use crate::halves::{keep_left, keep_right};
use crate::key_copy::KeyCopy;
use crate::kind::NodeKind;
use crate::read::node_there;
use crate::split::left_count;
use h5_space::Image;

/// Makes a root the one over two nodes of its level, with the first key of the left one, the key between them, and the
/// last key of the right one.
fn stand_over(image: &mut Image, kind: NodeKind, root: u64, left: u64, right: u64)
    requires root { root + node_length kind ≤ length image.old.bytes }
    requires root_form { IsNode kind (node_bytes image.old.bytes kind root) }
    requires some { 2 ≤ entries_in (node_bytes image.old.bytes kind root) }
    requires low { (node_at image.old.bytes kind root).level < highest_level }
    requires left { left + node_length kind ≤ length image.old.bytes }
    requires left_form { IsNode kind (node_bytes image.old.bytes kind left) }
    requires right { right + node_length kind ≤ length image.old.bytes }
    requires right_form { IsNode kind (node_bytes image.old.bytes kind right) }
    ensures { IsRewritten image.old image.new kind root (record (node_at image.old.bytes kind root) {
      level = suc (node_at image.old.bytes kind root).level;
      keys = slice_index_or (node_at image.old.bytes kind left).keys 0 []
          ∷ slice_index_or (node_at image.old.bytes kind right).keys 0 []
          ∷ slice_index_or (node_at image.old.bytes kind right).keys
          (length (node_at image.old.bytes kind right).children) [] ∷ [];
      children = left ∷ right ∷ [];
    }) }
{
    let level = node_there(image.bytes(), kind, root).level() + 1;
    let first = KeyCopy::of(node_there(image.bytes(), kind, left).key(0));
    let node = node_there(image.bytes(), kind, right);
    let between = KeyCopy::of(node.key(0));
    let last = KeyCopy::of(node.key(node.len()));
    keep_children(image, kind, root, 2);
    set_child(image, kind, root, 0, left);
    set_child(image, kind, root, 1, right);
    set_key(image, kind, root, 0, first.bytes());
    set_key(image, kind, root, 1, between.bytes());
    set_key(image, kind, root, 2, last.bytes());
    set_level(image, kind, root, level);
}

/// Raises a full root, where a child and the key before it come in at place `j`: its children, and the new one, go to two
/// new nodes, over which it stands then.
pub(crate) fn raise(image: &mut Image, kind: NodeKind, root: u64, j: usize, key: &[u8], child: u64)
    requires climbs { MayRaise image.old kind root j child }
    requires full { entries_in (node_bytes image.old.bytes kind root) ≡ 2 * kind.k }
    requires some { 1 ≤ kind.k }
    requires width { length key.now ≡ kind.key_length }
    requires bytes { 2 * node_length kind ≤ image.old.room_bytes }
    requires blocks { 2 ≤ image.old.room_blocks }
    ensures put { (start : Space) (m : ℕ) (list owned own : List ℕ)
        → IsClimbing start image.old kind root m root [] j child list owned own → m < highest_level
        → (all : List ℕ) × IsChildPut start image.new kind root (suc m) list owned all }
    ensures others { (start : Space) (m : ℕ) (list owned own : List ℕ)
        → IsClimbing start image.old kind root m root [] j child list owned own
        → (n : ℕ) → Owns own n → n ≢ root → KeepsEntries image.old.bytes image.new.bytes kind n }
    ensures raised { (left : ℕ) × (right : ℕ)
        × IsRootRaised image.old.bytes image.new.bytes kind root j key.now child left right }
    ensures spends { Spends image.old image.new (2 * node_length kind) 2 }
{
    let n = left_count(kind, j);
    let right = image.take(kind.node_length() as u64);
    let left = image.take(kind.node_length() as u64);
    copy_node(image, kind, root, left);
    keep_left(image, kind, left, n, j, key, child);
    set_right(image, kind, left, right);
    copy_node(image, kind, root, right);
    keep_right(image, kind, right, n, j, key, child);
    set_left(image, kind, right, left);
    stand_over(image, kind, root, left, right);
}
