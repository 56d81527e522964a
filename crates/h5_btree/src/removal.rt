//! A child taken out of a tree, where the tree stands (File Format Specification 3.0, section III.A.1).

ghost use Rattle.std.specs.Prelude.{◌≡◌, ◌↔◌, ℕ, ◌+◌, ◌-◌, ◌<◌, ◌≤◌, List, ◌∷◌, Err, IsOk, OnErr, OnOk, length};
ghost use Rattle.std.specs.List.{remove};
ghost use Rattle.h5_model.specs.Format.Limits.{most_bytes};
ghost use Rattle.h5_model.specs.Format.Nodes.{IsNode, entries_in, node_at, node_bytes, node_length};
ghost use Rattle.h5_space.specs.Moves.{Spends};
ghost use Rattle.h5_space.specs.Space.{Space};
ghost use Rattle.h5_btree.specs.Rewritten.{IsRewritten};
ghost use Rattle.h5_btree.specs.Removal.{EndsInTree, EndsSomewhere, HasShrunk, IsShrinking, IsTakenAlong};

use crate::edit::{remove_child, set_level};
use crate::kind::NodeKind;
use crate::neighbours::{name_left, name_right};
use crate::read::node_there;
use crate::way::{Step, Way};
use h5_space::{Image, SpaceFault};

/// Takes the child at the end of a way out of its tree, and the key before it.
///
/// A node that is left without children is given back, and its neighbours name each other. The root stays where it is,
/// and where it has no children it is at level 0. Takes no memory.
///
/// That the way ends in a tree that shares no byte with a free block, and that there is room for a call for each node
/// below the root, are the caller's conditions.
pub fn take_from(image: &mut Image, kind: NodeKind, way: &Way)
    requires ends { EndsSomewhere image.old kind way.now }
    requires room { length way.now ≤ image.old.room_blocks + 1 }
    ensures taken { (root level k : ℕ) (owned list : List ℕ)
        → EndsInTree image.old kind root level way.now owned list k
        → IsTakenAlong image.old image.new kind root way.now (remove list k) owned }
    ensures spends { Spends image.old image.new 0 (length way.now - 1) }
{
    if let Some((step, above)) = way.steps().split_first() {
        take_along(image, kind, *step, above);
    }
}

/// Takes the child at the end of a way out of its tree, as [`take_from`], and makes the room for that before its first
/// change. The image keeps its length.
///
/// That the way ends in a tree that shares no byte with a free block is the caller's condition.
///
/// # Errors
///
/// `ImageFull`: the image has more than 2147483648 bytes. Else `NoMemory`, but never where the room is there already. A
/// refusal changes nothing.
pub fn remove_at(image: &mut Image, kind: NodeKind, way: &Way) -> Result<(), SpaceFault>
    requires ends { EndsSomewhere image.old kind way.now }
    ensures taken { OnOk result ((root level k : ℕ) (owned list : List ℕ)
        → EndsInTree image.old kind root level way.now owned list k
        → IsTakenAlong image.old image.new kind root way.now (remove list k) owned) }
    ensures long { OnOk result (length image.new.bytes ≡ length image.old.bytes) }
    ensures full { (result ≡ Err SpaceFault.ImageFull) ↔ (most_bytes < length image.old.bytes) }
    ensures err { OnErr result (image.new ≡ image.old) }
    ensures covered { length way.now ≤ image.old.room_blocks + 1 → length image.old.bytes ≤ most_bytes
        → IsOk result }
{
    image.reserve(0, way.steps().len() as u64 - 1)?;
    take_from(image, kind, way);
    Ok(())
}

/// Takes the child at this step out, and goes on with the steps above where its node is left without children.
fn take_along(image: &mut Image, kind: NodeKind, step: Step, above: &[Step])
    requires shrunk { HasShrunk image.old kind step above.now }
    requires room { length above.now ≤ image.old.room_blocks }
    ensures taken { (start : Space) (root m : ℕ) (list owned own : List ℕ)
        → IsShrinking start image.old kind root m step.node above.now step.place list owned own
        → IsTakenAlong start image.new kind root (step ∷ above.now) list owned }
    ensures spends { Spends image.old image.new 0 (length above.now) }
{
    let node = node_there(image.bytes(), kind, step.node);
    if node.len() > 1 {
        remove_child(image, kind, step.node, step.place);
        return;
    }
    let (left, right) = (node.left(), node.right());
    let Some((next, higher)) = above.split_first() else {
        empty_root(image, kind, step);
        return;
    };
    name_right(image, kind, left, right);
    name_left(image, kind, right, left);
    image.give(step.node, kind.node_length() as u64);
    take_along(image, kind, *next, higher);
}

/// Takes the child at this step out of a root, which then is at level 0.
fn empty_root(image: &mut Image, kind: NodeKind, step: Step)
    requires inside { step.node + node_length kind ≤ length image.old.bytes }
    requires form { IsNode kind (node_bytes image.old.bytes kind step.node) }
    requires place { step.place < entries_in (node_bytes image.old.bytes kind step.node) }
    ensures { IsRewritten image.old image.new kind step.node
        (record (node_at image.old.bytes kind step.node) {
          level = 0;
          keys = remove (node_at image.old.bytes kind step.node).keys step.place;
          children = remove (node_at image.old.bytes kind step.node).children step.place;
        }) }
{
    remove_child(image, kind, step.node, step.place);
    set_level(image, kind, step.node, 0);
}
