//! A child put into a tree, where the tree stands (File Format Specification 3.0, section III.A.1).

ghost use Rattle.std.specs.Prelude.{◌≡◌, ◌≢◌, ◌↔◌, ℕ, ◌+◌, ◌*◌, ◌^◌, ◌<◌, ◌≤◌, List, [], ◌∷◌, Err, IsOk, OnErr, OnOk, length, if◌then◌else◌};
ghost use Rattle.std.specs.List.{AllByRecursion, insert};
ghost use Rattle.h5_model.specs.Format.Limits.{most_bytes};
ghost use Rattle.h5_model.specs.Format.Nodes.{node_at, node_length};
ghost use Rattle.h5_space.specs.Moves.{Spends};
ghost use Rattle.h5_space.specs.Space.{Space};
ghost use Rattle.h5_btree.specs.Insertion.{HasClimbed, IsChildPut, IsClimbing, IsEmptyTree, IsFullWay, IsPutAlong, IsTooDeep, KeepsEntries, Owns};
ghost use Rattle.h5_btree.specs.Rewritten.{IsRewritten};
ghost use Rattle.h5_btree.specs.Removal.{EndsInTree, EndsSomewhere};
ghost use Rattle.h5_btree.specs.declared.way.Step.{Step};

use crate::edit::{insert_child, set_key};
use crate::kind::NodeKind;
use crate::raise::raise;
use crate::read::node_there;
use crate::split::split;
use crate::way::{MOST_STEPS, Step, Way, is_full_way};
use h5_space::{Image, SpaceFault};

/// Puts a child into the tree in which a way ends, before the child there or behind it.
///
/// `keys` are the keys that come in with it, one for each level from 0 up as far as nodes are full, each before the child
/// that comes in there. A full node is split, into halves of K children at least, and its new half comes in above; a full
/// root stays where it is, over two new nodes, one level higher. That there is room for a node for each level and one
/// more, and that the root is not at level 15 where the whole way is full, are the caller's conditions. Takes no memory.
pub fn put_at(image: &mut Image, kind: NodeKind, way: &Way, behind: bool, keys: &[u8], child: u64)
    requires ends { EndsSomewhere image.old kind way.now }
    requires low { IsFullWay image.old.bytes kind way.now → length way.now < 16 }
    requires keys { length way.now * kind.key_length ≤ length keys.now }
    requires bytes { (length way.now + 1) * node_length kind ≤ image.old.room_bytes }
    requires blocks { length way.now + 1 ≤ image.old.room_blocks }
    requires short { length image.old.bytes + (length way.now + 1) * node_length kind < 2 ^ 64 }
    ensures put { (root level k : ℕ) (owned list : List ℕ)
        → EndsInTree image.old kind root level way.now owned list k
        → (height : ℕ) × (all : List ℕ) × IsChildPut image.old image.new kind root height
        (insert list (if behind then k + 1 else k) child) owned all }
    ensures along { (step : Step) (above : List Step) → way.now ≡ step ∷ above
        → IsPutAlong image.old.bytes image.new.bytes kind step.node above
        (if behind then step.place + 1 else step.place) keys.now child }
    ensures others { (root level k : ℕ) (owned list : List ℕ)
        → EndsInTree image.old kind root level way.now owned list k
        → (n : ℕ) → Owns owned n → AllByRecursion (λ (step : Step). n ≢ step.node) way.now
        → KeepsEntries image.old.bytes image.new.bytes kind n }
    ensures spends { Spends image.old image.new ((length way.now + 1) * node_length kind)
        (length way.now + 1) }
{
    if let Some((step, above)) = way.steps().split_first() {
        let place = if behind { step.place + 1 } else { step.place };
        climb(image, kind, step.node, above, place, keys, child);
    }
}

/// Why a child cannot come in.
#[derive(Clone, Copy, Debug, PartialEq, Eq)]
pub enum InsertFault {
    /// The root is at level 15, and would have to be raised.
    TreeTooDeep,
    /// There is no room for more nodes.
    Space(SpaceFault),
}

/// Puts a child into the tree in which a way ends, as `put_at`, and makes the room for that before its first change: a
/// node for each level and one more.
///
/// # Errors
///
/// `TreeTooDeep` exactly where the root is at level 15 and each node on the way has as many children as it has room for.
/// Else `Space` where the image would have more than 2147483648 bytes, or a growth is refused, which cannot be where the
/// room was reserved. A refusal changes nothing.
pub fn insert_at(
    image: &mut Image,
    kind: NodeKind,
    way: &Way,
    behind: bool,
    keys: &[u8],
    child: u64,
) -> Result<(), InsertFault>
    requires ends { EndsSomewhere image.old kind way.now }
    requires keys { length way.now * kind.key_length ≤ length keys.now }
    ensures put { OnOk result ((root level k : ℕ) (owned list : List ℕ)
        → EndsInTree image.old kind root level way.now owned list k
        → (height : ℕ) × (all : List ℕ) × IsChildPut image.old image.new kind root height
        (insert list (if behind then k + 1 else k) child) owned all) }
    ensures along { OnOk result ((step : Step) (above : List Step) → way.now ≡ step ∷ above
        → IsPutAlong image.old.bytes image.new.bytes kind step.node above
        (if behind then step.place + 1 else step.place) keys.now child) }
    ensures others { OnOk result ((root level k : ℕ) (owned list : List ℕ)
        → EndsInTree image.old kind root level way.now owned list k
        → (n : ℕ) → Owns owned n → AllByRecursion (λ (step : Step). n ≢ step.node) way.now
        → KeepsEntries image.old.bytes image.new.bytes kind n) }
    ensures deep { (result ≡ Err InsertFault.TreeTooDeep) ↔ IsTooDeep image.old.bytes kind way.now }
    ensures full { (result ≡ Err (InsertFault.Space SpaceFault.ImageFull))
        ↔ ((IsTooDeep image.old.bytes kind way.now → ⊥)
        × (most_bytes < length image.old.bytes + (length way.now + 1) * node_length kind)) }
    ensures err { OnErr result (image.new ≡ image.old) }
    ensures covered { (IsTooDeep image.old.bytes kind way.now → ⊥)
        → (length way.now + 1) * node_length kind ≤ image.old.room_bytes
        → length way.now + 1 ≤ image.old.room_blocks
        → length image.old.bytes + (length way.now + 1) * node_length kind ≤ most_bytes → IsOk result }
{
    let levels = way.steps().len();
    if levels == MOST_STEPS && is_full_way(image, kind, way) {
        return Err(InsertFault::TreeTooDeep);
    }
    let nodes = levels as u64 + 1;
    let reserved = image.reserve(nodes * kind.node_length() as u64, nodes);
    if let Err(fault) = reserved {
        return Err(InsertFault::Space(fault));
    }
    put_at(image, kind, way, behind, keys, child);
    Ok(())
}

/// Puts the first child into a tree without children, between two keys.
///
/// Takes no room and no memory.
pub fn put_first(image: &mut Image, kind: NodeKind, root: u64, low: &[u8], high: &[u8], child: u64)
    requires empty { (owned : List ℕ) × IsEmptyTree image.old kind root owned }
    requires some { 1 ≤ kind.k }
    requires low { length low.now ≡ kind.key_length }
    requires high { length high.now ≡ kind.key_length }
    ensures put { (owned : List ℕ) → IsEmptyTree image.old kind root owned
        → (all : List ℕ) × IsChildPut image.old image.new kind root 0 (child ∷ []) owned all }
    ensures node { IsRewritten image.old image.new kind root (record (node_at image.old.bytes kind root) {
      keys = low.now ∷ high.now ∷ [];
      children = child ∷ [];
    }) }
{
    insert_child(image, kind, root, 0, low, child);
    set_key(image, kind, root, 1, high);
}

/// Puts a child into a node at place `j`, and goes on with the steps above where the node is full.
fn climb(
    image: &mut Image,
    kind: NodeKind,
    node: u64,
    above: &[Step],
    j: usize,
    keys: &[u8],
    child: u64,
)
    requires climbs { HasClimbed image.old kind node above.now j child }
    requires some { 1 ≤ kind.k }
    requires keys { (length above.now + 1) * kind.key_length ≤ length keys.now }
    requires bytes { (length above.now + 2) * node_length kind ≤ image.old.room_bytes }
    requires blocks { length above.now + 2 ≤ image.old.room_blocks }
    requires short { length image.old.bytes + (length above.now + 2) * node_length kind < 2 ^ 64 }
    ensures put { (start : Space) (root m : ℕ) (list owned own : List ℕ)
        → IsClimbing start image.old kind root m node above.now j child list owned own
        → (height : ℕ) × (all : List ℕ) × IsChildPut start image.new kind root height list owned all }
    ensures along { IsPutAlong image.old.bytes image.new.bytes kind node above.now j keys.now child }
    ensures others { (start : Space) (root m : ℕ) (list owned own : List ℕ)
        → IsClimbing start image.old kind root m node above.now j child list owned own
        → (n : ℕ) → Owns own n → n ≢ node → AllByRecursion (λ (step : Step). n ≢ step.node) above.now
        → KeepsEntries image.old.bytes image.new.bytes kind n }
    ensures spends { Spends image.old image.new ((length above.now + 2) * node_length kind)
        (length above.now + 2) }
{
    let (key, higher_keys) = keys.split_at(kind.key_length());
    if node_there(image.bytes(), kind, node).len() < kind.capacity() {
        insert_child(image, kind, node, j, key, child);
        return;
    }
    let Some((next, higher)) = above.split_first() else {
        raise(image, kind, node, j, key, child);
        return;
    };
    let new = split(image, kind, node, j, key, child);
    climb(
        image,
        kind,
        next.node,
        higher,
        next.place + 1,
        higher_keys,
        new,
    );
}
