//! The keys that come in along a way, with a child (File Format Specification 3.0, section III.A.1).

ghost use Rattle.std.specs.Prelude.{◌≡◌, ℕ, ◌+◌, ◌*◌, ◌^◌, ◌<◌, ◌≤◌, Bool, List, [], ◌∷◌, drop, length, slice_index_or, take, if◌then◌else◌};
ghost use Rattle.std.specs.List.{AllByRecursion, insert};
ghost use Rattle.h5_model.specs.Format.Nodes.{entries_in, node_at, node_bytes};
ghost use Rattle.h5_btree.specs.Held.{AreHeldKeys, IsNodeThere, IsStepThere, held_key};
ghost use Rattle.h5_btree.specs.Insertion.{left_count as count_left};
ghost use Rattle.h5_btree.specs.Removal.{EndsSomewhere};
ghost use Rattle.h5_btree.specs.declared.way.Step.{Step};

use crate::kind::NodeKind;
use crate::node::Node;
use crate::read::node_there;
use crate::split::left_count;
use crate::way::{Step, Way};
use h5_space::Image;

/// Which key may follow which, in the trees of one kind.
pub trait Follows {
    /// Whether a key may be the next one behind another.
    ghost follows: { Self → List ℕ → List ℕ → Bool };

    /// Whether a key may be the next one behind another.
    fn may_follow(&self, key: &[u8], next: &[u8]) -> bool
        requires key { 8 ≤ length key.now }
        requires next { 8 ≤ length next.now }
        ensures { result ≡ follows self.now key.now next.now };
}

/// Writes the keys that come in along a way with a child, for `put_at`: behind the first of them, which is there, the
/// key for each further level as far as nodes are full.
///
/// That is the key between the halves of the node below, held between the two keys that are around its place: where it
/// may not follow the first of them it is that one, and where the second may not follow it, it is the second. Takes no
/// memory.
pub fn hold_keys<F: Follows>(
    image: &Image,
    kind: NodeKind,
    follows: &F,
    way: &Way,
    behind: bool,
    keys: &mut [u8],
)
    requires ends { EndsSomewhere image.now kind way.now }
    requires keys { length way.now * kind.key_length ≤ length keys.old }
    ensures first { take kind.key_length keys.new ≡ take kind.key_length keys.old }
    ensures held { (step : Step) (above : List Step) → way.now ≡ step ∷ above
        → AreHeldKeys image.now.bytes kind (F.follows follows.now) step.node above
        (if behind then step.place + 1 else step.place) keys.new }
{
    if let Some((step, above)) = way.steps().split_first() {
        let place = if behind { step.place + 1 } else { step.place };
        hold_above(image, kind, follows, step.node, above, place, keys);
    }
}

/// The same from a node on, where a child comes in at place `j`.
fn hold_above<F: Follows>(
    image: &Image,
    kind: NodeKind,
    follows: &F,
    node: u64,
    above: &[Step],
    j: usize,
    keys: &mut [u8],
)
    requires node { IsNodeThere image.now.bytes kind node }
    requires place { j ≤ entries_in (node_bytes image.now.bytes kind node) }
    requires above { AllByRecursion (IsStepThere image.now.bytes kind) above.now }
    requires some { 1 ≤ kind.k }
    requires keys { (length above.now + 1) * kind.key_length ≤ length keys.old }
    ensures first { take kind.key_length keys.new ≡ take kind.key_length keys.old }
    ensures held { AreHeldKeys image.now.bytes kind (F.follows follows.now) node above.now j keys.new }
{
    let Some((next, higher)) = above.split_first() else {
        return;
    };
    let full = node_there(image.bytes(), kind, node);
    if full.len() < kind.capacity() {
        return;
    }
    let parent = node_there(image.bytes(), kind, next.node);
    let low = parent.key(next.place);
    let high = parent.key(next.place + 1);
    let (first, rest) = keys.split_at_mut(kind.key_length());
    let key = held(follows, low, between(kind, &full, j, first), high);
    rest[..kind.key_length()].copy_from_slice(key);
    hold_above(
        image,
        kind,
        follows,
        next.node,
        higher,
        next.place + 1,
        rest,
    );
}

/// A key held between two others.
fn held<'a, F: Follows>(follows: &F, low: &'a [u8], key: &'a [u8], high: &'a [u8]) -> &'a [u8]
    requires low { 8 ≤ length low.now }
    requires key { 8 ≤ length key.now }
    requires high { 8 ≤ length high.now }
    ensures { result.now ≡ held_key (F.follows follows.now) low.now key.now high.now }
{
    if !follows.may_follow(low, key) {
        return low;
    }
    if !follows.may_follow(key, high) {
        return high;
    }
    key
}

/// The key between the halves of a full node, where a key more comes in at place `j`.
fn between<'a>(kind: NodeKind, node: &Node<'a>, j: usize, key: &'a [u8]) -> &'a [u8]
    requires full { length node.now.children ≡ 2 * kind.k }
    requires keys { length node.now.keys ≡ 2 * kind.k + 1 }
    requires some { 1 ≤ kind.k }
    requires place { j ≤ 2 * kind.k }
    ensures { result.now ≡ slice_index_or (insert node.now.keys j key.now) (count_left kind.k j) [] }
{
    let n = left_count(kind, j);
    if j < n {
        return node.key(n - 1);
    }
    if j == n {
        return key;
    }
    node.key(n)
}
