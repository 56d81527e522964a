//! Keys of a group's tree that give way to others, where the tree stands (File Format Specification 3.0, section
//! III.A.1).

ghost use Rattle.std.specs.Prelude.{◌≡◌, ℕ, ◌+◌, ◌<◌, ◌≤◌, ◌==◌, ◌&&◌, ◌||◌, Bool, true, List, [], length, map, slice_get, slice_index_or, slice_set, suc};
ghost use Rattle.std.specs.List.{list_any};
ghost use Rattle.h5_model.specs.Format.Nodes.{entries_in, node_at, node_bytes};
ghost use Rattle.h5_space.specs.Moves.{Spends};
ghost use Rattle.h5_space.specs.Space.{Space};
ghost use Rattle.h5_btree.specs.Held.{IsNodeThere};
ghost use Rattle.h5_btree.specs.Rewritten.{IsRewritten};
ghost use Rattle.h5_btree.specs.Looked.{AreHitsLooked, IsLookedBelow, LooksSomewhere, goes_on, looks_below, steps_of};
ghost use Rattle.h5_btree.specs.Retired.{AreRetiredBelow, IsKeyBefore, IsKeyRetired, IsLastOf, IsNodeRewritten, IsRetirable, IsRetirableSomewhere, IsRetiring, IsTreeRetired, IsSubtree, KeepsRetired, StandsSomewhere, StandsUnder, keys_below};

use crate::edit::set_key;
use crate::kind::NodeKind;
use crate::node::Node;
use crate::read::node_there;
use crate::way::Step;
use h5_space::Image;

/// Which keys of a group's tree give way, and what stands at the children at its bottom, to whose last keys they do.
pub trait Hits {
    /// Whether a key gives way.
    ghost hit: { Self → List ℕ → Bool };

    /// What stands at the address of a child at the bottom, in these bytes of an image, has its form.
    ghost stands: { Self → List ℕ → ℕ → Type 0 };

    /// The keys of its items, from left to right.
    ghost keys_at: { Self → List ℕ → ℕ → List (List ℕ) };

    /// Whether a key gives way.
    fn is_hit(&self, key: &[u8]) -> bool
        requires { length key.now ≡ 8 }
        ensures { result ≡ hit self.now key.now };

    /// The key of the last item at a child at the bottom, if there is one. Takes no memory.
    fn last_key(&self, image: &Image, child: u64) -> Option<[u8; 8]>
        requires { stands self.now image.now.bytes child }
        ensures { IsLastOf (keys_at self.now image.now.bytes child) result };
}

/// Where keys that are hit are looked for.
#[derive(Clone, Copy)]
pub enum Look<'a> {
    /// In each node.
    Everywhere,
    /// In the root, in the nodes on a way, whose steps from level 0 up these are, on the left edge of the tree, and below
    /// each child before which a key is hit.
    Along(&'a [Step]),
}

/// Lets each key of a group's tree that is hit give way: the first key of a node to the lowest key, of zeros, and each
/// other one to the key of the last item below the child before it, or, where there is none, to the key before it.
///
/// So none of the keys is hit any more. The tree has the same nodes and children. Takes no room and no memory. Looks at
/// the nodes that `look` tells alone: at each key once, once more to see whether to look below the child behind it, and
/// once more where one of its node gives way; and goes down from the node once for each key that does.
///
/// That the tree shares no byte with a free block, that what stands at its bottom stays where nodes of the tree alone
/// change, that neither the lowest key nor that of an item is hit, and that no key is hit below a child that is not
/// looked at, are the caller's conditions.
pub fn retire<R: Hits>(image: &mut Image, kind: NodeKind, root: u64, how: &R, look: Look<'_>)
    requires tree { IsRetirableSomewhere (R.hit how.now) (R.stands how.now) (R.keys_at how.now)
        image.old kind root }
    requires looked { AreHitsLooked (R.hit how.now) (node_at image.old.bytes kind) (steps_of look)
        (suc (node_at image.old.bytes kind root).level) true root }
    ensures retired { (level : ℕ) (owned list : List ℕ)
        → IsRetirable (R.hit how.now) (R.stands how.now) (R.keys_at how.now)
        image.old kind root level owned list
        → IsTreeRetired (R.hit how.now) (R.keys_at how.now) image.old image.new kind root level
        owned list }
    ensures spends { Spends image.old image.new 0 0 }
{
    let level = node_there(image.bytes(), kind, root).level();
    retire_below(image, &kind, level, root, how, look, true);
}

/// The same below a node of this level, and of the node itself. The nodes below come first, since the keys of the node say
/// where to look.
fn retire_below<R: Hits>(
    image: &mut Image,
    kind: &NodeKind,
    level: u8,
    at: u64,
    how: &R,
    look: Look<'_>,
    edge: bool,
)
    requires stands { LooksSomewhere (R.hit how.now) (R.stands how.now) (R.keys_at how.now)
        image.old kind.now (steps_of look) level edge at }
    ensures retired { (start : Space) (root height : ℕ) (owned list : List ℕ)
        → IsRetiring (R.hit how.now) (R.stands how.now) (R.keys_at how.now)
        start image.old kind.now root height owned list
        → IsSubtree (node_at start.bytes kind.now) owned list (suc level) at
        → IsLookedBelow (R.hit how.now) (R.keys_at how.now) start image.old kind.now
        (steps_of look.entry) (suc level) edge at
        → IsRetiring (R.hit how.now) (R.stands how.now) (R.keys_at how.now)
        start image.new kind.now root height owned list }
    ensures below { (start : Space) (root height : ℕ) (owned list : List ℕ)
        → IsRetiring (R.hit how.now) (R.stands how.now) (R.keys_at how.now)
        start image.old kind.now root height owned list
        → IsSubtree (node_at start.bytes kind.now) owned list (suc level) at
        → IsLookedBelow (R.hit how.now) (R.keys_at how.now) start image.old kind.now
        (steps_of look.entry) (suc level) edge at
        → AreRetiredBelow (R.hit how.now) (R.keys_at how.now) start image.new kind.now (suc level) at }
    ensures kept { (start : Space) (root height : ℕ) (owned list : List ℕ)
        → IsRetiring (R.hit how.now) (R.stands how.now) (R.keys_at how.now)
        start image.old kind.now root height owned list
        → IsSubtree (node_at start.bytes kind.now) owned list (suc level) at
        → IsLookedBelow (R.hit how.now) (R.keys_at how.now) start image.old kind.now
        (steps_of look.entry) (suc level) edge at
        → KeepsRetired (R.hit how.now) (R.keys_at how.now) start image.old image.new kind.now owned }
    ensures spends { Spends image.old image.new 0 0 }
{
    for i in 0..nodes_below(image.bytes(), *kind, level, at) {
        let node = node_there(image.bytes(), *kind, at);
        let child = node.child(i);
        let edge = keeps_edge(edge, i);
        if looks(&node, level, at, i, how, look, edge) {
            retire_below(image, kind, level - 1, child, how, look, edge);
        }
    }
    retire_keys(image, *kind, level, at, how);
}

/// How many children of a node of this level are nodes.
fn nodes_below(image: &[u8], kind: NodeKind, level: u8, at: u64) -> usize
    requires node { IsNodeThere image.now kind at }
    ensures above { 1 ≤ level → result ≡ length (node_at image.now kind at).children }
    ensures bottom { level ≡ 0 → result ≡ 0 }
{
    if level == 0 {
        return 0;
    }
    node_there(image, kind, at).len()
}

/// Whether child `i` of a node is on the left edge of the tree: the first child of a node on it is.
fn keeps_edge(edge: bool, i: usize) -> bool
    ensures { result ≡ (edge && (i == 0)) }
{
    edge && i == 0
}

/// Whether to look below child `i` of a node of this level. The child is on the left edge of the tree or not.
fn looks<R: Hits>(
    node: &Node<'_>,
    level: u8,
    at: u64,
    i: usize,
    how: &R,
    look: Look<'_>,
    edge: bool,
) -> bool
    requires place { i < length node.now.keys }
    requires width { length (slice_index_or node.now.keys i []) ≡ 8 }
    ensures { result ≡ (edge || looks_below (R.hit how.now) (steps_of look.entry) level at
        node.now.keys i) }
{
    let Look::Along(way) = look else {
        return true;
    };
    if edge || how.is_hit(node.key(i)) {
        return true;
    }
    goes_on(way, level, at, i)
}

/// Whether a way goes on from the node of this level at this address to its child `i`.
fn goes_on(way: &[Step], level: u8, at: u64, i: usize) -> bool
    ensures { result ≡ goes_on (slice_get way.now level) at i }
{
    match way.get(usize::from(level)) {
        Some(step) => step.node == at && step.place == i,
        None => false,
    }
}

/// Lets each key of a node that is hit give way.
fn retire_keys<R: Hits>(image: &mut Image, kind: NodeKind, level: u8, at: u64, how: &R)
    requires stands { StandsSomewhere (R.hit how.now) (R.stands how.now) (R.keys_at how.now)
        image.old kind level at }
    ensures { IsNodeRewritten (R.hit how.now) (R.keys_at how.now) image.old image.new kind level at }
{
    if has_hit(image.bytes(), kind, at, how) {
        for i in 0..node_there(image.bytes(), kind, at).len() + 1 {
            retire_key(image, kind, level, at, i, how);
        }
    }
}

/// Whether a key of a node is hit. Few nodes have such a key, so that the keys of most are looked at here alone. There is
/// no way out at the first hit, since a branch for each key would take longer than the look at all.
fn has_hit<R: Hits>(image: &[u8], kind: NodeKind, at: u64, how: &R) -> bool
    requires node { IsNodeThere image.now kind at }
    requires width { kind.key_length ≡ 8 }
    ensures { result ≡ list_any (R.hit how.now) (node_at image.now kind at).keys }
{
    let node = node_there(image, kind, at);
    let mut hit = false;
    for i in 0..node.len() + 1 {
        hit |= how.is_hit(node.key(i));
    }
    hit
}

/// Lets key `i` of a node give way, if it is hit.
fn retire_key<R: Hits>(image: &mut Image, kind: NodeKind, level: u8, at: u64, i: usize, how: &R)
    requires width { kind.key_length ≡ 8 }
    requires under { StandsUnder (R.stands how.now image.old.bytes) image.old.bytes kind (suc level) at }
    requires place { i ≤ entries_in (node_bytes image.old.bytes kind at) }
    ensures { (key : List ℕ)
        × IsKeyRetired (R.hit how.now) (map (keys_below (node_at image.old.bytes kind)
        (R.keys_at how.now image.old.bytes) level) (node_at image.old.bytes kind at).children)
        (node_at image.old.bytes kind at).keys i key
        × IsRewritten image.old image.new kind at (record (node_at image.old.bytes kind at) {
          keys = slice_set (node_at image.old.bytes kind at).keys i key;
        }) }
{
    let node = node_there(image.bytes(), kind, at);
    if how.is_hit(node.key(i)) {
        let key = key_before(image, kind, level, at, i, how);
        set_key(image, kind, at, i, &key);
    }
}

/// The key to which key `i` of a node gives way.
fn key_before<R: Hits>(
    image: &Image,
    kind: NodeKind,
    level: u8,
    at: u64,
    i: usize,
    how: &R,
) -> [u8; 8]
    requires width { kind.key_length ≡ 8 }
    requires under { StandsUnder (R.stands how.now image.now.bytes) image.now.bytes kind (suc level) at }
    requires place { i ≤ entries_in (node_bytes image.now.bytes kind at) }
    ensures before { IsKeyBefore (map (keys_below (node_at image.now.bytes kind)
        (R.keys_at how.now image.now.bytes) level) (node_at image.now.bytes kind at).children)
        (node_at image.now.bytes kind at).keys i result }
{
    let mut key = [0; 8];
    if i == 0 {
        return key;
    }
    let node = node_there(image.bytes(), kind, at);
    if let Some(last) = last_key_below(image, kind, level, node.child(i - 1), how) {
        return last;
    }
    key.copy_from_slice(node.key(i - 1));
    key
}

/// The key of the last item that stands so many levels below an address, if there is one: at height 0 that of what
/// stands there itself.
fn last_key_below<R: Hits>(
    image: &Image,
    kind: NodeKind,
    height: u8,
    at: u64,
    how: &R,
) -> Option<[u8; 8]>
    requires under { StandsUnder (R.stands how.now image.now.bytes) image.now.bytes kind height at }
    ensures { IsLastOf (keys_below (node_at image.now.bytes kind)
        (R.keys_at how.now image.now.bytes) height at) result }
{
    if height == 0 {
        return how.last_key(image, at);
    }
    let node = node_there(image.bytes(), kind, at);
    let mut i = node.len();
    while i > 0 {
        i -= 1;
        let found = last_key_below(image, kind, height - 1, node.child(i), how);
        if found.is_some() {
            return found;
        }
    }
    None
}
