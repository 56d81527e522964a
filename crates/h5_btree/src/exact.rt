//! Whether the keys of a group's tree are exact (File Format Specification 3.0, section III.A.1).

ghost use Rattle.std.specs.Prelude.{◌≡◌, ◌↔◌, ◌⊎◌, ◌<◌, ◌≤◌, ◌==◌, ◌&&◌, ℕ, List, [], IfNone, IfSome, IsTrue, None, Some, length, suc, if◌then◌else◌};
ghost use Rattle.h5_model.specs.Format.Nodes.{entries_in, node_at, node_bytes};
ghost use Rattle.h5_btree.specs.Exact.{AreKeysExact, IsExactBelow, IsBehindChild, IsKeyFirst, key_before};
ghost use Rattle.h5_btree.specs.Held.{IsNodeThere};
ghost use Rattle.h5_btree.specs.Retired.{IsLastOf, StandsUnder, keys_below};

use crate::kind::NodeKind;
use crate::read::node_there;
use crate::retirement::Hits;
use h5_space::Image;

/// Whether the keys of a group's tree are exact. The key behind each child is that of the last item below it, or the key
/// before the child, where there is none. The first key of each node that is not on the left edge of the tree is the
/// lowest key, or the key before the node in the one above.
///
/// Takes no memory, and looks at each node and at each child at the bottom once.
pub fn are_keys_exact<R: Hits>(image: &Image, kind: NodeKind, root: u64, how: &R) -> bool
    requires under { StandsUnder (R.stands how.now image.now.bytes) image.now.bytes kind
        (suc (node_at image.now.bytes kind root).level) root }
    requires width { kind.key_length ≡ 8 }
    ensures { IsTrue result ↔ AreKeysExact (λ k. ⊥) (R.keys_at how.now image.now.bytes)
        (node_at image.now.bytes kind) (node_at image.now.bytes kind root).level root }
{
    let level = node_there(image.bytes(), kind, root).level();
    exact_below(image, kind, u16::from(level) + 1, root, None, how).is_some()
}

/// The key of the last item that stands so many levels below an address, where all keys there are exact: `None` if one
/// is not. This is the key before what stands there, if it is not on the left edge of the tree.
fn exact_below<R: Hits>(
    image: &Image,
    kind: NodeKind,
    height: u16,
    at: u64,
    before: Option<[u8; 8]>,
    how: &R,
) -> Option<Option<[u8; 8]>>
    requires under { StandsUnder (R.stands how.now image.now.bytes) image.now.bytes kind height at }
    requires width { kind.key_length ≡ 8 }
    ensures last { IfSome result (IsLastOf (keys_below (node_at image.now.bytes kind)
        (R.keys_at how.now image.now.bytes) height at)) }
    ensures exact { IfSome result (λ last. IsExactBelow (node_at image.now.bytes kind)
        (R.keys_at how.now image.now.bytes) height before at) }
    ensures other { IfNone result (IsExactBelow (node_at image.now.bytes kind)
        (R.keys_at how.now image.now.bytes) height before at → ⊥) }
{
    if height == 0 {
        return Some(how.last_key(image, at));
    }
    let node = node_there(image.bytes(), kind, at);
    if !is_first(before, node.key(0)) {
        return None;
    }
    let mut last = None;
    for i in 0..node.len() {
        let key = before_child(before, i, node.key(i));
        let below = exact_below(image, kind, height - 1, node.child(i), key, how)?;
        if !is_behind(node.key(i), below, node.key(i + 1)) {
            return None;
        }
        last = below.or(last);
    }
    Some(last)
}

/// Whether this may be the first key of a node before which this key stands.
fn is_first(before: Option<[u8; 8]>, key: &[u8]) -> bool
    ensures { IsTrue result ↔ IsKeyFirst before key.now }
{
    match before {
        Some(before) => key == [0; 8].as_slice() || key == before.as_slice(),
        None => true,
    }
}

/// The key before child `i` of a node, which stands behind this key, if the child is not on the left edge of the tree.
fn before_child(before: Option<[u8; 8]>, i: usize, key: &[u8]) -> Option<[u8; 8]>
    requires { length key.now ≡ 8 }
    ensures { result ≡ key_before before i key.now }
{
    if i == 0 && before.is_none() {
        return None;
    }
    let mut copy = [0; 8];
    copy.copy_from_slice(key);
    Some(copy)
}

/// Whether this key stands behind a child, where this is the key of the last item below the child.
fn is_behind(before: &[u8], last: Option<[u8; 8]>, key: &[u8]) -> bool
    ensures { IsTrue result ↔ IsBehindChild before.now last key.now }
{
    match last {
        Some(last) => key == last.as_slice(),
        None => key == before,
    }
}
