//! Nodes edited where they stand (File Format Specification 3.0, section III.A.1).
//!
//! Each call changes one node: its level, one of its keys, children or siblings, or it puts children in or takes them
//! out. No other byte of the image changes, and no call takes memory.

ghost use Rattle.std.specs.Prelude.{◌≡◌, ◌+◌, ◌*◌, ◌^◌, ◌<◌, ◌≤◌, drop, length, slice_set, take};
ghost use Rattle.std.specs.List.{insert, remove};
ghost use Rattle.h5_model.specs.Format.Nodes.{IsNode, entries_in, node_at, node_bytes, node_length};
ghost use Rattle.h5_btree.specs.Rewritten.{IsRewritten};

use crate::kind::NodeKind;
use crate::written::{
    drop_front, keep_front, put_child, put_child_in, put_key, put_left, put_level, put_right,
    take_child_out,
};
use h5_space::Image;

/// Writes another level.
pub fn set_level(image: &mut Image, kind: NodeKind, at: u64, level: u8)
    requires inside { at + node_length kind ≤ length image.old.bytes }
    requires form { IsNode kind (node_bytes image.old.bytes kind at) }
    ensures { IsRewritten image.old image.new kind at (record (node_at image.old.bytes kind at) {
      level = level;
    }) }
{
    let bytes = image.part_at_mut(at, kind.node_length() as u64);
    put_level(kind, bytes, level);
}

/// Writes the address of another left sibling.
pub fn set_left(image: &mut Image, kind: NodeKind, at: u64, left: u64)
    requires inside { at + node_length kind ≤ length image.old.bytes }
    requires form { IsNode kind (node_bytes image.old.bytes kind at) }
    ensures { IsRewritten image.old image.new kind at (record (node_at image.old.bytes kind at) {
      left = left;
    }) }
{
    let bytes = image.part_at_mut(at, kind.node_length() as u64);
    put_left(kind, bytes, left);
}

/// Writes the address of another right sibling.
pub fn set_right(image: &mut Image, kind: NodeKind, at: u64, right: u64)
    requires inside { at + node_length kind ≤ length image.old.bytes }
    requires form { IsNode kind (node_bytes image.old.bytes kind at) }
    ensures { IsRewritten image.old image.new kind at (record (node_at image.old.bytes kind at) {
      right = right;
    }) }
{
    let bytes = image.part_at_mut(at, kind.node_length() as u64);
    put_right(kind, bytes, right);
}

/// Writes the bytes of another key, at index `i`.
pub fn set_key(image: &mut Image, kind: NodeKind, at: u64, i: usize, key: &[u8])
    requires inside { at + node_length kind ≤ length image.old.bytes }
    requires form { IsNode kind (node_bytes image.old.bytes kind at) }
    requires place { i ≤ entries_in (node_bytes image.old.bytes kind at) }
    requires width { length key.now ≡ kind.key_length }
    ensures { IsRewritten image.old image.new kind at (record (node_at image.old.bytes kind at) {
      keys = slice_set (node_at image.old.bytes kind at).keys i key.now;
    }) }
{
    let bytes = image.part_at_mut(at, kind.node_length() as u64);
    put_key(kind, bytes, i, key);
}

/// Writes the address of another child, at index `i`.
pub fn set_child(image: &mut Image, kind: NodeKind, at: u64, i: usize, child: u64)
    requires inside { at + node_length kind ≤ length image.old.bytes }
    requires form { IsNode kind (node_bytes image.old.bytes kind at) }
    requires place { i < entries_in (node_bytes image.old.bytes kind at) }
    ensures { IsRewritten image.old image.new kind at (record (node_at image.old.bytes kind at) {
      children = slice_set (node_at image.old.bytes kind at).children i child;
    }) }
{
    let bytes = image.part_at_mut(at, kind.node_length() as u64);
    put_child(kind, bytes, i, child);
}

/// Puts a child in at index `j`, and a key before it. Those from there on move one place.
pub fn insert_child(image: &mut Image, kind: NodeKind, at: u64, j: usize, key: &[u8], child: u64)
    requires inside { at + node_length kind ≤ length image.old.bytes }
    requires form { IsNode kind (node_bytes image.old.bytes kind at) }
    requires place { j ≤ entries_in (node_bytes image.old.bytes kind at) }
    requires room { entries_in (node_bytes image.old.bytes kind at) < 2 * kind.k }
    requires width { length key.now ≡ kind.key_length }
    ensures { IsRewritten image.old image.new kind at (record (node_at image.old.bytes kind at) {
      keys = insert (node_at image.old.bytes kind at).keys j key.now;
      children = insert (node_at image.old.bytes kind at).children j child;
    }) }
{
    let bytes = image.part_at_mut(at, kind.node_length() as u64);
    put_child_in(kind, bytes, j, key, child);
}

/// Takes child `j` out, and the key before it. Those behind move one place.
pub fn remove_child(image: &mut Image, kind: NodeKind, at: u64, j: usize)
    requires inside { at + node_length kind ≤ length image.old.bytes }
    requires form { IsNode kind (node_bytes image.old.bytes kind at) }
    requires place { j < entries_in (node_bytes image.old.bytes kind at) }
    ensures { IsRewritten image.old image.new kind at (record (node_at image.old.bytes kind at) {
      keys = remove (node_at image.old.bytes kind at).keys j;
      children = remove (node_at image.old.bytes kind at).children j;
    }) }
{
    let bytes = image.part_at_mut(at, kind.node_length() as u64);
    take_child_out(kind, bytes, j);
}

/// Keeps the first `n` children, and the keys around them; the others go.
pub fn keep_children(image: &mut Image, kind: NodeKind, at: u64, n: usize)
    requires inside { at + node_length kind ≤ length image.old.bytes }
    requires form { IsNode kind (node_bytes image.old.bytes kind at) }
    requires place { n ≤ entries_in (node_bytes image.old.bytes kind at) }
    ensures { IsRewritten image.old image.new kind at (record (node_at image.old.bytes kind at) {
      keys = take (n + 1) (node_at image.old.bytes kind at).keys;
      children = take n (node_at image.old.bytes kind at).children;
    }) }
{
    let bytes = image.part_at_mut(at, kind.node_length() as u64);
    keep_front(kind, bytes, n);
}

/// Drops the first `n` children, and the keys before them; the others move to the front.
pub fn drop_children(image: &mut Image, kind: NodeKind, at: u64, n: usize)
    requires inside { at + node_length kind ≤ length image.old.bytes }
    requires form { IsNode kind (node_bytes image.old.bytes kind at) }
    requires place { n ≤ entries_in (node_bytes image.old.bytes kind at) }
    ensures { IsRewritten image.old image.new kind at (record (node_at image.old.bytes kind at) {
      keys = drop n (node_at image.old.bytes kind at).keys;
      children = drop n (node_at image.old.bytes kind at).children;
    }) }
{
    let bytes = image.part_at_mut(at, kind.node_length() as u64);
    drop_front(kind, bytes, n);
}

/// Copies a node to another block, whose bytes are then those of the node.
pub fn copy_node(image: &mut Image, kind: NodeKind, from: u64, to: u64)
    requires from { from + node_length kind ≤ length image.old.bytes }
    requires to { to + node_length kind ≤ length image.old.bytes }
    requires form { IsNode kind (node_bytes image.old.bytes kind from) }
    ensures { IsRewritten image.old image.new kind to (node_at image.old.bytes kind from) }
{
    image.copy(from, kind.node_length() as u64, to);
}
