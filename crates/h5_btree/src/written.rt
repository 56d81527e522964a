//! The bytes of a node that is edited (File Format Specification 3.0, section III.A.1).

ghost use Rattle.std.specs.Prelude.{◌≡◌, ◌+◌, ◌*◌, ◌^◌, ◌<◌, ◌≤◌, drop, length, slice_set, take};
ghost use Rattle.std.specs.List.{insert, remove};
ghost use Rattle.h5_model.specs.Format.Nodes.{IsNode, entries_in, node_length, node_of};

use crate::kind::NodeKind;
use crate::node::{CHILD, place_of};
use h5_bytes::{put_u16, put_u64, u16_at};

/// Where the level stands.
const LEVEL: usize = 5;

/// Writes another level.
pub(crate) fn put_level(kind: NodeKind, bytes: &mut [u8], level: u8)
    requires long { length bytes.old ≡ node_length kind }
    requires form { IsNode kind bytes.old }
    ensures node { node_of kind bytes.new ≡ record (node_of kind bytes.old) { level = level } }
    ensures form { IsNode kind bytes.new }
    ensures long { length bytes.new ≡ length bytes.old }
{
    bytes[LEVEL] = level;
}

/// Names another neighbour to the left.
pub(crate) fn put_left(kind: NodeKind, bytes: &mut [u8], left: u64)
    requires long { length bytes.old ≡ node_length kind }
    requires form { IsNode kind bytes.old }
    ensures node { node_of kind bytes.new ≡ record (node_of kind bytes.old) { left = left } }
    ensures form { IsNode kind bytes.new }
    ensures long { length bytes.new ≡ length bytes.old }
{
    put_u64(bytes, 8, left);
}

/// Names another neighbour to the right.
pub(crate) fn put_right(kind: NodeKind, bytes: &mut [u8], right: u64)
    requires long { length bytes.old ≡ node_length kind }
    requires form { IsNode kind bytes.old }
    ensures node { node_of kind bytes.new ≡ record (node_of kind bytes.old) { right = right } }
    ensures form { IsNode kind bytes.new }
    ensures long { length bytes.new ≡ length bytes.old }
{
    put_u64(bytes, 16, right);
}

/// Writes another key at place `i`.
pub(crate) fn put_key(kind: NodeKind, bytes: &mut [u8], i: usize, key: &[u8])
    requires long { length bytes.old ≡ node_length kind }
    requires form { IsNode kind bytes.old }
    requires place { i ≤ entries_in bytes.old }
    requires width { length key.now ≡ kind.key_length }
    ensures node { node_of kind bytes.new ≡ record (node_of kind bytes.old) {
      keys = slice_set (node_of kind bytes.old).keys i key.now;
    } }
    ensures form { IsNode kind bytes.new }
    ensures long { length bytes.new ≡ length bytes.old }
{
    let from = place_of(kind, i);
    bytes[from..from + kind.key_length()].copy_from_slice(key);
}

/// Writes the address of another child at place `i`.
pub(crate) fn put_child(kind: NodeKind, bytes: &mut [u8], i: usize, child: u64)
    requires long { length bytes.old ≡ node_length kind }
    requires form { IsNode kind bytes.old }
    requires place { i < entries_in bytes.old }
    ensures node { node_of kind bytes.new ≡ record (node_of kind bytes.old) {
      children = slice_set (node_of kind bytes.old).children i child;
    } }
    ensures form { IsNode kind bytes.new }
    ensures long { length bytes.new ≡ length bytes.old }
{
    put_u64(bytes, place_of(kind, i) + kind.key_length(), child);
}

/// Puts a child and the key before it in at place `j`.
pub(crate) fn put_child_in(kind: NodeKind, bytes: &mut [u8], j: usize, key: &[u8], child: u64)
    requires long { length bytes.old ≡ node_length kind }
    requires form { IsNode kind bytes.old }
    requires place { j ≤ entries_in bytes.old }
    requires room { entries_in bytes.old < 2 * kind.k }
    requires few { entries_in bytes.old + 1 < 2 ^ 16 }
    requires width { length key.now ≡ kind.key_length }
    ensures node { node_of kind bytes.new ≡ record (node_of kind bytes.old) {
      keys = insert (node_of kind bytes.old).keys j key.now;
      children = insert (node_of kind bytes.old).children j child;
    } }
    ensures form { IsNode kind bytes.new }
    ensures long { length bytes.new ≡ length bytes.old }
{
    let n = usize::from(u16_at(bytes, 6));
    let from = place_of(kind, j);
    let behind = from + kind.key_length();
    bytes.copy_within(from..place_of(kind, n) + kind.key_length(), behind + CHILD);
    bytes[from..behind].copy_from_slice(key);
    put_u64(bytes, behind, child);
    put_u16(bytes, 6, (n + 1) as u16);
}

/// Takes child `j` and the key before it out.
pub(crate) fn take_child_out(kind: NodeKind, bytes: &mut [u8], j: usize)
    requires long { length bytes.old ≡ node_length kind }
    requires form { IsNode kind bytes.old }
    requires place { j < entries_in bytes.old }
    ensures node { node_of kind bytes.new ≡ record (node_of kind bytes.old) {
      keys = remove (node_of kind bytes.old).keys j;
      children = remove (node_of kind bytes.old).children j;
    } }
    ensures form { IsNode kind bytes.new }
    ensures long { length bytes.new ≡ length bytes.old }
{
    let n = usize::from(u16_at(bytes, 6));
    let end = place_of(kind, n) + kind.key_length();
    bytes.copy_within(place_of(kind, j + 1)..end, place_of(kind, j));
    put_u16(bytes, 6, (n - 1) as u16);
}

/// Keeps the first `n` children, and the keys around them.
pub(crate) fn keep_front(kind: NodeKind, bytes: &mut [u8], n: usize)
    requires long { length bytes.old ≡ node_length kind }
    requires form { IsNode kind bytes.old }
    requires place { n ≤ entries_in bytes.old }
    requires few { n < 2 ^ 16 }
    ensures node { node_of kind bytes.new ≡ record (node_of kind bytes.old) {
      keys = take (n + 1) (node_of kind bytes.old).keys;
      children = take n (node_of kind bytes.old).children;
    } }
    ensures form { IsNode kind bytes.new }
    ensures long { length bytes.new ≡ length bytes.old }
{
    put_u16(bytes, 6, n as u16);
}

/// Drops the first `n` children, and the keys before them: those behind move to the front.
pub(crate) fn drop_front(kind: NodeKind, bytes: &mut [u8], n: usize)
    requires long { length bytes.old ≡ node_length kind }
    requires form { IsNode kind bytes.old }
    requires place { n ≤ entries_in bytes.old }
    ensures node { node_of kind bytes.new ≡ record (node_of kind bytes.old) {
      keys = drop n (node_of kind bytes.old).keys;
      children = drop n (node_of kind bytes.old).children;
    } }
    ensures form { IsNode kind bytes.new }
    ensures long { length bytes.new ≡ length bytes.old }
{
    let count = usize::from(u16_at(bytes, 6));
    let end = place_of(kind, count) + kind.key_length();
    bytes.copy_within(place_of(kind, n)..end, place_of(kind, 0));
    put_u16(bytes, 6, (count - n) as u16);
}
