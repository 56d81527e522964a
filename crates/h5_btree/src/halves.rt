//! A full node cut in two, where one child more comes in (File Format Specification 3.0, section III.A.1).

ghost use Rattle.std.specs.Prelude.{◌≡◌, ◌+◌, ◌*◌, ◌^◌, ◌<◌, ◌≤◌, drop, length, take};
ghost use Rattle.std.specs.List.{insert};
ghost use Rattle.h5_model.specs.Format.Nodes.{IsNode, entries_in, node_at, node_bytes, node_length};
ghost use Rattle.h5_btree.specs.Rewritten.{IsRewritten};

use crate::edit::{drop_children, insert_child, keep_children, set_key};
use crate::kind::NodeKind;
use h5_space::Image;

/// Keeps the first `n` of a node's children with one more, at place `j`, and the keys around them.
pub(crate) fn keep_left(
    image: &mut Image,
    kind: NodeKind,
    at: u64,
    n: usize,
    j: usize,
    key: &[u8],
    child: u64,
)
    requires inside { at + node_length kind ≤ length image.old.bytes }
    requires form { IsNode kind (node_bytes image.old.bytes kind at) }
    requires some { 1 ≤ n }
    requires most { n ≤ entries_in (node_bytes image.old.bytes kind at) }
    requires place { j ≤ entries_in (node_bytes image.old.bytes kind at) }
    requires width { length key.now ≡ kind.key_length }
    ensures { IsRewritten image.old image.new kind at (record (node_at image.old.bytes kind at) {
      keys = take (n + 1) (insert (node_at image.old.bytes kind at).keys j key.now);
      children = take n (insert (node_at image.old.bytes kind at).children j child);
    }) }
{
    if j < n {
        keep_children(image, kind, at, n - 1);
        insert_child(image, kind, at, j, key, child);
        return;
    }
    keep_children(image, kind, at, n);
    if j == n {
        set_key(image, kind, at, n, key);
    }
}

/// Drops the first `n` of a node's children with one more, at place `j`, and the keys before them.
pub(crate) fn keep_right(
    image: &mut Image,
    kind: NodeKind,
    at: u64,
    n: usize,
    j: usize,
    key: &[u8],
    child: u64,
)
    requires inside { at + node_length kind ≤ length image.old.bytes }
    requires form { IsNode kind (node_bytes image.old.bytes kind at) }
    requires some { 1 ≤ n }
    requires most { n ≤ entries_in (node_bytes image.old.bytes kind at) }
    requires place { j ≤ entries_in (node_bytes image.old.bytes kind at) }
    requires width { length key.now ≡ kind.key_length }
    ensures { IsRewritten image.old image.new kind at (record (node_at image.old.bytes kind at) {
      keys = drop n (insert (node_at image.old.bytes kind at).keys j key.now);
      children = drop n (insert (node_at image.old.bytes kind at).children j child);
    }) }
{
    if j < n {
        drop_children(image, kind, at, n - 1);
        return;
    }
    drop_children(image, kind, at, n);
    insert_child(image, kind, at, j - n, key, child);
}
