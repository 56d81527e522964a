//! A full node that is split, since one child more comes in (File Format Specification 3.0, section III.A.1).

ghost use Rattle.std.specs.Prelude.{◌≡◌, ◌≢◌, ℕ, suc, ◌+◌, ◌*◌, ◌^◌, ◌<◌, ◌≤◌, List, ◌∷◌, length};
ghost use Rattle.h5_model.specs.Format.Nodes.{entries_in, node_bytes, node_length};
ghost use Rattle.h5_space.specs.Moves.{Spends};
ghost use Rattle.h5_space.specs.Space.{Space};
ghost use Rattle.h5_btree.specs.Insertion.{IsClimbing, IsSplit, KeepsEntries, MaySplit, Owns, left_count as count_left};
ghost use Rattle.h5_btree.specs.declared.way.Step.{Step};

use crate::edit::{copy_node, set_left, set_right};
use crate::halves::{keep_left, keep_right};
use crate::kind::NodeKind;
use crate::neighbours::name_left;
use crate::read::node_there;
use h5_space::Image;

/// How many children the left half keeps, where one more comes in at place `j` of a full node. Each half has K at least.
pub(crate) fn left_count(kind: NodeKind, j: usize) -> usize
    ensures { result ≡ count_left kind.k j }
{
    let half = kind.capacity() / 2;
    if j < half { half } else { half + 1 }
}

/// Splits a full node below a root, where a child and the key before it come in at place `j`, and gives where its right
/// half stands.
pub(crate) fn split(
    image: &mut Image,
    kind: NodeKind,
    at: u64,
    j: usize,
    key: &[u8],
    child: u64,
) -> u64
    requires climbs { MaySplit image.old kind at j child }
    requires full { entries_in (node_bytes image.old.bytes kind at) ≡ 2 * kind.k }
    requires width { length key.now ≡ kind.key_length }
    requires bytes { node_length kind ≤ image.old.room_bytes }
    requires blocks { 1 ≤ image.old.room_blocks }
    requires short { length image.old.bytes + node_length kind < 2 ^ 64 }
    ensures on { (start : Space) (root m : ℕ) (next : Step) (above : List Step) (list owned own : List ℕ)
        → IsClimbing start image.old kind root m at (next ∷ above) j child list owned own
        → IsClimbing start image.new kind root (suc m) next.node above (suc next.place) result list owned
        (result ∷ own) }
    ensures others { (start : Space) (root m : ℕ) (next : Step) (above : List Step) (list owned own : List ℕ)
        → IsClimbing start image.old kind root m at (next ∷ above) j child list owned own
        → (n : ℕ) → Owns own n → (n ≢ result) × (n ≢ at
        → KeepsEntries image.old.bytes image.new.bytes kind n) }
    ensures halves { IsSplit image.old.bytes image.new.bytes kind at j key.now child result }
    ensures spends { Spends image.old image.new (node_length kind) 1 }
{
    let left = left_count(kind, j);
    let next = node_there(image.bytes(), kind, at).right();
    let new = image.take(kind.node_length() as u64);
    copy_node(image, kind, at, new);
    keep_right(image, kind, new, left, j, key, child);
    set_left(image, kind, new, at);
    keep_left(image, kind, at, left, j, key, child);
    set_right(image, kind, at, new);
    name_left(image, kind, next, new);
    new
}
