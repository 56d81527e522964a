//! How many nodes stand over a row of children, and in how many levels.
ghost use Rattle.std.specs.Prelude.{◌≡◌, ◌+◌, ◌*◌, ◌^◌, ◌<◌, ◌≤◌};
ghost use Rattle.h5_model.specs.Format.PlainLength.{rows_of as rows, nodes_over as nodes};
ghost use Rattle.h5_btree.specs.Writing.Written.{level_over, root_level as level};

use crate::kind::NodeKind;

/// How many nodes with room for `most` items take `count` items.
pub fn rows_of(most: u64, count: u64) -> u64
    requires some { 1 ≤ most }
    requires most { most < 2 ^ 32 }
    requires count { count < 2 ^ 32 }
    ensures exact { result ≡ rows most count }
    ensures few { result ≤ count }
{
    count.div_ceil(most)
}

/// How many nodes with room for `most` children stand over so many, in at most so many levels.
#[tactic(auto, using(crate::proofs::WriteLaws::Counts::nodes_none, crate::proofs::WriteLaws::Counts::nodes_one, crate::proofs::WriteLaws::Counts::nodes_more, crate::proofs::WriteLaws::Counts::rows_half))]
pub(crate) fn nodes_within(levels: u32, most: u64, children: u64) -> u64
    requires some { 2 ≤ most }
    requires most { most < 2 ^ 32 }
    requires few { children < 2 ^ 32 }
    ensures exact { result ≡ nodes levels most children }
    ensures few { result ≤ 2 * children + 1 }
{
    if levels == 0 {
        return 0;
    }
    if children <= most {
        return 1;
    }
    let row = rows_of(most, children);
    row + nodes_within(levels - 1, most, row)
}

/// How many nodes of this kind stand over so many children; one where there is no child.
pub fn nodes_over(kind: &NodeKind, children: u64) -> u64
    requires some { 1 ≤ kind.now.k }
    requires few { children < 2 ^ 32 }
    ensures exact { result ≡ nodes 64 (2 * kind.now.k) children }
    ensures few { result < 2 ^ 33 }
{
    nodes_within(64, kind.capacity() as u64, children)
}

/// The level of the root over so many children, of nodes with room for `most`, in at most so many levels.
#[tactic(auto, using(crate::proofs::WriteLaws::Counts::level_none, crate::proofs::WriteLaws::Counts::level_one, crate::proofs::WriteLaws::Counts::level_more))]
fn level_within(levels: u32, most: u64, children: u64) -> u32
    requires some { 1 ≤ most }
    requires most { most < 2 ^ 32 }
    requires few { children < 2 ^ 32 }
    ensures exact { result ≡ level_over levels most children }
    ensures few { result ≤ levels }
{
    if levels == 0 || children <= most {
        return 0;
    }
    1 + level_within(levels - 1, most, rows_of(most, children))
}

/// The level of the root over so many children, of nodes of this kind.
#[tactic(auto, using(crate::proofs::WriteLaws::Counts::root_level_is))]
pub fn root_level(kind: &NodeKind, children: u64) -> u32
    requires some { 1 ≤ kind.now.k }
    requires few { children < 2 ^ 32 }
    ensures { result ≡ level kind.now.k children }
{
    level_within(64, kind.capacity() as u64, children)
}
