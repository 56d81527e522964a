//! Where the parts of a group's links stand.
ghost use Rattle.std.specs.Prelude.{MatchResult, map};
ghost use Rattle.h5_model.specs.Format.Superblock.{AreK};
ghost use Rattle.h5_heap.specs.Writing.Links.{name_and_leads};
ghost use Rattle.h5_group.specs.Writing.Places.{IsTooLarge, ArePlaces};

use h5_btree::{MAX_LEVEL, NodeKind, nodes_over, root_level, rows_of};
use h5_heap::{ObjectPlace, segment_length};
use h5_model::{KValues, Link};
use h5_space::MAXIMUM_IMAGE;

/// Why a group's links are not written.
#[derive(Clone, Copy, PartialEq, Eq, Debug)]
pub enum GroupFault {
    /// They would have more than 2147483648 bytes.
    TooLong,
    /// Their tree would have more than 16 levels.
    TooDeep,
}

/// How many bytes the parts of a group's links have. They stand one behind another: the B-tree, the heap's header,
/// its segment, and the symbol nodes.
#[derive(Clone, Copy)]
pub struct GroupPlaces {
    /// The bytes of the tree before the heap.
    pub tree: u64,
    /// The bytes of the heap's segment.
    pub segment: u64,
    /// The bytes of all.
    pub length: u64,
}

/// How the B-tree, the heap and the symbol nodes of these links lie when they are written new, in an image with these K values. Takes no
/// memory.
///
/// # Errors
///
/// - `TooLong`: they have more than 2147483648 bytes together.
/// - `TooDeep`, only where they are not too long: the root of the B-tree would have a level above 15.
pub fn group_places(k: &KValues, links: &[Link<'_, ObjectPlace>]) -> Result<GroupPlaces, GroupFault>
    requires { AreK k.now.leaf k.now.internal }
    ensures { MatchResult result (ArePlaces k.now.leaf k.now.internal (map name_and_leads links.now))
        (IsTooLarge k.now.leaf k.now.internal (map name_and_leads links.now)) }
{
    let Some(segment) = segment_length(links) else {
        return Err(GroupFault::TooLong);
    };
    let kind = NodeKind::group(k.internal);
    let nodes = rows_of(2 * u64::from(k.leaf), links.len() as u64);
    let tree = nodes_over(&kind, nodes) * kind.node_length() as u64;
    let length = tree + 32 + segment + nodes * (8 + 80 * u64::from(k.leaf));
    if length > MAXIMUM_IMAGE {
        return Err(GroupFault::TooLong);
    }
    if root_level(&kind, nodes) > MAX_LEVEL as u32 {
        return Err(GroupFault::TooDeep);
    }
    Ok(GroupPlaces {
        tree,
        segment,
        length,
    })
}
