//! A group without links and without attributes: its header, and behind it the one node of its tree, and its heap (File Format
//! Specification 3.0, sections III.A.1, III.D and IV.A.1.a).

ghost use Rattle.std.specs.Prelude.{◌≡◌, ℕ, ◌+◌, ◌≤◌, ◌++◌, [], OnOk, length};
ghost use Rattle.h5_group.specs.Writing.Places.{ArePlaces};
ghost use Rattle.h5_group.specs.Writing.Written.{links_bytes};
ghost use Rattle.h5_model.specs.Format.Limits.{most_bytes};
ghost use Rattle.h5_model.specs.Format.Sizes.{group_node};
ghost use Rattle.h5_model.specs.Format.Superblock.{AreK, AreKValues};
ghost use Rattle.h5_repack.specs.Bodies.Headers.{group_header};

use crate::blocks::{GROUP_HEADER, Others};
use crate::group::nowhere;
use crate::object::push_group;
use h5_group::GroupPlaces;
use h5_model::KValues;
use h5_msg::SymbolTable;
use std::alloc::{AllocError, Global};

/// Bytes of the segment: the empty name, and one free block.
const SEGMENT: u64 = 88;

/// How the tree and the heap lie.
fn bare_places(internal: u16) -> GroupPlaces
    ensures tree { result.tree ≡ group_node internal }
    ensures length { result.length ≡ group_node internal + 120 }
    ensures places { (leaf : ℕ) → AreK leaf internal → ArePlaces leaf internal [] result }
{
    let tree = 32 + 32 * u64::from(internal);
    GroupPlaces {
        tree,
        segment: SEGMENT,
        length: tree + 32 + SEGMENT,
    }
}

/// How many bytes a group without links and attributes has, in an image with this internal K: its header, one tree node, and its heap with
/// the segment.
pub fn bare_group_length(internal: u16) -> u64
    ensures { result ≡ group_node internal + 160 }
{
    GROUP_HEADER + bare_places(internal).length
}

/// The addresses of the tree and of the heap of such a group whose header stands at the address `at`. That the group ends within
/// 2147483648 bytes is the caller's condition.
pub fn bare_group_table(internal: u16, at: u64) -> SymbolTable
    requires { at + group_node internal + 160 ≤ most_bytes }
    ensures { result ≡ record { tree = at + 40; heap = at + 40 + group_node internal } }
{
    let tree = at + GROUP_HEADER;
    SymbolTable::new(tree, tree + bare_places(internal).tree)
}

/// Appends a group without links and attributes, which is to stand at the address `at` of an image with these K values. That they are from
/// 1 to 32767, and that the group ends within 2147483648 bytes, are the caller's conditions.
///
/// # Errors
///
/// `AllocError` if memory is refused. How many of the bytes stand in `out` then is left open.
pub fn push_bare_group(
    alloc: Global,
    out: &mut Vec<u8>,
    k: &KValues,
    at: u64,
) -> Result<(), AllocError>
    requires k { AreKValues k.now }
    requires low { at + group_node k.now.internal + 160 ≤ most_bytes }
    ensures bytes { OnOk result (out.new.items ≡ out.old.items
        ++ (group_header (at + 40) (at + 40 + group_node k.now.internal) []
        ++ links_bytes k.now.leaf k.now.internal (at + 40) [])) }
    ensures long { OnOk result
        (length out.new.items ≡ length out.old.items + (group_node k.now.internal + 160)) }
{
    let places = bare_places(k.internal);
    let layout = nowhere(k);
    push_group(
        alloc,
        out,
        &layout,
        at + GROUP_HEADER,
        &places,
        &[],
        &Others::new(alloc),
    )?;
    Ok(())
}
