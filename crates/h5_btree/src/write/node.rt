//! One node (File Format Specification 3.0, section III.A.1).
ghost use Rattle.std.specs.Prelude.{◌≡◌, ◌*◌, ◌^◌, ◌<◌, ◌≤◌, ◌++◌, OnOk, length, take, drop};
ghost use Rattle.std.specs.List.{flat_map};
ghost use Rattle.h5_model.specs.Format.Plain.{node_bytes_of};
ghost use Rattle.h5_btree.specs.Writing.Parts.{child_bytes, node_head};
ghost use Rattle.h5_btree.specs.Writing.Written.{FitsKind, AllFit, keys_of, last_below as last, places_of};

use crate::kind::NodeKind;
use crate::write::child::Child;
use crate::write::key::TreeKey;
use h5_bytes::{push_bytes, push_short, push_word, push_zeros};
use std::alloc::AllocError;

/// The key behind these children, or the one before them where there are none.
pub(crate) fn last_below<K: Copy>(before: K, children: &[Child<K>]) -> K
    ensures { result ≡ last before children.now }
{
    match children {
        [.., child] => child.key,
        [] => before,
    }
}

/// The children of the first node of a row, of nodes with room for `most`, and those of the others.
pub(crate) fn split_node<K>(most: usize, children: &[Child<K>]) -> (&[Child<K>], &[Child<K>])
    ensures first { result.0.now ≡ take most children.now }
    ensures others { result.1.now ≡ drop most children.now }
{
    children.split_at(children.len().min(most))
}

/// What stands before the keys of a node: its level, its count of children and its neighbours.
fn push_head(
    out: &mut Vec<u8>,
    kind: &NodeKind,
    level: u8,
    children: u16,
    left: u64,
    right: u64,
) -> Result<(), AllocError>
    ensures { OnOk result (out.new.items ≡ out.old.items ++ node_head kind.now level children left right) }
{
    push_bytes(out, &[84, 82, 69, 69, kind.type_byte(), level])?;
    push_short(out, children)?;
    push_word(out, left)?;
    push_word(out, right)?;
    Ok(())
}

/// Each child, with the key behind it.
fn push_children<K: TreeKey>(out: &mut Vec<u8>, children: &[Child<K>]) -> Result<(), AllocError>
    ensures { OnOk result (out.new.items ≡ out.old.items ++ flat_map (child_bytes K.bytes) children.now) }
{
    for child in children {
        push_word(out, child.at)?;
        child.key.push_to(out)?;
    }
    Ok(())
}

/// The node over these children, between these neighbours; `before` is the key before the children.
pub(crate) fn push_node<K: TreeKey>(
    out: &mut Vec<u8>,
    kind: &NodeKind,
    level: u8,
    left: u64,
    right: u64,
    before: K,
    children: &[Child<K>],
) -> Result<(), AllocError>
    requires room { length children.now ≤ 2 * kind.now.k }
    requires counted { length children.now < 2 ^ 16 }
    requires first { FitsKind kind.now K.bytes before }
    requires keys { AllFit kind.now K.bytes children.now }
    ensures { OnOk result
        (out.new.items ≡ out.old.items ++ node_bytes_of kind.now level left right
        (keys_of K.bytes before children.now) (places_of children.now)) }
{
    push_head(out, kind, level, children.len() as u16, left, right)?;
    before.push_to(out)?;
    push_children(out, children)?;
    push_zeros(
        out,
        (kind.capacity() - children.len()) * (kind.key_length() + 8),
    )?;
    Ok(())
}
