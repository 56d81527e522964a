//! The texts that the keys of a group's tree name (File Format Specification 3.0, sections III.A.1 and III.D).

ghost use Rattle.std.specs.Prelude.{◌≡◌, ◌+◌, ◌≤◌, length, IfErr, OnOk};
ghost use Rattle.std.specs.List.{AllByRecursion, flat_map};
ghost use Rattle.h5_model.specs.Format.Superblock.{IsSuperblock};
ghost use Rattle.h5_btree.specs.Walk.Forms.{OfGroup};
ghost use Rattle.h5_btree.specs.Walk.Stands.{IsNodeAt};
ghost use Rattle.h5_group.specs.Nodes.Stands.{keys_at};
ghost use Rattle.h5_group.specs.Texts.Taken.{NamesKeys, AreKeysRefused};

use crate::nodes::tree_node;
use h5_heap::Heap;
use h5_model::OpenFault;
use h5_space::Image;

/// Takes the texts that the keys of these nodes name, after those of links.
pub(crate) fn take_keys(image: &Image, heap: &mut Heap, nodes: &[u64]) -> Result<(), OpenFault>
    requires superblock { IsSuperblock image.now.bytes }
    requires there { AllByRecursion (IsNodeAt image.now.bytes OfGroup) nodes.now }
    requires within { heap.old.segment.at + heap.old.segment.len ≤ length image.now.bytes }
    ensures names { OnOk result
        (NamesKeys image.now.bytes heap.old heap.new (flat_map (keys_at image.now.bytes) nodes.now)) }
    ensures address { IfErr result (λ fault. fault.address ≡ heap.old.at) }
    ensures refused { IfErr result (λ fault.
        AreKeysRefused image.now.bytes heap.old (flat_map (keys_at image.now.bytes) nodes.now) fault.cause) }
{
    for at in nodes {
        take_node(image, heap, *at)?;
    }
    Ok(())
}

/// The same of one node.
fn take_node(image: &Image, heap: &mut Heap, at: u64) -> Result<(), OpenFault>
    requires superblock { IsSuperblock image.now.bytes }
    requires there { IsNodeAt image.now.bytes OfGroup at }
    requires within { heap.old.segment.at + heap.old.segment.len ≤ length image.now.bytes }
    ensures names { OnOk result (NamesKeys image.now.bytes heap.old heap.new (keys_at image.now.bytes at)) }
    ensures address { IfErr result (λ fault. fault.address ≡ heap.old.at) }
    ensures refused { IfErr result (λ fault.
        AreKeysRefused image.now.bytes heap.old (keys_at image.now.bytes at) fault.cause) }
{
    let node = tree_node(image, at);
    for i in 0..=node.len() {
        heap.key(image, node.key_offset(i))?;
    }
    Ok(())
}
