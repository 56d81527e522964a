//! The check of reference counts, last of all in opening (File Format Specification 3.0, section IV.A.1.a).

ghost use Rattle.std.specs.Prelude.{◌≡◌, ◌≢◌, ◌+◌, ◌≤◌, [], ℕ, length, IfErr, OnOk, Some, slice_get, slice_index};
ghost use Rattle.h5_model.specs.Format.Messages.{prefix_at, reference_count};
ghost use Rattle.h5_model.specs.Format.Reads.{ReadsAs};
ghost use Rattle.h5_group.specs.Nodes.Walk.{IsFault};
ghost use Rattle.h5_open.specs.declared.opened.object.OpenedObject.{OpenedObject};
ghost use Rattle.h5_open.specs.Opened.Objects.{IsDense, objects_of, table_of, tree_of};
ghost use Rattle.h5_open.specs.Placed.Whole.{IsWholeImage, placed_of};
ghost use Rattle.h5_open.specs.Counted.Counts.{AreCounted, HasMiscount};

use crate::counts::Tally;
use crate::opened::OpenedObject;
use h5_model::{Cause, OpenFault};
use h5_space::{Image, fault};

/// Checks that the reference count of each object's header is the number of links that were counted.
///
/// `LinkCount`, at the first header by the objects' numbers where it is another. Takes no memory.
///
/// That the objects make up the image, and that all their links were counted, are the caller's conditions.
pub(crate) fn check_counts(image: &Image, tally: &Tally) -> Result<(), OpenFault>
    requires whole { IsWholeImage image.now.bytes (objects_of tally.now.index.objects.items) }
    requires all { IsDense tally.now.index.objects.items }
    requires counted { AreCounted image.now.bytes (objects_of tally.now.index.objects.items)
        tally.now.counts.items [] }
    ensures reads { OnOk result (ReadsAs image.now.bytes (table_of tally.now.index.objects.items)
        (tree_of image.now.bytes tally.now.index.objects.items)
        (placed_of image.now.bytes (objects_of tally.now.index.objects.items))) }
    ensures wrong { IfErr result (λ fault.
        HasMiscount image.now.bytes (objects_of tally.now.index.objects.items) fault.cause fault.address) }
    ensures refused { IfErr result (λ fault. IsFault image.now.bytes fault.cause fault.address) }
{
    for (number, slot) in tally.index.objects.iter().enumerate() {
        if let Some(object) = slot {
            check_object(image, object, tally.counts[number])?;
        }
    }
    Ok(())
}

/// Checks an object to which so many links lead.
fn check_object(image: &Image, object: &OpenedObject, count: u32) -> Result<(), OpenFault>
    requires { object.now.messages.header + 16 ≤ length image.now.bytes }
    ensures right { OnOk result
        (reference_count (prefix_at image.now.bytes object.now.messages.header) ≡ count) }
    ensures cause { IfErr result (λ fault. fault.cause ≡ Cause.LinkCount) }
    ensures address { IfErr result (λ fault. fault.address ≡ object.now.messages.header) }
    ensures wrong { IfErr result (λ fault.
        reference_count (prefix_at image.now.bytes object.now.messages.header) ≢ count) }
{
    if object.messages.links(image) != count {
        return Err(fault(Cause::LinkCount, object.messages.header()));
    }
    Ok(())
}
