//! The objects that a walk has found, and how many of the links that it followed lead to each (File Format Specification 3.0,
//! section IV.A.1.a).

ghost use Rattle.std.specs.Prelude.{◌≡◌, ◌+◌, ◌<◌, [], ◌∷◌, ◌++◌, IfErr, OnOk, MatchBool, Some, length, slice_get, slice_index, slice_set};
ghost use Rattle.std.specs.List.{Contains};
ghost use Rattle.h5_model.specs.Format.Limits.{most_bytes};
ghost use Rattle.h5_open.specs.declared.opened.object.OpenedObject.{OpenedObject};
ghost use Rattle.h5_open.specs.Counted.Counts.{MayBeLinked, IsRefusedAgain};
ghost use Rattle.h5_open.specs.Opened.Objects.{headers, objects_of};
ghost use Rattle.h5_open.specs.Placed.Whole.{IsGroupContent};
ghost use Rattle.h5_open.specs.Walk.{IsNumbered};

use crate::index::{Index, object_numbered, push_object};
use crate::opened::{OpenedContent, OpenedObject};
use h5_model::{Cause, OpenFault};
use h5_space::fault;

/// The most hard links that lead to an object.
pub const MAX_LINKS: u32 = 65535;

/// The objects that a walk has found, and by their numbers how many of the links that it followed lead to each.
#[derive(Drop)]
pub(crate) struct Tally {
    pub(crate) index: Index,
    pub(crate) counts: Vec<u32>,
}

/// Gives the object that was read the next number, and counts the link by which it was found. Refused is want of memory alone.
///
/// That the header is another than those before, and lies below 2 GiB, are the caller's conditions.
pub(crate) fn push_counted(tally: &mut Tally, object: OpenedObject) -> Result<(), OpenFault>
    requires index { IsNumbered tally.old.index.objects.items tally.old.index.numbers }
    requires low { object.messages.header < most_bytes }
    requires new { Contains (headers (objects_of tally.old.index.objects.items)) object.messages.header → ⊥ }
    ensures pushed { OnOk result (objects_of tally.new.index.objects.items
        ≡ objects_of tally.old.index.objects.items ++ object ∷ []) }
    ensures index { OnOk result (IsNumbered tally.new.index.objects.items tally.new.index.numbers) }
    ensures counted { OnOk result (tally.new.counts.items ≡ tally.old.counts.items ++ 1 ∷ []) }
    ensures refused { IfErr result (λ fault. fault.cause ≡ Cause.NoMemory) }
{
    let header = object.messages.header();
    push_object(&mut tally.index, object)?;
    let Ok(()) = tally.counts.push(1) else {
        return Err(fault(Cause::NoMemory, header));
    };
    Ok(())
}

/// Counts one link more to the object of this number.
///
/// Refused as `count_one` says. That the number is an object's, which has a count, is the caller's condition.
pub(crate) fn count_again(tally: &mut Tally, number: u32) -> Result<(), OpenFault>
    requires there { (o : OpenedObject) × (slice_get tally.old.index.objects.items number ≡ Some (Some o)) }
    requires length { length tally.old.counts.items ≡ length tally.old.index.objects.items }
    ensures index { tally.new.index ≡ tally.old.index }
    ensures counted { OnOk result (tally.new.counts.items
        ≡ slice_set tally.old.counts.items number (slice_index tally.old.counts.items number + 1)) }
    ensures room { OnOk result ((o : OpenedObject)
        → slice_get tally.old.index.objects.items number ≡ Some (Some o)
        → MayBeLinked o (slice_index tally.old.counts.items number)) }
    ensures refused { IfErr result (λ fault. (o : OpenedObject)
        → slice_get tally.old.index.objects.items number ≡ Some (Some o)
        → IsRefusedAgain o (slice_index tally.old.counts.items number) fault.cause fault.address) }
{
    let object = object_numbered(&tally.index, number);
    count_one(object, &mut tally.counts[number as usize])
}

/// Adds one link more to the count of an object.
///
/// `GroupLinkedTwice` where the object is a group; else `TooLarge` where 65535 links lead to it already. Both are at its header.
fn count_one(object: &OpenedObject, count: &mut u32) -> Result<(), OpenFault>
    ensures counted { OnOk result (count.new ≡ count.old + 1) }
    ensures room { OnOk result (MayBeLinked object.now count.old) }
    ensures refused { IfErr result (λ fault. IsRefusedAgain object.now count.old fault.cause fault.address) }
{
    let cause = if is_group(object) {
        Cause::GroupLinkedTwice
    } else if *count >= MAX_LINKS {
        Cause::TooLarge
    } else {
        *count += 1;
        return Ok(());
    };
    Err(fault(cause, object.messages.header()))
}

/// Whether the object is a group.
fn is_group(object: &OpenedObject) -> bool
    ensures { MatchBool result (IsGroupContent object.now.content) (IsGroupContent object.now.content → ⊥) }
{
    match object.content {
        OpenedContent::Group(_) => true,
        OpenedContent::Array => false,
    }
}
