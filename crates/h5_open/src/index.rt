//! What is kept of an opened image: its objects, and the table of their numbers (File Format Specification 3.0, section IV.A).

ghost use Rattle.std.specs.Prelude.{◌≡◌, ℕ, ◌<◌, [], ◌∷◌, ◌++◌, IfErr, MatchOption, OnErr, OnOk, Some, None, length, slice_get, slice_set};
ghost use Rattle.std.specs.BTreeMap.{Updates};
ghost use Rattle.std.specs.List.{Contains, IsDistinct};
ghost use Rattle.std.specs.Ordering.{eq_by_cmp, nat_cmp};
ghost use Rattle.h5_model.specs.Format.Limits.{most_bytes, most_numbers};
ghost use Rattle.h5_open.specs.declared.opened.object.OpenedObject.{OpenedObject};
ghost use Rattle.h5_open.specs.LinkTaken.{AreSlotsCleared, IsOwnTable};
ghost use Rattle.h5_open.specs.Opened.Kept.{IsIndex};
ghost use Rattle.h5_open.specs.Opened.Objects.{headers, objects_of, table_of};
ghost use Rattle.h5_open.specs.Walk.{IsNumbered};

use crate::opened::OpenedObject;
use h5_model::{Cause, OpenFault};
use h5_space::{AddressMap, fault};
use std::alloc::AllocError;

/// The objects that were read, by their numbers, and the number at each header.
#[derive(Drop)]
pub(crate) struct Index {
    /// A slot for each number that was given out. The slot of an object that is no more stays empty.
    pub(crate) objects: Vec<Option<OpenedObject>>,
    pub(crate) numbers: AddressMap<u32>,
}

/// The number of the object whose header is at this address, where it was read.
pub(crate) fn known_number(index: &Index, header: u64) -> Option<u32>
    requires { IsNumbered index.now.objects.items index.now.numbers }
    ensures { MatchOption result (Contains (headers (objects_of index.now.objects.items)) header → ⊥)
        (λ n. (o : OpenedObject) × (slice_get index.now.objects.items n ≡ Some (Some o))
        × (o.messages.header ≡ header)) }
{
    index.numbers.get(header)
}

/// The object of this number. Takes no memory.
pub(crate) fn object_numbered(index: &Index, number: u32) -> &OpenedObject
    requires { (o : OpenedObject) × (slice_get index.now.objects.items number ≡ Some (Some o)) }
    ensures { slice_get index.now.objects.items number ≡ Some (Some result.now) }
{
    index.objects[number as usize].as_ref().unwrap()
}

/// Gives the object that was read the next number. Refused is want of memory alone.
///
/// That the header is another than those before, and lies below 2 GiB, are the caller's conditions.
pub(crate) fn push_object(index: &mut Index, object: OpenedObject) -> Result<(), OpenFault>
    requires index { IsNumbered index.old.objects.items index.old.numbers }
    requires low { object.messages.header < most_bytes }
    requires new { Contains (headers (objects_of index.old.objects.items)) object.messages.header → ⊥ }
    ensures pushed { OnOk result
        (objects_of index.new.objects.items ≡ objects_of index.old.objects.items ++ object ∷ []) }
    ensures index { OnOk result (IsNumbered index.new.objects.items index.new.numbers) }
    ensures refused { IfErr result (λ fault. fault.cause ≡ Cause.NoMemory) }
{
    let header = object.messages.header();
    let Ok(()) = keep(index, object) else {
        return Err(fault(Cause::NoMemory, header));
    };
    Ok(())
}

/// Gives the object the next number, and its slot. That there is a number left is the caller's condition.
///
/// # Errors
///
/// `AllocError` if memory is refused. Then nothing changes.
pub(crate) fn keep(index: &mut Index, object: OpenedObject) -> Result<(), AllocError>
    requires few { length index.old.objects.items < most_numbers }
    ensures slots { OnOk result (index.new.objects.items ≡ index.old.objects.items ++ Some object ∷ []) }
    ensures numbers { OnOk result (Updates nat_cmp index.old.numbers index.new.numbers
        object.messages.header (Some (length index.old.objects.items))) }
    ensures same_slots { OnErr result (index.new.objects.items ≡ index.old.objects.items) }
    ensures same_numbers { OnErr result (index.new.numbers.entries ≡ index.old.numbers.entries) }
{
    let number = index.objects.len() as u32;
    index.objects.reserve(1)?;
    index.numbers.insert(object.messages.header(), number)?;
    // There is room for it.
    let _ = index.objects.push(Some(object));
    Ok(())
}

/// Takes the objects of these numbers out. Their slots stay empty, and their headers have no numbers any more. Takes no memory.
pub(crate) fn clear_all(index: &mut Index, gone: &[u32])
    requires there { (n : ℕ) → Contains gone.now n
        → (o : OpenedObject) × (slice_get index.old.objects.items n ≡ Some (Some o)) }
    requires once { IsDistinct (eq_by_cmp nat_cmp) gone.now }
    requires index { IsIndex (table_of index.old.objects.items) index.old.numbers }
    requires own { IsOwnTable (table_of index.old.objects.items) }
    ensures slots { AreSlotsCleared index.old.objects.items index.new.objects.items gone.now }
    ensures index { IsIndex (table_of index.new.objects.items) index.new.numbers }
{
    for &number in gone {
        clear(index, number);
    }
}

/// Takes the object of this number out. Its slot stays empty, and its header has no number any more. Takes no memory.
fn clear(index: &mut Index, number: u32)
    requires there { (o : OpenedObject) × (slice_get index.old.objects.items number ≡ Some (Some o)) }
    ensures slots { index.new.objects.items ≡ slice_set index.old.objects.items number None }
    ensures numbers { (o : OpenedObject) → slice_get index.old.objects.items number ≡ Some (Some o)
        → Updates nat_cmp index.old.numbers index.new.numbers o.messages.header None }
{
    if let Some(object) = index.objects[number as usize].take() {
        index.numbers.remove(object.messages.header());
    }
}
