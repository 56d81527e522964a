//! How many bytes objects have: their headers, and what belongs to them (File Format Specification 3.0, sections III and IV.A).

ghost use Rattle.std.specs.Prelude.{◌≡◌, ℕ, ◌^◌, ◌<◌, ◌≤◌, List, Option, Some, IfOk, IfErr};
ghost use Rattle.std.specs.List.{AllZip};
ghost use Rattle.h5_model.specs.Format.Superblock.{AreKValues};
ghost use Rattle.h5_repack.specs.Layout.{AreUnmeasured, IsArrayObject, IsGroupObject, IsHeldObject, IsLowSize, IsSize, IsSlotSize, IsUnmeasured, StoredObject, size_length};
ghost use Rattle.h5_repack.specs.Objects.Objects.{SlotsHold};

use crate::blocks::{
    Cells, Others, array_header_length, data_length, group_header_length, has_low_tree,
};
use crate::group::{new_links, nowhere};
use crate::objects::{NewContent, NewObject};
use crate::write::WriteFault;
use h5_group::{GroupFault, GroupPlaces, MAXIMUM_IMAGE, group_places};
use h5_layout::ArrayRef;
use h5_model::{KValues, Link, ObjectNo};
use std::alloc::Global;

/// What belongs to an object besides its header.
#[derive(Clone, Copy)]
pub(crate) enum Extent {
    /// A group's tree, heap and symbol nodes, which lie so.
    Links(GroupPlaces),
    /// So many bytes of an array's data.
    Data(u64),
}

/// How many bytes an object has.
#[derive(Clone, Copy)]
pub(crate) struct Size {
    /// Those of its header.
    pub header: u64,
    pub extent: Extent,
}

/// How many bytes an object of this size has in all.
pub(crate) fn whole_length(size: &Size) -> u64
    requires { IsLowSize size.now }
    ensures exact { result ≡ size_length size.now }
    ensures few { result ≤ 2 ^ 32 }
{
    match size.extent {
        Extent::Links(places) => size.header + places.length,
        Extent::Data(length) => size.header + length,
    }
}

/// The size of an array with these cells and these messages besides its own, in an image with these K values.
fn measure_array(
    k: &KValues,
    array: &ArrayRef<'_>,
    cells: &Cells<'_>,
    others: &Others,
) -> Result<Size, WriteFault>
    requires k { AreKValues k.now }
    requires held { (o : StoredObject) × IsArrayObject array.now cells.now others.now o }
    ensures size { IfOk result (λ s.
        (o : StoredObject) → IsArrayObject array.now cells.now others.now o
        → IsSize k.now o s) }
    ensures refused { IfErr result (λ fault.
        (o : StoredObject) → IsArrayObject array.now cells.now others.now o
        → IsUnmeasured k.now o fault) }
{
    let header = array_header_length(array, others);
    if header > MAXIMUM_IMAGE {
        return Err(WriteFault::TooLong);
    }
    let chunk_k = k.chunk_k();
    let Some(length) = data_length(chunk_k, array, cells) else {
        return Err(WriteFault::TooLong);
    };
    if !has_low_tree(chunk_k, cells) {
        return Err(WriteFault::TooDeep);
    }
    Ok(Size {
        header,
        extent: Extent::Data(length),
    })
}

/// The size of a group of these links, with these messages besides its Symbol Table. It is the same wherever the objects stand to
/// which the links lead.
fn measure_group(
    alloc: Global,
    k: &KValues,
    links: &[Link<'_, ObjectNo>],
    others: &Others,
) -> Result<Size, WriteFault>
    requires k { AreKValues k.now }
    requires held { (o : StoredObject) × IsGroupObject links.now others.now o }
    ensures size { IfOk result (λ s.
        (o : StoredObject) → IsGroupObject links.now others.now o → IsSize k.now o s) }
    ensures refused { IfErr result (λ fault.
        (o : StoredObject) → IsGroupObject links.now others.now o → IsUnmeasured k.now o fault) }
{
    let header = group_header_length(others);
    if header > MAXIMUM_IMAGE {
        return Err(WriteFault::TooLong);
    }
    let layout = nowhere(k);
    let Ok(bare) = new_links(alloc, &layout, links) else {
        return Err(WriteFault::NoMemory);
    };
    match group_places(k, &bare) {
        Ok(places) => Ok(Size {
            header,
            extent: Extent::Links(places),
        }),
        Err(GroupFault::TooLong) => Err(WriteFault::TooLong),
        Err(GroupFault::TooDeep) => Err(WriteFault::TooDeep),
    }
}

/// The size of an object.
fn measure(alloc: Global, k: &KValues, object: &NewObject<'_>) -> Result<Size, WriteFault>
    requires k { AreKValues k.now }
    requires held { (o : StoredObject) × IsHeldObject object.now o }
    ensures size { IfOk result (λ s.
        (o : StoredObject) → IsHeldObject object.now o → IsSize k.now o s) }
    ensures refused { IfErr result (λ fault.
        (o : StoredObject) → IsHeldObject object.now o → IsUnmeasured k.now o fault) }
{
    match &object.content {
        NewContent::Group(links) => measure_group(alloc, k, links, &object.others),
        NewContent::Array { array, cells } => measure_array(k, array, cells, &object.others),
    }
}

/// The size of the object in a slot. An empty slot has no bytes.
fn measure_slot(
    alloc: Global,
    k: &KValues,
    slot: &Option<NewObject<'_>>,
) -> Result<Size, WriteFault>
    requires k { AreKValues k.now }
    requires held { (place : Option StoredObject) × SlotsHold IsHeldObject slot.now place }
    ensures size { IfOk result (λ s.
        (place : Option StoredObject) → SlotsHold IsHeldObject slot.now place
        → IsSlotSize k.now place s) }
    ensures refused { IfErr result (λ fault.
        (place : Option StoredObject) → SlotsHold IsHeldObject slot.now place
        → (o : StoredObject) × (place ≡ Some o) × IsUnmeasured k.now o fault) }
{
    match slot {
        Some(object) => measure(alloc, k, object),
        None => Ok(Size {
            header: 0,
            extent: Extent::Data(0),
        }),
    }
}

/// The sizes of all these objects. An empty slot has no bytes.
pub(crate) fn measure_all(
    alloc: Global,
    k: &KValues,
    objects: &[Option<NewObject<'_>>],
) -> Result<Vec<Size>, WriteFault>
    requires k { AreKValues k.now }
    requires held { (listed : List (Option StoredObject))
        × AllZip (SlotsHold IsHeldObject) objects.now listed }
    ensures sizes { IfOk result (λ sizes.
        (listed : List (Option StoredObject)) → AllZip (SlotsHold IsHeldObject) objects.now listed
        → AllZip (IsSlotSize k.now) listed sizes.items) }
    ensures refused { IfErr result (λ fault.
        (listed : List (Option StoredObject)) → AllZip (SlotsHold IsHeldObject) objects.now listed
        → AreUnmeasured k.now listed fault) }
{
    let mut sizes = Vec::new(alloc);
    for object in objects {
        let size = measure_slot(alloc, k, object)?;
        let Ok(()) = sizes.push(size) else {
            return Err(WriteFault::NoMemory);
        };
    }
    Ok(sizes)
}
