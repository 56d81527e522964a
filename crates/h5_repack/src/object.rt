//! Objects as they are appended: a header, and behind it what belongs to it (File Format Specification 3.0, sections III and IV.A).

ghost use Rattle.std.specs.Prelude.{◌≡◌, ◌+◌, ◌<◌, ◌≤◌, ◌++◌, List, Option, OnOk, Some, length, map, slice_get};
ghost use Rattle.std.specs.List.{AllByRecursion, AllZip, flat_map};
ghost use Rattle.h5_model.specs.Format.Limits.{most_bytes, highest_level};
ghost use Rattle.h5_model.specs.Format.Superblock.{AreKValues, highest_k};
ghost use Rattle.h5_group.specs.Writing.Written.{links_bytes};
ghost use Rattle.h5_btree.specs.Writing.Written.{root_level};
ghost use Rattle.h5_repack.specs.Blocks.Written.{chunks_of};
ghost use Rattle.h5_repack.specs.Blocks.ArrayHeader.{data_written, group_written};
ghost use Rattle.h5_model.specs.Tree.Links.{tree_link};
ghost use Rattle.h5_repack.specs.declared.size.Extent.TheVariants.{Links};
ghost use Rattle.h5_repack.specs.Layout.{IsArrayObject, IsExtent, IsGroupObject, IsHeldObject, IsLowLayout, IsSize, IsSlotSize, StoredObject, array_at, header_by, numbered_at, laid_object, written_at};
ghost use Rattle.h5_repack.specs.Objects.Objects.{IsFilled, SlotsHold};

use crate::blocks::{
    Cells, Others, cells_address, push_array_header, push_data, push_group_header,
};
use crate::group::{Layout, header_place, new_links};
use crate::objects::{NewContent, NewObject};
use crate::size::{Extent, Size};
use h5_group::{GroupPlaces, push_links};
use h5_layout::ArrayRef;
use h5_model::{Link, ObjectNo};
use std::alloc::{AllocError, Global};

/// A group's header, and behind it, at the place `at`, its links.
pub(crate) fn push_group(
    alloc: Global,
    out: &mut Vec<u8>,
    layout: &Layout<'_>,
    at: u64,
    places: &GroupPlaces,
    links: &[Link<'_, ObjectNo>],
    others: &Others,
) -> Result<(), AllocError>
    requires k { AreKValues layout.now.k }
    requires layout { IsLowLayout layout.now }
    requires held { (o : StoredObject) × IsGroupObject links.now others.now o
        × IsExtent layout.now.k (length o.chunks) (o.object).content
        (Links places.now) }
    requires low { at + places.now.length ≤ most_bytes }
    requires header { length others.now.bytes ≤ most_bytes }
    ensures { OnOk result
        (out.new.items ≡ out.old.items ++ (group_written at (at + places.now.tree) others.now
        ++ links_bytes layout.now.k.leaf layout.now.k.internal at
        (map (written_at layout.now) (map tree_link links.now)))) }
{
    let new = new_links(alloc, layout, links)?;
    push_group_header(out, at, at + places.tree, others)?;
    push_links(alloc, out, &layout.k, at, places, &new)?;
    Ok(())
}

/// The header of an array to which so many links lead, and behind it, at the place `at`, its data. `chunk_k` is K of the nodes of
/// its chunks.
fn push_array(
    out: &mut Vec<u8>,
    chunk_k: u16,
    at: u64,
    count: u32,
    array: &ArrayRef<'_>,
    cells: &Cells<'_>,
    others: &Others,
) -> Result<(), AllocError>
    requires some { 1 ≤ chunk_k }
    requires most { chunk_k ≤ highest_k }
    requires held { (o : StoredObject) × IsArrayObject array.now cells.now others.now o }
    requires level { root_level chunk_k (length (chunks_of cells.now)) ≤ highest_level }
    requires low { at ≤ most_bytes }
    requires few { length (data_written chunk_k cells.now array.now at) ≤ most_bytes }
    requires header { length others.now.bytes ≤ most_bytes }
    ensures { OnOk result
        ((o : StoredObject) (is : IsArrayObject array.now cells.now others.now o)
        → out.new.items ≡ out.old.items ++ array_at chunk_k at count o is.dataset) }
{
    let address = cells_address(array, cells, at);
    push_array_header(out, array, cells, others, address, count)?;
    let alloc = *out.allocator();
    push_data(alloc, out, chunk_k, array, cells, at)?;
    Ok(())
}

/// The object of this number, to which so many links lead.
fn push_object(
    alloc: Global,
    out: &mut Vec<u8>,
    layout: &Layout<'_>,
    number: usize,
    count: u32,
    object: &NewObject<'_>,
) -> Result<(), AllocError>
    requires k { AreKValues layout.now.k }
    requires layout { IsLowLayout layout.now }
    requires held { (o : StoredObject) × (s : Size) × (slice_get layout.now.sizes.now number ≡ Some s)
        × IsHeldObject object.now o
        × IsSize layout.now.k o s }
    ensures { OnOk result
        ((o : StoredObject) (s : Size) → slice_get layout.now.sizes.now number ≡ Some s
        → IsHeldObject object.now o
        → IsSize layout.now.k o s
        → out.new.items ≡ out.old.items
        ++ laid_object layout.now (header_by layout.now number) count o) }
{
    let size = layout.sizes[number];
    let at = header_place(layout, number) + size.header;
    match &object.content {
        NewContent::Group(links) => match size.extent {
            Extent::Links(places) => {
                push_group(alloc, out, layout, at, &places, links, &object.others)
            }
            Extent::Data(_) => unreachable!(),
        },
        NewContent::Array { array, cells } => {
            push_array(
                out,
                layout.k.chunk_k(),
                at,
                count,
                array,
                cells,
                &object.others,
            )
        }
    }
}

/// The objects of these numbers, with the counts of links that lead to each object.
pub(crate) fn push_objects(
    alloc: Global,
    out: &mut Vec<u8>,
    layout: &Layout<'_>,
    order: &[u32],
    counts: &[u32],
    objects: &[Option<NewObject<'_>>],
) -> Result<(), AllocError>
    requires k { AreKValues layout.now.k }
    requires layout { IsLowLayout layout.now }
    requires filled { AllByRecursion (IsFilled objects.now) order.now }
    requires counted { length counts.now ≡ length objects.now }
    requires held { (listed : List (Option StoredObject)) × AllZip (SlotsHold IsHeldObject) objects.now listed
        × AllZip (IsSlotSize layout.now.k) listed layout.now.sizes.now }
    ensures { OnOk result ((listed : List (Option StoredObject))
        → AllZip (SlotsHold IsHeldObject) objects.now listed
        → AllZip (IsSlotSize layout.now.k) listed layout.now.sizes.now
        → out.new.items ≡ out.old.items ++ flat_map (numbered_at layout.now counts.now listed) order.now) }
{
    for number in order {
        let number = *number as usize;
        let object = objects[number].as_ref().unwrap();
        push_object(alloc, out, layout, number, counts[number], object)?;
    }
    Ok(())
}
