//! The image of a tree.

ghost use Rattle.std.specs.Prelude.{◌≡◌, ◌+◌, ◌<◌, ◌≤◌, ◌^◌, ◌++◌, List, Option, IfOk, IfErr, Some, OnOk, length, slice_get};
ghost use Rattle.std.specs.List.{AllByRecursion, AllZip, flat_map};
ghost use Rattle.h5_model.specs.Format.Limits.{most_bytes};
ghost use Rattle.h5_model.specs.Tree.Objects.{Tree};
ghost use Rattle.h5_model.specs.Format.Superblock.{AreKValues};
ghost use Rattle.h5_repack.specs.Layout.{IsHeldObject, IsLowLayout, IsLowSize, IsSlotSize, StoredObject, front_at, numbered_at};
ghost use Rattle.h5_repack.specs.Objects.Objects.{IsFilled, SlotsHold, stored_in};
ghost use Rattle.h5_repack.specs.Written.{IsTreeToWrite, IsWritten, IsUnwritten};

use crate::group::Layout;
use crate::object::push_objects;
use crate::objects::{NewObject, count_links, met_order};
use crate::place::place_all;
use crate::size::{Extent, Size, measure_all};
use h5_group::{Superblock, length_for, push_superblock};
use h5_model::KValues;
use std::alloc::{AllocError, Global};

/// Why an image is not written.
#[derive(Clone, Copy, PartialEq, Eq, Debug)]
pub enum WriteFault {
    /// It would have more than 2147483648 bytes.
    TooLong,
    /// The tree of a group, or of the chunks of an array, would have more than 16 levels.
    TooDeep,
    /// Memory was refused.
    NoMemory,
}

/// An image, and where the header of each object stands in it: `headers[k]` is the address for object k, `None` for a
/// number without an object.
#[derive(Drop)]
pub struct Written {
    pub image: Vec<u8>,
    pub headers: Vec<Option<u64>>,
}

/// The superblock of an image whose root has this size and which ends there.
fn push_front(
    out: &mut Vec<u8>,
    layout: &Layout<'_>,
    root: &Size,
    end: u64,
) -> Result<(), AllocError>
    requires { IsLowSize root.now }
    ensures { OnOk result (out.new.items ≡ out.old.items ++ front_at layout.now root.now end) }
{
    let begin = length_for(&layout.k);
    let tree = begin + root.header;
    let heap = match root.extent {
        Extent::Links(places) => tree + places.tree,
        Extent::Data(_) => 0,
    };
    let superblock = Superblock {
        k: layout.k,
        end,
        root: begin,
        tree,
        heap,
    };
    push_superblock(out, &superblock)
}

/// The image of the objects of these numbers, which lie so and end there, with the counts of links that lead to each object.
fn image_of(
    alloc: Global,
    layout: &Layout<'_>,
    end: u64,
    order: &[u32],
    counts: &[u32],
    objects: &[Option<NewObject<'_>>],
) -> Result<Vec<u8>, AllocError>
    requires k { AreKValues layout.now.k }
    requires layout { IsLowLayout layout.now }
    requires some { 0 < length layout.now.sizes.now }
    requires end { end ≤ most_bytes }
    requires filled { AllByRecursion (IsFilled objects.now) order.now }
    requires counted { length counts.now ≡ length objects.now }
    requires held { (listed : List (Option StoredObject)) × AllZip (SlotsHold IsHeldObject) objects.now listed
        × AllZip (IsSlotSize layout.now.k) listed layout.now.sizes.now }
    ensures { IfOk result (λ image.
        (listed : List (Option StoredObject)) (root : Size)
        → AllZip (SlotsHold IsHeldObject) objects.now listed
        → AllZip (IsSlotSize layout.now.k) listed layout.now.sizes.now
        → slice_get layout.now.sizes.now 0 ≡ Some root
        → image.items ≡ front_at layout.now root end
        ++ flat_map (numbered_at layout.now counts.now listed) order.now) }
{
    let mut image = Vec::with_capacity(alloc, end as usize)?;
    push_front(&mut image, layout, &layout.sizes[0], end)?;
    push_objects(alloc, &mut image, layout, order, counts, objects)?;
    Ok(image)
}

/// The plain image of the tree of these objects: the whole file written new, without gaps. `objects[k]` is the object
/// with number k; an empty slot is a number without an object, and leaves nothing in the image. `k` has the K values of the image,
/// and so says the version of its superblock: 1 where there is a chunk K, else 0.
///
/// Besides the image it takes memory for a few numbers for each slot; and for the links of one group, or a few
/// numbers for each stored chunk of one array, at a time.
///
/// # Errors
///
/// Where several hold, any of them may be the answer.
///
/// - `TooLong`: the image would have more than 2147483648 bytes.
/// - `TooDeep`: the B-tree of a group or of chunks would have its root above level 15.
/// - `NoMemory`: memory is refused.
pub fn write_tree(
    alloc: Global,
    k: &KValues,
    objects: &[Option<NewObject<'_>>],
) -> Result<Written, WriteFault>
    requires k { AreKValues k.now }
    requires few { length objects.now < 2 ^ 32 }
    requires tree { (tree : Tree) × IsTreeToWrite objects.now tree }
    ensures written { IfOk result (λ w.
        (tree : Tree) → IsTreeToWrite objects.now tree
        → IsWritten k.now (stored_in objects.now) tree w) }
    ensures numbered { IfOk result (λ w. length w.headers.items ≡ length objects.now) }
    ensures refused { IfErr result (λ fault.
        (tree : Tree) → IsTreeToWrite objects.now tree
        → IsUnwritten k.now (stored_in objects.now) tree fault) }
{
    let Ok(order) = met_order(alloc, objects) else {
        return Err(WriteFault::NoMemory);
    };
    let Ok(counts) = count_links(alloc, objects) else {
        return Err(WriteFault::NoMemory);
    };
    let sizes = measure_all(alloc, k, objects)?;
    let placed = place_all(alloc, k, &order, &sizes)?;
    let layout = Layout {
        k: *k,
        headers: &placed.headers,
        sizes: &sizes,
    };
    let Ok(image) = image_of(alloc, &layout, placed.end, &order, &counts, objects) else {
        return Err(WriteFault::NoMemory);
    };
    Ok(Written {
        image,
        headers: placed.headers,
    })
}
