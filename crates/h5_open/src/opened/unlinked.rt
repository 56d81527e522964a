//! Links taken out of a group where it stands, and objects that go with their last link (File Format Specification 3.0, sections III.A.1,
//! III.C and IV.A.1.a).

ghost use Rattle.std.specs.Prelude.{◌≡◌, ◌^◌, ◌<◌, ◌≤◌, IsTrue, OnErr, OnOk, Some, length, slice_get};
ghost use Rattle.std.specs.List.{Contains};
ghost use Rattle.h5_model.specs.Format.Limits.{most_bytes};
ghost use Rattle.h5_model.specs.Format.Symbols.{Target};
ghost use Rattle.h5_space.specs.Whole.{IsApart};
ghost use Rattle.h5_group.specs.Exact.{HasExactKeys};
ghost use Rattle.h5_group.specs.LinkEdits.{IsGroupApart};
ghost use Rattle.h5_group.specs.Told.{links_told};
ghost use Rattle.h5_laws.specs.Trees.Unlinked.{tree_left};
ghost use Rattle.h5_open.specs.ChangedInPlace.{IsChangedInPlace};
ghost use Rattle.h5_open.specs.LinkTaken.{AreCountsLowered, AreHeadersStanding, IsLinkTaken, IsLinkTo, lowered_blocks, touched_below};
ghost use Rattle.h5_open.specs.Opened.Sound.{IsSound};
ghost use Rattle.h5_open.specs.declared.opened.object.OpenedObject.{OpenedObject as Kept};

use super::links::group_table;
use super::losses::losses_of;
use super::{Opened, OpenedObject};
use crate::index::clear_all;
use h5_group::{REMOVAL_CALLS, SymbolTable, remove_link};
use h5_space::Image;
use std::alloc::{AllocError, Global};

impl Opened {
    /// Takes a link out of a group. What no path reaches then goes too: the object to which it was the last hard link, and all below it. Its
    /// blocks are given back, and its number is not used again. An array below to which other links lead stays; its header counts as many
    /// less.
    ///
    /// The link is taken where the group stands, by one way down its tree (`remove_link` of `h5_group`). Of what goes, the links and the
    /// blocks are looked up; nothing else is read. Takes memory for them, and for the free blocks that there may be then, before the first
    /// change. The image keeps its length. A refusal changes nothing.
    ///
    /// That the link leads to this object, or to a text where there is none, is the caller's condition.
    ///
    /// # Errors
    ///
    /// `AllocError` if memory is refused.
    pub fn unlink(
        &mut self,
        alloc: Global,
        parent: u32,
        name: &[u8],
        object: Option<u32>,
    ) -> Result<(), AllocError>
        requires there { IsLinkTo self.old.tree parent name.now object }
        ensures changed { OnOk result (IsChangedInPlace self.old self.new
            (tree_left self.old.tree parent name.now) self.old.next
            (touched_below self.old.tree parent object) 0) }
        ensures sound { IsSound self.new }
        ensures refused { OnErr result (self.new ≡ self.old) }
    {
        let table = group_table(&self.index.objects, parent);
        let losses = losses_of(alloc, &self.image, &self.index, object)?;
        let exact = is_tidy(&self.index.objects, parent);
        take_link(&mut self.image, table, name, exact, losses.blocks.len())?;
        lower_counts(&mut self.image, &self.index.objects, &losses.less);
        losses.blocks.give_all(&mut self.image);
        clear_all(&mut self.index, &losses.gone);
        Ok(())
    }
}

/// Whether the object of this number is known to be tidy. Takes no memory.
fn is_tidy(objects: &[Option<OpenedObject>], number: u32) -> bool
    requires there { (p : Kept) × (slice_get objects.now number ≡ Some (Some p)) }
    ensures { (p : Kept) → slice_get objects.now number ≡ Some (Some p) → result ≡ p.tidy }
{
    objects[number as usize].as_ref().unwrap().tidy
}

/// Takes a link out of a group where it stands, whose keys may be known to be exact, and leaves room for so many calls of `give`. Takes memory for the free blocks that there may
/// be then, before the first change.
fn take_link(
    image: &mut Image,
    table: SymbolTable,
    name: &[u8],
    exact: bool,
    calls: u64,
) -> Result<(), AllocError>
    requires group { IsGroupApart image.old table }
    requires exact { IsTrue exact → HasExactKeys image.old.bytes table }
    requires short { length image.old.bytes ≤ most_bytes }
    requires there { (t : Target) × Contains (links_told image.old.bytes table) (name.now, t) }
    requires few { calls < 2 ^ 63 }
    ensures taken { OnOk result (IsLinkTaken image.old image.new table name.now) }
    ensures room { OnOk result (calls ≤ image.new.room_blocks) }
    ensures refused { OnErr result (image.new ≡ image.old) }
{
    let Ok(()) = image.reserve(0, REMOVAL_CALLS + calls) else {
        return Err(AllocError);
    };
    let Ok(()) = remove_link(image, table, name, exact) else {
        return Err(AllocError);
    };
    Ok(())
}

/// Sets the count of links in the header of each of these objects. Takes no memory.
///
/// These are the caller's conditions: the headers stand in the image, and no two of them share a byte, nor one and a free block.
fn lower_counts(image: &mut Image, objects: &[Option<OpenedObject>], less: &[(u32, u32)])
    requires standing { AreHeadersStanding image.old.bytes objects.now less.now }
    requires apart { IsApart (lowered_blocks objects.now less.now) image.old.free
        (length image.old.bytes) }
    ensures lowered { AreCountsLowered image.old image.new objects.now less.now }
    ensures room { image.new.room_blocks ≡ image.old.room_blocks }
{
    for &(number, left) in less {
        let object = objects[number as usize].as_ref().unwrap();
        object.messages.set_links(image, left);
    }
}
