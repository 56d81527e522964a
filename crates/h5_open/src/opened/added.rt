//! Objects added to an opened image where it stands (File Format Specification 3.0, sections III.A.1, III.C, III.D and IV.A).

ghost use Rattle.std.specs.Prelude.{◌≡◌, ◌↔◌, ◌+◌, ◌<◌, ◌≤◌, ◌∷◌, ◌++◌, [], Err, IsSome, IsTrue, List, MatchOption, None, OnErr, OnOk, Some, length};
ghost use Rattle.std.specs.BTreeMap.{Updates};
ghost use Rattle.std.specs.Ordering.{nat_cmp};
ghost use Rattle.h5_bytes.specs.Blocks.{block};
ghost use Rattle.h5_bytes.specs.Bytes.{part};
ghost use Rattle.h5_model.specs.Format.Addresses.{SymbolTable};
ghost use Rattle.h5_model.specs.Format.Limits.{most_bytes, most_numbers};
ghost use Rattle.h5_model.specs.Format.Messages.{Message};
ghost use Rattle.h5_model.specs.Format.Sizes.{text_span};
ghost use Rattle.h5_model.specs.Tree.Objects.{Object, link_in, links_of};
ghost use Rattle.h5_model.specs.Tree.Paths.{is_name};
ghost use Rattle.h5_space.specs.Lending.{with_bytes_at};
ghost use Rattle.h5_space.specs.Moves.{Moves, Spends};
ghost use Rattle.h5_space.specs.Space.{Space, next_place};
ghost use Rattle.h5_header.specs.Laid.{IsHeaderBytes};
ghost use Rattle.h5_group.specs.Heap.Links.{leads_of, object_leads};
ghost use Rattle.h5_group.specs.LinkEdits.{IsFullFor, IsGroupApart, link_room};
ghost use Rattle.h5_group.specs.Links.{HasNone};
ghost use Rattle.h5_laws.specs.Trees.Sound.{IsSoundTree};
ghost use Rattle.h5_open.specs.declared.opened.object.OpenedObject.{OpenedObject as Kept};
ghost use Rattle.h5_open.specs.ChangedInPlace.{IsChangedInPlace};
ghost use Rattle.h5_open.specs.LinkAdded.{IsGroupOf};
ghost use Rattle.h5_open.specs.ObjectAdded.{IsKeptFor, IsObjectStored, IsOfType, IsToBeMade, stored_content, lead_at, object_bytes, place_in, tree_with};
ghost use Rattle.h5_open.specs.Opened.Sound.{IsSound};

use super::end::write_end;
use super::links::group_table;
use super::{Opened, OpenedContent, OpenedObject};
use crate::index::{Index, keep};
use h5_group::{InsertFault, ObjectPlace, SymbolTable, is_too_deep, put_reserved, reserve_link};
use h5_header::Messages;
use h5_layout::fill_stored;
use h5_model::{Fixed, Link, LinkTo};
use h5_space::{Image, MAXIMUM_IMAGE, SpaceFault};
use std::alloc::{AllocError, Global};

/// What stands behind the header of an object that is to be made.
#[derive(Clone, Copy)]
pub enum ContentBytes<'a> {
    /// A group without links: the bytes of its tree and its heap, which will stand at these addresses.
    Group {
        table: SymbolTable,
        bytes: &'a [u8],
    },
    /// An array: so many cells of this type in one block, each the fill; 0 where none is stored there.
    Cells {
        fixed: Fixed,
        fill: i128,
        count: u64,
    },
}

/// An object without links that is to be made, as its bytes will be in the image.
#[derive(Clone, Copy)]
pub struct ObjectBytes<'a> {
    /// Its header, in one block.
    pub header: &'a [u8],
    /// What stands behind the header.
    pub content: ContentBytes<'a>,
}

impl Opened {
    /// Where an object of so many bytes will stand that is added next; `None` where the image has more than 2147483648 bytes with them.
    /// Takes no memory.
    ///
    /// That it has some is the caller's condition.
    pub fn place_for(&self, len: u64) -> Option<u64>
        requires some { 0 < len }
        ensures place { MatchOption result (most_bytes < length self.now.image + len)
            (λ at. (at ≡ place_in self.now len) × (at + len ≤ most_bytes)) }
        ensures sound { IsSound self.now }
    {
        let at = self.image.place_for(len);
        if at > MAXIMUM_IMAGE || len > MAXIMUM_IMAGE - at {
            return None;
        }
        Some(at)
    }

    /// Whether a link of this name would make the tree of a group too deep: its root is at level 15, and all on the way to the name is full.
    /// Takes no memory.
    ///
    /// That there is a group of this number is the caller's condition.
    pub fn is_too_deep(&self, parent: u32, name: &[u8]) -> bool
        requires group { IsSome (links_of self.now.tree parent) }
        ensures deep { (table : SymbolTable) → IsGroupOf self.now parent table
            → IsTrue result ↔ IsFullFor self.now.image table name.now }
    {
        let table = group_table(&self.index.objects, parent);
        is_too_deep(&self.image, table, name)
    }

    /// Makes an object, and puts a link to it into a group. The object has the next number.
    ///
    /// Its bytes come into one block, at the place that `place_for` gives; the link is put where the group stands, by one way down its tree;
    /// nothing else is read. Takes memory for what is kept of the object, and for the blocks that may be needed, before the first change. A
    /// refusal changes nothing.
    ///
    /// These are the caller's conditions: the group has no link of this name; the bytes are an object without links wherever they stand at
    /// that place (`IsToBeMade`); the tree with the object is a sound one; and there is a number left.
    ///
    /// # Errors
    ///
    /// `TreeTooDeep` exactly where the root of the group's tree is at level 15, and all on the way to the name is full. Else `Space`:
    /// `ImageFull` where the image has more than 2147483648 bytes with the object's and with those that a link may take, or `NoMemory`.
    pub fn add_object(
        &mut self,
        alloc: Global,
        parent: u32,
        name: &[u8],
        object: &ObjectBytes<'_>,
    ) -> Result<(), InsertFault>
        requires group { IsSome (links_of self.old.tree parent) }
        requires free { link_in self.old.tree parent name.now ≡ None }
        requires few { self.old.next < most_numbers }
        requires good { (o : Object) × IsToBeMade self.old object.now o
            × IsSoundTree (tree_with self.old.tree parent name.now self.old.next o) }
        ensures changed { OnOk result ((table : SymbolTable) (o : Object) → IsGroupOf self.old parent table
            → IsToBeMade self.old object.now o
            → IsSoundTree (tree_with self.old.tree parent name.now self.old.next o)
            → IsChangedInPlace self.old self.new (tree_with self.old.tree parent name.now self.old.next o)
            (self.old.next + 1) (self.old.next ∷ parent ∷ [])
            (link_room self.old.image table (text_span name.now) + length (object_bytes object.now))) }
        ensures sound { IsSound self.new }
        ensures deep { (table : SymbolTable) → IsGroupOf self.old parent table
            → (result ≡ Err InsertFault.TreeTooDeep) ↔ IsFullFor self.old.image table name.now }
        ensures full { (table : SymbolTable) → IsGroupOf self.old parent table
            → (result ≡ Err (InsertFault.Space SpaceFault.ImageFull))
            ↔ ((IsFullFor self.old.image table name.now → ⊥)
            × (most_bytes < length self.old.image
            + (link_room self.old.image table (text_span name.now) + length (object_bytes object.now)))) }
        ensures refused { OnErr result (self.new ≡ self.old) }
    {
        let table = group_table(&self.index.objects, parent);
        let len = object.header.len() as u64 + content_length(&object.content);
        let at = self.image.place_for(len);
        let link = Link {
            name,
            to: LinkTo::Object(place_of(&object.content, at)),
        };
        reserve_link(&mut self.image, table, &link, len, 1)?;
        let Ok(()) = keep_laid(&mut self.index, alloc, at, object) else {
            return Err(InsertFault::Space(SpaceFault::NoMemory));
        };
        put_object(&mut self.image, table, &link, len, object);
        Ok(())
    }
}

/// How many bytes stand behind the header.
fn content_length(content: &ContentBytes<'_>) -> u64
    requires low { length (stored_content content.now) ≤ most_bytes }
    ensures { result ≡ length (stored_content content.now) }
{
    match content {
        ContentBytes::Group { bytes, .. } => bytes.len() as u64,
        ContentBytes::Cells { fixed, count, .. } => count * fixed.size() as u64,
    }
}

/// Where a link to the object leads, whose header will stand at `at`.
fn place_of(content: &ContentBytes<'_>, at: u64) -> ObjectPlace
    ensures { object_leads result ≡ lead_at at content.now }
{
    match *content {
        ContentBytes::Group { table, .. } => ObjectPlace::Group {
            header: at,
            tree: table.tree(),
            heap: table.heap(),
        },
        ContentBytes::Cells { .. } => ObjectPlace::Array(at),
    }
}

/// Keeps what will be kept of the object, whose header will stand at `at`, under the next number.
///
/// # Errors
///
/// `AllocError` if memory is refused. Then nothing changes.
fn keep_laid(
    index: &mut Index,
    alloc: Global,
    at: u64,
    object: &ObjectBytes<'_>,
) -> Result<(), AllocError>
    requires few { length index.old.objects.items < most_numbers }
    requires header { (ms : List Message) × IsHeaderBytes object.now.header.now at ms }
    requires low { at + length object.now.header.now ≤ most_bytes }
    ensures kept { OnOk result ((o : Kept) × IsKeptFor at object.now o
        × (index.new.objects.items ≡ index.old.objects.items ++ Some o ∷ [])) }
    ensures numbers { OnOk result (Updates nat_cmp index.old.numbers index.new.numbers at
        (Some (length index.old.objects.items))) }
    ensures same_slots { OnErr result (index.new.objects.items ≡ index.old.objects.items) }
    ensures same_numbers { OnErr result (index.new.numbers.entries ≡ index.old.numbers.entries) }
{
    let messages = Messages::laid(alloc, at, object.header)?;
    // Without bytes behind the header there are no chunks, and a group without links has one key alone.
    let (content, tidy) = match object.content {
        ContentBytes::Group { table, .. } => (OpenedContent::Group(table), true),
        ContentBytes::Cells { count, .. } => (OpenedContent::Array, count == 0),
    };
    keep(
        index,
        OpenedObject {
            messages,
            content,
            tidy,
        },
    )
}

/// Takes a block for the object and writes it there, puts the link to it into a group, and writes where the image ends, in room that was
/// reserved. Takes no memory.
fn put_object(
    image: &mut Image,
    table: SymbolTable,
    link: &Link<'_, ObjectPlace>,
    len: u64,
    object: &ObjectBytes<'_>,
)
    requires group { IsGroupApart image.old table }
    requires new_name { HasNone image.old.bytes table link.now.name.now }
    requires named { IsTrue (is_name link.now.name.now) }
    requires lead { leads_of link.now.to ≡ lead_at (next_place len image.old) object.now.content }
    requires roomy { IsFullFor image.old.bytes table link.now.name.now → ⊥ }
    requires size { len ≡ length (object_bytes object.now) }
    requires of_type { IsOfType object.now.content }
    requires bytes { link_room image.old.bytes table (text_span link.now.name.now) + len
        ≤ image.old.room_bytes }
    requires calls { 21 ≤ image.old.room_blocks }
    requires short { length image.old.bytes
        + (link_room image.old.bytes table (text_span link.now.name.now) + len) ≤ most_bytes }
    ensures stored { (taken : Space) × (linked : Space) × IsObjectStored image.old taken linked image.new
        table link.now.name.now (next_place len image.old) object.now }
    ensures grown { length image.new.bytes ≤ length image.old.bytes
        + (link_room image.old.bytes table (text_span link.now.name.now) + len) }
{
    write_object(image, len, object);
    put_reserved(image, table, link);
    write_end(image);
}

/// Takes a block for the object, in room that was reserved, and writes it there. Takes no memory.
fn write_object(image: &mut Image, len: u64, object: &ObjectBytes<'_>)
    requires size { len ≡ length (object_bytes object.now) }
    requires of_type { IsOfType object.now.content }
    requires bytes { len ≤ image.old.room_bytes }
    requires calls { 1 ≤ image.old.room_blocks }
    requires short { length image.old.bytes + len ≤ most_bytes }
    ensures took { Moves image.old image.new [] (block (next_place len image.old) len ∷ []) }
    ensures there { part (next_place len image.old) len image.new.bytes ≡ object_bytes object.now }
    ensures inside { next_place len image.old + len ≤ length image.new.bytes }
    ensures spends { Spends image.old image.new len 1 }
{
    let at = image.take(len);
    write_bytes(image, at, object.header);
    let behind = at + object.header.len() as u64;
    match &object.content {
        ContentBytes::Group { bytes, .. } => write_bytes(image, behind, bytes),
        ContentBytes::Cells { fixed, fill, count } => {
            fill_stored(image, fixed, behind, *fill, *count)
        }
    }
}

/// Writes bytes from this address on. Takes no memory.
fn write_bytes(image: &mut Image, at: u64, bytes: &[u8])
    requires inside { at + length bytes.now ≤ length image.old.bytes }
    ensures { image.new ≡ with_bytes_at image.old at bytes.now }
{
    image
        .part_at_mut(at, bytes.len() as u64)
        .copy_from_slice(bytes);
}
