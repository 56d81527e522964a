//! Links put into a group where it stands (File Format Specification 3.0, sections III.A.1, III.B, III.D and IV.A.1.a).

ghost use Rattle.std.specs.Prelude.{◌≡◌, ◌↔◌, ◌+◌, ◌<◌, ◌≤◌, Err, IsSome, None, OnErr, OnOk, length};
ghost use Rattle.h5_model.specs.Format.Addresses.{SymbolTable};
ghost use Rattle.h5_model.specs.Format.Limits.{most_bytes, most_hard_links};
ghost use Rattle.h5_model.specs.Format.Messages.{prefix_at, reference_count};
ghost use Rattle.h5_model.specs.Format.PlainLength.{link_span};
ghost use Rattle.h5_model.specs.Tree.Links.{tree_link, tree_target};
ghost use Rattle.h5_model.specs.Tree.Objects.{link_in, links_of};
ghost use Rattle.h5_space.specs.Moves.{Moves};
ghost use Rattle.h5_header.specs.Listed.{messages_in};
ghost use Rattle.h5_header.specs.Standing.{IsStanding};
ghost use Rattle.h5_group.specs.Heap.Links.{leads_of};
ghost use Rattle.h5_group.specs.LinkEdits.{IsFullFor, link_room};
ghost use Rattle.h5_laws.specs.Trees.Sound.{IsSoundTree};
ghost use Rattle.h5_open.specs.ChangedInPlace.{IsChangedInPlace};
ghost use Rattle.h5_open.specs.LinkAdded.{IsGroupOf, IsGroupSlot, IsLeadOf, IsLinkTarget, IsTargetSlot, ends_of, with_link};
ghost use Rattle.h5_open.specs.Opened.Sound.{IsSound};

use super::end::write_end;
use super::{Opened, OpenedContent, OpenedObject};
use h5_group::{InsertFault, ObjectPlace, SymbolTable, put_link};
use h5_header::Messages;
use h5_model::{Link, LinkTo, ObjectNo};
use h5_space::{Image, SpaceFault};

impl Opened {
    /// Puts a link into a group, to an array or to a text. An array's header counts it.
    ///
    /// The link is put where the group stands, by one way down its tree (`put_link` of `h5_group`); nothing else is read. Takes memory for
    /// the blocks that it may need, before the first change. A refusal changes nothing.
    ///
    /// These are the caller's conditions: the group has no link of this name; the object is an array of the tree; and the tree with the link
    /// is a sound one.
    ///
    /// # Errors
    ///
    /// `TreeTooDeep` exactly where the root of the group's tree is at level 15, and all on the way to the name is full. Else `Space`:
    /// `ImageFull` where the image has more than 2147483648 bytes with those that a link may take, or `NoMemory`.
    pub fn add_link(&mut self, parent: u32, link: &Link<'_, ObjectNo>) -> Result<(), InsertFault>
        requires group { IsSome (links_of self.old.tree parent) }
        requires free { link_in self.old.tree parent link.now.name.now ≡ None }
        requires target { IsLinkTarget self.old.tree (tree_target link.now.to) }
        requires good { IsSoundTree (with_link self.old.tree parent link.now.name.now
            (tree_target link.now.to)) }
        ensures changed { OnOk result ((table : SymbolTable) → IsGroupOf self.old parent table
            → IsChangedInPlace self.old self.new
            (with_link self.old.tree parent link.now.name.now (tree_target link.now.to)) self.old.next
            (ends_of parent (tree_target link.now.to))
            (link_room self.old.image table (link_span (tree_link link.now)))) }
        ensures sound { IsSound self.new }
        ensures deep { (table : SymbolTable) → IsGroupOf self.old parent table
            → (result ≡ Err InsertFault.TreeTooDeep) ↔ IsFullFor self.old.image table link.now.name.now }
        ensures full { (table : SymbolTable) → IsGroupOf self.old parent table
            → (result ≡ Err (InsertFault.Space SpaceFault.ImageFull))
            ↔ ((IsFullFor self.old.image table link.now.name.now → ⊥)
            × (most_bytes < length self.old.image
            + link_room self.old.image table (link_span (tree_link link.now)))) }
        ensures refused { OnErr result (self.new ≡ self.old) }
    {
        let table = group_table(&self.index.objects, parent);
        let to = place_of(&self.index.objects, link.to);
        let put = Link {
            name: link.name,
            to,
        };
        put_link(&mut self.image, table, &put)?;
        if let LinkTo::Object(number) = link.to {
            let target = self.index.objects[number.0 as usize].as_ref().unwrap();
            count_link(&mut self.image, &target.messages);
        }
        write_end(&mut self.image);
        Ok(())
    }
}

/// The tree and the heap of the group of this number. Takes no memory.
pub(super) fn group_table(objects: &[Option<OpenedObject>], number: u32) -> SymbolTable
    requires there { (table : SymbolTable) × IsGroupSlot objects.now number table }
    ensures table { IsGroupSlot objects.now number result }
{
    match objects[number as usize].as_ref().unwrap().content {
        OpenedContent::Group(table) => table,
        OpenedContent::Array => unreachable!(),
    }
}

/// Where a link leads, an array by the address of its header. Takes no memory.
fn place_of<'a>(
    objects: &[Option<OpenedObject>],
    to: LinkTo<'a, ObjectNo>,
) -> LinkTo<'a, ObjectPlace>
    requires there { IsTargetSlot objects.now to }
    ensures place { IsLeadOf objects.now to.entry (leads_of result) }
{
    match to {
        LinkTo::Object(number) => {
            let object = objects[number.0 as usize].as_ref().unwrap();
            LinkTo::Object(ObjectPlace::Array(object.messages.header()))
        }
        LinkTo::Soft(text) => LinkTo::Soft(text),
    }
}

/// Counts one link more in a header. Takes no memory.
fn count_link(image: &mut Image, messages: &Messages)
    requires standing { IsStanding image.old.bytes messages.now }
    requires few { reference_count (prefix_at image.old.bytes messages.now.header) ≤ most_hard_links + 1 }
    ensures standing { IsStanding image.new.bytes messages.now }
    ensures messages { messages_in image.new.bytes messages.now.list
        ≡ messages_in image.old.bytes messages.now.list }
    ensures count { reference_count (prefix_at image.new.bytes messages.now.header)
        ≡ reference_count (prefix_at image.old.bytes messages.now.header) + 1 }
    ensures moves { Moves image.old image.new messages.now.blocks messages.now.blocks }
    ensures length { length image.new.bytes ≡ length image.old.bytes }
{
    let links = messages.links(image);
    messages.set_links(image, links + 1);
}
