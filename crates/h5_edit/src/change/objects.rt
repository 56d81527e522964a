//! The objects of an opened image, as they are handed to the writer (File Format Specification 3.0, sections III.C and IV.A).

ghost use Rattle.std.specs.Prelude.{◌≡◌, ℕ, IfOk, Some, length};
ghost use Rattle.std.specs.FinMap.{get};
ghost use Rattle.h5_model.specs.Tree.Objects.{Object};
ghost use Rattle.h5_repack.specs.Image.Plain.{ArePlain, IsPlain};
ghost use Rattle.h5_query.specs.Opened.Objects.{object_in};
ghost use Rattle.h5_query.specs.Opened.Sound.{IsObjectOf};
ghost use Rattle.h5_repack.specs.Objects.Objects.{AreObjects, IsNewObject, SlotsHold, content_chunks, slot_chunks, stored_in};
ghost use Rattle.h5_edit.specs.Repacked.{AreStoredAt};

use crate::change::attributes::others_in;
use crate::change::cells::kept_array;
use crate::change::links::links_in;
use h5_header::HeaderRef;
use h5_query::{Opened, OpenedContent, OpenedObject};
use h5_repack::{NewContent, NewObject};
use std::alloc::{AllocError, Global};

/// The objects of the opened image, each in the slot of its number; a number that has no object leaves its slot empty.
///
/// Names, texts, cells and chunks are lent from the image. Takes memory for a reference to each link, for the messages of attributes and
/// kept messages, and for the place of each chunk.
pub(crate) fn opened_objects(
    alloc: Global,
    opened: &Opened,
) -> Result<Vec<Option<NewObject<'_>>>, AllocError>
    requires { ArePlain opened.now.tree }
    ensures objects { IfOk result (λ objects. AreObjects objects.items opened.now.tree) }
    ensures counted { IfOk result (λ objects. length objects.items ≡ opened.now.next) }
    ensures stored { IfOk result (λ objects. (number : ℕ)
        → AreStoredAt opened.now number (stored_in objects.items number)) }
{
    let mut objects = Vec::new(alloc);
    for number in 0..opened.next() {
        objects.push(opened_slot(alloc, opened, number)?)?;
    }
    Ok(objects)
}

/// The object of a number; `None` where no object has the number.
fn opened_slot(
    alloc: Global,
    opened: &Opened,
    number: u32,
) -> Result<Option<NewObject<'_>>, AllocError>
    requires { (o : Object) → get opened.now.tree number ≡ Some o → IsPlain o }
    ensures object { IfOk result (λ slot. SlotsHold IsNewObject slot (get opened.now.tree number)) }
    ensures stored { IfOk result (λ slot. AreStoredAt opened.now number (slot_chunks slot)) }
{
    match opened.object(number) {
        Some(object) => Ok(Some(opened_object(alloc, opened, object)?)),
        None => Ok(None),
    }
}

/// An object of the image.
fn opened_object<'a>(
    alloc: Global,
    opened: &'a Opened,
    object: &'a OpenedObject,
) -> Result<NewObject<'a>, AllocError>
    requires object { (number : ℕ) × IsObjectOf opened.now number object.now }
    requires plain { IsPlain (object_in opened.now.image opened.now.table object.now) }
    ensures object { IfOk result (λ x.
        IsNewObject x (object_in opened.now.image opened.now.table object.now)) }
    ensures stored { IfOk result (λ x. (number : ℕ) → IsObjectOf opened.now number object.now
        → AreStoredAt opened.now number (content_chunks x.content)) }
{
    let header = HeaderRef::new(opened.image(), &object.messages);
    let others = others_in(alloc, &header)?;
    let content = match &object.content {
        OpenedContent::Group(table) => NewContent::Group(links_in(alloc, opened, *table)?),
        OpenedContent::Array => kept_array(alloc, &header)?,
    };
    Ok(NewObject { content, others })
}
