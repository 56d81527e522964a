//! Attributes set and removed where their object's header stands (File Format Specification 3.0, section IV.A.2.m).

ghost use Rattle.std.specs.Prelude.{◌≡◌, MatchResult};
ghost use Rattle.h5_model.specs.declared.edits.Edit.TheVariants.{SetAttr, RemoveAttr};
ghost use Rattle.h5_edit.specs.Carried.{IsRefused};
ghost use Rattle.h5_edit.specs.Edited.{IsEdited};

use crate::rules::{check_remove_attr, check_set_attr};
use h5_header::AddFault;
use h5_model::{AttrSpec, EditFault, Edited, ObjectNo};
use h5_query::{Opened, new_body};
use std::alloc::Global;

/// Sets an attribute of the object at the path: adds it, or puts it in place of the attribute with the same name.
///
/// Only the object's header changes, which keeps its address. Where no NIL message of it is large enough, a block is taken for the new
/// message, and one that moves there.
///
/// # Errors
///
/// Those of [`check_set_attr`]; then the first of these that holds. A refusal changes nothing.
///
/// - `HeaderFull`: the header has 65534 messages or more.
/// - `ImageFull`: the image, the body of the message and 32 bytes are more than 2147483648 bytes.
/// - `NoMemory`: memory is refused. It may come in place of `HeaderFull` and `ImageFull`.
pub fn set_attr(
    alloc: Global,
    opened: &mut Opened,
    path: &[u8],
    attr: &AttrSpec,
) -> Result<Edited, EditFault>
    ensures { MatchResult result (IsEdited opened.old (SetAttr path.now attr.now) opened.new) (λ e.
        IsRefused opened.old (SetAttr path.now attr.now) e × (opened.new ≡ opened.old)) }
{
    let number = check_set_attr(opened, path, attr)?;
    let body = new_body(alloc, attr)?;
    match opened.set_attribute(number, &body) {
        Ok(()) => Ok(Edited {
            object: Some(ObjectNo(number)),
            refreshed: 0,
        }),
        Err(AddFault::HeaderFull) => Err(EditFault::HeaderFull),
        Err(AddFault::ImageFull) => Err(EditFault::ImageFull),
        Err(AddFault::NoMemory) => Err(EditFault::NoMemory),
    }
}

/// Removes the attribute with this name from the object at the path. Its message becomes NIL, and the image keeps its length. Takes no
/// memory.
///
/// # Errors
///
/// Those of [`check_remove_attr`]. A refusal changes nothing.
pub fn remove_attr(opened: &mut Opened, path: &[u8], name: &[u8]) -> Result<Edited, EditFault>
    ensures { MatchResult result (IsEdited opened.old (RemoveAttr path.now name.now) opened.new) (λ e.
        IsRefused opened.old (RemoveAttr path.now name.now) e × (opened.new ≡ opened.old)) }
{
    let number = check_remove_attr(opened, path, name)?;
    opened.remove_attribute(number, name);
    Ok(Edited {
        object: Some(ObjectNo(number)),
        refreshed: 0,
    })
}
