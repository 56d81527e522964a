//! Where a new link is to stand, and the object at a path.

ghost use Rattle.std.specs.Prelude.{◌≡◌, nat_le, MatchResult};
ghost use Rattle.h5_model.specs.Format.Limits.{most_numbers};
ghost use Rattle.h5_query.specs.Opened.Sound.{IsSound};
ghost use Rattle.h5_query.specs.Place.{IsNoObject};
ghost use Rattle.h5_edit.specs.Refusals.Rules.{IsFreePlace, IsNotFree, IsObject, lower_fault};

use crate::rules::limits::{MAX_NAME, MAX_OBJECTS};
use h5_model::EditFault;
use h5_query::{Opened, OpenedObject, Place, Spot, look, look_up};
use h5_space::Image;

/// A place for a new link: the number of the group, and the name.
#[derive(Clone, Copy)]
pub struct NewPlace<'a> {
    pub parent: u32,
    pub name: &'a [u8],
}

/// An object that stands at a path: its number, what is kept of it, and the image in which it stands.
#[derive(Clone, Copy)]
pub(crate) struct ObjectAt<'a> {
    pub(crate) number: u32,
    pub(crate) object: &'a OpenedObject,
    pub(crate) image: &'a Image,
}

/// Where a new link at the path is to stand, or the lowest number of why none can: `BadPath`, `PathTooDeep`, `IsRoot`, `NoSuchParent`,
/// `NotAGroup`, `AlreadyThere`, or `NameTooLong` above 1023 bytes.
pub(crate) fn new_place<'a>(opened: &Opened, path: &'a [u8]) -> Result<NewPlace<'a>, EditFault>
    ensures { let tree = opened.now.tree in
        MatchResult result (IsFreePlace tree path.now) (IsNotFree tree path.now) }
{
    match look_up(opened, path)? {
        Spot::Root => Err(EditFault::IsRoot),
        Spot::Taken { .. } => Err(EditFault::AlreadyThere),
        Spot::Free { name, .. } if name.len() > MAX_NAME => Err(EditFault::NameTooLong),
        Spot::Free { parent, name } => Ok(NewPlace { parent, name }),
    }
}

/// The object at the path, or the lowest number of why none stands there: `BadPath`, `PathTooDeep`, `NoSuchParent`,
/// `NotAGroup`, or `NotFound` also where a soft link does.
pub(crate) fn object_at<'a>(opened: &'a Opened, path: &[u8]) -> Result<ObjectAt<'a>, EditFault>
    ensures found { let f = opened.now in
        MatchResult result (IsObject f path.now) (IsNoObject f.tree path.now) }
    ensures sound { IsSound opened.now }
{
    let image = opened.image();
    match look(opened, path)? {
        Place::Object { number, object } => Ok(ObjectAt {
            number,
            object,
            image,
        }),
        Place::Soft(_) => Err(EditFault::NotFound),
    }
}

/// Whether all numbers of objects are given out.
pub(crate) fn is_full(opened: &Opened) -> bool
    ensures { result ≡ nat_le most_numbers opened.now.next }
{
    opened.next() == MAX_OBJECTS
}

/// The fault with the lower number.
pub(crate) fn lower(one: EditFault, other: EditFault) -> EditFault
    ensures { result ≡ lower_fault one other }
{
    if one.number() <= other.number() {
        one
    } else {
        other
    }
}
