//! Links that are to be taken away (File Format Specification 3.0, sections III.C and IV.A.1.a).

ghost use Rattle.std.specs.Prelude.{◌≡◌, MatchResult};
ghost use Rattle.h5_model.specs.Tree.Objects.{object_of};
ghost use Rattle.h5_model.specs.declared.edits.Edit.TheVariants.{Unlink};
ghost use Rattle.h5_query.specs.Place.{link_at};
ghost use Rattle.h5_edit.specs.Refusals.Allowed.{IsRuledOut};
ghost use Rattle.h5_edit.specs.Refusals.Removed.{IsRemoval};

use h5_model::EditFault;
use h5_query::{Opened, Place, Spot, look_up};

/// What an unlink takes away: the link of this name in the group of this number. It leads to this object, or to a text.
#[derive(Clone, Copy)]
pub struct Removal<'a> {
    pub parent: u32,
    pub name: &'a [u8],
    pub object: Option<u32>,
}

/// What an unlink of the path takes away. Takes no memory.
///
/// # Errors
///
/// Where several hold, the one with the lowest number:
///
/// - `BadPath`: the bytes are no path.
/// - `PathTooDeep`: the path has more than 64 names.
/// - `IsRoot`: the path is `/`.
/// - `NoSuchParent`: a name before the last one is missing.
/// - `NotAGroup`: a name before the last one leads to no group.
/// - `NotFound`: the last name is missing.
pub fn check_unlink<'a>(opened: &Opened, path: &'a [u8]) -> Result<Removal<'a>, EditFault>
    ensures { let tree = opened.now.tree in
        let next = opened.now.next in
        MatchResult result (IsRemoval tree next path.now) (IsRuledOut tree next (Unlink path.now)) }
{
    match look_up(opened, path)? {
        Spot::Root => Err(EditFault::IsRoot),
        Spot::Free { .. } => Err(EditFault::NotFound),
        Spot::Taken {
            parent,
            name,
            place,
        } => Ok(Removal {
            parent,
            name,
            object: object_number(place),
        }),
    }
}

/// The number of the object at this place, or `None` where a text stands there.
fn object_number(place: Place<'_>) -> Option<u32>
    ensures { result ≡ object_of (link_at place.entry) }
{
    match place {
        Place::Object { number, .. } => Some(number),
        Place::Soft(_) => None,
    }
}
