//! Looks at a path: groups are gone through name by name (File Format Specification 3.0, sections III.B and IV.A.2.r).

ghost use Rattle.std.specs.Prelude.{◌≡◌, MatchResult};
ghost use Rattle.h5_query.specs.Names.{parts};
ghost use Rattle.h5_query.specs.Place.{IsPathPlace, IsNowhere, IsNumber, IsNoObject, IsSpotOf, IsNoSpot};
ghost use Rattle.h5_query.specs.Steps.{IsReached, IsLost};

use crate::path::{MAX_DEPTH, count_names, cut};
use crate::step::{Step, follow_name, root_place};
use h5_model::{EditFault, ObjectNo};
use h5_open::{Opened, OpenedObject};

/// What stands at a path of an opened image.
#[derive(Clone, Copy)]
pub enum Place<'a> {
    /// An object, with its number.
    Object {
        number: u32,
        object: &'a OpenedObject,
    },
    /// A soft link, with its text.
    Soft(&'a [u8]),
}

/// What a path leads to. Its last name may be missing.
#[derive(Clone, Copy)]
pub enum Spot<'a, 'p> {
    /// The path has no name.
    Root,
    /// The group of the number `parent` has a link of the last name, which leads to `place`.
    Taken {
        parent: u32,
        name: &'p [u8],
        place: Place<'a>,
    },
    /// The group of the number `parent` has no link of the last name.
    Free {
        parent: u32,
        name: &'p [u8],
    },
}

/// Looks a path up. Its last name may be missing. A soft link is not followed. Takes no memory.
///
/// # Errors
///
/// Why no group stands before the last name. The one with the lowest number that holds:
///
/// - `BadPath`: the bytes are no path.
/// - `PathTooDeep`: the path has more than 64 names.
/// - `NoSuchParent`: a name before the last one is missing.
/// - `NotAGroup`: a name before the last one leads to no group.
pub fn look_up<'a, 'p>(opened: &'a Opened, path: &'p [u8]) -> Result<Spot<'a, 'p>, EditFault>
    ensures { let tree = opened.now.tree in
        MatchResult result (IsSpotOf opened.now path.now) (IsNoSpot tree path.now) }
{
    match count_names(path) {
        None => Err(EditFault::BadPath),
        Some(0) => Ok(Spot::Root),
        Some(count) if count > MAX_DEPTH => Err(EditFault::PathTooDeep),
        Some(_) => follow(opened, &path[1..]),
    }
}

/// Looks a path up. A soft link is not followed. Takes no memory.
///
/// # Errors
///
/// Those of [`look_up`], and `NotFound` if the last name is missing. Where several hold, the one with the lowest
/// number.
pub fn look<'a>(opened: &'a Opened, path: &[u8]) -> Result<Place<'a>, EditFault>
    ensures { let tree = opened.now.tree in
        MatchResult result (IsPathPlace opened.now path.now) (IsNowhere tree path.now) }
{
    match look_up(opened, path)? {
        Spot::Root => Ok(root_place(opened)),
        Spot::Taken { place, .. } => Ok(place),
        Spot::Free { .. } => Err(EditFault::NotFound),
    }
}

/// The number of the object at the path. Takes no memory.
///
/// # Errors
///
/// Those of [`look`], and `NotFound` if a soft link stands at the path.
pub fn number_at(opened: &Opened, path: &[u8]) -> Result<ObjectNo, EditFault>
    ensures { let tree = opened.now.tree in
        MatchResult result (λ number. IsNumber tree path.now number.0) (IsNoObject tree path.now) }
{
    match look(opened, path)? {
        Place::Object { number, .. } => Ok(ObjectNo(number)),
        Place::Soft(_) => Err(EditFault::NotFound),
    }
}

/// Follows the names of a text, which stand between its slashes, from the root.
fn follow<'a, 'p>(opened: &'a Opened, text: &'p [u8]) -> Result<Spot<'a, 'p>, EditFault>
    ensures { let tree = opened.now.tree in
        MatchResult result (IsReached opened.now (parts text.now))
        (IsLost tree (parts text.now)) }
{
    let mut place = root_place(opened);
    let mut names = text;
    loop {
        let (name, others) = cut(names);
        match (follow_name(opened, place, name), others) {
            (Step::NoGroup, _) => return Err(EditFault::NotAGroup),
            (Step::Missing { .. }, Some(_)) => return Err(EditFault::NoSuchParent),
            (Step::Missing { parent }, None) => return Ok(Spot::Free { parent, name }),
            (Step::To { parent, place }, None) => {
                return Ok(Spot::Taken {
                    parent,
                    name,
                    place,
                });
            }
            (Step::To { place: next, .. }, Some(rest)) => {
                place = next;
                names = rest;
            }
        }
    }
}
