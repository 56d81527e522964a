//! The attributes of the object at a path (File Format Specification 3.0, section IV.A.2.m).

ghost use Rattle.std.specs.Prelude.{◌≡◌, Some, MatchResult, map};
ghost use Rattle.h5_header.specs.Listed.{Listed, header_told};
ghost use Rattle.h5_model.specs.Edits.Refusal.{first_holding};
ghost use Rattle.h5_model.specs.Scripts.Reading.{attribute_rules};
ghost use Rattle.h5_query.specs.Kept.{IsHeaderThere};
ghost use Rattle.h5_query.specs.Look.{HasAttribute, HasAttributeNames, HasAttributesOf, IsUnlisted};
ghost use Rattle.h5_query.specs.Place.{IsNoObject};

use crate::place::{Place, look};
use h5_header::HeaderRef;
use h5_model::EditFault;
use h5_open::{AttrRef, Opened, get, list, sorted};
use std::alloc::Global;

/// The names of the attributes of the object at the path, in ascending order of their bytes.
///
/// # Errors
///
/// Those of [`crate::look`]; `NotFound` if a soft link stands at the path; last, `NoMemory`: memory is refused. No other
/// refusal holds then.
pub fn names_of_attributes<'a>(
    alloc: Global,
    opened: &'a Opened,
    path: &[u8],
) -> Result<Vec<&'a [u8]>, EditFault>
    ensures { let tree = opened.now.tree in
        MatchResult result (λ names.
        HasAttributeNames tree path.now (map (λ name. name.now) names.items)) (IsUnlisted tree path.now) }
{
    match list(alloc, &header_at(opened, path)?) {
        Ok(names) => Ok(names),
        Err(_) => Err(EditFault::NoMemory),
    }
}

/// The attributes of the object at the path, in ascending order of the bytes of their names.
///
/// # Errors
///
/// Those of [`names_of_attributes`].
pub fn attributes_at<'a>(
    alloc: Global,
    opened: &'a Opened,
    path: &[u8],
) -> Result<Vec<AttrRef<'a>>, EditFault>
    ensures { let tree = opened.now.tree in
        MatchResult result (λ list. HasAttributesOf tree path.now list.items) (IsUnlisted tree path.now) }
{
    match sorted(alloc, &header_at(opened, path)?) {
        Ok(attributes) => Ok(attributes),
        Err(_) => Err(EditFault::NoMemory),
    }
}

/// The attribute with this name of the object at the path. Takes no memory.
///
/// # Errors
///
/// Those of [`crate::number_at`]; then `NoSuchAttribute` if the object has no attribute with this name.
pub fn one_attribute<'a>(
    opened: &'a Opened,
    path: &[u8],
    name: &[u8],
) -> Result<AttrRef<'a>, EditFault>
    ensures { let tree = opened.now.tree in
        MatchResult result (HasAttribute tree path.now name.now) (λ e.
        first_holding (attribute_rules tree path.now name.now) ≡ Some e) }
{
    match get(&header_at(opened, path)?, name) {
        Some(attribute) => Ok(attribute),
        None => Err(EditFault::NoSuchAttribute),
    }
}

/// The header of the object at the path.
fn header_at<'a>(opened: &'a Opened, path: &[u8]) -> Result<HeaderRef<'a>, EditFault>
    ensures { let f = opened.now in
        MatchResult result (λ header. (m : Listed)
        × IsHeaderThere f.image f.tree path.now m
        × (header ≡ header_told f.image m)) (IsNoObject f.tree path.now) }
{
    match look(opened, path)? {
        Place::Object { object, .. } => Ok(HeaderRef::new(opened.image(), &object.messages)),
        Place::Soft(_) => Err(EditFault::NotFound),
    }
}
