//! Attributes to be set and removed (File Format Specification 3.0, section IV.A.2.m).

ghost use Rattle.std.specs.Prelude.{◌≡◌, ◌≤◌, ◌^◌, Some, None, IfOk, MatchResult};
ghost use Rattle.h5_model.specs.Format.Limits.{most_cells, most_name_bytes};
ghost use Rattle.h5_model.specs.declared.edits.Edit.TheVariants.{SetAttr, RemoveAttr};
ghost use Rattle.h5_model.specs.Format.Fixed.{IsFixed};
ghost use Rattle.h5_model.specs.Tree.Places.{cells};
ghost use Rattle.h5_model.specs.Edits.Refusal.{first_holding};
ghost use Rattle.h5_model.specs.Format.Sizes.{attribute_size};
ghost use Rattle.h5_query.specs.Opened.Sound.{IsSound};
ghost use Rattle.h5_edit.specs.Refusals.Allowed.{IsAt, IsRuledOut};
ghost use Rattle.h5_edit.specs.Refusals.Rules.{own_rules};

use crate::rules::limits::{MAX_BODY, MAX_NAME};
use crate::rules::place::{ObjectAt, object_at};
use crate::rules::text::is_no_text;
use crate::rules::values::are_of_type;
use h5_header::HeaderRef;
use h5_model::{AttrSpec, EditFault};
use h5_query::{Dims, Opened, get};

/// The number of the object whose attribute is to be set. Takes no memory.
///
/// # Errors
///
/// Where several hold, the one with the lowest number:
///
/// - `BadPath`: the bytes are no path.
/// - `PathTooDeep`: the path has more than 64 names.
/// - `NoSuchParent`: a name before the last one is missing.
/// - `NotAGroup`: a name before the last one leads to no group.
/// - `NotFound`: the last name is missing, or a soft link stands there.
/// - `NameTooLong`: the attribute's name has more than 1023 bytes.
/// - `BadSpec`: the attribute's name is empty or has a zero byte, or there are more than 32 sizes.
/// - `TooManyCells`: the product of the sizes, with sizes of 0 left out, is above 2^40.
/// - `ValueCount`: there is not one value for each cell.
/// - `ValueRange`: a value is not one of the type.
/// - `AttributeTooLarge`: the body of the message would have more than 65528 bytes.
pub fn check_set_attr(opened: &Opened, path: &[u8], attr: &AttrSpec) -> Result<u32, EditFault>
    ensures at { let tree = opened.now.tree in
        let next = opened.now.next in
        MatchResult result (IsAt tree next path.now (SetAttr path.now attr.now))
        (IsRuledOut tree next (SetAttr path.now attr.now)) }
    ensures typed { IfOk result (λ _. IsFixed (attr.now).fixed) }
    ensures sound { IsSound opened.now }
{
    let object = object_at(opened, path)?;
    check_own(attr)?;
    Ok(object.number)
}

/// The number of the object whose attribute with this name is to be removed.
///
/// # Errors
///
/// Where several hold, the one with the lowest number:
///
/// - `BadPath`: the bytes are no path.
/// - `PathTooDeep`: the path has more than 64 names.
/// - `NoSuchParent`: a name before the last one is missing.
/// - `NotAGroup`: a name before the last one leads to no group.
/// - `NotFound`: the last name is missing, or a soft link stands there.
/// - `NoSuchAttribute`: the object has no attribute with this name.
pub fn check_remove_attr(opened: &Opened, path: &[u8], name: &[u8]) -> Result<u32, EditFault>
    ensures at { let tree = opened.now.tree in
        let next = opened.now.next in
        MatchResult result (IsAt tree next path.now (RemoveAttr path.now name.now))
        (IsRuledOut tree next (RemoveAttr path.now name.now)) }
    ensures sound { IsSound opened.now }
{
    let ObjectAt {
        number,
        object,
        image,
    } = object_at(opened, path)?;
    match get(&HeaderRef::new(image, &object.messages), name) {
        Some(_) => Ok(number),
        None => Err(EditFault::NoSuchAttribute),
    }
}

/// Why the attribute is refused wherever it is to stand, by the lowest number that holds.
fn check_own(attr: &AttrSpec) -> Result<(), EditFault>
    ensures rules { let rules = own_rules attr.now in
        MatchResult result (λ _. first_holding rules ≡ None) (λ e. first_holding rules ≡ Some e) }
    ensures typed { IfOk result (λ _. IsFixed (attr.now).fixed) }
{
    let name = attr.name.as_slice();
    let values = attr.values.as_slice();
    if name.len() > MAX_NAME {
        return Err(EditFault::NameTooLong);
    }
    let Some(dims) = Dims::new(attr.dims.as_slice()) else {
        return Err(EditFault::BadSpec);
    };
    if is_no_text(name) {
        return Err(EditFault::BadSpec);
    }
    if !dims.is_small() {
        return Err(EditFault::TooManyCells);
    }
    if dims.cells() != values.len() as u64 {
        return Err(EditFault::ValueCount);
    }
    if !are_of_type(&attr.fixed, values) {
        return Err(EditFault::ValueRange);
    }
    if body_length(name.len(), &dims, attr.fixed.size()) > MAX_BODY {
        return Err(EditFault::AttributeTooLarge);
    }
    Ok(())
}

/// How many bytes the body of an attribute's message has, with a name of so many bytes and values of so many.
fn body_length(name: usize, dims: &Dims, size: usize) -> u64
    requires name { name ≤ most_name_bytes }
    requires few { cells dims.now ≤ most_cells }
    requires size { size ≤ 8 }
    ensures { result ≡ attribute_size name dims.now size }
{
    let text = (name as u64 + 8) / 8 * 8;
    let space = 8 + 8 * dims.sizes().len() as u64;
    8 + text + 16 + space + dims.cells() * size as u64
}
