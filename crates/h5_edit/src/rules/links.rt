//! New groups and links (File Format Specification 3.0, section III.C).

ghost use Rattle.std.specs.Prelude.{◌≡◌, Some, None, MatchResult};
ghost use Rattle.h5_model.specs.declared.edits.Edit.TheVariants.{CreateGroup, HardLink, SoftLink};
ghost use Rattle.h5_model.specs.Edits.Refusal.{first_holding};
ghost use Rattle.h5_query.specs.Opened.Sound.{IsObjectOf};
ghost use Rattle.h5_edit.specs.Refusals.Allowed.{IsPlaceAllowed, IsLinkPlaced, IsRuledOut};
ghost use Rattle.h5_edit.specs.Refusals.Rules.{is_text_fault, path_fault, target_rules};

use crate::rules::limits::MAX_NAME;
use crate::rules::place::{NewPlace, ObjectAt, is_full, lower, new_place, object_at};
use crate::rules::text::is_no_text;
use h5_model::EditFault;
use h5_query::{MAX_LINKS, Opened, OpenedContent, OpenedObject};

/// Where a new group at the path is to stand.
///
/// # Errors
///
/// Where several hold, the one with the lowest number:
///
/// - `BadPath`: the bytes are no path.
/// - `PathTooDeep`: the path has more than 64 names.
/// - `IsRoot`: the path is `/`.
/// - `NoSuchParent`: a name before the last one is missing.
/// - `NotAGroup`: a name before the last one leads to no group.
/// - `AlreadyThere`: the group has a link of the last name already.
/// - `NameTooLong`: the last name has more than 1023 bytes.
/// - `TooManyObjects`: no object number is left.
pub fn check_create_group<'a>(opened: &Opened, path: &'a [u8]) -> Result<NewPlace<'a>, EditFault>
    ensures { let tree = opened.now.tree in
        let next = opened.now.next in
        MatchResult result (IsPlaceAllowed tree next path.now (CreateGroup path.now))
        (IsRuledOut tree next (CreateGroup path.now)) }
{
    let place = new_place(opened, path)?;
    if is_full(opened) {
        return Err(EditFault::TooManyObjects);
    }
    Ok(place)
}

/// The number of the object to which a new hard link at `path` is to lead, and where the link is to stand.
///
/// # Errors
///
/// Where several hold, the one with the lowest number:
///
/// - `BadPath`: the bytes of one of the paths are no path.
/// - `PathTooDeep`: a path has more than 64 names.
/// - `IsRoot`: `path` is `/`.
/// - `NoSuchParent`: a name before the last one of a path is missing.
/// - `NotAGroup`: a name before the last one of a path leads to no group.
/// - `NotFound`: nothing stands at `target`, or a soft link.
/// - `AlreadyThere`: the group has a link of the last name already.
/// - `NameTooLong`: the last name of `path` has more than 1023 bytes.
/// - `GroupLink`: a group stands at `target`.
/// - `TooManyLinks`: 65535 hard links lead to the array already.
pub fn check_hard_link<'a>(
    opened: &Opened,
    target: &[u8],
    path: &'a [u8],
) -> Result<(u32, NewPlace<'a>), EditFault>
    ensures { let tree = opened.now.tree in
        let next = opened.now.next in
        MatchResult result (IsLinkPlaced tree next target.now path.now (HardLink target.now path.now))
        (IsRuledOut tree next (HardLink target.now path.now)) }
{
    match (object_at(opened, target), new_place(opened, path)) {
        (Ok(ObjectAt { number, object, .. }), Ok(place)) => {
            check_target(opened, number, object)?;
            Ok((number, place))
        }
        (Ok(_), Err(fault)) => Err(fault),
        (Err(fault), Ok(_)) => Err(fault),
        (Err(of_target), Err(of_path)) => Err(lower(of_target, of_path)),
    }
}

/// Whether one more hard link may lead to the object of this number: `GroupLink` to a group, `TooManyLinks` where as many lead there as
/// can.
fn check_target(opened: &Opened, number: u32, object: &OpenedObject) -> Result<(), EditFault>
    requires { IsObjectOf opened.now number object.now }
    ensures { let rules = target_rules opened.now.tree number in
        MatchResult result (λ _. first_holding rules ≡ None) (λ e. first_holding rules ≡ Some e) }
{
    match object.content {
        OpenedContent::Group(_) => Err(EditFault::GroupLink),
        OpenedContent::Array => {
            if object.messages.links(opened.image()) >= MAX_LINKS {
                return Err(EditFault::TooManyLinks);
            }
            Ok(())
        }
    }
}

/// Where a new soft link with this text is to stand.
///
/// # Errors
///
/// Where several hold, the one with the lowest number:
///
/// - `BadPath`: the bytes are no path; or the text is empty, or has a zero byte.
/// - `PathTooDeep`: the path has more than 64 names.
/// - `IsRoot`: the path is `/`.
/// - `NoSuchParent`: a name before the last one is missing.
/// - `NotAGroup`: a name before the last one leads to no group.
/// - `AlreadyThere`: the group has a link of the last name already.
/// - `NameTooLong`: the last name, or the text, has more than 1023 bytes.
pub fn check_soft_link<'a>(
    opened: &Opened,
    text: &[u8],
    path: &'a [u8],
) -> Result<NewPlace<'a>, EditFault>
    ensures { let tree = opened.now.tree in
        let next = opened.now.next in
        MatchResult result (IsPlaceAllowed tree next path.now (SoftLink text.now path.now))
        (IsRuledOut tree next (SoftLink text.now path.now)) }
{
    match (check_text(text), new_place(opened, path)) {
        (Ok(()), placed) => placed,
        (Err(fault), Ok(_)) => Err(fault),
        (Err(of_text), Err(of_path)) => Err(lower(of_text, of_path)),
    }
}

/// Whether a soft link may have this text: `BadPath` or `NameTooLong`.
fn check_text(text: &[u8]) -> Result<(), EditFault>
    ensures { let fault = path_fault (is_text_fault text.now) in MatchResult result (λ _. fault ≡ None) (λ e.
        fault ≡ Some e) }
{
    if is_no_text(text) {
        return Err(EditFault::BadPath);
    }
    if text.len() > MAX_NAME {
        return Err(EditFault::NameTooLong);
    }
    Ok(())
}
