//! New links (File Format Specification 3.0, section III.C).

ghost use Rattle.std.specs.Prelude.{◌≡◌, MatchResult};
ghost use Rattle.h5_model.specs.declared.edits.Edit.TheVariants.{HardLink, SoftLink};
ghost use Rattle.h5_edit.specs.Answers.{insert_fault};
ghost use Rattle.h5_edit.specs.Carried.{IsRefused};
ghost use Rattle.h5_edit.specs.Edited.{IsEdited};

use crate::rules::{check_hard_link, check_soft_link};
use h5_btree::InsertFault;
use h5_model::{EditFault, Edited, Link, LinkTo, ObjectNo};
use h5_query::Opened;
use h5_space::SpaceFault;

/// Gives the array at `target` a second name, `path`.
///
/// The link is put into its group where that stands, and the array's header counts it. No other object changes, and no header moves. The
/// image grows by no more than 17 nodes of the group's tree, a symbol node, and a segment twice as long as the group's and 16 bytes more
/// than that with the name.
///
/// # Errors
///
/// Those of [`check_hard_link`]; then the first of these that holds. A refusal changes nothing.
///
/// - `TreeTooDeep`: the root of the B-tree of the group that gets the link is at level 15, and all on the way to the name is full.
/// - `ImageFull`: the image, and the bytes that a link may add, are more than 2147483648 bytes.
/// - `NoMemory`: memory is refused.
pub fn hard_link(opened: &mut Opened, target: &[u8], path: &[u8]) -> Result<Edited, EditFault>
    ensures { MatchResult result (IsEdited opened.old (HardLink target.now path.now) opened.new) (λ e.
        IsRefused opened.old (HardLink target.now path.now) e × (opened.new ≡ opened.old)) }
{
    // The call's contract says that the image is a sound one.
    let _next = opened.next();
    let (number, place) = check_hard_link(opened, target, path)?;
    let object = ObjectNo(number);
    let link = Link {
        name: place.name,
        to: LinkTo::Object(object),
    };
    match opened.add_link(place.parent, &link) {
        Ok(()) => Ok(Edited {
            object: Some(object),
            refreshed: 0,
        }),
        Err(fault) => Err(insertion_fault(fault)),
    }
}

/// Makes a soft link at the path, with this text. A soft link is never followed.
///
/// The link is put into its group where that stands. No other object changes, and no header moves. The image grows by no more than 17
/// nodes of the group's tree, a symbol node, and a segment twice as long as the group's and 16 bytes more than that with name and text.
///
/// # Errors
///
/// Those of [`check_soft_link`]; then the first of these that holds. A refusal changes nothing.
///
/// - `TreeTooDeep`: the root of the B-tree of the group that gets the link is at level 15, and all on the way to the name is full.
/// - `ImageFull`: the image, and the bytes that a link may add, are more than 2147483648 bytes.
/// - `NoMemory`: memory is refused.
pub fn soft_link(opened: &mut Opened, text: &[u8], path: &[u8]) -> Result<Edited, EditFault>
    ensures { MatchResult result (IsEdited opened.old (SoftLink text.now path.now) opened.new) (λ e.
        IsRefused opened.old (SoftLink text.now path.now) e × (opened.new ≡ opened.old)) }
{
    // The call's contract says that the image is a sound one.
    let _next = opened.next();
    let place = check_soft_link(opened, text, path)?;
    let link = Link {
        name: place.name,
        to: LinkTo::Soft(text),
    };
    match opened.add_link(place.parent, &link) {
        Ok(()) => Ok(Edited {
            object: None,
            refreshed: 0,
        }),
        Err(fault) => Err(insertion_fault(fault)),
    }
}

/// What an edit is answered whose link or chunk could not be put.
pub(crate) fn insertion_fault(fault: InsertFault) -> EditFault
    ensures { result ≡ insert_fault fault }
{
    match fault {
        InsertFault::TreeTooDeep => EditFault::TreeTooDeep,
        InsertFault::Space(SpaceFault::ImageFull) => EditFault::ImageFull,
        InsertFault::Space(SpaceFault::NoMemory) => EditFault::NoMemory,
    }
}
