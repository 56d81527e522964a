//! Links taken away (File Format Specification 3.0, sections III.C and IV.A.1.a).

ghost use Rattle.std.specs.Prelude.{◌≡◌, MatchResult};
ghost use Rattle.h5_model.specs.declared.edits.Edit.TheVariants.{Unlink};
ghost use Rattle.h5_edit.specs.Carried.{IsRefused};
ghost use Rattle.h5_edit.specs.Edited.{IsEdited};

use crate::rules::check_unlink;
use h5_model::{EditFault, Edited};
use h5_query::Opened;
use std::alloc::Global;

/// Takes the link at the path away. What no path reaches then goes too: the object to which it was the last hard link, and of all below it
/// what is linked nowhere else. The blocks of these are given back, and their numbers are not used again. An array that is linked elsewhere
/// stays; its header counts as many links less as are lost. All objects that stay keep their numbers.
///
/// The link is taken out of its group where that stands. Beside that group and what stands below the link no object changes, no header
/// moves, and the image keeps its length.
///
/// # Errors
///
/// Those of [`check_unlink`]; then `NoMemory` where memory is refused. A refusal changes nothing.
pub fn unlink(alloc: Global, opened: &mut Opened, path: &[u8]) -> Result<Edited, EditFault>
    ensures { MatchResult result (IsEdited opened.old (Unlink path.now) opened.new) (λ e.
        IsRefused opened.old (Unlink path.now) e × (opened.new ≡ opened.old)) }
{
    let removal = check_unlink(opened, path)?;
    opened.unlink(alloc, removal.parent, removal.name, removal.object)?;
    Ok(Edited {
        object: None,
        refreshed: 0,
    })
}
