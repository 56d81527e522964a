//! Arrays resized where they stand (File Format Specification 3.0, sections III.A.1, IV.A.2.b and IV.A.2.i).

ghost use Rattle.std.specs.Prelude.{◌≡◌, MatchResult};
ghost use Rattle.h5_model.specs.declared.edits.Edit.TheVariants.{Resize};
ghost use Rattle.h5_edit.specs.Carried.{IsRefused};
ghost use Rattle.h5_edit.specs.Edited.{IsEdited};

use crate::rules::check_resize;
use h5_header::AddFault;
use h5_model::{EditFault, Edited, ObjectNo};
use h5_query::Opened;
use std::alloc::Global;

/// Gives the array in chunks at the path other sizes, in cells, one for each dimension. A cell that is inside the old
/// and the new sizes keeps its value. The other cells that the array then has are the fill. Cells outside the new
/// sizes are gone for good: the chunks that hold no cell any more go, and in the others such a cell is the fill.
///
/// The array is changed where it stands. No other object changes, and no header moves. The image keeps its length where the Dataspace
/// message has maxima. Where it has none it is replaced by one that has, for which the image grows by at most 40 bytes and 16 for each
/// dimension.
///
/// # Errors
///
/// The first of these that holds; they come in the order of their numbers. A refusal changes nothing.
///
/// - `BadPath`: the bytes are no path.
/// - `PathTooDeep`: the path has more than 64 names.
/// - `NoSuchParent`: a name before the last one is missing.
/// - `NotAGroup`: a name before the last one leads to no group.
/// - `NotFound`: the last name is missing.
/// - `NotADataset`: a group or a soft link stands there.
/// - `RankMismatch`: there are not as many sizes as the array has.
/// - `NotChunked`: the array is not in chunks.
/// - `AboveMaximum`: a size is above its maximum.
/// - `TooManyCells`: the product of the sizes, with sizes of 0 left out, is above 2^40.
/// - `HeaderFull`: the Dataspace message of the array has no maxima, so it needs a new one, and the header has 65534
///   messages or more.
/// - `ImageFull`: the image, and the bytes that a Dataspace message may add where a new one is needed, are more than 2147483648 bytes.
/// - `NoMemory`: memory is refused. It may come in place of `HeaderFull` and `ImageFull`.
pub fn resize(
    alloc: Global,
    opened: &mut Opened,
    path: &[u8],
    dims: &[u64],
) -> Result<Edited, EditFault>
    ensures { MatchResult result (IsEdited opened.old (Resize path.now dims.now) opened.new) (λ e.
        IsRefused opened.old (Resize path.now dims.now) e × (opened.new ≡ opened.old)) }
{
    let number = check_resize(opened, path, dims)?;
    match opened.resize(alloc, number, dims) {
        Ok(()) => Ok(Edited {
            object: Some(ObjectNo(number)),
            refreshed: 0,
        }),
        Err(AddFault::HeaderFull) => Err(EditFault::HeaderFull),
        Err(AddFault::ImageFull) => Err(EditFault::ImageFull),
        Err(AddFault::NoMemory) => Err(EditFault::NoMemory),
    }
}
