//! Arrays of an opened image, by their paths and by their numbers (File Format Specification 3.0, section IV.A.2.i).

ghost use Rattle.std.specs.Prelude.{◌≡◌, Some, MatchOption, MatchResult};
ghost use Rattle.h5_model.specs.Edits.Refusal.{first_holding};
ghost use Rattle.h5_model.specs.Scripts.Reading.{dataset_rules};
ghost use Rattle.h5_model.specs.Tree.Objects.{Dataset, dataset_of};
ghost use Rattle.h5_query.specs.Data.{AreDataRead};
ghost use Rattle.h5_query.specs.Kept.{IsArrayAt, IsArrayKept, IsExtentAt, array_dataset};
ghost use Rattle.h5_query.specs.Look.{IsNoDataset};
ghost use Rattle.h5_query.specs.Opened.Sound.{IsSound};
ghost use Rattle.h5_query.specs.Told.{array_told};
ghost use Rattle.h5_query.specs.Written.{IsArrayThere};

use crate::place::{Place, look};
use h5_header::HeaderRef;
use h5_model::{EditFault, ObjectNo};
use h5_open::{
    ArrayExtent, ArrayRef, Opened, OpenedContent, StoredArray, known_array, known_extent,
};

/// The array at the path, with its number. Takes no memory.
///
/// # Errors
///
/// Those of [`crate::look`]; then `NotADataset` if no array stands at the path. Where several hold, the one with the
/// lowest number.
pub fn array_at<'a>(opened: &'a Opened, path: &[u8]) -> Result<(u32, StoredArray<'a>), EditFault>
    ensures there { let tree = opened.now.tree in
        MatchResult result (IsArrayAt tree path.now) (λ e.
        first_holding (dataset_rules tree path.now) ≡ Some e) }
    ensures sound { IsSound opened.now }
{
    let image = opened.image();
    let number = array_number(opened, path)?;
    let array = described_of(opened, number);
    Ok((number, StoredArray::new(image, array)))
}

/// The number of the array at the path. Takes no memory.
///
/// # Errors
///
/// Those of [`array_at`].
pub fn array_number(opened: &Opened, path: &[u8]) -> Result<u32, EditFault>
    ensures { let tree = opened.now.tree in
        MatchResult result (λ number. (d : Dataset) × IsArrayAt tree path.now (number, d)) (λ e.
        first_holding (dataset_rules tree path.now) ≡ Some e) }
{
    match look(opened, path)? {
        Place::Object { number, object } => match &object.content {
            OpenedContent::Array => Ok(number),
            OpenedContent::Group(_) => Err(EditFault::NotADataset),
        },
        Place::Soft(_) => Err(EditFault::NotADataset),
    }
}

/// How large the array at the path is and may become and whether it is in chunks, with its number. Nothing else of its
/// header is read. Takes no memory.
///
/// # Errors
///
/// Those of [`array_at`].
pub fn extent_at<'a>(opened: &'a Opened, path: &[u8]) -> Result<(u32, ArrayExtent<'a>), EditFault>
    ensures there { let tree = opened.now.tree in
        MatchResult result (IsExtentAt tree path.now) (λ e.
        first_holding (dataset_rules tree path.now) ≡ Some e) }
    ensures sound { IsSound opened.now }
{
    // Its objects are sound, also where none is an array at the path.
    let _image = opened.image();
    let number = array_number(opened, path)?;
    let extent = known_extent(&array_header(opened, number));
    Ok((number, extent))
}

/// The array with this number, as its header describes it. Its data stand in the image. Takes no memory.
///
/// That an array has the number is the caller's condition.
pub fn described_of<'a>(opened: &'a Opened, number: u32) -> ArrayRef<'a>
    requires { (d : Dataset) × dataset_of opened.now.tree number ≡ Some d }
    ensures there { IsArrayThere opened.now number result }
    ensures stored { AreDataRead opened.now.image result.fixed result.layout }
{
    known_array(&array_header(opened, number))
}

/// The header of the array with this number.
///
/// That an array has the number is the caller's condition.
fn array_header(opened: &Opened, number: u32) -> HeaderRef<'_>
    requires { (d : Dataset) × dataset_of opened.now.tree number ≡ Some d }
    ensures image { result.image ≡ opened.now.image }
    ensures kept { IsArrayKept result }
    ensures there { IsArrayThere opened.now number (array_told result.messages) }
    ensures sound { IsSound opened.now }
{
    let object = opened.object(number).unwrap();
    HeaderRef::new(opened.image(), &object.messages)
}

/// The array with this number, or `None` where no array has it. Takes no memory.
pub fn array_of<'a>(opened: &'a Opened, number: ObjectNo) -> Option<StoredArray<'a>>
    ensures { let tree = opened.now.tree in
        MatchOption result (IsNoDataset tree number.0) (λ array. dataset_of tree number.0 ≡ Some array) }
{
    let object = opened.object(number.0)?;
    match &object.content {
        OpenedContent::Array => {
            let header = HeaderRef::new(opened.image(), &object.messages);
            Some(stored_array(&header))
        }
        OpenedContent::Group(_) => None,
    }
}

/// The array that the messages of a header describe.
pub(crate) fn stored_array<'a>(header: &HeaderRef<'a>) -> StoredArray<'a>
    requires { IsArrayKept header.now }
    ensures { result ≡ array_dataset header.now.image header.now.messages }
{
    StoredArray::new(header.image(), known_array(header))
}
