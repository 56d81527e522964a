//! What stands at a path, with what it holds (File Format Specification 3.0, sections IV.A.2.i and IV.A.2.m).

ghost use Rattle.std.specs.Prelude.{MatchResult};
ghost use Rattle.h5_query.specs.Found.{HasFound, IsUnfound};

use crate::array::stored_array;
use crate::place::{Place, look};
use h5_header::HeaderRef;
use h5_model::{EditFault, ObjectNo};
use h5_open::{AttrRef, Opened, OpenedContent, StoredArray, sorted};
use std::alloc::Global;

/// What stands at a path, with what it holds. Attributes ascend by the bytes of their names.
#[derive(Debug, Drop)]
pub enum Found<'a> {
    /// A group, with its number and its attributes.
    Group {
        number: ObjectNo,
        attributes: Vec<AttrRef<'a>>,
    },
    /// An array, with its number, its attributes and its cells.
    Array {
        number: ObjectNo,
        attributes: Vec<AttrRef<'a>>,
        array: StoredArray<'a>,
    },
    /// A soft link, with its text.
    Soft(&'a [u8]),
}

/// What stands at the path. A soft link is not followed. Takes memory for a reference to each attribute.
///
/// # Errors
///
/// Those of [`crate::look`]; last, `NoMemory`: memory is refused. No other refusal holds then.
pub fn found_at<'a>(alloc: Global, opened: &'a Opened, path: &[u8]) -> Result<Found<'a>, EditFault>
    ensures { let tree = opened.now.tree in
        MatchResult result (HasFound tree path.now) (IsUnfound tree path.now) }
{
    let (number, object) = match look(opened, path)? {
        Place::Object { number, object } => (ObjectNo(number), object),
        Place::Soft(text) => return Ok(Found::Soft(text)),
    };
    let header = HeaderRef::new(opened.image(), &object.messages);
    let attributes = sorted(alloc, &header)?;
    match &object.content {
        OpenedContent::Group(_) => Ok(Found::Group { number, attributes }),
        OpenedContent::Array => Ok(Found::Array {
            number,
            attributes,
            array: stored_array(&header),
        }),
    }
}
