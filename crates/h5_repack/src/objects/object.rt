//! Objects to be written.

ghost use Rattle.std.specs.Prelude.{◌≡◌};
ghost use Rattle.h5_repack.specs.Objects.Targets.{slot_links};

use crate::blocks::{Cells, Others};
use h5_layout::ArrayRef;
use h5_model::{Link, ObjectNo};

/// What an object is.
#[derive(Drop)]
pub enum NewContent<'a> {
    /// A group, with its links ascending by the bytes of their names.
    Group(Vec<Link<'a, ObjectNo>>),
    /// An array, whose cells are stored as its layout says: in its header, in one block, or in chunks.
    Array {
        array: ArrayRef<'a>,
        cells: Cells<'a>,
    },
}

/// An object to be written. Its number is the index of its slot; object 0 is the root.
#[derive(Drop)]
pub struct NewObject<'a> {
    pub content: NewContent<'a>,
    /// The messages behind those of the content.
    pub others: Others,
}

/// The links of a group. An array has none, nor has an empty slot.
pub(crate) fn links_of<'a, 'b>(slot: &'b Option<NewObject<'a>>) -> &'b [Link<'a, ObjectNo>]
    ensures { result.now ≡ slot_links slot.now }
{
    let Some(object) = slot else {
        return &[];
    };
    match &object.content {
        NewContent::Group(links) => links,
        NewContent::Array { .. } => &[],
    }
}
