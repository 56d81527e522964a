//! What is copied of an array before its image is changed.

ghost use Rattle.std.specs.Prelude.{◌≡◌, true};
ghost use Rattle.h5_model.specs.Format.Fixed.{fits};
ghost use Rattle.h5_model.specs.Tree.Places.{cells as cells_of};
ghost use Rattle.h5_layout.specs.ArrayEdits.{IsArrayApart, described_in};

use crate::read::known_array;
use h5_header::{HeaderRef, Messages};
use h5_model::Fixed;
use h5_space::Image;

/// So many cells, each of which is to be the fill.
#[derive(Clone, Copy, Drop)]
pub(crate) struct CellsToFill {
    pub(crate) fixed: Fixed,
    pub(crate) fill: i128,
    pub(crate) count: u64,
}

/// All cells of an array.
pub(crate) fn copied_cells(image: &Image, messages: &Messages) -> CellsToFill
    requires array { IsArrayApart image.now messages.now }
    ensures fixed { result.fixed ≡ (described_in image.now.bytes messages.now).fixed }
    ensures fill { result.fill ≡ (described_in image.now.bytes messages.now).fill }
    ensures of_type { fits (described_in image.now.bytes messages.now).fixed
        (described_in image.now.bytes messages.now).fill ≡ true }
    ensures count { result.count ≡ cells_of (described_in image.now.bytes messages.now).sizes }
{
    let array = known_array(&HeaderRef::new(image, messages));
    CellsToFill {
        fixed: array.fixed(),
        fill: array.fill(),
        count: array.cells(),
    }
}
