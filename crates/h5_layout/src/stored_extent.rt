//! How large an array is and whether it is in chunks, of which two messages of its header tell (File Format Specification
//! 3.0, sections IV.A.2.b and IV.A.2.i).

ghost use Rattle.std.specs.Prelude.{◌≡◌, ◌<◌, ◌≤◌, Some, length, slice_get, slice_index};
ghost use Rattle.h5_model.specs.Edits.Refusal.{is_chunked};
ghost use Rattle.h5_model.specs.Format.Described.{Described, HasArray, storage_of};
ghost use Rattle.h5_model.specs.Format.Limits.{most_dimensions};
ghost use Rattle.h5_layout.specs.StoredExtent.{stored_extent};
ghost use Rattle.h5_layout.specs.Told.{array_told};

use crate::bodies::one_body;
use h5_header::HeaderRef;
use h5_model::message_type::{DATA_LAYOUT, DATASPACE};
use h5_msg::{Dataspace, read_dataspace};
use std::marker::Model;

/// Where the class of a layout stands in the body of a Data Layout message.
const CLASS: usize = 1;

/// The class of a layout in chunks.
const CHUNKED: u8 = 2;

/// How large an array is and may become, and whether its cells are in chunks. It borrows the body of the Dataspace
/// message.
#[derive(Debug, Drop)]
pub struct ArrayExtent<'a> {
    extent: Dataspace<'a>,
    chunked: bool,
}

impl<'a> Model for ArrayExtent<'a> {
    ghost use Rattle.h5_layout.specs.StoredExtent.{StoredExtent, stored_extent};

    ghost Value = { StoredExtent };

    ghost view = { λ a. stored_extent a.extent.sizes a.extent.maxima a.chunked };
}

impl<'a> ArrayExtent<'a> {
    /// How many dimensions there are, each with a size and a maximum.
    pub fn rank(&self) -> usize
        ensures sizes { result ≡ length self.now.sizes }
        ensures maxima { result ≡ length self.now.maxima }
        ensures most { result ≤ most_dimensions }
    {
        self.extent.rank()
    }

    /// The size in a dimension, in cells.
    pub fn size(&self, k: usize) -> u64
        requires { k < length self.now.sizes }
        ensures { result ≡ slice_index self.now.sizes k }
    {
        self.extent.size(k)
    }

    /// The largest size in a dimension, in cells, or `None` where it is unlimited.
    pub fn maximum(&self, k: usize) -> Option<u64>
        requires { k < length self.now.sizes }
        ensures { slice_get self.now.maxima k ≡ Some result }
    {
        self.extent.maximum(k)
    }

    /// Whether the cells are in chunks.
    pub fn is_chunked(&self) -> bool
        ensures { result ≡ self.now.chunked }
    {
        self.chunked
    }
}

/// How large the array is of messages that are known to describe one. Only the Dataspace message and the class of the
/// layout are read. Takes no memory.
///
/// That they describe an array is the caller's condition.
pub fn known_extent<'a>(header: &HeaderRef<'a>) -> ArrayExtent<'a>
    requires { (a : Described) × HasArray header.now.messages a }
    ensures { let a = array_told header.now.messages in
        result ≡ stored_extent a.sizes a.maxima (is_chunked (storage_of a.sizes a.layout)) }
{
    ArrayExtent {
        extent: read_dataspace(one_body(header, DATASPACE)).unwrap(),
        chunked: one_body(header, DATA_LAYOUT)[CLASS] == CHUNKED,
    }
}
