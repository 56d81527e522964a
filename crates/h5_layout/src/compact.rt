//! Where the cells of a compact array stand (File Format Specification 3.0, section IV.A.2.i).

ghost use Rattle.std.specs.Prelude.{◌≡◌, Some};
ghost use Rattle.h5_model.specs.Format.MessageTypes.{data_layout_kind};
ghost use Rattle.h5_model.specs.Format.Messages.{count_of};
ghost use Rattle.h5_layout.specs.Compact.{compact_at};

use h5_header::{HeaderRef, find_message};
use h5_model::message_type::DATA_LAYOUT;

/// Bytes of a compact layout before its data: a version, a class and a size.
const FRONT: u64 = 4;

/// The address of the first cell of a compact array. The cells stand in its Data Layout message, one behind another.
/// Takes no memory.
///
/// That there is one such message is the caller's condition. If the layout is not compact, no cell stands at the address.
pub(crate) fn compact_place(header: &HeaderRef<'_>) -> u64
    requires { count_of data_layout_kind header.now.messages ≡ 1 }
    ensures { compact_at header.now.list ≡ Some result }
{
    // The image is not longer than memory.
    let _bytes = header.bytes();
    find_message(header.messages(), DATA_LAYOUT).unwrap().at + FRONT
}
