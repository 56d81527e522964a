//! Bytes that are handed out into a caller's buffer.

ghost use Rattle.h5_c.specs.Calls.{IsCopied};

use crate::status::{DONE, WRONG_ROOM};

/// Copies all bytes to a buffer of just their length.
pub(crate) fn copy(from: &[u8], room: &mut [u8]) -> u32
    ensures { IsCopied from.now room.old room.new result }
{
    if from.len() != room.len() {
        return WRONG_ROOM;
    }
    room.copy_from_slice(from);
    DONE
}
