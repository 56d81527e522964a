//! The Data Layout message of an array, written where it stands (File Format Specification 3.0, section IV.A.2.i).

ghost use Rattle.std.specs.Prelude.{◌++◌, length};
ghost use Rattle.h5_bytes.specs.Bytes.{little_bytes};
ghost use Rattle.h5_header.specs.Listed.{IsWithin};
ghost use Rattle.h5_layout.specs.LayoutEdits.{HasLayoutRoom, IsLayoutWritten};

use h5_bytes::put_u64;
use h5_header::{Messages, find_message};
use h5_model::message_type::DATA_LAYOUT;
use h5_space::Image;

/// Bytes of a contiguous layout before the address of its block: a version and a class. The block's size stands behind its
/// address.
const BEFORE_BLOCK: u64 = 2;

/// Bytes of a chunked layout before the address of its tree: a version, a class and a count of dimensions.
const BEFORE_TREE: u64 = 3;

/// Writes the address and the size of the block of a contiguous array. Takes no memory.
///
/// That the messages lie in the image, and that the Data Layout message has both fields, are the caller's conditions.
pub(crate) fn set_block(image: &mut Image, messages: &Messages, at: u64, len: u64)
    requires within { IsWithin (length image.old.bytes) messages.now.list }
    requires room { HasLayoutRoom messages.now.list 18 }
    ensures { IsLayoutWritten image.old image.new messages.now.list 2
        (little_bytes 8 at ++ little_bytes 8 len) }
{
    // The image is not longer than memory.
    let _bytes = image.bytes();
    let message = find_message(messages, DATA_LAYOUT).unwrap();
    let body = image.part_at_mut(message.at + BEFORE_BLOCK, 16);
    put_u64(body, 0, at);
    put_u64(body, 8, len);
}

/// Writes the address of the tree of an array in chunks. Takes no memory.
///
/// That the messages lie in the image, and that the Data Layout message has the field, are the caller's conditions.
pub(crate) fn set_root(image: &mut Image, messages: &Messages, root: u64)
    requires within { IsWithin (length image.old.bytes) messages.now.list }
    requires room { HasLayoutRoom messages.now.list 11 }
    ensures { IsLayoutWritten image.old image.new messages.now.list 3 (little_bytes 8 root) }
{
    // The image is not longer than memory.
    let _bytes = image.bytes();
    let message = find_message(messages, DATA_LAYOUT).unwrap();
    let body = image.part_at_mut(message.at + BEFORE_TREE, 8);
    put_u64(body, 0, root);
}
