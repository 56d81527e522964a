//! One attribute by its name (File Format Specification 3.0, section IV.A.2.m).

ghost use Rattle.std.specs.Prelude.{◌≡◌, ◌+◌, ◌≤◌, length, option_map, position};
ghost use Rattle.std.specs.FinMap.{get as at_name};
ghost use Rattle.h5_model.specs.Format.Reads.{HasAttributes};
ghost use Rattle.h5_model.specs.Tree.Objects.{Attributes};
ghost use Rattle.h5_header.specs.Listed.{message_in};
ghost use Rattle.h5_attr.specs.Attributes.{attribute_named, is_attribute_named};

use crate::message::attribute;
use h5_header::{HeaderRef, Message};
use h5_msg::AttributeBody;

/// The attribute with this name, or `None` if there is none. Takes no memory.
///
/// Attributes that have another form are passed over. Of two attributes with this name it is the first.
pub fn get<'a>(header: &HeaderRef<'a>, name: &[u8]) -> Option<AttributeBody<'a>>
    ensures first { result ≡ attribute_named name.now header.now.messages }
    ensures entry { (attributes : Attributes)
        → HasAttributes header.now.messages attributes
        → result ≡ option_map (λ a. (name.now, a)) (at_name attributes name.now) }
{
    let bytes = header.bytes();
    for message in header.list() {
        if let Some(found) = attribute(bytes, *message) {
            if name == found.name() {
                return Some(found);
            }
        }
    }
    None
}

/// The index of the first message with an attribute of this name, or `None` if there is none. Takes no memory.
pub fn find_named(header: &HeaderRef<'_>, name: &[u8]) -> Option<usize>
    ensures { result ≡ position (is_attribute_named name.now) header.now.messages }
{
    let bytes = header.bytes();
    let mut k = 0;
    for message in header.list() {
        if is_named(bytes, *message, name) {
            return Some(k);
        }
        k += 1;
    }
    None
}

/// Whether a message has the attribute of this name.
fn is_named(image: &[u8], message: Message, name: &[u8]) -> bool
    requires { message.at + message.size ≤ length image.now }
    ensures { result ≡ is_attribute_named name.now (message_in image.now message) }
{
    match attribute(image, message) {
        Some(found) => name == found.name(),
        None => false,
    }
}
