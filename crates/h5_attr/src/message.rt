//! One message of a header, where it is an attribute's (File Format Specification 3.0, section IV.A.2.m).

ghost use Rattle.std.specs.Prelude.{◌≡◌, ◌+◌, ◌≤◌, length};
ghost use Rattle.h5_bytes.specs.Bytes.{part};
ghost use Rattle.h5_header.specs.Listed.{message_in};
ghost use Rattle.h5_attr.specs.Attributes.{attribute_in, fault_in};

use h5_header::Message;
use h5_model::Cause;
use h5_model::message_type::ATTRIBUTE;
use h5_msg::{AttributeBody, read_attribute};

/// The attribute of a message, where it is an attribute's and has the form.
pub(crate) fn attribute(image: &[u8], message: Message) -> Option<AttributeBody<'_>>
    requires { message.at + message.size ≤ length image.now }
    ensures { result ≡ attribute_in (message_in image.now message) }
{
    if message.kind != ATTRIBUTE {
        return None;
    }
    read_attribute(body(image, message)).ok()
}

/// Why a message is refused, where it is an attribute's.
pub(crate) fn fault(image: &[u8], message: Message) -> Option<Cause>
    requires { message.at + message.size ≤ length image.now }
    ensures { result ≡ fault_in (message_in image.now message) }
{
    if message.kind != ATTRIBUTE {
        return None;
    }
    let Ok(attribute) = read_attribute(body(image, message)) else {
        return Some(Cause::AttributeForm);
    };
    if attribute.dims().is_small() {
        None
    } else {
        Some(Cause::TooLarge)
    }
}

/// The body of a message.
#[tactic(auto, unfolding(h5_bytes::specs::Bytes::part))]
fn body(image: &[u8], message: Message) -> &[u8]
    requires { message.at + message.size ≤ length image.now }
    ensures { result.now ≡ part message.at message.size image.now }
{
    let at = message.at as usize;
    &image[at..at + message.size as usize]
}
