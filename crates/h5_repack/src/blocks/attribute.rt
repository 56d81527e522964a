//! Attribute messages, as they are appended (File Format Specification 3.0, section IV.A.2.m).
ghost use Rattle.std.specs.Prelude.{◌≡◌, ◌++◌, OnOk};
ghost use Rattle.h5_model.specs.Format.Plain.{message_bytes};
ghost use Rattle.h5_repack.specs.Bodies.Bodies.{attribute_message};
ghost use Rattle.h5_repack.specs.Bodies.Sound.{IsPlainAttribute};

use crate::blocks::header::{push_message, push_message_room};
use h5_model::message_type::ATTRIBUTE;
use h5_msg::{AttributeBody, attribute_length, write_stored_attribute};
use std::alloc::AllocError;

/// The message of an attribute as another header has it: with the body that it has there in version 2 or 3, or of version 1.
pub(crate) fn push_stored_attribute(
    out: &mut Vec<u8>,
    attr: &AttributeBody<'_>,
) -> Result<(), AllocError>
    requires { IsPlainAttribute attr.now }
    ensures { OnOk result (out.new.items ≡ out.old.items ++ message_bytes (attribute_message attr.now)) }
{
    if let Some(body) = attr.kept() {
        return push_message(out, ATTRIBUTE, body);
    }
    let name = attr.name();
    let fixed = attr.fixed();
    let dims = attr.dims();
    let sizes = dims.sizes();
    let size = attribute_length(name.len(), sizes.len(), attr.cells() as usize, &fixed);
    let at = push_message_room(out, ATTRIBUTE, size)?;
    write_stored_attribute(name, &fixed, sizes, attr.stored(), &mut out[at..]);
    Ok(())
}
