//! The attributes of a header in the order of their names (File Format Specification 3.0, section IV.A.2.m).

ghost use Rattle.std.specs.Prelude.{◌≡◌, IfOk};
ghost use Rattle.std.specs.FinMap.{entries};
ghost use Rattle.h5_model.specs.Format.Reads.{HasAttributes};
ghost use Rattle.h5_model.specs.Tree.Objects.{Attributes};
ghost use Rattle.h5_attr.specs.Attributes.{attributes_in};

use crate::message::attribute;
use h5_header::HeaderRef;
use h5_msg::AttributeBody;
use std::alloc::{AllocError, Global};

/// The attributes of a header, in ascending order of the bytes of their names.
///
/// Attributes that have another form are passed over. Takes memory for a reference to each attribute.
///
/// # Errors
///
/// `AllocError` if memory is refused.
pub fn sorted<'a>(
    alloc: Global,
    header: &HeaderRef<'a>,
) -> Result<Vec<AttributeBody<'a>>, AllocError>
    ensures { IfOk result (λ list. (attributes : Attributes)
        → HasAttributes header.now.messages attributes
        → list.items ≡ entries attributes) }
{
    let mut listed = collected(alloc, header)?;
    listed.sort_unstable_by(|first, second| first.name().cmp(second.name()));
    Ok(listed)
}

/// The attributes in the order of the messages.
fn collected<'a>(
    alloc: Global,
    header: &HeaderRef<'a>,
) -> Result<Vec<AttributeBody<'a>>, AllocError>
    ensures { IfOk result (λ listed. listed.items ≡ attributes_in header.now.messages) }
{
    let bytes = header.bytes();
    let mut listed = Vec::new(alloc);
    for message in header.list() {
        if let Some(found) = attribute(bytes, *message) {
            listed.push(found)?;
        }
    }
    Ok(listed)
}
