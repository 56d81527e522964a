//! The body of an attribute that is to be set (File Format Specification 3.0, section IV.A.2.m).

ghost use Rattle.std.specs.Prelude.{◌≡◌, ◌≤◌, true, false, Some, length, IfOk};
ghost use Rattle.std.specs.List.{list_all};
ghost use Rattle.h5_bytes.specs.Texts.{pad8};
ghost use Rattle.h5_model.specs.Format.Messages.{most_body_bytes};
ghost use Rattle.h5_model.specs.Edits.Applied.{attribute_from};
ghost use Rattle.h5_model.specs.Edits.Refusal.{has_zero};
ghost use Rattle.h5_model.specs.Format.AttributeBody.{attribute_of};
ghost use Rattle.h5_model.specs.Format.Fixed.{IsFixed, fits};
ghost use Rattle.h5_model.specs.Format.Limits.{most_dimensions};
ghost use Rattle.h5_model.specs.Format.Sizes.{attribute_size};
ghost use Rattle.h5_model.specs.Tree.Places.{cells};

use h5_model::AttrSpec;
use h5_msg::{attribute_length, write_attribute};
use std::alloc::{AllocError, Global};

/// The body of the message of an attribute, version 1: as short as it can be, and behind it zeros up to a multiple of 8
/// bytes. Takes as much memory as the body has bytes.
///
/// That no rule of its own refuses the attribute is the caller's condition.
///
/// # Errors
///
/// `AllocError`: memory was refused.
pub fn new_body(alloc: Global, attr: &AttrSpec) -> Result<Vec<u8>, AllocError>
    requires named { 1 ≤ length attr.now.name }
    requires text { has_zero attr.now.name ≡ false }
    requires typed { IsFixed attr.now.fixed }
    requires ranked { length attr.now.dims ≤ most_dimensions }
    requires counted { length attr.now.values ≡ cells attr.now.dims }
    requires of_type { list_all (fits attr.now.fixed) attr.now.values ≡ true }
    requires room { attribute_size (length attr.now.name) attr.now.dims attr.now.fixed.size
        ≤ most_body_bytes }
    ensures reads { IfOk result (λ body.
        attribute_of body.items ≡ Some (attr.now.name, attribute_from attr.now)) }
    ensures size { IfOk result (λ body. length body.items
        ≡ pad8 (attribute_size (length attr.now.name) attr.now.dims attr.now.fixed.size)) }
{
    let name = attr.name.as_slice();
    let sizes = attr.dims.as_slice();
    let values = attr.values.as_slice();
    let size = attribute_length(name.len(), sizes.len(), values.len(), &attr.fixed);
    let mut body = vec![in alloc; 0u8; (size + 7) / 8 * 8]?;
    write_attribute(name, &attr.fixed, sizes, values, &mut body);
    Ok(body)
}
