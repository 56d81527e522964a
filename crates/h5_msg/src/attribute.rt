//! Attribute messages: versions 1 to 3 are read, and version 1 is written (File Format Specification 3.0, section
//! IV.A.2.m).

ghost use Rattle.std.specs.Prelude.{◌≡◌, ℕ, List, false, true, ◌+◌, ◌-◌, ◌*◌, ◌^◌, ◌<◌, ◌≤◌, ◌==◌, IfSome, None, Some, if◌then◌else◌, is_some, length, ok_or, option_map, slice_get};
ghost use Rattle.std.specs.List.{list_all, list_any};
ghost use Rattle.h5_bytes.specs.Texts.{pad8 as padded_to_8};
ghost use Rattle.h5_model.specs.Format.AttributeBody.{attribute_of, is_attribute, is_version as has_version, values_at};
ghost use Rattle.h5_msg.specs.Parts.{ArePartsOf};
ghost use Rattle.h5_model.specs.Format.Fixed.{IsFixed, fits};
ghost use Rattle.h5_model.specs.Format.Limits.{most_cells, most_dimensions};
ghost use Rattle.h5_model.specs.Tree.Places.{cells as cells_of};
ghost use Rattle.h5_model.specs.Format.Plain.{with_zeros, cells_bytes, padded_text};
ghost use Rattle.h5_model.specs.Format.Sizes.{attribute_size, dataspace_length as dataspace_size};
ghost use Rattle.h5_model.specs.Format.Bodies.{attribute_bytes, attribute_front, attribute_head, dataspace_bytes, datatype_bytes, stored_attribute_bytes};

use crate::dataspace::{Dataspace, dataspace_length, read_dataspace, write_dataspace};
use crate::datatype::{DATATYPE_LENGTH, read_datatype, write_datatype};
use crate::fault::FormFault;
use crate::values::{value_at, write_values};
use byteorder::{ByteOrder, LittleEndian};
use h5_bytes::{before_zero, u16_at};
use h5_model::Fixed;
use h5_shape::Dims;
use std::marker::Model;

/// Where the name begins in versions 1 and 2. In version 3 the name's character set stands there.
const NAME: usize = 8;

/// What an Attribute message says: a name, a type, sizes and values.
#[derive(Debug, Drop)]
pub struct AttributeBody<'a> {
    body: &'a [u8],
    name: &'a [u8],
    fixed: Fixed,
    extent: Dataspace<'a>,
    place: usize,
}

impl<'a> Model for AttributeBody<'a> {
    ghost use Rattle.std.specs.Prelude.{◌+◌, ◌*◌, ◌≤◌, ℕ, List, length};
    ghost use Rattle.h5_model.specs.Format.AttributeBody.{kept_body, values_at};
    ghost use Rattle.h5_model.specs.Tree.Places.{cells};
    ghost use Rattle.h5_model.specs.Tree.Objects.{Attribute};

    ghost Value = { List ℕ × Attribute };

    ghost view = { λ a. (a.name.now, record { fixed = a.fixed; sizes = a.extent.sizes; values = values_at a.fixed a.body.now a.place (cells a.extent.sizes); body = kept_body a.body.now }) };

    ghost invariant = { λ a. a.place + cells a.extent.sizes * a.fixed.size ≤ length a.body.now };
}

impl<'a> AttributeBody<'a> {
    /// The name.
    pub fn name(&self) -> &'a [u8]
        ensures { result.now ≡ self.now.0 }
    {
        self.name
    }

    /// The type of the values.
    pub fn fixed(&self) -> Fixed
        ensures { result ≡ self.now.1.fixed }
    {
        self.fixed
    }

    /// The sizes. It takes no memory.
    pub fn dims(&self) -> Dims
        ensures { result ≡ self.now.1.sizes }
    {
        self.extent.dims()
    }

    /// How many values there are.
    pub fn cells(&self) -> u64
        ensures cells { result ≡ cells_of self.now.1.sizes }
        ensures values { result ≡ length self.now.1.values }
    {
        // Its type is sound.
        let _size = self.fixed.size();
        self.extent.cells()
    }

    /// The value of a cell, by its place in row-major order.
    pub fn value(&self, k: u64) -> i128
        requires { k < length self.now.1.values }
        ensures { slice_get self.now.1.values k ≡ Some result }
    {
        value_at(
            &self.fixed,
            self.body,
            self.place + k as usize * self.fixed.size(),
        )
    }

    /// The bytes of the values, as they stand.
    pub fn stored(&self) -> &'a [u8]
        ensures { result.now ≡ cells_bytes self.now.1.fixed self.now.1.values }
    {
        bytes_from(&self.fixed, self.body, self.place, self.cells())
    }

    /// The whole body of a message of version 2 or 3, which is copied where the attribute is written anew. `None` in
    /// version 1, where the body is made anew.
    pub fn kept(&self) -> Option<&'a [u8]>
        ensures { option_map (λ b. b.now) result ≡ self.now.1.body }
    {
        match self.body {
            [1, ..] => None,
            body => Some(body),
        }
    }
}

/// The bytes of so many values from a place on.
fn bytes_from<'a>(fixed: &Fixed, body: &'a [u8], place: usize, count: u64) -> &'a [u8]
    requires { place + count * fixed.now.size ≤ length body.now }
    ensures { result.now ≡ cells_bytes fixed.now (values_at fixed.now body.now place count) }
{
    &body[place..place + count as usize * fixed.size()]
}

/// Reads an Attribute message, version 1, 2 or 3.
///
/// # Errors
///
/// `AttributeForm` if it is not an attribute of a fixed-point type, in a form that docs/FORMAT.md lists.
#[tactic(auto, unfolding(h5_model::specs::Format::AttributeBody::attribute_of))]
pub fn read_attribute(body: &[u8]) -> Result<AttributeBody<'_>, FormFault>
    ensures { result ≡ ok_or (attribute_of body.now) FormFault.AttributeForm }
{
    let Some(parts) = read_parts(body) else {
        return Err(FormFault::AttributeForm);
    };
    let Ok(fixed) = read_datatype(&body[parts.datatype..parts.datatype + parts.datatype_size])
    else {
        return Err(FormFault::AttributeForm);
    };
    let Ok(extent) = read_dataspace(&body[parts.dataspace..parts.dataspace + parts.dataspace_size])
    else {
        return Err(FormFault::AttributeForm);
    };
    let need = u128::from(extent.cells()) * fixed.size() as u128;
    if (body.len() as u128) < parts.values as u128 + need {
        return Err(FormFault::AttributeForm);
    }
    Ok(AttributeBody {
        body,
        name: parts.name,
        fixed,
        extent,
        place: parts.values,
    })
}

/// The parts of an Attribute message before its values.
#[derive(Drop)]
struct Parts<'a> {
    name: &'a [u8],
    datatype: usize,
    datatype_size: usize,
    dataspace: usize,
    dataspace_size: usize,
    values: usize,
}

/// Where the parts are, or `None` where one is not there or the name is not one.
fn read_parts(body: &[u8]) -> Option<Parts<'_>>
    ensures found { IfSome result (λ parts. ArePartsOf body.now parts) }
    ensures exact { is_some result ≡ is_attribute body.now }
{
    if body.len() < NAME || !is_version(body) {
        return None;
    }
    let version = body[0];
    let name_size = usize::from(u16_at(body, 2));
    let datatype_size = usize::from(u16_at(body, 4));
    let dataspace_size = usize::from(u16_at(body, 6));
    let start = if version == 3 { NAME + 1 } else { NAME };
    let datatype = start + part_length(version, name_size);
    let dataspace = datatype + part_length(version, datatype_size);
    let values = dataspace + part_length(version, dataspace_size);
    if body.len() < values {
        return None;
    }
    let name = before_zero(&body[start..start + name_size]);
    if name.is_empty() || name.len() >= name_size {
        return None;
    }
    Some(Parts {
        name,
        datatype,
        datatype_size,
        dataspace,
        dataspace_size,
        values,
    })
}

/// Whether a body is of version 1, where the byte behind the version is reserved, or of version 2 or 3 with no flag of
/// a shared datatype or dataspace in that byte.
fn is_version(body: &[u8]) -> bool
    requires { 8 ≤ length body.now }
    ensures { result ≡ has_version body.now }
{
    body[0] == 1 || (body[0] == 2 || body[0] == 3) && body[1] == 0
}

/// How many bytes a part of this size takes: version 1 pads it to a multiple of 8.
fn part_length(version: u8, n: usize) -> usize
    requires { n < 2 ^ 16 }
    ensures value { result ≡ (if version == 1 then padded_to_8 n else n) }
    ensures above { n ≤ result }
    ensures below { result ≤ n + 7 }
{
    if version == 1 { pad8(n) } else { n }
}

/// The next multiple of 8.
fn pad8(n: usize) -> usize
    requires { n < 2 ^ 16 }
    ensures value { result ≡ padded_to_8 n }
    ensures above { n ≤ result }
    ensures below { result ≤ n + 7 }
{
    (n + 7) / 8 * 8
}

/// How many bytes the body of an Attribute message has as it is written, in version 1: with a name of `name` bytes,
/// `rank` dimensions, and `values` values of this type.
pub fn attribute_length(name: usize, rank: usize, values: usize, fixed: &Fixed) -> usize
    requires name { name < 2 ^ 16 - 1 }
    requires rank { rank ≤ most_dimensions }
    requires values { values ≤ most_cells }
    ensures { (sizes : List ℕ) → length sizes ≡ rank → cells_of sizes ≡ values
        → result ≡ attribute_size name sizes fixed.now.size }
{
    front_length(name, rank) + values * fixed.size()
}

/// How many bytes a datatype has in an attribute, with its padding.
const DATATYPE: usize = 16;

/// Writes an Attribute message, version 1, and zeros behind it.
pub fn write_attribute(name: &[u8], fixed: &Fixed, sizes: &[u64], values: &[i128], bytes: &mut [u8])
    requires name { 1 ≤ length name.now }
    requires short { length name.now < 2 ^ 16 - 1 }
    requires text { list_any (λ b. b == 0) name.now ≡ false }
    requires rank { length sizes.now ≤ most_dimensions }
    requires values { length values.now ≡ cells_of sizes.now }
    requires of_type { list_all (fits fixed.now) values.now ≡ true }
    requires room { attribute_size (length name.now) sizes.now fixed.now.size ≤ length bytes.old }
    ensures written { bytes.new ≡ attribute_bytes name.now fixed.now sizes.now values.now (length bytes.old) }
    ensures reads { attribute_of bytes.new
        ≡ Some (name.now, record { fixed = fixed.now; sizes = sizes.now; values = values.now; body = None }) }
{
    let (front, behind) = bytes.split_at_mut(front_length(name.len(), sizes.len()));
    let (cells, padding) = behind.split_at_mut(values.len() * fixed.size());
    write_front(name, fixed, sizes, front);
    write_values(fixed, values, cells);
    padding.fill(0);
}

/// Writes an Attribute message, version 1, whose values have these bytes as they are stored, and zeros behind it.
pub fn write_stored_attribute(
    name: &[u8],
    fixed: &Fixed,
    sizes: &[u64],
    stored: &[u8],
    bytes: &mut [u8],
)
    requires name { 1 ≤ length name.now }
    requires short { length name.now < 2 ^ 16 - 1 }
    requires text { list_any (λ b. b == 0) name.now ≡ false }
    requires rank { length sizes.now ≤ most_dimensions }
    requires stored { length stored.now ≡ cells_of sizes.now * fixed.now.size }
    requires room { attribute_size (length name.now) sizes.now fixed.now.size ≤ length bytes.old }
    ensures written { bytes.new
        ≡ stored_attribute_bytes name.now fixed.now sizes.now stored.now (length bytes.old) }
    ensures reads { attribute_of bytes.new ≡ Some (
      name.now,
      record {
        fixed = fixed.now;
        sizes = sizes.now;
        values = values_at fixed.now stored.now 0 (cells_of sizes.now);
        body = None;
      },
    ) }
{
    let (front, behind) = bytes.split_at_mut(front_length(name.len(), sizes.len()));
    let (cells, padding) = behind.split_at_mut(stored.len());
    write_front(name, fixed, sizes, front);
    cells.copy_from_slice(stored);
    padding.fill(0);
}

/// How many bytes stand before the values.
fn front_length(name: usize, rank: usize) -> usize
    requires name { name < 2 ^ 16 - 1 }
    requires rank { rank ≤ most_dimensions }
    ensures { result ≡ 8 + padded_to_8 (name + 1) + 16 + dataspace_size rank }
{
    NAME + pad8(name + 1) + DATATYPE + dataspace_length(rank, false)
}

/// Writes what stands before the values: the lengths of the parts, the name, the type and the sizes.
fn write_front(name: &[u8], fixed: &Fixed, sizes: &[u64], bytes: &mut [u8])
    requires short { length name.now < 2 ^ 16 - 1 }
    requires rank { length sizes.now ≤ most_dimensions }
    requires room { length bytes.old
        ≡ 8 + padded_to_8 (length name.now + 1) + 16 + dataspace_size (length sizes.now) }
    ensures written { bytes.new ≡ attribute_front name.now fixed.now sizes.now }
    ensures sound { IsFixed fixed.now }
{
    let (head, behind) = bytes.split_at_mut(NAME);
    let (text, behind) = behind.split_at_mut(pad8(name.len() + 1));
    let (datatype, dataspace) = behind.split_at_mut(DATATYPE);
    write_head(name.len(), sizes.len(), head);
    write_name(name, text);
    write_type(fixed, datatype);
    write_extent(sizes, dataspace);
}

/// Writes the version and the lengths of the parts.
fn write_head(name: usize, rank: usize, bytes: &mut [u8])
    requires name { name < 2 ^ 16 - 1 }
    requires rank { rank ≤ most_dimensions }
    requires room { length bytes.old ≡ 8 }
    ensures { bytes.new ≡ attribute_head name rank }
{
    bytes.copy_from_slice(&[1, 0, 0, 0, DATATYPE_LENGTH as u8, 0, 0, 0]);
    LittleEndian::write_u16(&mut bytes[2..4], name as u16 + 1);
    LittleEndian::write_u16(&mut bytes[6..], dataspace_length(rank, false) as u16);
}

/// Writes a name, and zeros behind it.
fn write_name(name: &[u8], bytes: &mut [u8])
    requires { length bytes.old ≡ padded_to_8 (length name.now + 1) }
    ensures { bytes.new ≡ padded_text name.now }
{
    let (text, padding) = bytes.split_at_mut(name.len());
    text.copy_from_slice(name);
    padding.fill(0);
}

/// Writes a datatype with its padding.
fn write_type(fixed: &Fixed, bytes: &mut [u8])
    requires { length bytes.old ≡ 16 }
    ensures written { bytes.new ≡ with_zeros (datatype_bytes fixed.now) 16 }
    ensures sound { IsFixed fixed.now }
{
    write_datatype(fixed, bytes);
}

/// Writes a dataspace, which needs no padding.
fn write_extent(sizes: &[u64], bytes: &mut [u8])
    requires rank { length sizes.now ≤ most_dimensions }
    requires room { length bytes.old ≡ dataspace_size (length sizes.now) }
    ensures { bytes.new ≡ dataspace_bytes sizes.now }
{
    write_dataspace(sizes, bytes);
}
