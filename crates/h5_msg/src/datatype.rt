//! Datatype messages of class 0, fixed-point, version 1 (File Format Specification 3.0, section IV.A.2.d).

ghost use Rattle.std.specs.Prelude.{◌≡◌, ◌≤◌, Some, length, ok_or};
ghost use Rattle.h5_model.specs.Format.Datatype.{fixed_of, is_fixed_point as has_form};
ghost use Rattle.h5_model.specs.Format.Fixed.{IsFixed};
ghost use Rattle.h5_model.specs.Format.Bodies.{class_bits as bits_of, datatype_bytes};
ghost use Rattle.h5_model.specs.Format.Plain.{with_zeros};

use crate::fault::FormFault;
use h5_bytes::{u16_at, u32_at};
use h5_model::Fixed;

/// How many bytes a Datatype message's body has as it is written.
pub const DATATYPE_LENGTH: usize = 12;

/// Version 1 in the high half of the byte, class 0 in the low half.
const VERSION_AND_CLASS: u8 = 0x10;

/// The class bit of a type whose high byte stands first.
const HIGH_FIRST: u8 = 1;

/// The class bit of a signed type.
const SIGNED: u8 = 8;

/// Reads a Datatype message.
///
/// # Errors
///
/// `DatatypeForm` if it is not that of a fixed-point type of 1, 2, 4 or 8 bytes at full precision.
#[tactic(auto, unfolding(h5_model::specs::Format::Datatype::fixed_of))]
pub fn read_datatype(body: &[u8]) -> Result<Fixed, FormFault>
    ensures { result ≡ ok_or (fixed_of body.now) FormFault.DatatypeForm }
{
    if !is_fixed_point(body) {
        return Err(FormFault::DatatypeForm);
    }
    let signed = body[1] & SIGNED == SIGNED;
    let high_first = body[1] & HIGH_FIRST == HIGH_FIRST;
    let Ok(size) = u8::try_from(u32_at(body, 4)) else {
        return Err(FormFault::DatatypeForm);
    };
    Fixed::new(size, signed, high_first).ok_or(FormFault::DatatypeForm)
}

/// Whether a body has all that a fixed-point type of full precision needs but for its size.
fn is_fixed_point(body: &[u8]) -> bool
    ensures { result ≡ has_form body.now }
{
    if body.len() < DATATYPE_LENGTH || body[0] != VERSION_AND_CLASS || body[1] >= 16 {
        return false;
    }
    if u16_at(body, 2) != 0 || u16_at(body, 8) != 0 {
        return false;
    }
    let size = u32_at(body, 4);
    u64::from(u16_at(body, 10)) == 8 * u64::from(size)
}

/// Writes a Datatype message, and zeros behind it.
pub fn write_datatype(fixed: &Fixed, bytes: &mut [u8])
    requires { 12 ≤ length bytes.old }
    ensures written { bytes.new ≡ with_zeros (datatype_bytes fixed.now) (length bytes.old) }
    ensures reads { fixed_of bytes.new ≡ Some fixed.now }
    ensures sound { IsFixed fixed.now }
{
    let size = fixed.size() as u8;
    let bits = class_bits(fixed);
    let (body, padding) = bytes.split_at_mut(DATATYPE_LENGTH);
    body.copy_from_slice(&[
        VERSION_AND_CLASS,
        bits,
        0,
        0,
        size,
        0,
        0,
        0,
        0,
        0,
        8 * size,
        0,
    ]);
    padding.fill(0);
}

/// The class bits of a type.
fn class_bits(fixed: &Fixed) -> u8
    ensures { result ≡ bits_of fixed.now }
{
    let order = if fixed.is_big() { HIGH_FIRST } else { 0 };
    let sign = if fixed.is_signed() { SIGNED } else { 0 };
    order + sign
}
