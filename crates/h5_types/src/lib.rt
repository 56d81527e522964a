//! Values of the fixed-point types, and their bytes (File Format Specification 3.0, section IV.A.2.d, class 0).
#![tactic(auto)]

ghost use Rattle.std.specs.Prelude.{◌≡◌, ◌↔◌, length, IsOk, IsTrue, OnOk, OnErr, true};
ghost use Rattle.h5_model.specs.Format.Fixed.{value_of, bytes_of, IsFixed, fits as is_of_type};

use byteorder::{BigEndian, ByteOrder, LittleEndian};
use h5_model::Fixed;
use thiserror::Error;

/// The value is not one of the type.
#[derive(Clone, Copy, PartialEq, Eq, Debug, Error)]
#[error("the value is outside the type")]
pub struct ValueRange;

/// The value that the bytes stand for: two's complement or unsigned, in the byte order of the type. There are as many
/// bytes as the type's size; that is the caller's condition.
#[tactic(auto, using(crate::proofs::Values::fits_value_of))]
pub fn decode(fixed: &Fixed, bytes: &[u8]) -> i128
    requires { length bytes.now ≡ fixed.now.size }
    ensures value { result ≡ value_of fixed.now bytes.now }
    ensures of_type { IsTrue (is_of_type fixed.now result) }
{
    read(fixed, bytes)
}

/// Whether the value is one of the type.
pub fn fits(fixed: &Fixed, value: i128) -> bool
    ensures { result ≡ is_of_type fixed.now value }
{
    let bits = 8 * fixed.size() as u32;
    if fixed.is_signed() {
        let half = 1i128 << (bits - 1);
        -half <= value && value < half
    } else {
        0 <= value && value < (1i128 << bits)
    }
}

/// Writes the bytes of a value: two's complement or unsigned, in the byte order of the type. The slice has as many
/// bytes as the type's size.
///
/// # Errors
///
/// `ValueRange` if the value is not one of the type's. The slice then keeps its bytes.
#[tactic(auto, using(crate::proofs::Values::value_of_bytes))]
pub fn encode(fixed: &Fixed, value: i128, bytes: &mut [u8]) -> Result<(), ValueRange>
    requires { length bytes.old ≡ fixed.now.size }
    ensures exact { IsOk result ↔ IsTrue (is_of_type fixed.now value) }
    ensures ok { OnOk result (bytes.new ≡ bytes_of fixed.now value) }
    ensures reads_back { OnOk result (value_of fixed.now bytes.new ≡ value) }
    ensures err { OnErr result (bytes.new ≡ bytes.old) }
{
    if !fits(fixed, value) {
        return Err(ValueRange);
    }
    write(fixed, value, bytes);
    Ok(())
}

/// Writes the bytes of a value of the type.
#[tactic(auto, unfolding(h5_model::specs::Format::Fixed::bytes_of))]
fn write(fixed: &Fixed, value: i128, bytes: &mut [u8])
    requires room { length bytes.old ≡ fixed.now.size }
    requires of_type { is_of_type fixed.now value ≡ true }
    ensures written { bytes.new ≡ bytes_of fixed.now value }
    ensures sound { IsFixed fixed.now }
{
    let size = fixed.size();
    if fixed.is_big() {
        BigEndian::write_int128(bytes, value, size);
    } else {
        LittleEndian::write_int128(bytes, value, size);
    }
}

/// Reads the bytes of a value.
#[tactic(auto, unfolding(h5_model::specs::Format::Fixed::value_at, h5_model::specs::Format::Fixed::raw_at))]
fn read(fixed: &Fixed, bytes: &[u8]) -> i128
    requires { length bytes.now ≡ fixed.now.size }
    ensures value { result ≡ value_of fixed.now bytes.now }
    ensures sound { IsFixed fixed.now }
{
    let size = fixed.size();
    match (fixed.is_signed(), fixed.is_big()) {
        (true, true) => i128::from(BigEndian::read_int(bytes, size)),
        (true, false) => i128::from(LittleEndian::read_int(bytes, size)),
        (false, true) => i128::from(BigEndian::read_uint(bytes, size)),
        (false, false) => i128::from(LittleEndian::read_uint(bytes, size)),
    }
}
