//! Fill values: versions 2 and 3 are read, and version 2 is written (File Format Specification 3.0, sections IV.A.2.e
//! and IV.A.2.f).

ghost use Rattle.std.specs.Prelude.{◌≡◌, ◌+◌, ◌≤◌, Some, length, ok_or, true};
ghost use Rattle.h5_model.specs.Format.Fill.{fill_value, flagged_value, marked_value, old_fill_value, sized_value as value_after_size};
ghost use Rattle.h5_model.specs.Format.Fixed.{fits};
ghost use Rattle.h5_model.specs.Format.Bodies.{fill_bytes, old_fill_bytes};
ghost use Rattle.h5_model.specs.Format.Plain.{with_zeros};
ghost use Rattle.h5_msg.specs.Times.{time_number};

use crate::fault::FormFault;
use crate::values::{value_at, write_value};
use h5_bytes::u32_at;
use h5_model::Fixed;

/// The bit of version 3's flags that says that the fill value is undefined.
const UNDEFINED: u8 = 1 << 4;

/// The bit that says that it is defined.
const DEFINED: u8 = 1 << 5;

/// When a dataset's storage is allocated: with the dataset, or chunk by chunk as they are written.
#[derive(Clone, Copy, PartialEq, Eq, Debug)]
pub enum AllocationTime {
    Early,
    Incremental,
}

/// How many bytes a Fill Value message's body has as it is written for this type.
pub fn fill_length(fixed: &Fixed) -> usize
    ensures exact { result ≡ 8 + fixed.now.size }
    ensures few { result ≤ 16 }
{
    8 + fixed.size()
}

/// How many bytes an old Fill Value message's body has as it is written for this type.
pub fn old_fill_length(fixed: &Fixed) -> usize
    ensures { result ≡ 4 + fixed.now.size }
{
    4 + fixed.size()
}

/// Reads a Fill Value message, version 2 or 3, of a dataset of this type: the value, or 0 if none is defined.
///
/// # Errors
///
/// `FillForm` if the message has another form.
#[tactic(auto, unfolding(h5_model::specs::Format::Fill::fill_value))]
pub fn read_fill(fixed: &Fixed, body: &[u8]) -> Result<i128, FormFault>
    ensures { result ≡ ok_or (fill_value fixed.now body.now) FormFault.FillForm }
{
    match body {
        [2, ..] => read_marked(fixed, body),
        [3, ..] => read_flagged(fixed, body),
        _ => Err(FormFault::FillForm),
    }
}

/// Version 2: a byte says whether a value is defined.
fn read_marked(fixed: &Fixed, body: &[u8]) -> Result<i128, FormFault>
    ensures { result ≡ ok_or (marked_value fixed.now body.now) FormFault.FillForm }
{
    if body.len() < 4 {
        return Err(FormFault::FillForm);
    }
    match body[3] {
        0 => Ok(0),
        1 => read_sized(fixed, body, 4),
        _ => Err(FormFault::FillForm),
    }
}

/// Version 3: flags say whether a value is defined or undefined. With both it is of no form.
fn read_flagged(fixed: &Fixed, body: &[u8]) -> Result<i128, FormFault>
    ensures { result ≡ ok_or (flagged_value fixed.now body.now) FormFault.FillForm }
{
    if body.len() < 2 || body[1] & (UNDEFINED | DEFINED) == UNDEFINED | DEFINED {
        return Err(FormFault::FillForm);
    }
    if body[1] & DEFINED == DEFINED {
        return read_sized(fixed, body, 2);
    }
    Ok(0)
}

/// Reads an old Fill Value message of a dataset of this type: the value, or 0 if its size is 0.
///
/// # Errors
///
/// `FillForm` if the message has another form.
#[tactic(auto, unfolding(h5_model::specs::Format::Fill::old_fill_value))]
pub fn read_old_fill(fixed: &Fixed, body: &[u8]) -> Result<i128, FormFault>
    ensures { result ≡ ok_or (old_fill_value fixed.now body.now) FormFault.FillForm }
{
    read_sized(fixed, body, 0)
}

/// The value whose size stands at a place, and 0 where that size is 0.
fn read_sized(fixed: &Fixed, body: &[u8], at: usize) -> Result<i128, FormFault>
    requires { at ≤ 4 }
    ensures { result ≡ ok_or (value_after_size fixed.now body.now at) FormFault.FillForm }
{
    if body.len() < at + 4 {
        return Err(FormFault::FillForm);
    }
    let size = u32_at(body, at) as usize;
    if size == 0 {
        return Ok(0);
    }
    if size != fixed.size() || body.len() < at + 4 + size {
        return Err(FormFault::FillForm);
    }
    Ok(value_at(fixed, body, at + 4))
}

/// Writes a Fill Value message, version 2, with a value of the type, and zeros behind it.
pub fn write_fill(time: AllocationTime, fixed: &Fixed, value: i128, bytes: &mut [u8])
    requires room { 8 + fixed.now.size ≤ length bytes.old }
    requires of_type { fits fixed.now value ≡ true }
    ensures written { bytes.new
        ≡ with_zeros (fill_bytes (time_number time) fixed.now value) (length bytes.old) }
    ensures reads { fill_value fixed.now bytes.new ≡ Some value }
{
    let size = fixed.size();
    let time = match time {
        AllocationTime::Early => 1,
        AllocationTime::Incremental => 3,
    };
    bytes.fill(0);
    bytes[..8].copy_from_slice(&[2, time, 2, 1, size as u8, 0, 0, 0]);
    write_value(fixed, value, &mut bytes[8..8 + size]);
}

/// Writes an old Fill Value message with a value of the type, and zeros behind it.
pub fn write_old_fill(fixed: &Fixed, value: i128, bytes: &mut [u8])
    requires room { 4 + fixed.now.size ≤ length bytes.old }
    requires of_type { fits fixed.now value ≡ true }
    ensures written { bytes.new ≡ with_zeros (old_fill_bytes fixed.now value) (length bytes.old) }
    ensures reads { old_fill_value fixed.now bytes.new ≡ Some value }
{
    let size = fixed.size();
    bytes.fill(0);
    bytes[..4].copy_from_slice(&[size as u8, 0, 0, 0]);
    write_value(fixed, value, &mut bytes[4..4 + size]);
}
