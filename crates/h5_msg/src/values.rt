//! Values in a body.

ghost use Rattle.std.specs.Prelude.{◌≡◌, ◌+◌, ◌*◌, ◌≤◌, length, true};
ghost use Rattle.std.specs.List.{list_all};
ghost use Rattle.h5_model.specs.Format.Fixed.{bytes_of, fits, value_at as value_of_bytes};
ghost use Rattle.h5_model.specs.Format.Plain.{cells_bytes};

use h5_model::Fixed;
use h5_types::{decode, encode};

/// The value in the type's bytes from a place on.
#[tactic(auto, using(h5_model::proofs::ValueLaws::decoded_at))]
pub fn value_at(fixed: &Fixed, body: &[u8], at: usize) -> i128
    requires { at + fixed.now.size ≤ length body.now }
    ensures { result ≡ value_of_bytes fixed.now body.now at }
{
    decode(fixed, &body[at..at + fixed.size()])
}

/// Writes the bytes of a value of the type.
pub fn write_value(fixed: &Fixed, value: i128, bytes: &mut [u8])
    requires room { length bytes.old ≡ fixed.now.size }
    requires of_type { fits fixed.now value ≡ true }
    ensures { bytes.new ≡ bytes_of fixed.now value }
{
    let _of_type = encode(fixed, value, bytes);
}

/// Writes the bytes of values of the type, one after another.
pub fn write_values(fixed: &Fixed, values: &[i128], bytes: &mut [u8])
    requires room { length bytes.old ≡ length values.now * fixed.now.size }
    requires of_type { list_all (fits fixed.now) values.now ≡ true }
    ensures { bytes.new ≡ cells_bytes fixed.now values.now }
{
    let size = fixed.size();
    for k in 0..values.len() {
        write_value(fixed, values[k], &mut bytes[k * size..k * size + size]);
    }
}
