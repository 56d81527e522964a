//! Whether each attribute of a header has the form (File Format Specification 3.0, section IV.A.2.m).

ghost use Rattle.std.specs.Prelude.{◌≡◌, Err, IsOk, IfErr, OnOk, MatchOption};
ghost use Rattle.h5_model.specs.Faults.HeaderFaults.{ListBreach};
ghost use Rattle.h5_model.specs.Format.Reads.{HasAttributes};
ghost use Rattle.h5_model.specs.Tree.Objects.{Attributes};
ghost use Rattle.h5_attr.specs.Attributes.{HasNamesOnce, attributes_of, first_fault as first_fault_in};

use crate::message::fault;
use h5_header::HeaderRef;
use h5_model::{Cause, OpenFault};

/// Checks that each attribute of a header can be read. Names are not compared; `check_names` does that. Takes no
/// memory.
///
/// # Errors
///
/// The first message of an attribute that cannot be read decides. The address is that of the header.
///
/// - `AttributeForm`: it has another form than an attribute has.
/// - `TooLarge`: the product of its sizes, with sizes of 0 left out, is above 2^40.
pub fn check_bodies(header: &HeaderRef<'_>) -> Result<(), OpenFault>
    ensures first { MatchOption (first_fault_in header.now.messages) (IsOk result) (λ cause.
        result ≡ Err (record { cause = cause; address = header.now.address })) }
    ensures breach { IfErr result (λ fault.
        ListBreach header.now.image header.now.address header.now.messages fault.cause) }
    ensures attributes { let ms = header.now.messages in
        OnOk result (HasNamesOnce ms → HasAttributes ms (attributes_of ms)) }
    ensures only { (attributes : Attributes) → HasAttributes header.now.messages attributes → IsOk result }
{
    match first_fault(header) {
        Some(cause) => Err(OpenFault {
            cause,
            address: header.address(),
        }),
        None => Ok(()),
    }
}

/// Why the first attribute message is refused that cannot be read.
fn first_fault(header: &HeaderRef<'_>) -> Option<Cause>
    ensures { result ≡ first_fault_in header.now.messages }
{
    let bytes = header.bytes();
    for message in header.list() {
        if let Some(cause) = fault(bytes, *message) {
            return Some(cause);
        }
    }
    None
}
