//! The reading of a dataset's header (File Format Specification 3.0, section IV.A.2).

ghost use Rattle.std.specs.Prelude.{◌≡◌, Ok, Some, true, IfOk, IfErr};
ghost use Rattle.h5_model.specs.Format.Fixed.{IsFixed, fits};
ghost use Rattle.h5_model.specs.Format.Described.{Described, HasArray, HasFill};
ghost use Rattle.h5_model.specs.Faults.HeaderFaults.{ListBreach};
ghost use Rattle.h5_header.specs.Kinds.{IsOfDataset};
ghost use Rattle.h5_layout.specs.Judged.{breach_in, fill_breach};
ghost use Rattle.h5_layout.specs.Told.{array_told};

use crate::array::{ArrayRef, Maxima};
use crate::bodies::one_body;
use crate::judge::{judge_datatype, judge_fill, judge_layout, judge_old_fill, judge_sizes};
use h5_header::HeaderRef;
use h5_model::message_type::{DATA_LAYOUT, DATASPACE, DATATYPE, FILL_VALUE, OLD_FILL_VALUE};
use h5_model::{Cause, Fixed, OpenFault};

/// The array that the messages of a dataset describe. Takes no memory.
///
/// That the messages are those of a dataset is the caller's condition.
///
/// # Errors
///
/// The first of these that holds, with the address of the object's header:
///
/// - `DataspaceForm`: the Dataspace message has another form.
/// - `TooLarge`: the product of the sizes, with sizes of 0 left out, is above 2^40.
/// - `DatatypeForm`: the Datatype message is not that of a whole-number type.
/// - `FillForm`: the old Fill Value message, or then the new one, has another form.
/// - `LayoutForm`: the Data Layout message has another form.
/// - `TooLarge`: a chunk has more than 2^30 bytes.
pub fn read_array<'a>(header: &HeaderRef<'a>) -> Result<ArrayRef<'a>, OpenFault>
    requires { IsOfDataset header.now.messages }
    ensures read { IfOk result (λ array. HasArray header.now.messages array) }
    ensures only { (array : Described) → HasArray header.now.messages array → result ≡ Ok array }
    ensures address { IfErr result (λ fault. fault.address ≡ header.now.address) }
    ensures first { IfErr result (λ fault. breach_in header.now.messages ≡ Some fault.cause) }
    ensures refused { IfErr result (λ fault.
        ListBreach header.now.image header.now.address header.now.messages fault.cause) }
{
    match judge(header) {
        Ok(array) => Ok(array),
        Err(cause) => Err(OpenFault {
            cause,
            address: header.address(),
        }),
    }
}

/// The array of messages that are known to describe one. Takes no memory.
///
/// That they do is the caller's condition.
pub fn known_array<'a>(header: &HeaderRef<'a>) -> ArrayRef<'a>
    requires dataset { IsOfDataset header.now.messages }
    requires array { (a : Described) × HasArray header.now.messages a }
    ensures { result ≡ array_told header.now.messages }
{
    match judge(header) {
        Ok(array) => array,
        Err(_) => unreachable!(),
    }
}

/// The array, or the first rule that these messages break.
// Inlined, so that the array is made where it is to stand: it has room for 32 sizes, which takes time to be moved.
#[inline(always)]
fn judge<'a>(header: &HeaderRef<'a>) -> Result<ArrayRef<'a>, Cause>
    requires { IsOfDataset header.now.messages }
    ensures read { IfOk result (λ array. HasArray header.now.messages array) }
    ensures first { IfErr result (λ cause. breach_in header.now.messages ≡ Some cause) }
{
    let extent = judge_sizes(one_body(header, DATASPACE))?;
    let fixed = judge_datatype(one_body(header, DATATYPE))?;
    let fill = judge_fills(header, &fixed)?;
    let dims = extent.dims();
    let layout = judge_layout(&dims, &fixed, one_body(header, DATA_LAYOUT))?;
    Ok(ArrayRef {
        fixed,
        dims,
        maxima: Maxima::Read(extent),
        fill,
        layout,
    })
}

/// The fill value: the new message decides, and with neither it is 0.
fn judge_fills(header: &HeaderRef<'_>, fixed: &Fixed) -> Result<i128, Cause>
    requires { IsFixed fixed.now }
    ensures filled { IfOk result (λ fill. HasFill header.now.messages fixed.now fill) }
    ensures of_type { IfOk result (λ fill. fits fixed.now fill ≡ true) }
    ensures refused { IfErr result (λ cause.
        fill_breach header.now.messages (Some fixed.now) ≡ Some cause) }
{
    let old_fill = match header.find_body(OLD_FILL_VALUE) {
        Some(body) => Some(judge_old_fill(fixed, body)?),
        None => None,
    };
    let new_fill = match header.find_body(FILL_VALUE) {
        Some(body) => Some(judge_fill(fixed, body)?),
        None => None,
    };
    Ok(new_fill.or(old_fill).unwrap_or(0))
}
