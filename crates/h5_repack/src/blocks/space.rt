//! Dataspace messages, as they are appended (File Format Specification 3.0, section IV.A.2.b).
ghost use Rattle.std.specs.Prelude.{◌≡◌, ◌≤◌, ◌++◌, ◌||◌, OnOk, not, true, length};
ghost use Rattle.h5_model.specs.Edits.Refusal.{are_maxima};
ghost use Rattle.h5_model.specs.Format.Plain.{message_bytes};
ghost use Rattle.h5_model.specs.Tree.Objects.{are_sizes};
ghost use Rattle.h5_repack.specs.Blocks.ArrayHeader.{in_chunks};
ghost use Rattle.h5_repack.specs.Bodies.Bodies.{space_body};

use crate::blocks::header::{message_length, push_message_room};
use crate::blocks::layout::is_in_chunks;
use h5_layout::ArrayRef;
use h5_model::message_type::DATASPACE;
use h5_msg::{dataspace_length, write_bounded_dataspace, write_dataspace};
use h5_shape::MAX_RANK;
use std::alloc::AllocError;

/// Reads an array's maxima, one for each size.
fn read_maxima(array: &ArrayRef<'_>, maxima: &mut [Option<u64>])
    requires same { length array.now.maxima ≡ length array.now.sizes }
    requires room { length maxima.old ≡ length array.now.sizes }
    ensures { maxima.new ≡ array.now.maxima }
{
    for k in 0..maxima.len() {
        maxima[k] = array.maximum(k);
    }
}

/// Whether each size is its maximum too.
fn are_own_maxima(sizes: &[u64], maxima: &[Option<u64>]) -> bool
    ensures { result ≡ are_sizes sizes.now maxima.now }
{
    let [size, sizes @ ..] = sizes else {
        return maxima.is_empty();
    };
    let [maximum, maxima @ ..] = maxima else {
        return false;
    };
    *maximum == Some(*size) && are_own_maxima(sizes, maxima)
}

/// Whether the maxima of an array with these sizes are written: where its cells are in chunks, or one differs from its size.
fn writes_maxima(array: &ArrayRef<'_>, sizes: &[u64], maxima: &[Option<u64>]) -> bool
    ensures { result ≡ (in_chunks array.now.layout || not (are_sizes sizes.now maxima.now)) }
{
    is_in_chunks(array) || !are_own_maxima(sizes, maxima)
}

/// How many bytes the dataspace message of an array has.
pub(crate) fn space_length(array: &ArrayRef<'_>) -> u64
    requires { length array.now.maxima ≡ length array.now.sizes }
    ensures exact { result ≡ length (message_bytes
        (1, space_body (in_chunks array.now.layout) array.now.sizes array.now.maxima)) }
    ensures few { result ≤ 528 }
{
    let sizes = array.dims().sizes();
    let mut room = [None; MAX_RANK];
    let maxima = &mut room[..sizes.len()];
    read_maxima(array, maxima);
    let has_maxima = writes_maxima(array, sizes, maxima);
    message_length(dataspace_length(sizes.len(), has_maxima))
}

/// The dataspace message of an array, with the maxima where its cells are in chunks or one differs from its size.
pub(crate) fn push_space(out: &mut Vec<u8>, array: &ArrayRef<'_>) -> Result<(), AllocError>
    requires { are_maxima array.now.sizes array.now.maxima ≡ true }
    ensures { OnOk result (out.new.items ≡ out.old.items
        ++ message_bytes (1, space_body (in_chunks array.now.layout) array.now.sizes array.now.maxima)) }
{
    let sizes = array.dims().sizes();
    let mut room = [None; MAX_RANK];
    let maxima = &mut room[..sizes.len()];
    read_maxima(array, maxima);
    let has_maxima = writes_maxima(array, sizes, maxima);
    let at = push_message_room(out, DATASPACE, dataspace_length(sizes.len(), has_maxima))?;
    if has_maxima {
        write_bounded_dataspace(sizes, maxima, &mut out[at..]);
    } else {
        write_dataspace(sizes, &mut out[at..]);
    }
    Ok(())
}
