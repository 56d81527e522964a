//! Where the headers of objects stand.

ghost use Rattle.std.specs.Prelude.{◌≡◌, ℕ, ◌<◌, IfOk, IfErr, Some, length, slice_get};
ghost use Rattle.std.specs.List.{AllByRecursion};
ghost use Rattle.h5_repack.specs.Layout.{AreHeaders, IsLowSize, IsUnplaced};

use crate::size::{Size, whole_length};
use crate::write::WriteFault;
use h5_group::{MAXIMUM_IMAGE, length_for};
use h5_model::KValues;
use std::alloc::Global;

/// Where objects stand one behind another: the addresses of their headers by their numbers, `None` for a number without an object, and
/// the end of the last.
#[derive(Drop)]
pub(crate) struct Placed {
    pub headers: Vec<Option<u64>>,
    pub end: u64,
}

/// Places the objects of these sizes in this order, the first behind the superblock of an image with these K values.
pub(crate) fn place_all(
    alloc: Global,
    k: &KValues,
    order: &[u32],
    sizes: &[Size],
) -> Result<Placed, WriteFault>
    requires below { AllByRecursion (λ number. number < length sizes.now) order.now }
    requires low { (number : ℕ) (s : Size) → slice_get sizes.now number ≡ Some s → IsLowSize s }
    ensures placed { IfOk result (AreHeaders k.now sizes.now order.now) }
    ensures refused { IfErr result (IsUnplaced k.now sizes.now order.now) }
{
    let Ok(mut headers) = vec![in alloc; None; sizes.len()] else {
        return Err(WriteFault::NoMemory);
    };
    let mut end = length_for(k);
    for number in order {
        let number = *number as usize;
        headers[number] = Some(end);
        end += whole_length(&sizes[number]);
        if end > MAXIMUM_IMAGE {
            return Err(WriteFault::TooLong);
        }
    }
    Ok(Placed { headers, end })
}
