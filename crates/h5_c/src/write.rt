//! Selected cells of an array, written straight from C's buffer (HDF5 dataset reference, H5Dwrite: the type in memory and
//! the buffer).

ghost use Rattle.std.specs.Prelude.{◌≡◌, true};
ghost use Rattle.h5_model.specs.declared.edits.Edit.TheVariants.{Write};
ghost use Rattle.h5_model.specs.Format.Fixed.{fixed_from};
ghost use Rattle.h5_c.specs.Calls.{HasEdited, IsKeptOpen, IsRefusedEarly};
ghost use Rattle.h5_c.specs.Given.{IsMadeWith, is_whole, number_of, given_selection, write_edit};

use crate::given::{CType, buffer_of};
use crate::held::Held;
use crate::slot::Slot;
use crate::status::{WRONG_STATE, edit_status};
use h5_file::{Buffer, HyperRef};
use std::alloc::Global;

impl Held {
    /// Writes values into selected cells.
    fn write(&mut self, path: &[u8], hyper: &HyperRef<'_>, values: &Buffer<'_>) -> u32
        ensures { HasEdited self.old (Write path.now hyper.now values.now) self.new result }
    {
        edit_status(self.session.write_from(path, hyper, values))
    }
}

/// Writes values into the selected cells of the array at the path, in row-major order: they are given as bytes of a
/// type of their own, which need not be the array's, and are read where they stand.
///
/// # Errors
///
/// As [`crate::h5i_set_attribute`].
#[unsafe(no_mangle)]
pub extern "C" fn h5i_write(
    alloc: Global,
    slot: &mut Slot,
    path: &[u8],
    start: &[u64],
    stride: &[u64],
    count: &[u64],
    block: &[u64],
    of: CType,
    values: &[u8],
) -> u32
    ensures kept { IsKeptOpen slot.old.is_open slot.new.is_open result }
    ensures edited { slot.old.is_open ≡ true
        → IsMadeWith (fixed_from of.size of.signed of.big) (is_whole values.now)
        (λ t. HasEdited slot.old.held
        (write_edit path.now (given_selection start.now stride.now count.now block.now) t values.now)
        slot.new.held result)
        (λ u. IsRefusedEarly slot.old.held slot.new.held (number_of u) result) }
{
    if !slot.is_open() {
        return WRONG_STATE;
    }
    let buffer = match buffer_of(of, values) {
        Ok(buffer) => buffer,
        Err(reason) => return reason.status(),
    };
    let hyper = HyperRef::new(start, stride, count, block);
    let mut held = slot.take(alloc);
    let status = held.write(path, &hyper, &buffer);
    slot.put(held);
    status
}
