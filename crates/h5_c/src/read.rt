//! Selected cells of an array, read straight into C's buffer (HDF5 dataspace reference, H5Sselect_hyperslab).

ghost use Rattle.std.specs.Prelude.{◌≡◌, true, false};
ghost use Rattle.h5_file.specs.Selected.{IsSlabOf};
ghost use Rattle.h5_c.specs.Given.{given_selection};
ghost use Rattle.h5_c.specs.Read.{HasRead, HasReadOf, IsCopiedFrom};

use crate::held::Held;
use crate::room::copy;
use crate::slot::Slot;
use crate::status::{DONE, WRONG_ROOM, WRONG_STATE};
use h5_file::{HyperRef, Slab, StoredArray, gather};
use h5_query::{slab_within, standing_cells};
use std::alloc::Global;

/// Copies selected cells of an array, which are within its sizes, to a buffer of just their length.
fn copy_selected(array: &StoredArray<'_>, slab: &Slab, room: &mut [u8]) -> u32
    requires { IsSlabOf array.now.sizes slab.now }
    ensures { IsCopiedFrom array.now slab.now room.old room.new result }
{
    let size = array.array().fixed().size();
    if slab.cells() as usize * size != room.len() {
        return WRONG_ROOM;
    }
    gather(array, slab, room);
    DONE
}

/// Copies the cells that four lists select of an array to a buffer of just their length. Takes no memory.
fn read_selected(array: &StoredArray<'_>, hyper: &HyperRef<'_>, room: &mut [u8]) -> u32
    ensures { HasReadOf array.now hyper.now room.old room.new result }
{
    match standing_cells(array, hyper) {
        Some(bytes) => copy(bytes, room),
        None => read_pieces(array, hyper, room),
    }
}

/// The same piece by piece, where they do not stand one behind another.
fn read_pieces(array: &StoredArray<'_>, hyper: &HyperRef<'_>, room: &mut [u8]) -> u32
    ensures { HasReadOf array.now hyper.now room.old room.new result }
{
    match slab_within(array.dims(), hyper) {
        Ok(slab) => copy_selected(array, &slab, room),
        Err(fault) => fault.number(),
    }
}

impl Held {
    fn read(&self, path: &[u8], hyper: &HyperRef<'_>, room: &mut [u8]) -> u32
        ensures { HasRead self.now.session.file.tree path.now hyper.now
            room.old room.new result }
    {
        match self.session.file().dataset(path) {
            Ok(array) => read_selected(&array, hyper, room),
            Err(fault) => fault.number(),
        }
    }
}

/// Copies the selected cells of the array at the path to `room`, in row-major order, each in as many bytes as its type
/// has. Each byte is copied once, straight from the image. The session stays as it was. Takes no memory.
///
/// # Errors
///
/// `WRONG_STATE` where the slot is closed. Else the number of the rule that the path or the selection breaks; or
/// `WRONG_ROOM` where the cells have not just as many bytes as `room`. `room` stays as it was.
#[unsafe(no_mangle)]
pub extern "C" fn h5i_read(
    alloc: Global,
    slot: &mut Slot,
    path: &[u8],
    start: &[u64],
    stride: &[u64],
    count: &[u64],
    block: &[u64],
    room: &mut [u8],
) -> u32
    ensures same { (slot.new.is_open ≡ slot.old.is_open)
        × (slot.old.is_open ≡ true → slot.new.held ≡ slot.old.held) }
    ensures closed { slot.old.is_open ≡ false → (result ≡ WRONG_STATE) × (room.new ≡ room.old) }
    ensures read { slot.old.is_open ≡ true
        → HasRead slot.old.held.session.file.tree path.now
        (given_selection start.now stride.now count.now block.now) room.old room.new result }
{
    if !slot.is_open() {
        return WRONG_STATE;
    }
    let hyper = HyperRef::new(start, stride, count, block);
    let held = slot.take(alloc);
    let status = held.read(path, &hyper, room);
    slot.put(held);
    status
}
