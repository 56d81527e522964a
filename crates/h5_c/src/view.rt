//! Views: selections of an array that follow its edits.

ghost use Rattle.std.specs.Prelude.{◌≡◌, true, false};
ghost use Rattle.h5_c.specs.Calls.{IsKeptOpen};
ghost use Rattle.h5_c.specs.Given.{given_selection};
ghost use Rattle.h5_c.specs.Viewed.{HasShown, HasShownLength, HasViewClosed, HasViewOpened, shown_in};

use crate::held::Held;
use crate::room::copy;
use crate::slot::Slot;
use crate::status::{DONE, WRONG_STATE, view_status};
use h5_file::{HyperRef, ViewNo};
use std::alloc::Global;

impl Held {
    fn open_view(&mut self, path: &[u8], hyper: &HyperRef<'_>, number: &mut u32) -> u32
        ensures { HasViewOpened self.old path.now hyper.now self.new number.old number.new result }
    {
        match self.session.open_view(path, hyper) {
            Ok(view) => {
                *number = view.0;
                DONE
            }
            Err(fault) => view_status(fault),
        }
    }

    fn close_view(&mut self, number: u32) -> u32
        ensures { HasViewClosed self.old number self.new result }
    {
        match self.session.close_view(ViewNo(number)) {
            Ok(()) => DONE,
            Err(fault) => view_status(fault),
        }
    }

    fn show(&self, number: u32, room: &mut [u8]) -> u32
        ensures { HasShown (shown_in self.now.session number) room.old room.new result }
    {
        match self.session.show(ViewNo(number)) {
            Ok(shown) => copy(shown.bytes, room),
            Err(fault) => view_status(fault),
        }
    }

    fn shown_length(&self, number: u32, length: &mut usize) -> u32
        ensures { HasShownLength (shown_in self.now.session number) length.old length.new result }
    {
        match self.session.show(ViewNo(number)) {
            Ok(shown) => {
                *length = shown.bytes.len();
                DONE
            }
            Err(fault) => view_status(fault),
        }
    }
}

/// Opens a view of the selected cells of the array at the path, and writes its number to `number`.
///
/// # Errors
///
/// `WRONG_STATE` where the slot is closed. Else the number of the rule of the path or the selection; or `VIEW_FAULTS`
/// and 4 where 1024 views are open or the numbers are used up; or `NO_MEMORY`. The session and `number` stay as they
/// were.
#[unsafe(no_mangle)]
pub extern "C" fn h5i_open_view(
    alloc: Global,
    slot: &mut Slot,
    path: &[u8],
    start: &[u64],
    stride: &[u64],
    count: &[u64],
    block: &[u64],
    number: &mut u32,
) -> u32
    ensures kept { IsKeptOpen slot.old.is_open slot.new.is_open result }
    ensures opened { slot.old.is_open ≡ true
        → HasViewOpened slot.old.held path.now (given_selection start.now stride.now count.now block.now)
        slot.new.held number.old number.new result }
{
    if !slot.is_open() {
        return WRONG_STATE;
    }
    let hyper = HyperRef::new(start, stride, count, block);
    let mut held = slot.take(alloc);
    let status = held.open_view(path, &hyper, number);
    slot.put(held);
    status
}

/// Closes a view.
///
/// # Errors
///
/// `WRONG_STATE` where the slot is closed; `VIEW_FAULTS` and 1 where no open view has the number. Nothing changes.
#[unsafe(no_mangle)]
pub extern "C" fn h5i_close_view(alloc: Global, slot: &mut Slot, number: u32) -> u32
    ensures kept { IsKeptOpen slot.old.is_open slot.new.is_open result }
    ensures closed { slot.old.is_open ≡ true
        → HasViewClosed slot.old.held number slot.new.held result }
{
    if !slot.is_open() {
        return WRONG_STATE;
    }
    let mut held = slot.take(alloc);
    let status = held.close_view(number);
    slot.put(held);
    status
}

/// Copies what a view shows to `room`: the selected cells of its array as it is now, each in as many bytes as the
/// type has. The session stays as it was. Takes no memory.
///
/// # Errors
///
/// `WRONG_STATE` where the slot is closed. Else `VIEW_FAULTS` and 1 where no open view has the number, 2 where its
/// array was deleted, 3 where a selected cell is outside the array for now; or `WRONG_ROOM` where the cells have not just
/// as many bytes as `room`. It stays as it was.
#[unsafe(no_mangle)]
pub extern "C" fn h5i_show(alloc: Global, slot: &mut Slot, number: u32, room: &mut [u8]) -> u32
    ensures same { (slot.new.is_open ≡ slot.old.is_open)
        × (slot.old.is_open ≡ true → slot.new.held ≡ slot.old.held) }
    ensures closed { slot.old.is_open ≡ false → (result ≡ WRONG_STATE) × (room.new ≡ room.old) }
    ensures shown { slot.old.is_open ≡ true
        → HasShown (shown_in slot.old.held.session number) room.old room.new result }
{
    if !slot.is_open() {
        return WRONG_STATE;
    }
    let held = slot.take(alloc);
    let status = held.show(number, room);
    slot.put(held);
    status
}

/// How many bytes a view shows. The session stays as it was.
///
/// # Errors
///
/// As [`h5i_show`]. `length` stays as it was.
#[unsafe(no_mangle)]
pub extern "C" fn h5i_shown_length(
    alloc: Global,
    slot: &mut Slot,
    number: u32,
    length: &mut usize,
) -> u32
    ensures same { (slot.new.is_open ≡ slot.old.is_open)
        × (slot.old.is_open ≡ true → slot.new.held ≡ slot.old.held) }
    ensures closed { slot.old.is_open ≡ false
        → (result ≡ WRONG_STATE) × (length.new ≡ length.old) }
    ensures shown { slot.old.is_open ≡ true
        → HasShownLength (shown_in slot.old.held.session number) length.old length.new result }
{
    if !slot.is_open() {
        return WRONG_STATE;
    }
    let held = slot.take(alloc);
    let status = held.shown_length(number, length);
    slot.put(held);
    status
}
