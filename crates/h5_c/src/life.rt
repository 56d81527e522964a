//! A session's life: made or opened, handed out as bytes, closed.

ghost use Rattle.std.specs.Prelude.{◌≡◌, true, false, length, MatchResult};
ghost use Rattle.h5_c.specs.Calls.{HasCreated, HasOpened, IsCopied, IsFileOf, IsNoFile, IsSessionOf};

use crate::held::Held;
use crate::room::copy;
use crate::slot::Slot;
use crate::status::{DONE, NO_MEMORY, WRONG_STATE, open_status};
use h5_file::{File, OpenFault, Session};
use std::alloc::{AllocError, Global};

/// Puts a session of this file into a closed slot.
fn keep(alloc: Global, slot: &mut Slot, file: File) -> Result<(), AllocError>
    requires { slot.old.is_open ≡ false }
    ensures { MatchResult result (λ _. IsSessionOf file slot.new.is_open slot.new.held)
        (λ _. slot.new.is_open ≡ false) }
{
    let held = Held {
        session: Session::new(file),
        text: Vec::new(alloc),
    };
    slot.put(Box::new(alloc, held)?);
    Ok(())
}

/// A session of the empty file, in a closed slot.
///
/// # Errors
///
/// - `WRONG_STATE`: the slot is open. It stays as it was.
/// - `NO_MEMORY`: memory is refused. The slot stays closed.
#[unsafe(no_mangle)]
pub extern "C" fn h5i_create(alloc: Global, slot: &mut Slot) -> u32
    ensures open { slot.old.is_open ≡ true → (result ≡ WRONG_STATE) × (slot.new ≡ slot.old) }
    ensures created { slot.old.is_open ≡ false
        → HasCreated slot.new.is_open slot.new.held result }
{
    if slot.is_open() {
        return WRONG_STATE;
    }
    let Ok(file) = File::create(alloc) else {
        return NO_MEMORY;
    };
    match keep(alloc, slot, file) {
        Ok(()) => DONE,
        Err(_) => NO_MEMORY,
    }
}

/// The file that these bytes are.
fn read_file(alloc: Global, image: Vec<u8>) -> Result<File, OpenFault>
    ensures { MatchResult result (IsFileOf image.items) (IsNoFile image.items) }
{
    match File::open(alloc, image) {
        Ok(file) => Ok(file),
        Err(error) => Err(error.fault),
    }
}

/// A session of the file that these bytes are, up to their end of file address, in a closed slot. The bytes are
/// copied.
///
/// # Errors
///
/// - `WRONG_STATE`: the slot is open. It stays as it was.
/// - `CAUSES` and the number of a cause: the bytes break this rule at the address that is written to `place`. The
///   slot stays closed.
/// - `NO_MEMORY`: memory is refused. The slot stays closed. Bytes that are a file are refused for this alone.
#[unsafe(no_mangle)]
pub extern "C" fn h5i_open(alloc: Global, slot: &mut Slot, bytes: &[u8], place: &mut u64) -> u32
    ensures open { slot.old.is_open ≡ true → (result ≡ WRONG_STATE) × (slot.new ≡ slot.old) }
    ensures opened { slot.old.is_open ≡ false
        → HasOpened bytes.now slot.new.is_open slot.new.held place.new result }
{
    if slot.is_open() {
        return WRONG_STATE;
    }
    let Ok(image) = Vec::from_slice(alloc, bytes) else {
        return NO_MEMORY;
    };
    match read_file(alloc, image) {
        Ok(file) => match keep(alloc, slot, file) {
            Ok(()) => DONE,
            Err(_) => NO_MEMORY,
        },
        Err(fault) => {
            *place = fault.address;
            open_status(&fault)
        }
    }
}

/// Gives the session up, with the memory that it has. A closed slot stays closed.
#[unsafe(no_mangle)]
pub extern "C" fn h5i_close(alloc: Global, slot: &mut Slot)
    ensures { slot.new.is_open ≡ false }
{
    if slot.is_open() {
        drop(slot.take(alloc));
    }
}

/// How many bytes the image has, or 0 in a closed slot. The session stays as it was.
#[unsafe(no_mangle)]
pub extern "C" fn h5i_image_length(alloc: Global, slot: &mut Slot) -> usize
    ensures same { (slot.new.is_open ≡ slot.old.is_open)
        × (slot.old.is_open ≡ true → slot.new.held ≡ slot.old.held) }
    ensures closed { slot.old.is_open ≡ false → result ≡ 0 }
    ensures length { slot.old.is_open ≡ true
        → result ≡ length slot.old.held.session.file.image }
{
    if !slot.is_open() {
        return 0;
    }
    let held = slot.take(alloc);
    let length = held.session.file().image().len();
    slot.put(held);
    length
}

/// Copies the bytes of the image to `room`. The session stays as it was.
///
/// # Errors
///
/// `room` stays as it was.
///
/// - `WRONG_STATE`: the slot is closed.
/// - `WRONG_ROOM`: `room` has not just as many bytes as the image.
#[unsafe(no_mangle)]
pub extern "C" fn h5i_image(alloc: Global, slot: &mut Slot, room: &mut [u8]) -> u32
    ensures same { (slot.new.is_open ≡ slot.old.is_open)
        × (slot.old.is_open ≡ true → slot.new.held ≡ slot.old.held) }
    ensures closed { slot.old.is_open ≡ false
        → (result ≡ WRONG_STATE) × (room.new ≡ room.old) }
    ensures copied { slot.old.is_open ≡ true
        → IsCopied slot.old.held.session.file.image room.old room.new result }
{
    if !slot.is_open() {
        return WRONG_STATE;
    }
    let held = slot.take(alloc);
    let status = copy(held.session.file().image(), room);
    slot.put(held);
    status
}
