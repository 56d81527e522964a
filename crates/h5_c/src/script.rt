//! Scripts, and the text that calls leave.

ghost use Rattle.std.specs.Prelude.{◌≡◌, true, false, length};
ghost use Rattle.h5_c.specs.Calls.{HasRunScript, IsCopied, IsKeptOpen};

use crate::room::copy;
use crate::slot::Slot;
use crate::status::WRONG_STATE;
use std::alloc::Global;

/// Runs a script: the lines of docs/SCRIPT.md, each ended by a line feed, but perhaps the last one. The session's
/// text is then what they answered, and nothing else. A line that is refused changes nothing, and the next one is run.
///
/// # Errors
///
/// - `WRONG_STATE`: the slot is closed.
/// - `SCRIPT_TOO_LONG`: the script has more than 16777216 bytes. The lines that end within these bytes were run.
/// - `NO_MEMORY`: memory is refused. The first lines were run.
#[unsafe(no_mangle)]
pub extern "C" fn h5i_run(alloc: Global, slot: &mut Slot, script: &[u8]) -> u32
    ensures kept { IsKeptOpen slot.old.is_open slot.new.is_open result }
    ensures run { slot.old.is_open ≡ true
        → HasRunScript slot.old.held script.now slot.new.held result }
{
    if !slot.is_open() {
        return WRONG_STATE;
    }
    let mut held = slot.take(alloc);
    let status = held.run(alloc, script);
    slot.put(held);
    status
}

/// How many bytes the session's text has, or 0 in a closed slot. The session stays as it was.
#[unsafe(no_mangle)]
pub extern "C" fn h5i_text_length(alloc: Global, slot: &mut Slot) -> usize
    ensures same { (slot.new.is_open ≡ slot.old.is_open)
        × (slot.old.is_open ≡ true → slot.new.held ≡ slot.old.held) }
    ensures closed { slot.old.is_open ≡ false → result ≡ 0 }
    ensures length { slot.old.is_open ≡ true → result ≡ length slot.old.held.text.items }
{
    if !slot.is_open() {
        return 0;
    }
    let held = slot.take(alloc);
    let length = held.text.len();
    slot.put(held);
    length
}

/// Copies the session's text to `room`: what the last script answered, or the names of the last list. The session
/// stays as it was.
///
/// # Errors
///
/// `room` stays as it was.
///
/// - `WRONG_STATE`: the slot is closed.
/// - `WRONG_ROOM`: `room` has not just as many bytes as the text.
#[unsafe(no_mangle)]
pub extern "C" fn h5i_text(alloc: Global, slot: &mut Slot, room: &mut [u8]) -> u32
    ensures same { (slot.new.is_open ≡ slot.old.is_open)
        × (slot.old.is_open ≡ true → slot.new.held ≡ slot.old.held) }
    ensures closed { slot.old.is_open ≡ false
        → (result ≡ WRONG_STATE) × (room.new ≡ room.old) }
    ensures copied { slot.old.is_open ≡ true
        → IsCopied slot.old.held.text.items room.old room.new result }
{
    if !slot.is_open() {
        return WRONG_STATE;
    }
    let held = slot.take(alloc);
    let status = copy(&held.text, room);
    slot.put(held);
    status
}
