//! The answer to a line that shows a view, written as its values are read.

ghost use Rattle.std.specs.Prelude.{◌≡◌, ◌++◌, MatchResult, codes, if◌then◌else◌};
ghost use Rattle.std.specs.Io.KnownBytes.{Appends};
ghost use Rattle.h5_model.specs.Scripts.Answers.{shown_text, stored_values};
ghost use Rattle.h5_model.specs.Scripts.Text.{values_text};
ghost use Rattle.h5_text.specs.Printed.{Prints, WritesSome};

use crate::streams::{PrintFault, write_full, write_text};
use crate::texts::{push_stored_values, push_text};
use h5_model::Fixed;
use std::io::Write;

/// The most values that are put into the buffer before it is written.
const AT_ONCE: usize = 4096;

/// Writes what the buffer holds, and behind it the answer to `show`: `lent` or `kept`, and the values, with a space
/// before each. `bytes` are the values as they are stored.
///
/// Values are written as they are read, some thousands at once, so the memory that is taken does not grow with their
/// number.
///
/// # Errors
///
/// A beginning of the answer may have been written.
///
/// - `WriteFailed`: the writer failed, or took no byte.
/// - `NoMemory`: memory is refused.
pub fn write_shown<W: Write>(
    text: &mut Vec<u8>,
    lent: bool,
    fixed: &Fixed,
    bytes: &[u8],
    output: &mut W,
) -> Result<(), PrintFault>
    ensures { let all = text.old.items ++ shown_text lent (record { fixed = fixed.now; bytes = bytes.now }) in
        MatchResult result
        (λ _. Appends (W.contents output.old) (W.contents output.new) all)
        (λ _. WritesSome (W.contents output.old) (W.contents output.new) all) }
{
    push_text(text, kept_word(lent))?;
    print_values(text, fixed, bytes, output)?;
    push_text(text, b"\n")?;
    write_text(output, text)
}

/// Whether what is shown is lent, as the line tells it.
fn kept_word(lent: bool) -> &'static [u8]
    ensures { result.now ≡ (if lent then codes "lent" else codes "kept") }
{
    if lent { b"lent" } else { b"kept" }
}

/// Prints the values of stored bytes of the type, a space before each.
fn print_values<W: Write>(
    text: &mut Vec<u8>,
    fixed: &Fixed,
    bytes: &[u8],
    output: &mut W,
) -> Result<(), PrintFault>
    ensures { Prints result (W.contents output.old) (W.contents output.new) text.old.items text.new.items
        (values_text (stored_values fixed.now bytes.now)) }
{
    let at_once = AT_ONCE * fixed.size();
    let mut rest = bytes;
    while !rest.is_empty() {
        let (part, behind) = rest.split_at(rest.len().min(at_once));
        push_stored_values(text, fixed, part)?;
        write_full(output, text)?;
        rest = behind;
    }
    Ok(())
}
