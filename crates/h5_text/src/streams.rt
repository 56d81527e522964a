//! Texts that are written to a stream. No write is tried again.

ghost use Rattle.std.specs.Prelude.{◌≡◌, ◌≤◌, [], IsOk, MatchResult, OnOk, length};
ghost use Rattle.std.specs.Io.KnownBytes.{Appends, Keeps};
ghost use Rattle.h5_text.specs.Printed.{Prints, WritesSome, most_held};
ghost use Rattle.h5_text.specs.declared.streams.PrintFault.TheVariants.{WriteFailed};

use std::alloc::AllocError;
use std::io::Write;

/// Why a text was not printed whole.
#[derive(Clone, Copy, PartialEq, Eq, Debug)]
pub enum PrintFault {
    /// The writer failed, or took no byte.
    WriteFailed,
    /// Memory was refused.
    NoMemory,
}

impl From<AllocError> for PrintFault {
    ghost use Rattle.h5_text.specs.declared.streams.PrintFault.TheVariants.{NoMemory};

    ghost from_gives = { λ _ fault. fault ≡ NoMemory };

    fn from(_error: AllocError) -> PrintFault {
        PrintFault::NoMemory
    }
}

/// The most bytes that a buffer holds back between two writes.
pub const MOST_HELD: usize = 65536;

/// Writes a text, in as many writes as it takes. No write is tried again.
///
/// # Errors
///
/// `WriteFailed` if the writer fails or takes no byte. A beginning of the text was written then.
pub fn write_text<W: Write>(output: &mut W, text: &[u8]) -> Result<(), PrintFault>
    ensures { MatchResult result (λ _. Appends (W.contents output.old) (W.contents output.new) text.now)
        (λ e. (e ≡ WriteFailed) × WritesSome (W.contents output.old) (W.contents output.new) text.now) }
{
    let mut rest = text;
    while !rest.is_empty() {
        match output.write(rest) {
            Ok(0) => return Err(PrintFault::WriteFailed),
            Ok(count) => rest = &rest[count..],
            Err(_) => return Err(PrintFault::WriteFailed),
        }
    }
    Ok(())
}

/// Flushes the writer: what it holds back is written.
///
/// # Errors
///
/// `WriteFailed` if the writer fails.
pub fn flush<W: Write>(output: &mut W) -> Result<(), PrintFault>
    ensures { MatchResult result (λ _. Keeps (W.contents output.old) (W.contents output.new))
        (λ e. (e ≡ WriteFailed) × Keeps (W.contents output.old) (W.contents output.new)) }
{
    match output.flush() {
        Ok(()) => Ok(()),
        Err(_) => Err(PrintFault::WriteFailed),
    }
}

/// Writes what a buffer holds, and empties it, if it holds more than 65536 bytes. Else nothing is done.
///
/// # Errors
///
/// `WriteFailed` if the writer fails or takes no byte. A beginning of what the buffer held was written then.
pub fn write_full<W: Write>(output: &mut W, held: &mut Vec<u8>) -> Result<(), PrintFault>
    ensures printed { Prints result (W.contents output.old) (W.contents output.new) held.old.items
        held.new.items [] }
    ensures few { OnOk result (length held.new.items ≤ most_held) }
    ensures small { length held.old.items ≤ most_held
        → IsOk result × (output.new ≡ output.old) × (held.new ≡ held.old) }
{
    if held.len() > MOST_HELD {
        write_text(output, held)?;
        held.clear();
    }
    Ok(())
}
