//! What a run tells its caller: texts of answers, and messages of how it ended.

ghost use Rattle.std.specs.Prelude.{◌≡◌, ◌⊎◌, MatchResult};
ghost use Rattle.std.specs.Io.KnownBytes.{Appends};
ghost use Rattle.h5_cli.specs.Status.{status_if_untold};
ghost use Rattle.h5_cli.specs.declared.status.Status.TheVariants.{ImageRefused, StreamFailed, NoMemory};

use crate::status::Status;
use h5_script::{Cause, OpenFault};
use std::io::{self, Write};

/// The status of a run that ended in a message: the message's own, or that it could not be told.
/// Of both the higher counts.
pub(crate) fn told(message: io::Result<()>, status: Status) -> Status
    ensures { MatchResult message (λ _. result ≡ status) (λ _. result ≡ status_if_untold status) }
{
    match message {
        Ok(()) => status,
        Err(_) if status == Status::NoMemory => status,
        Err(_) => Status::StreamFailed,
    }
}

pub(crate) fn no_memory<E: Write>(errors: &mut E) -> Status
    ensures { result ≡ NoMemory }
{
    told(writeln!(errors, "h5i: out of memory"), Status::NoMemory)
}

/// Tells what could not be done with a file or a stream.
pub(crate) fn failed<E: Write>(what: &str, errors: &mut E) -> Status
    ensures { result ≡ StreamFailed }
{
    told(writeln!(errors, "h5i: {what}"), Status::StreamFailed)
}

/// Tells what could not be done with the file of this name.
pub(crate) fn failed_on<E: Write>(what: &str, file: &str, errors: &mut E) -> Status
    ensures { result ≡ StreamFailed }
{
    told(writeln!(errors, "h5i: {what} {file}"), Status::StreamFailed)
}

/// Tells why the bytes of a file were refused.
pub(crate) fn refused<E: Write>(fault: OpenFault, errors: &mut E) -> Status
    ensures { (result ≡ NoMemory) ⊎ ((result ≡ ImageRefused) ⊎ (result ≡ StreamFailed)) }
{
    if fault.cause == Cause::NoMemory {
        return no_memory(errors);
    }
    let number = fault.number();
    let name = fault.name();
    let address = fault.address();
    told(
        writeln!(errors, "h5i: refused {number} {name} at {address}"),
        Status::ImageRefused,
    )
}

/// Prints a text whole, at the end of a run with this status.
pub(crate) fn print<O: Write, E: Write>(
    text: &[u8],
    status: Status,
    output: &mut O,
    errors: &mut E,
) -> Status
    ensures { (result ≡ StreamFailed)
        ⊎ ((result ≡ status) × Appends (O.contents output.old) (O.contents output.new) text.now) }
{
    match output.write_all(text) {
        Ok(()) => status,
        Err(_) => failed("cannot print", errors),
    }
}
