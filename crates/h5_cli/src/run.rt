//! `run`: a script on a file.

ghost use Rattle.std.specs.Prelude.{◌≡◌, ◌==◌, ℕ, IfOk, Option, None, Some, if◌then◌else◌, option_map};
ghost use Rattle.h5_args.specs.Words.{WantRun};
ghost use Rattle.h5_cli.specs.Ends.{Ends, IsRunOver, ran_status};

use crate::files::{open, write_whole};
use crate::status::Status;
use crate::tell::{failed, no_memory};
use h5_script::{File, Ran, RunFault, Session, run_script};
use std::alloc::Global;
use std::io::{Read, Write};
use std::rt::Files;

/// The status of a script that was run to its end.
fn status_of(ran: Ran) -> Status
    ensures { result ≡ ran_status ran }
{
    if ran.refused == 0 {
        Status::Done
    } else {
        Status::CommandRefused
    }
}

/// The bytes of the session's file, where a script has changed it.
fn changed_by(ran: Ran, session: Session) -> Option<Vec<u8>>
    ensures { option_map (λ image. image.items) result ≡ (if ran.edits == 0 then None
        else Some session.file.image) }
{
    if ran.edits == 0 {
        None
    } else {
        Some(session.into_image())
    }
}

/// Runs the script on a file to its end. The bytes of the file are given where it has to be written, that is,
/// where an edit, or `repack`, was accepted.
pub(crate) fn run_over<I: Read, O: Write>(
    alloc: Global,
    file: File,
    input: &mut I,
    output: &mut O,
) -> Result<(Status, Option<Vec<u8>>), RunFault>
    ensures { IfOk result (λ over.
        IsRunOver file (I.remaining input.old) (I.remaining input.new) (O.contents output.old)
        (O.contents output.new) over.0 (option_map (λ image. image.items) over.1)) }
{
    let mut session = Session::new(file);
    let ran = run_script(alloc, &mut session, input, output)?;
    Ok((status_of(ran), changed_by(ran, session)))
}

/// Runs a script from `input` on the file of this name. The file is written back where the script ran to its end and
/// an edit, or `repack`, was accepted.
///
/// # Errors
///
/// The status says how the run ended. Where several hold, the one with the highest code:
///
/// - `CommandRefused`: a line was refused or bad.
/// - `ImageRefused`: the bytes of the file are refused. No line was run.
/// - `StreamFailed`: the file or a stream could not be read or written.
/// - `NoMemory`: memory was refused.
pub fn run<R: Files, I: Read, O: Write, E: Write>(
    rt: &R,
    alloc: Global,
    file: &str,
    input: &mut I,
    output: &mut O,
    errors: &mut E,
) -> Status
    ensures { Ends (Some (WantRun file.now)) (I.remaining input.old) (I.remaining input.new)
        (O.contents output.old) (O.contents output.new) result }
{
    let opened = match open(rt, alloc, file, errors) {
        Ok(opened) => opened,
        Err(status) => return status,
    };
    match run_over(alloc, opened, input, output) {
        Ok((status, Some(changed))) => write_whole(rt, file, &changed, status, errors),
        Ok((status, None)) => status,
        Err(RunFault::NoMemory) => no_memory(errors),
        Err(_) => failed("script failed", errors),
    }
}
