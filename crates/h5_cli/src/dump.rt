//! `dump`: what stands at a path of a file.

ghost use Rattle.std.specs.Prelude.{◌≡◌, ◌⊎◌, ℕ, IfOk, List, Option, Some};
ghost use Rattle.h5_model.specs.Edits.EditFaults.{refused_text};
ghost use Rattle.h5_args.specs.Words.{WantDump};
ghost use Rattle.h5_cli.specs.Ends.{Ends};
ghost use Rattle.h5_cli.specs.Output.{IsDumpTold, IsRefusalTold};
ghost use Rattle.h5_cli.specs.declared.status.Status.TheVariants.{NoMemory, StreamFailed};

use crate::files::open;
use crate::status::Status;
use crate::tell::{failed, no_memory, print};
use h5_model::EditFault;
use h5_script::{DumpFault, File, unescaped, write_dump};
use h5_text::{PrintFault, push_refused};
use std::alloc::{AllocError, Global};
use std::io::Write;
use std::rt::Files;

/// Prints the line of a refusal.
fn print_refusal<O: Write, E: Write>(
    alloc: Global,
    fault: EditFault,
    output: &mut O,
    errors: &mut E,
) -> Status
    ensures { IsRefusalTold fault (O.contents output.old) (O.contents output.new) result }
{
    match refusal(alloc, fault) {
        Ok(line) => print(&line, Status::CommandRefused, output, errors),
        Err(_) => no_memory(errors),
    }
}

/// The line of a refusal.
fn refusal(alloc: Global, fault: EditFault) -> Result<Vec<u8>, AllocError>
    ensures { IfOk result (λ line. line.items ≡ refused_text fault) }
{
    let mut line = Vec::new(alloc);
    push_refused(&mut line, fault)?;
    Ok(line)
}

/// How a run ends whose dump was cut off.
fn cut_off<E: Write>(reason: PrintFault, errors: &mut E) -> Status
    ensures { (result ≡ StreamFailed) ⊎ (result ≡ NoMemory) }
{
    match reason {
        PrintFault::WriteFailed => failed("cannot print", errors),
        PrintFault::NoMemory => no_memory(errors),
    }
}

/// Dumps what stands at a path of a file.
fn dump_at<O: Write, E: Write>(
    alloc: Global,
    file: &File,
    path: &[u8],
    output: &mut O,
    errors: &mut E,
) -> Status
    ensures { IsDumpTold file.now.tree path.now (O.contents output.old) (O.contents output.new) result }
{
    let mut text = Vec::new(alloc);
    match write_dump(&mut text, file, path, output) {
        Ok(()) => Status::Done,
        Err(DumpFault::Refused(EditFault::NoMemory)) => no_memory(errors),
        Err(DumpFault::Refused(fault)) => print_refusal(alloc, fault, output, errors),
        Err(DumpFault::Cut(reason)) => cut_off(reason, errors),
    }
}

/// Dumps what stands at a path of the file of this name.
pub(crate) fn dump<R: Files, O: Write, E: Write>(
    rt: &R,
    alloc: Global,
    file: &str,
    path: &str,
    output: &mut O,
    errors: &mut E,
) -> Status
    ensures { (input left : Option (List ℕ))
        → Ends (Some (WantDump file.now path.now)) input left (O.contents output.old) (O.contents output.new)
        result }
{
    let opened = match open(rt, alloc, file, errors) {
        Ok(opened) => opened,
        Err(status) => return status,
    };
    match unescaped(alloc, path.as_bytes()) {
        Ok(Some(path)) => dump_at(alloc, &opened, path.as_slice(), output, errors),
        Ok(None) => print_refusal(alloc, EditFault::BadPath, output, errors),
        Err(_) => no_memory(errors),
    }
}
