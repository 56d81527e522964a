//! `ls`: the list of a file.

ghost use Rattle.std.specs.Prelude.{◌≡◌, ℕ, IfOk, List, Option, Some};
ghost use Rattle.h5_model.specs.Scripts.Text.{list_text};
ghost use Rattle.h5_args.specs.Words.{WantLs};
ghost use Rattle.h5_cli.specs.Ends.{Ends};

use crate::files::open;
use crate::status::Status;
use crate::tell::{no_memory, print};
use h5_script::{File, push_list};
use std::alloc::{AllocError, Global};
use std::io::Write;
use std::rt::Files;

/// The list of a file.
fn list(alloc: Global, file: &File) -> Result<Vec<u8>, AllocError>
    ensures { IfOk result (λ text. text.items ≡ list_text file.now.tree) }
{
    let mut text = Vec::new(alloc);
    push_list(alloc, &mut text, file)?;
    Ok(text)
}

/// Lists the file of this name.
pub(crate) fn ls<R: Files, O: Write, E: Write>(
    rt: &R,
    alloc: Global,
    file: &str,
    output: &mut O,
    errors: &mut E,
) -> Status
    ensures { (input left : Option (List ℕ))
        → Ends (Some (WantLs file.now)) input left (O.contents output.old) (O.contents output.new) result }
{
    let opened = match open(rt, alloc, file, errors) {
        Ok(opened) => opened,
        Err(status) => return status,
    };
    match list(alloc, &opened) {
        Ok(text) => print(&text, Status::Done, output, errors),
        Err(_) => no_memory(errors),
    }
}
