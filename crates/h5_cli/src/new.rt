//! `new`: a file with an empty root group.

ghost use Rattle.std.specs.Prelude.{ℕ, List, Option, Some};
ghost use Rattle.h5_args.specs.Words.{WantNew};
ghost use Rattle.h5_cli.specs.Ends.{Ends};

use crate::files::write_whole;
use crate::status::Status;
use crate::tell::no_memory;
use h5_script::File;
use std::alloc::Global;
use std::io::Write;
use std::rt::Files;

/// Writes a file with an empty root group.
pub(crate) fn new<R: Files, E: Write>(rt: &R, alloc: Global, file: &str, errors: &mut E) -> Status
    ensures { (input left printed : Option (List ℕ))
        → Ends (Some (WantNew file.now)) input left printed printed result }
{
    match File::create(alloc) {
        Ok(made) => write_whole(rt, file, made.image(), Status::Done, errors),
        Err(_) => no_memory(errors),
    }
}
