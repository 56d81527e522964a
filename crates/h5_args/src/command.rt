//! The command, as clap takes it.

ghost use Rattle.std.specs.Prelude.{◌≡◌, IfOk, codes, false};
ghost use Rattle.clap.specs.Words.{app_of, new_app, rule_of};
ghost use Rattle.h5_args.specs.Words.{required_rule, also, file_app, path_app, with_required_subcommand, with_version, h5i_app};

use crate::lines::LINES;
use crate::refusals::REFUSALS;
use clap::{Arg, Command};
use std::alloc::{AllocError, Global};

/// The program's version, which `--version` prints.
const VERSION: &str = "0.1.0";

/// A value that has to be given.
fn value<'a>(alloc: Global, name: &'a str, help: &'a str) -> Arg<'a>
    ensures rule { rule_of result ≡ required_rule name.entry.now }
    ensures local { result.global ≡ false }
{
    Arg::new(alloc, name).required(true).help(help)
}

/// The command with a subcommand more, which takes a file.
fn with_file<'a>(
    alloc: Global,
    command: Command<'a>,
    name: &'a str,
    about: &'a str,
    help: &'a str,
) -> Result<Command<'a>, AllocError>
    ensures { IfOk result (λ c. app_of c ≡ also (app_of command.entry) (file_app name.entry.now)) }
{
    let named = Command::new(alloc, name).about(about);
    let sub = named.arg(value(alloc, "FILE", help))?;
    command.subcommand(sub)
}

/// The command with a subcommand more, which takes a file and a path in it.
fn with_path<'a>(
    alloc: Global,
    command: Command<'a>,
    name: &'a str,
    about: &'a str,
    help: &'a str,
) -> Result<Command<'a>, AllocError>
    ensures { IfOk result (λ c. app_of c ≡ also (app_of command.entry) (path_app name.entry.now)) }
{
    let named = Command::new(alloc, name).about(about);
    let with_file = named.arg(value(alloc, "FILE", "The file to read"))?;
    let sub = with_file.arg(value(alloc, "PATH", help))?;
    command.subcommand(sub)
}

/// The command with the subcommand `run` more, whose help teaches the lines of a script.
fn with_run<'a>(alloc: Global, command: Command<'a>) -> Result<Command<'a>, AllocError>
    ensures { IfOk result (λ c. app_of c ≡ also (app_of command.entry) (file_app (codes "run"))) }
{
    let named = Command::new(alloc, "run")
        .about(
            "Run the script on standard input: echo 'dataset /d i32le 3 contiguous' | h5i run e.h5",
        )
        .after_long_help(LINES);
    let sub = named.arg(value(
        alloc,
        "FILE",
        "The file to read, and to write back where the script ends and an edit was accepted",
    ))?;
    command.subcommand(sub)
}

/// The command `h5i` with no subcommand yet, whose long help tells what each refusal means.
fn bare<'a>(alloc: Global) -> Command<'a>
    ensures { app_of result ≡ with_required_subcommand (with_version (new_app (codes "h5i"))) }
{
    Command::new(alloc, "h5i")
        .about("Create, read and edit HDF5 files of whole-number arrays")
        .after_long_help(REFUSALS)
        .version(VERSION)
        .subcommand_required(true)
}

/// The command `h5i`, with the line that its help has for each subcommand.
///
/// # Errors
///
/// `AllocError` if memory is refused.
pub fn h5i<'a>(alloc: Global) -> Result<Command<'a>, AllocError>
    ensures { IfOk result (λ c. app_of c ≡ h5i_app) }
{
    let none = bare(alloc);
    let with_new = with_file(
        alloc,
        none,
        "new",
        "Write a file with an empty root group, in place of what was there: h5i new e.h5",
        "The file to write",
    )?;
    let with_ls = with_file(
        alloc,
        with_new,
        "ls",
        "List what a file holds: h5i ls e.h5",
        "The file to read",
    )?;
    let with_dump = with_path(
        alloc,
        with_ls,
        "dump",
        "Print an array and its values: h5i dump e.h5 /d",
        "The path to print, as /d; a byte that does not print is written by its number, as \\x20 for a space",
    )?;
    with_run(alloc, with_dump)
}
