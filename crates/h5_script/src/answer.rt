//! What one line answers.

ghost use Rattle.std.specs.Prelude.{◌≡◌, [], IfOk, MatchResult, codes};
ghost use Rattle.h5_dump.specs.Session.{SessionState};
ghost use Rattle.h5_model.specs.Edits.EditFaults.{refused_text};
ghost use Rattle.h5_model.specs.Scripts.Lines as lines;
ghost use Rattle.h5_model.specs.Views.ViewFaults.{view_fault_text};
ghost use Rattle.h5_script.specs.declared.ran.Outcome.TheVariants.{Refused};
ghost use Rattle.h5_command.specs.Commands.{command_of};
ghost use Rattle.h5_script.specs.Answered.{IsAnswered, IsUntold};
ghost use Rattle.h5_script.specs.Runs.{Tells};

use crate::fault::RunFault;
use crate::ran::Outcome;
use h5_command::Command;
use h5_dump::{DumpFault, HyperRef, Session, push_list, write_dump};
use h5_model::{Edit, EditFault, Hyper, ViewFault, ViewNo};
use h5_text::{
    push_accepted, push_opened, push_refused, push_text, push_view_fault, write_shown, write_text,
};
use std::alloc::{AllocError, Global};
use std::io::Write;

/// Runs a command, and writes its answer. The text is made in the buffer, in place of what was there.
///
/// A want of memory for the answer is told of `ls` and `dump` as a refusal; what is left is
/// the memory for one short line, and of `show` that for some thousand values.
pub(crate) fn answer<W: Write>(
    alloc: Global,
    session: &mut Session,
    command: &Command,
    text: &mut Vec<u8>,
    output: &mut W,
) -> Result<Outcome, RunFault>
    ensures { Tells result session.old (command_of command.now) session.new (W.contents output.old)
        (W.contents output.new) }
{
    text.clear();
    match command {
        Command::Change(edit) => tell(carry_out(session, edit, text), text, output),
        Command::OpenView { path, hyper } => tell(
            open_view(session, path.as_slice(), hyper, text),
            text,
            output,
        ),
        Command::Show(number) => show(session, *number, text, output),
        Command::Close(number) => tell(close_view(session, *number, text), text, output),
        Command::ListAll => tell(list(alloc, session, text), text, output),
        Command::Dump { path } => dump(session, path.as_slice(), text, output),
        Command::Repack => tell(repack(session, text), text, output),
        Command::Unread => tell(bad_line(text), text, output),
    }
}

/// Writes an answer, for which there was memory or not.
fn tell<W: Write>(
    answered: Result<Outcome, AllocError>,
    text: &[u8],
    output: &mut W,
) -> Result<Outcome, RunFault>
    ensures { (s t : SessionState) (command : lines.Command)
        → MatchResult answered (IsAnswered s command t text.now) (λ _. IsUntold s command t)
        → Tells result s command t (W.contents output.old) (W.contents output.new) }
{
    let outcome = answered?;
    write_text(output, text)?;
    Ok(outcome)
}

/// The answer to a line that is taken for none.
fn bad_line(text: &mut Vec<u8>) -> Result<Outcome, AllocError>
    requires { text.old.items ≡ [] }
    ensures { IfOk result (λ outcome. (outcome ≡ Refused) × (text.new.items ≡ codes "bad line\n")) }
{
    push_text(text, b"bad line\n")?;
    Ok(Outcome::Refused)
}

/// The answer to a line that is refused.
fn refused(text: &mut Vec<u8>, fault: EditFault) -> Result<Outcome, AllocError>
    requires { text.old.items ≡ [] }
    ensures { IfOk result (λ outcome. (outcome ≡ Refused) × (text.new.items ≡ refused_text fault)) }
{
    push_refused(text, fault)?;
    Ok(Outcome::Refused)
}

/// The answer to a line of a view that is refused.
fn refused_view(text: &mut Vec<u8>, fault: ViewFault) -> Result<Outcome, AllocError>
    requires { text.old.items ≡ [] }
    ensures { IfOk result (λ outcome. (outcome ≡ Refused) × (text.new.items ≡ view_fault_text fault)) }
{
    push_view_fault(text, fault)?;
    Ok(Outcome::Refused)
}

/// Carries out an edit.
fn carry_out(session: &mut Session, edit: &Edit, text: &mut Vec<u8>) -> Result<Outcome, AllocError>
    requires { text.old.items ≡ [] }
    ensures { MatchResult result (IsAnswered session.old (lines.Change edit.now) session.new text.new.items)
        (λ _. IsUntold session.old (lines.Change edit.now) session.new) }
{
    match session.edit(edit) {
        Ok(edited) => {
            push_accepted(text, edited.refreshed)?;
            Ok(Outcome::Accepted)
        }
        Err(fault) => refused(text, fault),
    }
}

/// Opens a view of the array at the path.
fn open_view(
    session: &mut Session,
    path: &[u8],
    hyper: &Hyper,
    text: &mut Vec<u8>,
) -> Result<Outcome, AllocError>
    requires { text.old.items ≡ [] }
    ensures { let asked = lines.OpenView path.now hyper.now in
        MatchResult result (IsAnswered session.old asked session.new text.new.items)
        (λ _. IsUntold session.old asked session.new) }
{
    match session.open_view(path, &HyperRef::of(hyper)) {
        Ok(view) => {
            push_opened(text, view.0)?;
            Ok(Outcome::Told)
        }
        Err(fault) => refused_view(text, fault),
    }
}

/// Writes what the view of this number shows.
fn show<W: Write>(
    session: &Session,
    number: u32,
    text: &mut Vec<u8>,
    output: &mut W,
) -> Result<Outcome, RunFault>
    requires { text.old.items ≡ [] }
    ensures { Tells result session.now (lines.Show number) session.now (W.contents output.old)
        (W.contents output.new) }
{
    match session.show(ViewNo(number)) {
        Ok(shown) => {
            write_shown(text, shown.lent, &shown.fixed, shown.bytes, output)?;
            Ok(Outcome::Told)
        }
        Err(fault) => tell(refused_view(text, fault), text, output),
    }
}

/// Closes the view of this number.
fn close_view(session: &mut Session, number: u32, text: &mut Vec<u8>) -> Result<Outcome, AllocError>
    requires { text.old.items ≡ [] }
    ensures { MatchResult result (IsAnswered session.old (lines.Close number) session.new text.new.items)
        (λ _. IsUntold session.old (lines.Close number) session.new) }
{
    match session.close_view(ViewNo(number)) {
        Ok(()) => {
            push_text(text, b"closed\n")?;
            Ok(Outcome::Told)
        }
        Err(fault) => refused_view(text, fault),
    }
}

/// Writes the file anew.
fn repack(session: &mut Session, text: &mut Vec<u8>) -> Result<Outcome, AllocError>
    requires { text.old.items ≡ [] }
    ensures { MatchResult result (IsAnswered session.old lines.Repack session.new text.new.items)
        (λ _. IsUntold session.old lines.Repack session.new) }
{
    match session.repack() {
        Ok(()) => {
            push_accepted(text, 0)?;
            Ok(Outcome::Accepted)
        }
        Err(fault) => refused(text, fault),
    }
}

/// Lists the file.
fn list(alloc: Global, session: &Session, text: &mut Vec<u8>) -> Result<Outcome, AllocError>
    requires { text.old.items ≡ [] }
    ensures { MatchResult result (IsAnswered session.now lines.ListAll session.now text.new.items)
        (λ _. IsUntold session.now lines.ListAll session.now) }
{
    if push_list(alloc, text, session.file()).is_err() {
        return refused_instead(text, EditFault::NoMemory);
    }
    Ok(Outcome::Told)
}

/// Dumps what stands at the path.
fn dump<W: Write>(
    session: &Session,
    path: &[u8],
    text: &mut Vec<u8>,
    output: &mut W,
) -> Result<Outcome, RunFault>
    ensures { Tells result session.now (lines.Dump path.now) session.now (W.contents output.old)
        (W.contents output.new) }
{
    match write_dump(text, session.file(), path, output) {
        Ok(()) => Ok(Outcome::Told),
        Err(DumpFault::Refused(fault)) => tell(refused_instead(text, fault), text, output),
        Err(DumpFault::Cut(reason)) => Err(RunFault::from(reason)),
    }
}

/// Puts a refusal in place of a part of a text.
fn refused_instead(text: &mut Vec<u8>, fault: EditFault) -> Result<Outcome, AllocError>
    ensures { IfOk result (λ outcome. (outcome ≡ Refused) × (text.new.items ≡ refused_text fault)) }
{
    text.clear();
    refused(text, fault)
}
