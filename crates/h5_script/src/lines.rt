//! Lines of a script, run one after the other.

ghost use Rattle.std.specs.Prelude.{◌≡◌, ◌+◌, ◌++◌, ◌<◌, ◌≤◌, ◌^◌, ◌∷◌, [], IfOk, OnOk, MatchOption, length};
ghost use Rattle.h5_command.specs.Commands.{command_of};
ghost use Rattle.h5_script.specs.Pieces.{HasNoEnd, IsFirstLine, RunsLinesTo, commands_of_line};
ghost use Rattle.h5_script.specs.Runs.{RunsTo};
ghost use Rattle.h5_script.specs.Script.{none_ran};

use crate::answer::answer;
use crate::fault::RunFault;
use crate::ran::Ran;
use h5_command::{Command, read_line};
use h5_dump::Session;
use std::alloc::{AllocError, Global};
use std::io::Write;

/// Memory for the answer of a line that has no long one.
const SHORT_ANSWER: usize = 64;

/// The buffer in which an answer is made, and how all lines so far count.
#[derive(Drop)]
pub struct Answers {
    pub text: Vec<u8>,
    pub ran: Ran,
}

impl Answers {
    /// No line was run yet.
    pub(crate) fn new(alloc: Global) -> Result<Answers, AllocError>
        ensures { IfOk result (λ answers. answers.ran ≡ none_ran) }
    {
        Ok(Answers {
            text: Vec::with_capacity(alloc, SHORT_ANSWER)?,
            ran: Ran {
                refused: 0,
                edits: 0,
            },
        })
    }
}

/// Runs a command, and counts its answer once that is written.
fn run_command<W: Write>(
    alloc: Global,
    session: &mut Session,
    command: &Command,
    answers: &mut Answers,
    output: &mut W,
) -> Result<(), RunFault>
    requires refused { answers.old.ran.refused < 2 ^ 63 }
    requires edits { answers.old.ran.edits < 2 ^ 63 }
    ensures run { RunsTo result (command_of command.now ∷ []) session.old session.new
        (W.contents output.old) (W.contents output.new) answers.old.ran answers.new.ran }
    ensures refused { OnOk result (answers.new.ran.refused ≤ answers.old.ran.refused + 1) }
    ensures edits { OnOk result (answers.new.ran.edits ≤ answers.old.ran.edits + 1) }
{
    let outcome = answer(alloc, session, command, &mut answers.text, output)?;
    answers.ran.count(outcome);
    Ok(())
}

/// Runs a line, if it asks for anything, and writes its answer.
pub(crate) fn run_line<W: Write>(
    alloc: Global,
    session: &mut Session,
    line: &[u8],
    answers: &mut Answers,
    output: &mut W,
) -> Result<(), RunFault>
    requires refused { answers.old.ran.refused < 2 ^ 63 }
    requires edits { answers.old.ran.edits < 2 ^ 63 }
    ensures run { RunsTo result (commands_of_line line.now) session.old session.new
        (W.contents output.old) (W.contents output.new) answers.old.ran answers.new.ran }
    ensures refused { OnOk result (answers.new.ran.refused ≤ answers.old.ran.refused + 1) }
    ensures edits { OnOk result (answers.new.ran.edits ≤ answers.old.ran.edits + 1) }
{
    let Some(command) = read_line(alloc, line)? else {
        return Ok(());
    };
    run_command(alloc, session, &command, answers, output)
}

/// The first line that ends in the bytes, and what stands behind its end.
fn cut(bytes: &[u8]) -> Option<(&[u8], &[u8])>
    ensures { MatchOption result (HasNoEnd bytes.now) (λ parts.
        IsFirstLine bytes.now parts.0.now parts.1.now) }
{
    for (k, byte) in bytes.iter().enumerate() {
        if *byte == b'\n' {
            return Some((&bytes[..k], &bytes[k + 1..]));
        }
    }
    None
}

/// Runs the lines that end in a piece of a script, the first of which begins with what is held. What
/// follows the last of them is held then.
pub(crate) fn run_piece<W: Write>(
    alloc: Global,
    session: &mut Session,
    held: &mut Vec<u8>,
    piece: &[u8],
    answers: &mut Answers,
    output: &mut W,
) -> Result<(), RunFault>
    requires held { HasNoEnd held.old.items }
    requires refused { answers.old.ran.refused + length piece.now < 2 ^ 63 }
    requires edits { answers.old.ran.edits + length piece.now < 2 ^ 63 }
    ensures run { RunsLinesTo result (held.old.items ++ piece.now) held.new.items session.old session.new
        (W.contents output.old) (W.contents output.new) answers.old.ran answers.new.ran }
    ensures refused { OnOk result (answers.new.ran.refused ≤ answers.old.ran.refused + length piece.now) }
    ensures edits { OnOk result (answers.new.ran.edits ≤ answers.old.ran.edits + length piece.now) }
{
    let mut rest = piece;
    while let Some((line, behind)) = cut(rest) {
        held.extend_from_slice(line)?;
        run_line(alloc, session, held, answers, output)?;
        held.clear();
        rest = behind;
    }
    held.extend_from_slice(rest)?;
    Ok(())
}
