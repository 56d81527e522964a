//! Lines of a script, and what each asks for.
ghost use Rattle.std.specs.Prelude.{◌≡◌, IfOk};
ghost use Rattle.std.specs.List.{list_any};
ghost use Rattle.h5_model.specs.Scripts.Lines.{command_in as asked_by, is_empty_word, line_asks, words_ask};
ghost use Rattle.h5_command.specs.Commands.{Asks, command_of};
ghost use Rattle.h5_command.specs.Words.{parts};

use crate::command::Command;
use crate::forms::{of_five, of_four, of_no_argument, of_one, of_six, of_two};
use crate::words::cut;
use std::alloc::{AllocError, Global};

/// The most bytes of a line, without its line feed.
pub const MAX_LINE: usize = 1 << 20;

/// What a line of a script asks for; the line comes without its line feed. `Ok(None)` says that nothing is asked: the
/// line is empty, or begins with `#`.
///
/// # Errors
///
/// `AllocError` if memory is refused.
#[tactic(auto, unfolding(h5_model::specs::Scripts::Lines::line_asks))]
pub fn read_line(alloc: Global, line: &[u8]) -> Result<Option<Command>, AllocError>
    ensures { Asks result (line_asks line.now) }
{
    if line.len() > MAX_LINE {
        return Ok(Some(Command::Unread));
    }
    if line.is_empty() || line[0] == b'#' {
        return Ok(None);
    }
    Ok(Some(asked(alloc, line)?))
}

/// What the words of a line ask for.
fn asked(alloc: Global, line: &[u8]) -> Result<Command, AllocError>
    ensures { IfOk result (λ command. command_of command ≡ asked_by (parts 32 line.now)) }
{
    if has_empty_word(line) {
        return Ok(Command::Unread);
    }
    match command_from(alloc, line)? {
        Some(command) => Ok(command),
        None => Ok(Command::Unread),
    }
}

/// Whether two spaces stand together, or one at an end.
fn has_empty_word(line: &[u8]) -> bool
    ensures { result ≡ list_any is_empty_word (parts 32 line.now) }
{
    let mut left = Some(line);
    'words: while let Some(rest) = left {
        let (word, after) = cut(rest, b' ');
        if word.is_empty() {
            return true;
        }
        left = after;
    }
    false
}

/// What the words ask for, where they are of one of the forms.
fn command_from(alloc: Global, line: &[u8]) -> Result<Option<Command>, AllocError>
    ensures { Asks result (words_ask (parts 32 line.now)) }
{
    let (word, rest) = cut(line, b' ');
    let Some(rest) = rest else {
        return Ok(of_no_argument(word));
    };
    let (first, rest) = cut(rest, b' ');
    let Some(rest) = rest else {
        return of_one(alloc, word, first);
    };
    let (second, rest) = cut(rest, b' ');
    let Some(rest) = rest else {
        return of_two(alloc, word, first, second);
    };
    let (third, rest) = cut(rest, b' ');
    let Some(rest) = rest else {
        return Ok(None);
    };
    let (fourth, rest) = cut(rest, b' ');
    let Some(rest) = rest else {
        return of_four(alloc, word, first, second, third, fourth);
    };
    let (fifth, rest) = cut(rest, b' ');
    let Some(rest) = rest else {
        return of_five(alloc, word, first, second, third, fourth, fifth);
    };
    let (values, rest) = cut(rest, b' ');
    if rest.is_some() {
        return Ok(None);
    }
    of_six(alloc, word, first, second, third, fourth, fifth, values)
}
