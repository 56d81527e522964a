//! A whole script, run line by line.

ghost use Rattle.std.specs.Prelude.{◌<◌, MatchResult, length};
ghost use Rattle.h5_dump.specs.Opened.Sound.{IsSound, IsWholeFile};
ghost use Rattle.h5_dump.specs.Space.{IsSpaced};
ghost use Rattle.h5_script.specs.Script.{IsDone, IsStopped};

use crate::fault::RunFault;
use crate::lines::{Answers, run_line, run_piece};
use crate::ran::Ran;
use crate::streams::read_piece;
use h5_dump::Session;
use h5_text::flush;
use std::alloc::Global;
use std::io::{Read, Write};

/// The most bytes that are asked for in one read.
const PIECE: usize = 65536;

/// The most bytes of a script.
const MAX_SCRIPT: usize = 16777216;

/// The most reads. Each but the last gives a byte at least, so a script has passed its limit of
/// bytes long before.
const MAX_READS: u64 = 33554432;

/// Runs a script, which is read piece by piece into the buffer.
fn run_pieces<R: Read, W: Write>(
    alloc: Global,
    session: &mut Session,
    input: &mut R,
    output: &mut W,
    piece: &mut [u8],
) -> Result<Ran, RunFault>
    requires { 0 < length piece.old }
    ensures { MatchResult result
        (IsDone session.old session.new (R.remaining input.old) (R.remaining input.new)
        (W.contents output.old) (W.contents output.new))
        (IsStopped session.old session.new (R.remaining input.old) (R.remaining input.new)
        (W.contents output.old) (W.contents output.new)) }
{
    let mut held = Vec::new(alloc);
    let mut answers = Answers::new(alloc)?;
    let mut room = MAX_SCRIPT;
    for _read in 0..MAX_READS {
        let count = read_piece(input, piece)?;
        if count == 0 {
            run_line(alloc, session, &held, &mut answers, output)?;
            flush(output)?;
            return Ok(answers.ran);
        }
        let within = count.min(room);
        let part = &piece[..within];
        run_piece(alloc, session, &mut held, part, &mut answers, output)?;
        if count > room {
            return Err(RunFault::ScriptTooLong);
        }
        room -= count;
    }
    Err(RunFault::ScriptTooLong)
}

/// Runs a script, which is read into a buffer of its own.
fn run_buffered<R: Read, W: Write>(
    alloc: Global,
    session: &mut Session,
    input: &mut R,
    output: &mut W,
) -> Result<Ran, RunFault>
    ensures { MatchResult result
        (IsDone session.old session.new (R.remaining input.old) (R.remaining input.new)
        (W.contents output.old) (W.contents output.new))
        (IsStopped session.old session.new (R.remaining input.old) (R.remaining input.new)
        (W.contents output.old) (W.contents output.new)) }
{
    let mut piece = vec![in alloc; 0u8; PIECE]?;
    run_pieces(alloc, session, input, output, &mut piece)
}

/// Runs a script to its end, and answers how its lines count: how many were refused or bad, and how many edits were
/// accepted.
///
/// Lines run as they come, and each answer is written before the next line is run. The script may have 16777216
/// bytes.
///
/// # Errors
///
/// The session stays as the lines so far have left it. No read and no write is tried again.
///
/// - `ScriptRead`: a read failed.
/// - `ScriptTooLong`: the script has more than 16777216 bytes. The lines that end within these bytes were run.
/// - `ScriptWrite`: a write failed.
/// - `NoMemory`: memory is refused.
pub fn run_script<R: Read, W: Write>(
    alloc: Global,
    session: &mut Session,
    input: &mut R,
    output: &mut W,
) -> Result<Ran, RunFault>
    ensures run { MatchResult result
        (IsDone session.old session.new (R.remaining input.old) (R.remaining input.new)
        (W.contents output.old) (W.contents output.new))
        (IsStopped session.old session.new (R.remaining input.old) (R.remaining input.new)
        (W.contents output.old) (W.contents output.new)) }
    ensures sound { IsSound session.new.file }
    // Free neighbours are joined.
    ensures joined { IsSpaced session.new.file.free (length session.new.file.image) }
    // Nothing leaks. Behind an accepted `repack` this holds whatever the file was before: `run` has it of the lines.
    ensures whole { IsWholeFile session.old.file → IsWholeFile session.new.file }
{
    let ran = run_buffered(alloc, session, input, output);
    // A file holds a sound tree, and no two of its free blocks stand side by side.
    let _image = session.file().image();
    ran
}
