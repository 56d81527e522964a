//! Reads, none of which is tried again.

ghost use Rattle.std.specs.Prelude.{◌≡◌, ◌<◌, MatchResult, length};
ghost use Rattle.std.specs.Io.KnownBytes.{Keeps};
ghost use Rattle.h5_script.specs.Streams.{IsRead};
ghost use Rattle.h5_script.specs.declared.fault.RunFault.TheVariants.{ScriptRead};

use crate::fault::RunFault;
use std::io::Read;

/// Reads once, and answers how many bytes came: none only at the end.
pub(crate) fn read_piece<R: Read>(input: &mut R, piece: &mut [u8]) -> Result<usize, RunFault>
    requires { 0 < length piece.old }
    ensures { MatchResult result (IsRead (R.remaining input.old) (R.remaining input.new) piece.new)
        (λ e. (e ≡ ScriptRead) × Keeps (R.remaining input.old) (R.remaining input.new)) }
{
    match input.read(piece) {
        Ok(count) => Ok(count),
        Err(_) => Err(RunFault::ScriptRead),
    }
}
