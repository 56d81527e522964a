//! Why a run of a script ends early.

ghost use Rattle.std.specs.Prelude.{◌≡◌};

use h5_text::PrintFault;
use std::alloc::AllocError;
use thiserror::Error;

/// Why a run of a script ends early.
#[derive(Clone, Copy, PartialEq, Eq, Debug, Error)]
pub enum RunFault {
    /// The script could not be read.
    #[error("the script cannot be read")]
    ScriptRead,
    /// An answer could not be written.
    #[error("an answer cannot be written")]
    ScriptWrite,
    /// The script has more than 16777216 bytes.
    #[error("the script has more than 16777216 bytes")]
    ScriptTooLong,
    /// Memory was refused.
    #[error("out of memory")]
    NoMemory,
}

impl From<AllocError> for RunFault {
    ghost use Rattle.h5_script.specs.declared.fault.RunFault.TheVariants.{NoMemory};

    ghost from_gives = { λ _ fault. fault ≡ NoMemory };

    fn from(_error: AllocError) -> RunFault {
        RunFault::NoMemory
    }
}

impl From<PrintFault> for RunFault {
    ghost use Rattle.h5_script.specs.Runs.{run_fault};

    ghost from_gives = { λ reason fault. fault ≡ run_fault reason };

    fn from(reason: PrintFault) -> RunFault {
        match reason {
            PrintFault::WriteFailed => RunFault::ScriptWrite,
            PrintFault::NoMemory => RunFault::NoMemory,
        }
    }
}
