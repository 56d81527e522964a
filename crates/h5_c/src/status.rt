//! The numbers by which calls answer.

ghost use Rattle.std.specs.Prelude.{◌≡◌};
ghost use Rattle.h5_model.specs.Edits.EditFaults.{fault_number};
ghost use Rattle.h5_c.specs.Status.{open_status as status_of_open, run_status as status_of_run, status_of, view_status as status_of_view};

use h5_file::{Cause, EditFault, Edited, OpenFault, ViewFault};
use h5_script::RunFault;

/// It is done. The refusals of edits, paths and selections have the numbers from 1 to 31.
pub const DONE: u32 = 0;

/// Memory was refused. Each call that takes memory may answer it.
pub const NO_MEMORY: u32 = 31;

/// The slot is closed, or it is open where it should be closed.
pub const WRONG_STATE: u32 = 100;

/// There is room for fewer bytes or for more; or the bytes of values are no whole number of values.
pub const WRONG_ROOM: u32 = 101;

/// There is no type of this size.
pub const NO_SUCH_TYPE: u32 = 102;

/// A script was not run to its end, since it has more than 16777216 bytes.
pub const SCRIPT_TOO_LONG: u32 = 103;

/// No soft link stands there.
pub const NOT_A_SOFT_LINK: u32 = 104;

/// The faults of views follow this number.
pub const VIEW_FAULTS: u32 = 200;

/// The causes for which bytes are refused follow this number.
pub const CAUSES: u32 = 300;

/// The number of what the library answers to an edit.
pub(crate) fn edit_status(answer: Result<Edited, EditFault>) -> u32
    ensures { result ≡ status_of fault_number answer }
{
    match answer {
        Ok(_edited) => DONE,
        Err(fault) => fault.number(),
    }
}

/// The number of a view's fault. A refusal of the path or the selection has its own.
pub(crate) fn view_status(fault: ViewFault) -> u32
    ensures { result ≡ status_of_view fault }
{
    match fault {
        ViewFault::NoMemory => NO_MEMORY,
        ViewFault::Path(fault) => fault.number(),
        ViewFault::NoSuchView => VIEW_FAULTS + 1,
        ViewFault::Gone => VIEW_FAULTS + 2,
        ViewFault::OutsideNow => VIEW_FAULTS + 3,
        ViewFault::TooManyViews => VIEW_FAULTS + 4,
    }
}

/// The number of the cause for which bytes are refused.
pub(crate) fn open_status(fault: &OpenFault) -> u32
    ensures { result ≡ status_of_open fault.now }
{
    match fault.cause {
        Cause::NoMemory => NO_MEMORY,
        cause => CAUSES + cause.number(),
    }
}

/// The number of the reason for which a run of a script ended early.
pub(crate) fn run_status(fault: RunFault) -> u32
    ensures { result ≡ status_of_run fault }
{
    match fault {
        RunFault::ScriptTooLong => SCRIPT_TOO_LONG,
        // Answers are written to memory, so a write fails for want of it alone; a read of bytes never fails.
        RunFault::ScriptRead | RunFault::ScriptWrite | RunFault::NoMemory => NO_MEMORY,
    }
}
