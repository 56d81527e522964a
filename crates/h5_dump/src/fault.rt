//! Why a dump is not written whole.

ghost use Rattle.std.specs.Prelude.{◌≡◌};

use h5_model::EditFault;
use h5_text::PrintFault;
use std::alloc::AllocError;

/// Why a dump is not written whole.
#[derive(Clone, Copy, PartialEq, Eq, Debug)]
pub enum DumpFault {
    /// The path is refused, or memory was; nothing was written.
    Refused(EditFault),
    /// The dump was cut off behind its beginning.
    Cut(PrintFault),
}

impl From<EditFault> for DumpFault {
    ghost use Rattle.h5_dump.specs.declared.fault.DumpFault.TheVariants.{Refused};

    ghost from_gives = { λ refusal fault. fault ≡ Refused refusal };

    fn from(refusal: EditFault) -> DumpFault {
        DumpFault::Refused(refusal)
    }
}

impl From<AllocError> for DumpFault {
    ghost use Rattle.h5_model.specs.declared.edit_fault.EditFault.TheVariants.{NoMemory};
    ghost use Rattle.h5_dump.specs.declared.fault.DumpFault.TheVariants.{Refused};

    ghost from_gives = { λ _ fault. fault ≡ Refused NoMemory };

    fn from(_error: AllocError) -> DumpFault {
        DumpFault::Refused(EditFault::NoMemory)
    }
}

impl From<PrintFault> for DumpFault {
    ghost use Rattle.h5_dump.specs.declared.fault.DumpFault.TheVariants.{Cut};

    ghost from_gives = { λ reason fault. fault ≡ Cut reason };

    fn from(reason: PrintFault) -> DumpFault {
        DumpFault::Cut(reason)
    }
}
