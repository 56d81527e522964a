//! Why bytes are not opened, with these bytes.

ghost use Rattle.h5_model.specs.Faults.OpenFaults.{cause_name};

use h5_model::OpenFault;
use std::error::Error;
use std::fmt;

/// Why bytes were not opened as a file, and these bytes as they were handed over.
#[derive(Drop)]
#[derive_where(Debug)]
pub struct OpenError {
    /// The rule that the bytes break, and where.
    pub fault: OpenFault,
    /// The bytes, whole. `Debug` leaves them out.
    #[derive_where(skip)]
    pub bytes: Vec<u8>,
}

/// Shows the fault, as `Truncated at 40`.
impl fmt::Display for OpenError {
    ghost use Rattle.std.specs.Prelude.{◌++◌, Some, codes};
    ghost use Rattle.std.specs.Fmt.{decimal};

    ghost output = { λ error. Some (cause_name error.fault.cause ++ codes " at " ++ decimal error.fault.address) };

    fn fmt<W: fmt::Write>(&self, f: &mut fmt::Formatter<W>) -> fmt::Result {
        write!(f, "{}", self.fault)
    }
}

impl Error for OpenError {}
