//! What words can ask for.

use std::alloc::AllocError;

/// What the words ask for.
#[derive(Clone, Copy)]
pub enum Order<'a> {
    /// Write a file with an empty root group.
    New { file: &'a str },
    /// List what a file holds.
    Ls { file: &'a str },
    /// Print what stands at a path of a file.
    Dump { file: &'a str, path: &'a str },
    /// Run the script of the standard input on a file.
    Run { file: &'a str },
}

/// Why words give no order.
#[derive(Drop)]
pub enum OrderFault {
    /// The words ask for help or the version, which this is.
    Help(String),
    /// The words are wrong, for this reason.
    Wrong(String),
    /// Memory was refused.
    NoMemory,
}

impl From<AllocError> for OrderFault {
    ghost use Rattle.std.specs.Prelude.{◌≡◌};
    ghost use Rattle.h5_args.specs.declared.orders.OrderFault.TheVariants.{NoMemory};

    ghost from_gives = { λ _ fault. fault ≡ NoMemory };

    fn from(_error: AllocError) -> OrderFault {
        OrderFault::NoMemory
    }
}
