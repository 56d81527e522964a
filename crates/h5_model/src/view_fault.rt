//! Why a view is refused.

ghost use Rattle.std.specs.Prelude.{◌≡◌};

use crate::edit_fault::EditFault;
use std::alloc::AllocError;
use std::fmt;
use thiserror::Error;

/// Why a view was not opened, shown or closed.
#[derive(Clone, Copy, PartialEq, Eq, Debug, Error)]
pub enum ViewFault {
    /// No open view has this number.
    NoSuchView,
    /// The view's dataset was deleted.
    Gone,
    /// A selected cell lies outside the extent for now.
    OutsideNow,
    /// 1024 views are open, or the view numbers are used up.
    TooManyViews,
    /// Memory was refused.
    NoMemory,
    /// The path or the selection is refused, as an edit of that dataset would be.
    Path(EditFault),
}

impl ViewFault {
    ghost use Rattle.h5_model.specs.Views.ViewFaults.{view_fault_number, view_fault_name};

    /// The fault's number, from 1 on; where the path or the selection is refused, the rule's.
    pub fn number(self) -> u32
        ensures { result ≡ view_fault_number self }
    {
        match self {
            ViewFault::NoSuchView => 1,
            ViewFault::Gone => 2,
            ViewFault::OutsideNow => 3,
            ViewFault::TooManyViews => 4,
            ViewFault::NoMemory => 5,
            ViewFault::Path(fault) => fault.number(),
        }
    }

    /// The fault's name; where the path or the selection is refused, the rule's.
    pub fn name(self) -> &'static str
        ensures { result.now ≡ view_fault_name self }
    {
        match self {
            ViewFault::NoSuchView => "NoSuchView",
            ViewFault::Gone => "Gone",
            ViewFault::OutsideNow => "OutsideNow",
            ViewFault::TooManyViews => "TooManyViews",
            ViewFault::NoMemory => "NoMemory",
            ViewFault::Path(fault) => fault.name(),
        }
    }
}

/// Shows the fault's name; where the path or the selection is refused, the rule's.
impl fmt::Display for ViewFault {
    ghost use Rattle.std.specs.Prelude.{Some};
    ghost use Rattle.std.specs.Fmt.{padded};
    ghost use Rattle.h5_model.specs.Views.ViewFaults.{view_fault_name};

    ghost output = { λ fault. Some (view_fault_name fault) };

    ghost styled_output = { λ fault spec. Some (padded spec (view_fault_name fault)) };

    fn fmt<W: fmt::Write>(&self, f: &mut fmt::Formatter<W>) -> fmt::Result {
        f.pad(self.name())
    }
}

/// Want of memory refuses the view as `NoMemory`.
impl From<AllocError> for ViewFault {
    ghost use Rattle.h5_model.specs.declared.view_fault.ViewFault.TheVariants.{NoMemory};

    ghost from_gives = { λ _ fault. fault ≡ NoMemory };

    fn from(_error: AllocError) -> Self {
        Self::NoMemory
    }
}
