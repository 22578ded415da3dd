//! Why a goal has no form.

ghost use Rattle.std.specs.Prelude.{◌≡◌};
ghost use Rattle.lin_form.specs.declared.fault.FormFault.TheVariants as faults;

use lin_term::Memory;
use std::alloc::{AllocError, AllocFailed};
use thiserror::Error;

/// Why a goal has no normal form or no problem.
#[derive(Clone, Copy, Debug, PartialEq, Eq, Error)]
pub enum FormFault {
    /// The matrix has more than 1,048,576 nodes.
    #[error("the form of the goal is too large")]
    Size,
    /// The prefix has more than 1,024 variables.
    #[error("the form of the goal has too many variables")]
    Variables,
    /// A linear form, a partial sum, a literal or its negation has a number past the cap.
    #[error("a number of the goal's form is past the cap")]
    Number,
    /// There was no memory.
    #[error("out of memory")]
    Memory,
}

impl From<Memory> for FormFault {
    ghost from_gives = { λ _ e. e ≡ faults.Memory };

    fn from(_e: Memory) -> FormFault {
        FormFault::Memory
    }
}

impl From<AllocError> for FormFault {
    ghost from_gives = { λ _ e. e ≡ faults.Memory };

    fn from(_e: AllocError) -> FormFault {
        FormFault::Memory
    }
}

impl<T: Drop> From<AllocFailed<T>> for FormFault {
    ghost from_gives = { λ _ e. e ≡ faults.Memory };

    fn from(_e: AllocFailed<T>) -> FormFault {
        FormFault::Memory
    }
}
