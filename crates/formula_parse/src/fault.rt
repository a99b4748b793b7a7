//! Why tokens are refused.

ghost use Rattle.std.specs.Prelude.{◌≡◌};
ghost use Rattle.formula_parse.specs.declared.fault.StepFault.TheVariants as fault;

use formula_core::OutOfMemory;
use std::alloc::{AllocError, AllocFailed};

/// Why tokens are no formula.
#[derive(Clone, Copy, Debug, PartialEq, Eq)]
pub enum ParseFault {
    /// The first token with which the tokens have no continuation, or their number where the end is unexpected.
    Unexpected(u32),
    /// The first token that passes a limit.
    TooLarge(u32),
    OutOfMemory,
}

/// Why a token isn't taken.
#[derive(Clone, Copy)]
pub enum StepFault {
    Refused,
    OutOfMemory,
}

impl From<AllocError> for StepFault {
    ghost from_gives = { λ _ e. e ≡ fault.OutOfMemory };

    fn from(_e: AllocError) -> StepFault {
        StepFault::OutOfMemory
    }
}

impl From<OutOfMemory> for StepFault {
    ghost from_gives = { λ _ e. e ≡ fault.OutOfMemory };

    fn from(_e: OutOfMemory) -> StepFault {
        StepFault::OutOfMemory
    }
}

impl<T: Drop> From<AllocFailed<T>> for StepFault {
    ghost from_gives = { λ _ e. e ≡ fault.OutOfMemory };

    fn from(_e: AllocFailed<T>) -> StepFault {
        StepFault::OutOfMemory
    }
}
