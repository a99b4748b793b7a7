//! Why a component has no outcome.

use formula_core::OutOfMemory;
use model_core::Fault;
use std::alloc::AllocFailed;

/// Why a component isn't checked.
#[derive(Drop)]
pub enum CheckFault {
    /// A fault of one of the kinds 10 to 24.
    Fault(Fault),
    OutOfMemory,
}

impl From<OutOfMemory> for CheckFault {
    ghost use Rattle.std.specs.Prelude.{◌≡◌};
    ghost use Rattle.context_check.specs.declared.fault.CheckFault.TheVariants as fault;

    ghost from_gives = { λ _ e. e ≡ fault.OutOfMemory };

    fn from(_: OutOfMemory) -> CheckFault {
        CheckFault::OutOfMemory
    }
}

impl<T: Drop> From<AllocFailed<T>> for CheckFault {
    ghost use Rattle.std.specs.Prelude.{◌≡◌};
    ghost use Rattle.context_check.specs.declared.fault.CheckFault.TheVariants as fault;

    ghost from_gives = { λ _ e. e ≡ fault.OutOfMemory };

    fn from(_: AllocFailed<T>) -> CheckFault {
        CheckFault::OutOfMemory
    }
}
