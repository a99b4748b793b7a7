// Why a store does no event.
use formula_core::OutOfMemory;
use std::alloc::{AllocError, AllocFailed};

/// Why a store did not do an event.
#[derive(Debug, PartialEq, Eq, Clone, Copy)]
pub enum StoreFault {
    /// An earlier call answered [`StoreFault::DiskFault`].
    Failed,
    /// The weight of all events would pass the limit.
    SessionFull,
    OutOfMemory,
    /// The entry fits neither behind the records that stand nor behind a checkpoint of the state.
    JournalFull,
    DiskFault,
}

impl From<OutOfMemory> for StoreFault {
    ghost use Rattle.std.specs.Prelude.{◌≡◌};
    ghost use Rattle.store_log.specs.declared.fault.StoreFault.TheVariants as fault;

    ghost from_gives = { λ _ e. e ≡ fault.OutOfMemory };

    fn from(_: OutOfMemory) -> StoreFault {
        StoreFault::OutOfMemory
    }
}

impl From<AllocError> for StoreFault {
    ghost use Rattle.std.specs.Prelude.{◌≡◌};
    ghost use Rattle.store_log.specs.declared.fault.StoreFault.TheVariants as fault;

    ghost from_gives = { λ _ e. e ≡ fault.OutOfMemory };

    fn from(_: AllocError) -> StoreFault {
        StoreFault::OutOfMemory
    }
}
