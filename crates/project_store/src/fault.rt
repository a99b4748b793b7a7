// Why a store isn't opened.
use core_steps::Event;
use outside::Side;
use store_log::StoreFault;

/// Why a store isn't opened.
#[derive(Clone, Copy, Debug, PartialEq, Eq)]
pub enum OpenFault {
    /// This side is no journal.
    Foreign(Side),
    /// Behind the gate at this offset there is no whole record, or one that isn't entries, or after which the project has
    /// more than 256 texts.
    Damaged(Side, u64),
    /// The table of the built texts has more formula nodes than a table may have; so many were counted.
    TableFull(u64),
    DiskFault,
    OutOfMemory,
}

/// A fault that an act met, with the chair and the event of the act.
#[derive(Drop)]
pub struct KeptFault {
    pub fault: StoreFault,
    pub act: (u32, Event),
}

/// Why a record's body is no entries.
#[derive(Clone, Copy, Debug, PartialEq, Eq)]
pub enum BodyFault {
    /// It isn't entries, or after them the project has more than 256 texts.
    Bad,
    OutOfMemory,
}
