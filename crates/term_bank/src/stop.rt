//! Why a search ends before its work is done.
use formula_core::OutOfMemory;
use std::alloc::{AllocError, AllocFailed};

/// The fuel is spent, or memory ran out.
#[derive(Clone, Copy, Debug, PartialEq, Eq)]
pub enum Stop {
    Spent,
    NoMemory,
}

impl From<OutOfMemory> for Stop {
    fn from(_: OutOfMemory) -> Stop {
        Stop::NoMemory
    }
}

impl From<AllocError> for Stop {
    fn from(_: AllocError) -> Stop {
        Stop::NoMemory
    }
}

impl<T: Drop> From<AllocFailed<T>> for Stop {
    fn from(_: AllocFailed<T>) -> Stop {
        Stop::NoMemory
    }
}
