// The entries of a store's log.
use core_steps::{Durable, Event};

/// An event under the number of its chair: one that the store did, or the one at which it met its first fault.
#[derive(Drop)]
pub struct Logged {
    pub chair: u32,
    pub event: Event,
    pub failed: bool,
}

/// What a store began from: what its disk stood for, and how often the disk had failed.
#[derive(Drop)]
pub struct StoreBase {
    pub durable: Durable,
    pub faults: u64,
}
