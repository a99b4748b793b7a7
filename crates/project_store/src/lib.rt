//! A project that lasts: the core behind a journal, so that each accepted event is on the disk before it is answered.
#![tactic(auto)]

mod acting;
mod desk;
mod encoding;
mod entering;
mod fault;
mod moment;
mod opening;
mod reading;
mod recording;
mod store;

pub use fault::{KeptFault, OpenFault};
pub use moment::Opening;
pub use store::Store;
pub use store_log::{Apply, EventStore, Logged, StoreBase, StoreFault};
