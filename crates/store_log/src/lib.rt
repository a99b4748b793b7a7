//! The log of a store: which events it did, under which chairs, and at which it met its first fault; and its events as
//! acts at a desk.
#![tactic(auto)]

mod acts;
mod fault;
mod logged;

pub use acts::{Apply, EventStore};
pub use fault::StoreFault;
pub use logged::{Logged, StoreBase};
