//! Which entries may be written.
#![tactic(auto)]

mod entry;
mod formula;
mod rule;
mod tree;

pub use entry::is_writable;
