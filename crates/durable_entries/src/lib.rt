//! The entries that lead from nothing to what lasts of a project: what a checkpoint holds, and what the digest is taken of.
#![tactic(auto)]

mod changes;
mod digest;
mod laws;
mod listed;

pub use digest::state_digest;
pub use laws::state_again;
pub use listed::state_entries;
