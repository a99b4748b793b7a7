//! What lasts of a project, entry by entry: texts, builds, and proofs with who made them.
#![tactic(auto)]

mod entry;
mod proof;

pub use entry::Entry;
pub use proof::{Origin, Proof};
