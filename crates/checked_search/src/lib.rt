//! What a search finds, tested before it is given.
#![tactic(auto)]

mod found;

pub use found::{Effort, Passes, Stop, proof_within};
