//! A search for proofs: it never goes back, and what it finds is tested by those who call it.
#![tactic(auto)]

mod attempt;
mod finder;
mod solve;

pub use attempt::{Effort, Passes, searched};
