//! A prover by logic.
#![tactic(auto)]

mod prover;

pub use prover::PropProver;
