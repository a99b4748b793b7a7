//! A prover by arithmetic.
#![tactic(auto)]

mod prover;

pub use prover::ArithProver;
