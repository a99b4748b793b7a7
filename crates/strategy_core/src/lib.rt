//! The automatic prover.
#![tactic(auto)]

mod auto;

pub use auto::AutoProver;
