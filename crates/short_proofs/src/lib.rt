//! Proofs of few rules, of the sequents that are proved at once.
#![tactic(auto)]

mod arithmetic;
mod logic;
mod reading;
mod rules;
mod tests;

pub use arithmetic::proof_by_arithmetic;
pub use logic::proof_by_logic;
