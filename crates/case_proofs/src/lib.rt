//! Proofs by cases over the connectives, complete for sequents of few connectives.
#![tactic(auto)]

mod breaking;
mod ends;
mod proof;
mod rows;
mod search;
mod sizes;
mod standing;

pub use proof::proof_by_cases;
pub use sizes::rules_by_cases;
