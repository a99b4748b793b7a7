//! Readings: the truth of a predicate in one, and whether a proof tree shows that a sequent is true in each.
#![tactic(auto)]

mod answers;
mod atoms;
mod derivations;
mod laws;
mod numbers;
mod plainness;
mod values;

pub use answers::Follows;
pub use derivations::follows;
pub use formula_readings::Reading;
pub use laws::values_follow;
pub use values::{ValueFault, value};
