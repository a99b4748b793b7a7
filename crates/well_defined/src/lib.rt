//! The condition under which a formula has a value.
#![tactic(auto)]

mod condition;
mod connective;
mod laws;
mod own;
mod predicate;

pub use condition::wd;
pub use laws::{atoms_are_well_defined, total_formulas_are_well_defined};
