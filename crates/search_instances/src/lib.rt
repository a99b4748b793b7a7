//! Instances of the universal hypotheses of a search.
#![tactic(auto)]

mod instances;
mod pairs;

pub use instances::{Others, best_instance, other_instance};
pub use pairs::{pair_of_value, tells_pairs};
