//! Passes of a search for a proof: each makes one step on the goal or on the hypotheses, or asks for one.
#![tactic(auto)]

mod cardinals;
mod clauses;
mod compound;
mod computing;
mod finite;
mod goal;
mod lemmas;
mod opening;
mod over;
mod set_equations;
mod sums;

pub use cardinals::cardinality;
pub use clauses::{nearest_clause, propagate, split};
pub use goal::goal_step;
pub use lemmas::{application, truth_value};
pub use opening::saturate;
pub use sums::{bounds_of_values, equal_arguments, equal_bounds};
