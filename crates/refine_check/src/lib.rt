//! What a machine owes to its abstraction: kinds 20 to 24.
#![tactic(auto)]

mod convergence;
mod inherited;
mod lost;
mod merged;
mod names;
mod paired;
mod param_types;
mod refinement;
mod witnesses;

pub use refinement::check_refinement;
