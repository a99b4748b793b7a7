//! What the events of a session weigh.
#![tactic(auto)]

mod nodes;
mod size;
mod weight;

pub use weight::weight_within;
