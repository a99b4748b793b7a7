//! The reader of actions.
#![tactic(auto)]

mod laws;
mod reading;
mod stages;
mod steps;

pub use laws::{action_or_fault, one_action, one_action_fault};
pub use reading::action;
