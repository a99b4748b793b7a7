//! The printed text of formulas and actions as they are written.
#![tactic(auto)]

mod actions;
mod laws;
mod printing;

pub use actions::print_action;
pub use laws::{printed_action_is_spelled, printed_is_spelled};
pub use printing::print_formula;
