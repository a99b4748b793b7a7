//! The one typing of an action.
#![tactic(auto)]

mod action;
mod laws;
mod targets;
mod values;

pub use action::type_action;
pub use laws::typed_actions_stand;
