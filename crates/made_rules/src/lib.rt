//! Rules that are made of a kind and a hint: what is named for a sequent is sound and met there.
#![tactic(auto)]

mod laws;

pub use laws::{named_rules_fit, no_form_is_the_tables};
