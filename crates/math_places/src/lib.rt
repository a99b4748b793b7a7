//! Laws of formulas at other places of a text. The calls do nothing.
#![tactic(auto)]

mod laws;

pub use laws::{action_spelled_at_other_places, spelled_at_other_places};
