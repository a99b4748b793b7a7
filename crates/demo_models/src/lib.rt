//! The models of `demo`: a chain of contexts and a machine beside each, whose numbers follow from a seed.
#![tactic(auto)]

mod making;
mod texts;

pub use making::{edited_machine, models};
