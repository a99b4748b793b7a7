//! The table of obligations, as definitions.
#![tactic(auto)]

mod laws;

pub use laws::rows_give_obligations;
