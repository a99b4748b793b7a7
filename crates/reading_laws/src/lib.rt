//! The law of what is read of a text.
#![tactic(auto)]

mod laws;

pub use laws::read_is_plain;
