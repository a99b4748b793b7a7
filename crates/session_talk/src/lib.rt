//! The dialogue of a session with its user, from the bytes of a source to the texts in a sink.
#![tactic(auto)]

mod conversing;

pub use conversing::{Ending, converse};
