//! What a session does: the dialogue with its user over the lines of an input, and the one history of all chairs.
#![tactic(auto)]

mod acting;
mod answering;
mod laws;

pub use answering::{Stop, answer};
pub use laws::{complete_when_idle, one_history};
