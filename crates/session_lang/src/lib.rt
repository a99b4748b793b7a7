//! The session language: `Commands` gives what the lines of an input say, and `reply_text` and `line_fault_text` the text of
//! what is answered.
#![tactic(auto)]

pub use reply_text::reply_text;
pub use session_words::{Commands, Line, LineFault, line_fault_text};
