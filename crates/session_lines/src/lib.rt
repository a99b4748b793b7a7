//! The lines of a session's input, however its bytes are cut into pieces: command lines, and edits with their texts.
#![tactic(auto)]

mod command;
mod input;
mod lines;
mod words;

pub use command::Command;
pub use input::{Input, only_word};
pub use words::{after_blanks, behind_word, first_word};
