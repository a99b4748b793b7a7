//! The session language: what each line of an input says, however the bytes are cut into pieces.
#![tactic(auto)]

mod commands;
mod edits;
mod fault_text;
mod laws;
mod line;
mod said;
mod speaking;
mod verbs;

pub use commands::Commands;
pub use fault_text::line_fault_text;
pub use laws::{gives_all_lines, one_line, one_list};
pub use line::{Line, LineFault};
pub use verbs::{VERBS, Verb};
