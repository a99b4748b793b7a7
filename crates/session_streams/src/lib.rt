//! The lines of a source, which is read piece by piece, and texts that are written whole to a sink.
#![tactic(auto)]

mod reading;
mod writing;

pub use reading::{ReadEnd, Reader, next_line};
pub use writing::write_text;
