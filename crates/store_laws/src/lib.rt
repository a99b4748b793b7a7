//! Laws of what is stored: bytes have one reading, the sides of a disk one meaning, and events one run.
#![tactic(auto)]

mod laws;

pub use laws::{one_project, one_run, one_spelling};
