//! How a session begins and ends: the opening of the project, the exit status, the last line, and what it has done by then.
#![tactic(auto)]

mod ending;
pub mod exit;
mod statuses;

pub use ending::{Ended, end_played, end_unplayed, open_store, refuse, write_last};
