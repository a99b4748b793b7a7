//! A desk where chairs act in turns on one value, from any number of threads.
//!
//! Each act is at most one entry of the value's log, under the chair's number, and each chair knows a beginning of that
//! one log. Nothing is said of which chair acts when.
#![tactic(auto)]

mod crew;
mod desk;
mod kept;
mod plays;
mod view;

pub use desk::{Chair, Desk};
pub use kept::{Act, Kept};
