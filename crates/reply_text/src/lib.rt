//! The printed texts of the core's replies.
#![tactic(auto)]

mod digests;
mod faults;
mod laws;
mod pieces;
mod replies;
mod sequents;
mod statuses;

pub use faults::{add_faults, add_warnings};
pub use laws::shows_well_formulas;
pub use replies::reply_text;
pub use statuses::{add_status, add_statuses};
