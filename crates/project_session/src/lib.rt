//! `session WORKERS`: a session on the project that a disk holds, for a user who types commands and workers who prove beside.
#![tactic(auto)]

mod session;

pub use session::run_session;
pub use session_ends::Ended;
