//! The program but for its `main`: the words of the command line, bytes in, bytes and a status out.
#![tactic(auto)]

mod check;
mod command;
mod demo;
pub mod events;
mod hyp_prover;
pub mod outcome;
mod round;
mod session;
mod streams;
mod texts;
mod top;

pub use check::run_check;
pub use demo::run_demo;
pub use hyp_prover::HypProver;
pub use session_ends::exit;
pub use top::run;
