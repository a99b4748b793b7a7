//! Formulas kept once each, so that two are the same where their numbers are.
#![tactic(auto)]

mod bank;
mod build;
mod change;
mod read;
mod shape;
mod stop;
mod term;
mod types;

pub use bank::Bank;
pub use stop::Stop;
pub use term::{Head, Id, NONE, Span, Term, TypeHead};
