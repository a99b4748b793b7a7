//! The parser of formulas. Its steps are public, since the reader of actions gives them the tokens of its formulas.
#![tactic(auto)]

mod begin;
mod bounds;
mod close;
mod fault;
mod frames;
mod laws;
mod machine;
mod nodes;
mod parse;

pub use begin::read_name;
pub use fault::{ParseFault, StepFault};
pub use frames::{Frame, Phase, is_ready};
pub use laws::{formula_or_fault, one_fault, one_formula};
pub use machine::{end, step};
pub use parse::{bytes_of, expression, is_full, open_after, passes, predicate};
