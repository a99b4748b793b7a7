//! Whether a sequent is one: its formulas are predicates typed in its environment.
#![tactic(auto)]

mod typed;

pub use typed::is_sequent;
