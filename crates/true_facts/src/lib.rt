//! Facts of sets and numbers that no rule says are true in each classical universe. The call does nothing.
#![tactic(auto)]

mod laws;

pub use laws::facts_are_true;
