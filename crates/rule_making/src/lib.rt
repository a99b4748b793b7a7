//! Rules that are made of a kind and a hint, for a sequent.
#![tactic(auto)]

mod fault;
mod hint;
mod kinds;
mod laws;
mod limits;
mod making;
mod terms;

pub use fault::RuleFault;
pub use laws::one_rule;
pub use making::make;
