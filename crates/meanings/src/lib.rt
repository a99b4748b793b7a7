//! What formulas denote in classical universes, and a law of it. The call does nothing.
#![tactic(auto)]

mod laws;

pub use laws::finite_sets_are_listed;
