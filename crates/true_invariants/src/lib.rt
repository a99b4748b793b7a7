//! Where its obligations are true, a machine that refines none keeps its invariants. The call does nothing.
#![tactic(auto)]

mod laws;

pub use laws::invariants_hold;
