//! The laws of the table of rules keep what formulas denote in classical universes. The call does nothing.
#![tactic(auto)]

mod laws;

pub use laws::laws_keep_denotations;
