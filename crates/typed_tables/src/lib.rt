//! The law of a project's table: each of its obligations is a sequent.
#![tactic(auto)]

mod laws;

pub use laws::typed_tables;
