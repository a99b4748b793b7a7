//! Equations between types with variables, and the types that all their solutions give.
#![tactic(auto)]

mod building;
mod closing;
mod equations;
mod graph;
mod merging;
mod ordering;
mod term;

pub use closing::{close, type_of};
pub use equations::{Equation, SolveFault, solve};
pub use term::Term;
