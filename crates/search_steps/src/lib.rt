//! Steps of a search for a proof, the proofs that they make, and its fuel.
#![tactic(auto)]

mod antecedents;
mod apart;
mod fold;
mod fuel;
mod kind;
mod laws;
mod search;
mod tree;

pub use fuel::LOOKS;
pub use kind::Kind;
pub use search::{Left, Link, Proof, Search, Step};
pub use term_bank::{Bank, Head, Id, NONE, Span, Stop, Term, TypeHead};
