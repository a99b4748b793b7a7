//! Sequents, proof trees and what a prover promises.
#![tactic(auto)]

mod hint;
mod members;
mod needs;
mod prover;
mod sequent;
mod tally;
mod tree;

pub use hint::{Hint, Path};
pub use needs::meets;
pub use prover::{Attempt, Prover};
pub use rule_table::{Antecedent, Rule, RuleKind};
pub use sequent::{Obligation, Sequent, Ticket};
pub use tally::Tally;
pub use tree::Tree;
