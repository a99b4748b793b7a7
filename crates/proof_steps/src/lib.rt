//! The steps of a proof, and the laws of proof trees.
#![tactic(auto)]

mod ends;
mod laws;
mod leaves;
mod places;
mod steps;

pub use laws::{closed_trees_derive, larger_sequents_keep_trees};
pub use leaves::{leaf, leaf_there};
pub use places::{NoNode, prune};
pub use steps::{StepFault, step};
