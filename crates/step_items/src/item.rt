//! What is written in a step.
use formula_core::{List, Name};
use sequent_core::Path;

/// An item of a step. Its formulas aren't read yet.
#[derive(Drop)]
pub enum Item {
    /// `h N`: a hypothesis by its number.
    Hyp(u32),
    /// `h N K`: a hypothesis with its multiplier.
    Multiplied(u32, i128),
    /// `n NAME`: a new name.
    Fresh(Name),
    /// `e EXPRESSION`
    Expression(List<u8>),
    /// `p PREDICATE`
    Predicate(List<u8>),
    /// `w LAW PLACE`: a law by its number, with the place at which it rewrites.
    Law(u8, Path),
}
