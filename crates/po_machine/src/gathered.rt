//! Obligations as they are gathered.

use sequent_core::Obligation;

/// Obligations, and the formula nodes of their sequents: hypotheses and goals, repeats counted, at most 2 ^ 64 - 1. The
/// first obligation by which these pass 8,388,608 is counted and left out, and those behind it aren't looked at.
#[derive(Drop)]
pub struct Gathered {
    pub obligations: Vec<Obligation>,
    pub nodes: u64,
}
