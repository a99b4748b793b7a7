// What a user gives to make a rule.
use formula_core::{List, Name, Raw};

/// The way from a tree's root to a node: the number of the child at each step, from 0.
pub type Path = List<u32>;

/// What a user gives beside a rule's kind: hypotheses by number, the multiplier of each, new names, terms, and a law
/// with the place at which it rewrites.
#[derive(Drop)]
pub struct Hint {
    pub hyps: List<u32>,
    pub multipliers: List<i128>,
    pub names: List<Name>,
    pub terms: List<Raw>,
    pub law: u8,
    pub place: List<u32>,
}
