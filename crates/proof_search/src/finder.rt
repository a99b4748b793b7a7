//! The search for a proof, above what is known.
use search_facts::Facts;
use search_steps::Id;

/// What is known, the goals that are tried aside, how many rounds of instances an attempt has, and
/// whether it stopped somewhere for want of splits or rounds.
#[derive(Drop)]
pub(crate) struct Finder {
    pub facts: Facts,
    pub active: Vec<Id>,
    pub rounds: u32,
    pub held_back: bool,
}
