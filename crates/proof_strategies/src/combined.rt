//! Strategies that run others.
ghost use Rattle.std.specs.Prelude.{◌≡◌, ◌≤◌};
ghost use Rattle.sequent_core.specs.Trees.{Applies, node_count, rule_count};
ghost use Rattle.proof_strategies.specs.Growth.{beside, whole};
ghost use Rattle.proof_strategies.specs.Private.{ContinuesWith};
ghost use Rattle.proof_strategies.specs.Strategies.{GivesOrElse, GivesRepeat, GivesThen, IfFound};

use crate::growing::{Grower, grow};
use crate::room::{Room, Times};
use crate::strategy::Strategy;
use sequent_core::{Attempt, Sequent, Tree};
use std::alloc::Global;

/// The most nodes of a tree, leaves counted.
const MOST_NODES: u64 = 2048;

/// The most nodes that may be added to a leaf.
const MOST_MORE_NODES: u32 = 2047;

/// The second strategy at each leaf that the first one leaves, from left to right while there is room.
#[derive(Drop)]
pub struct Then<A, B> {
    pub first: A,
    pub second: B,
}

/// The second strategy where the first one has no proof.
#[derive(Drop)]
pub struct OrElse<A, B> {
    pub first: A,
    pub second: B,
}

/// A strategy again and again at each leaf, from left to right while there is room.
///
/// A leaf that is left is not tried again.
#[derive(Drop)]
pub struct Repeat<T> {
    pub body: T,
}

impl<A: Strategy, B: Strategy> Strategy for Then<A, B> {
    ghost may_refuse = { λ p s n. A.may_refuse p.first s n };

    ghost gives = { λ p s n attempt. GivesThen (A.gives p.first) (B.gives p.second) s n attempt };

    #[tactic(auto, using(crate::proofs::Combining::gives_then))]
    fn run(&self, alloc: Global, sequent: &Sequent, budget: u32) -> Attempt {
        match self.first.run(alloc, sequent, budget) {
            Attempt::Found(tree) => continued(alloc, sequent, &tree, &self.second, budget),
            Attempt::NoProof => Attempt::NoProof,
            Attempt::NoMemory => Attempt::NoMemory,
        }
    }
}

/// The first strategy's tree, grown at each leaf by the second one.
#[tactic(auto, using(crate::proofs::Combining::few_rules, crate::proofs::Combining::continues, crate::proofs::Combining::continued_rules, crate::proofs::Combining::continued_nodes))]
fn continued<B: Strategy>(
    alloc: Global,
    sequent: &Sequent,
    start: &Tree,
    second: &B,
    budget: u32,
) -> Attempt
    requires applies { Applies start.now sequent.now }
    requires rules { rule_count start.now ≤ budget }
    requires nodes { node_count start.now ≤ 2048 }
    requires most { budget ≤ 2000 }
    ensures found { result ≡ Attempt.NoProof → ⊥ }
    ensures grows { IfFound result (λ tree. ContinuesWith (B.gives second.now) budget start.now sequent.now tree) }
    ensures applies { IfFound result (λ tree. Applies tree sequent.now) }
    ensures rules { IfFound result (λ tree. rule_count tree ≤ budget) }
    ensures nodes { IfFound result (λ tree. node_count tree ≤ 2048) }
{
    let mut room = room_beside(start, budget);
    let grower = Grower {
        strategy: second,
        times: Times::Once,
    };
    match grow(start, alloc, sequent, &grower, &mut room) {
        Ok(tree) => Attempt::Found(tree),
        Err(_) => Attempt::NoMemory,
    }
}

/// The room that a tree leaves.
fn room_beside(tree: &Tree, budget: u32) -> Room
    requires rules { rule_count tree.now ≤ budget }
    requires nodes { node_count tree.now ≤ 2048 }
    ensures { result ≡ beside tree.now (whole budget) }
{
    let tally = tree.tally();
    Room {
        rules: budget - tally.rules as u32,
        nodes: (MOST_NODES - tally.nodes) as u32,
    }
}

impl<A: Strategy, B: Strategy> Strategy for OrElse<A, B> {
    ghost may_refuse = { λ p s n. A.may_refuse p.first s n × B.may_refuse p.second s n };

    ghost gives = { λ p s n attempt. GivesOrElse (A.gives p.first) (B.gives p.second) s n attempt };

    fn run(&self, alloc: Global, sequent: &Sequent, budget: u32) -> Attempt {
        match self.first.run(alloc, sequent, budget) {
            Attempt::Found(tree) => Attempt::Found(tree),
            Attempt::NoProof => self.second.run(alloc, sequent, budget),
            Attempt::NoMemory => Attempt::NoMemory,
        }
    }
}

impl<T: Strategy> Strategy for Repeat<T> {
    ghost may_refuse = { λ _ _ _. ⊥ };

    ghost gives = { λ p s n attempt. GivesRepeat (T.gives p.body) s n attempt };

    #[tactic(auto, using(sequent_core::proofs::Nodes::leaf_applies, crate::proofs::Combining::repeated_rules, crate::proofs::Combining::repeated_nodes))]
    fn run(&self, alloc: Global, sequent: &Sequent, budget: u32) -> Attempt {
        let mut room = Room {
            rules: budget,
            nodes: MOST_MORE_NODES,
        };
        let grower = Grower {
            strategy: &self.body,
            times: Times::Again,
        };
        match grow(&Tree::Leaf, alloc, sequent, &grower, &mut room) {
            Ok(tree) => Attempt::Found(tree),
            Err(_) => Attempt::NoMemory,
        }
    }
}
