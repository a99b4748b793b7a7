//! One rule as a strategy.
ghost use Rattle.std.specs.Prelude.{◌≡◌, IfOk, map};
ghost use Rattle.proof_strategies.specs.Private.{IsAlone, TellsRuleFault};
ghost use Rattle.proof_strategies.specs.Strategies.{GivesOne, IsRuleRefused};

use crate::strategy::Strategy;
use formula_core::{List, OutOfMemory};
use rule_making::{RuleFault, make, one_rule};
use sequent_core::{Antecedent, Attempt, Hint, Rule, Sequent, Tree};
use std::alloc::Global;

/// The most sequents that a rule may leave: with its own node they are the most that a tree may have.
const MOST_LEAVES: usize = 2047;

/// The rule that a kind and a hint name.
#[derive(Drop)]
pub struct One {
    pub kind: u8,
    pub hint: Hint,
}

impl Strategy for One {
    ghost may_refuse = { λ p s _. IsRuleRefused p.kind p.hint s };

    ghost gives = { λ p s _ attempt. GivesOne p.kind p.hint s attempt };

    #[tactic(auto, using(crate::proofs::Alone::alone_nodes, crate::proofs::Alone::alone_refuses, crate::proofs::Alone::gives_one, crate::proofs::Alone::gives_fault, crate::proofs::Alone::fault_refuses, crate::proofs::Alone::finds_none))]
    fn run(&self, alloc: Global, sequent: &Sequent, _budget: u32) -> Attempt {
        one_rule();
        match make(alloc, self.kind, &self.hint, sequent) {
            Ok(rule) => alone(alloc, rule),
            Err(fault) => told(&fault),
        }
    }
}

/// No proof, unless memory ran out.
fn told(fault: &RuleFault) -> Attempt
    ensures { TellsRuleFault fault.now result }
{
    match fault {
        RuleFault::OutOfMemory => Attempt::NoMemory,
        _ => Attempt::NoProof,
    }
}

/// The rule with a leaf for each sequent that it leaves, where these aren't too many.
fn alone(alloc: Global, rule: Rule) -> Attempt
    ensures { IsAlone rule result }
{
    if rule.antecedents.items().len() > MOST_LEAVES {
        return Attempt::NoProof;
    }
    match leaves_for(alloc, rule.antecedents.items()) {
        Ok(leaves) => Attempt::Found(Tree::Node(rule, leaves)),
        Err(_) => Attempt::NoMemory,
    }
}

fn leaves_for(alloc: Global, antecedents: &[Antecedent]) -> Result<List<Tree>, OutOfMemory>
    ensures { IfOk result (λ leaves. leaves ≡ map (λ a. Tree.Leaf) antecedents.now) }
{
    let mut leaves = Vec::new(alloc);
    for _ in antecedents {
        leaves.push(Tree::Leaf)?;
    }
    Ok(List::of(leaves))
}
