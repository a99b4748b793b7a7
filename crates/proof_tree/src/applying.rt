// When trees apply to a sequent, and when they derive it.
ghost use Rattle.std.specs.Prelude.{◌≡◌, ◌↔◌, IsTrue, IfOk, None, Contains, IfSome};
ghost use Rattle.std.specs.List.{AllByRecursion};
ghost use Rattle.formula_core.specs.Env.{type_in};
ghost use Rattle.formula_core.specs.Typed.{Stands};
ghost use Rattle.sequent_core.specs.PrivateChildren.{EachApplies};
ghost use Rattle.sequent_core.specs.Provers.{IsGoodTree};
ghost use Rattle.sequent_core.specs.Trees.{Applies, Derives, IsFresh, IsTallyOf, Meets, extended, at_end, AreFresh};
ghost use Rattle.proof_tree.specs.Ways.{antecedents_of};

use crate::way::Way;
use formula_core::{Formula, Name, OutOfMemory, Ty};
use rule_kernel::is_rule;
use sequent_core::{Antecedent, Rule, Sequent, Tally, Tree};
use std::alloc::Global;

/// The most nodes of a tree that may be stored.
const MOST_NODES: u64 = 2048;

/// Whether the tree derives the sequent.
pub fn derives(tree: &Tree, alloc: Global, sequent: &Sequent) -> Result<bool, OutOfMemory>
    ensures derives { IfOk result (λ derives. IsTrue derives ↔ Derives tree.now sequent.now) }
{
    derives_by(tree, tree.tally(), alloc, sequent)
}

/// Whether the tree may be stored as a proof of the sequent. Its nodes are counted first.
pub fn is_good(tree: &Tree, alloc: Global, sequent: &Sequent) -> Result<bool, OutOfMemory>
    ensures good { IfOk result (λ good. IsTrue good ↔ IsGoodTree tree.now sequent.now) }
{
    let tally = tree.tally();
    if tally.nodes > MOST_NODES {
        return Ok(false);
    }
    derives_by(tree, tally, alloc, sequent)
}

// Whether the tree, of which this is told, derives the sequent.
fn derives_by(
    tree: &Tree,
    tally: Tally,
    alloc: Global,
    sequent: &Sequent,
) -> Result<bool, OutOfMemory>
    requires tally { IsTallyOf tree.now tally }
    ensures derives { IfOk result (λ derives. IsTrue derives ↔ Derives tree.now sequent.now) }
{
    if !tally.closed || tally.reviewed {
        return Ok(false);
    }
    applies_to(tree, alloc, sequent)
}

/// Whether the tree applies to the sequent.
pub fn applies_to(tree: &Tree, alloc: Global, sequent: &Sequent) -> Result<bool, OutOfMemory>
    ensures applies { IfOk result (λ applies. IsTrue applies ↔ Applies tree.now sequent.now) }
{
    applies_at(tree, alloc, &Way::Root, sequent)
}

/// Whether the tree applies to the sequent to which the way leads.
#[cycle(applies)]
fn applies_at(
    tree: &Tree,
    alloc: Global,
    way: &Way<'_>,
    sequent: &Sequent,
) -> Result<bool, OutOfMemory>
    requires fresh { AreFresh (antecedents_of way.now) sequent.now }
    ensures { IfOk result (λ applies. IsTrue applies ↔ Applies tree.now (at_end (antecedents_of way.now) sequent.now)) }
{
    match tree {
        Tree::Leaf => Ok(true),
        Tree::Node(rule, children) => {
            if !way.meets(rule, sequent) || !is_rule(alloc, rule)? {
                return Ok(false);
            }
            each_applies(
                children.items(),
                rule.antecedents.items(),
                alloc,
                &*way,
                sequent,
            )
        }
    }
}

/// Whether there is a tree for each antecedent, and each tree applies below it.
#[cycle(applies)]
fn each_applies(
    trees: &[Tree],
    antecedents: &[Antecedent],
    alloc: Global,
    way: &Way<'_>,
    sequent: &Sequent,
) -> Result<bool, OutOfMemory>
    requires fresh { AreFresh (antecedents_of way.now) sequent.now }
    ensures { IfOk result (λ each.
        IsTrue each ↔ EachApplies trees.now antecedents.now (at_end (antecedents_of way.now) sequent.now)) }
{
    if trees.len() != antecedents.len() {
        return Ok(false);
    }
    for i in 0..trees.len() {
        if !applies_below(&trees[i], &antecedents[i], alloc, &*way, sequent)? {
            return Ok(false);
        }
    }
    Ok(true)
}

/// Whether what the antecedent adds is new, and the tree applies below it.
#[cycle(applies)]
fn applies_below(
    tree: &Tree,
    antecedent: &Antecedent,
    alloc: Global,
    way: &Way<'_>,
    sequent: &Sequent,
) -> Result<bool, OutOfMemory>
    requires fresh { AreFresh (antecedents_of way.now) sequent.now }
    ensures { IfOk result (λ applies.
        IsTrue applies ↔ (IsFresh (at_end (antecedents_of way.now) sequent.now) antecedent.now
        × Applies tree.now (extended (at_end (antecedents_of way.now) sequent.now) antecedent.now))) }
{
    if !way.is_fresh(antecedent, sequent) {
        return Ok(false);
    }
    let below = Way::Below(&*antecedent, &*way);
    applies_at(tree, alloc, &below, sequent)
}
