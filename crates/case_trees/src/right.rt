//! Rules on goals.
ghost use Rattle.std.specs.Prelude.{◌≡◌, IfOk, [], ◌∷◌};
ghost use Rattle.case_trees.specs.Trees.{ContraIsSound, NotIsSound, contra_tree, not_tree};
ghost use Rattle.rule_table.specs.Rows.{assumes, backward};
ghost use Rattle.rule_table.specs.Rules.{rule_of};
ghost use Rattle.rule_table.specs.Shapes.{bottom, negation};

use crate::rules::{above, rule_of};
use formula_core::{Formula, List, Op, OutOfMemory, Ty};
use rule_table::{Rule, RuleKind, assumes, backward, negation, one_left};
use sequent_core::Tree;
use std::alloc::Global;

/// A goal whose negation is refuted.
pub fn contra_tree(alloc: Global, p: &Formula, below: Tree) -> Result<Tree, OutOfMemory>
    requires sound { ContraIsSound p.now }
    ensures tree { IfOk result (λ t. t ≡ contra_tree p.now below) }
{
    let rule = contra_rule(alloc, p)?;
    above(alloc, rule, below)
}

fn contra_rule(alloc: Global, p: &Formula) -> Result<Rule, OutOfMemory>
    requires sound { ContraIsSound p.now }
    ensures rule { IfOk result (λ r.
        r ≡ rule_of RuleKind.Contra (backward p.now (assumes (negation p.now) bottom ∷ []))) }
{
    let denied = negation(alloc, p.copy(alloc)?)?;
    let left = one_left(alloc, assumes(alloc, denied, bottom(alloc))?)?;
    let body = backward(alloc, p, left)?;
    rule_of(alloc, RuleKind::Contra, body)
}

/// A goal `¬P`, where P is refuted.
pub(crate) fn not_tree(alloc: Global, p: &Formula, below: Tree) -> Result<Tree, OutOfMemory>
    requires sound { NotIsSound p.now }
    ensures tree { IfOk result (λ t. t ≡ not_tree p.now below) }
{
    let rule = not_rule(alloc, p)?;
    above(alloc, rule, below)
}

fn not_rule(alloc: Global, p: &Formula) -> Result<Rule, OutOfMemory>
    requires sound { NotIsSound p.now }
    ensures rule { IfOk result (λ r.
        r ≡ rule_of RuleKind.NotR (backward (negation p.now) (assumes p.now bottom ∷ []))) }
{
    let goal = negation(alloc, p.copy(alloc)?)?;
    let left = one_left(alloc, assumes(alloc, p.copy(alloc)?, bottom(alloc))?)?;
    let body = backward(alloc, &goal, left)?;
    rule_of(alloc, RuleKind::NotR, body)
}

fn bottom(alloc: Global) -> Formula
    ensures { result ≡ bottom }
{
    Formula::Node(Op::Bottom, List::of(Vec::new(alloc)), Ty::Truth)
}
