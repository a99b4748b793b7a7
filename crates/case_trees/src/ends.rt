//! Rules that leave nothing.
ghost use Rattle.std.specs.Prelude.{◌≡◌, IfOk, [], ◌∷◌};
ghost use Rattle.case_trees.specs.Trees.{BottomIsSound, ContrIsSound, TopIsSound, bottom_tree, contr_tree, top_tree};
ghost use Rattle.rule_table.specs.Rows.{backward, forward, proves};
ghost use Rattle.rule_table.specs.Rules.{rule_of};
ghost use Rattle.rule_table.specs.Shapes.{bottom, negation};
ghost use Rattle.well_defined.specs.Predicates.{top};

use crate::rules::{above, alone, rule_of};
use formula_core::{Formula, List, Op, OutOfMemory, Ty};
use rule_table::{
    Rule, RuleKind, backward, forward, forward_one, negation, none_left, one, one_left, proves,
    top, two,
};
use sequent_core::Tree;
use std::alloc::Global;

/// P is a hypothesis, and so is `¬P`.
pub fn contr_tree(alloc: Global, p: &Formula) -> Result<Tree, OutOfMemory>
    requires sound { ContrIsSound p.now }
    ensures tree { IfOk result (λ t. t ≡ contr_tree p.now) }
{
    let rule = contr_rule(alloc, p)?;
    Ok(alone(alloc, rule))
}

fn contr_rule(alloc: Global, p: &Formula) -> Result<Rule, OutOfMemory>
    requires sound { ContrIsSound p.now }
    ensures rule { IfOk result (λ r. r ≡ rule_of RuleKind.Contr (forward (p.now ∷ negation p.now ∷ []) [])) }
{
    let denied = negation(alloc, p.copy(alloc)?)?;
    let needed = two(alloc, p.copy(alloc)?, denied)?;
    rule_of(alloc, RuleKind::Contr, forward(needed, none_left(alloc)))
}

/// `⊥` is a hypothesis.
pub fn bottom_tree(alloc: Global) -> Result<Tree, OutOfMemory>
    requires sound { BottomIsSound }
    ensures tree { IfOk result (λ t. t ≡ bottom_tree) }
{
    let bottom = Formula::Node(Op::Bottom, List::of(Vec::new(alloc)), Ty::Truth);
    let needed = one(alloc, bottom)?;
    let rule = rule_of(alloc, RuleKind::Bot, forward(needed, none_left(alloc)))?;
    Ok(alone(alloc, rule))
}

/// `¬⊤` is a hypothesis.
pub fn top_tree(alloc: Global) -> Result<Tree, OutOfMemory>
    requires sound { TopIsSound }
    ensures tree { IfOk result (λ t. t ≡ top_tree) }
{
    let rule = denied_top_rule(alloc)?;
    let below = alone(alloc, top_rule(alloc)?);
    above(alloc, rule, below)
}

fn denied_top_rule(alloc: Global) -> Result<Rule, OutOfMemory>
    requires sound { TopIsSound }
    ensures rule { IfOk result (λ r. r ≡ rule_of RuleKind.NotL (forward (negation top ∷ []) (proves top ∷ []))) }
{
    let denied = negation(alloc, top(alloc))?;
    let left = one_left(alloc, proves(alloc, top(alloc)))?;
    let body = forward_one(alloc, &denied, left)?;
    rule_of(alloc, RuleKind::NotL, body)
}

fn top_rule(alloc: Global) -> Result<Rule, OutOfMemory>
    requires sound { TopIsSound }
    ensures rule { IfOk result (λ r. r ≡ rule_of RuleKind.Top (backward top [])) }
{
    let body = backward(alloc, &top(alloc), none_left(alloc))?;
    rule_of(alloc, RuleKind::Top, body)
}
