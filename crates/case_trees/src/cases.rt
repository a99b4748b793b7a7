//! Connectives that are denied, and `P ⇔ Q`: several rules for one connective.
ghost use Rattle.std.specs.Prelude.{◌≡◌, IfOk};
ghost use Rattle.case_trees.specs.Trees.{BothWaysAreSound, ContraIsSound, ContrIsSound, DeniedAndIsSound, DeniedImpIsSound, DeniedOrIsSound, DifferIsSound, ImpIsSound, SameIsSound, both_ways_tree, denied_and_tree, denied_imp_tree, denied_or_tree, differ_tree, neither_tree, same_tree};
ghost use Rattle.rule_table.specs.Shapes.{negation};
ghost use Rattle.well_defined.specs.Predicates.{implication};

use crate::ends::contr_tree;
use crate::left::{and_tree, denied_tree, iff_tree, made_imp_tree, made_mp_tree, or_tree};
use crate::right::{contra_tree, not_tree};
use formula_core::{Formula, Op, OutOfMemory};
use rule_table::{negation, predicate};
use sequent_core::Tree;
use std::alloc::Global;

/// `P ∧ Q` is denied: P is denied, or Q is.
pub fn denied_and_tree(
    alloc: Global,
    f: &Formula,
    p: &Formula,
    q: &Formula,
    first: Tree,
    second: Tree,
) -> Result<Tree, OutOfMemory>
    requires sound { DeniedAndIsSound f.now p.now q.now }
    ensures tree { IfOk result (λ t. t ≡ denied_and_tree f.now p.now q.now first second) }
{
    let not_p = negation(alloc, p.copy(alloc)?)?;
    let not_q = negation(alloc, q.copy(alloc)?)?;
    let either = predicate(alloc, Op::Or, &not_p, &not_q)?;
    let below = or_tree(alloc, &either, &not_p, &not_q, first, second)?;
    denied_tree(alloc, 2, f, &either, below)
}

/// `P ∨ Q` is denied: both are.
pub fn denied_or_tree(
    alloc: Global,
    f: &Formula,
    p: &Formula,
    q: &Formula,
    below: Tree,
) -> Result<Tree, OutOfMemory>
    requires sound { DeniedOrIsSound f.now p.now q.now }
    ensures tree { IfOk result (λ t. t ≡ denied_or_tree f.now p.now q.now below) }
{
    let not_p = negation(alloc, p.copy(alloc)?)?;
    let not_q = negation(alloc, q.copy(alloc)?)?;
    let both = predicate(alloc, Op::And, &not_p, &not_q)?;
    let below = and_tree(alloc, &both, &not_p, &not_q, below)?;
    denied_tree(alloc, 3, f, &both, below)
}

/// `P ⇒ Q` is denied: P is true, and Q is denied.
pub fn denied_imp_tree(
    alloc: Global,
    f: &Formula,
    p: &Formula,
    q: &Formula,
    below: Tree,
) -> Result<Tree, OutOfMemory>
    requires sound { DeniedImpIsSound f.now p.now q.now }
    ensures tree { IfOk result (λ t. t ≡ denied_imp_tree f.now p.now q.now below) }
{
    let not_q = negation(alloc, q.copy(alloc)?)?;
    let both = predicate(alloc, Op::And, p, &not_q)?;
    let below = and_tree(alloc, &both, p, &not_q, below)?;
    denied_tree(alloc, 4, f, &both, below)
}

/// `P ⇔ Q`: both are denied, or both are true.
pub fn same_tree(
    alloc: Global,
    h: &Formula,
    p: &Formula,
    q: &Formula,
    first: Tree,
    second: Tree,
) -> Result<Tree, OutOfMemory>
    requires sound { SameIsSound h.now p.now q.now }
    ensures tree { IfOk result (λ t. t ≡ same_tree h.now p.now q.now first second) }
{
    let shown = contra_tree(alloc, q, first)?;
    both_ways_tree(alloc, h, p, q, shown, second)
}

/// `P ⇔ Q` is denied: one is denied, and the other is true.
pub fn differ_tree(
    alloc: Global,
    f: &Formula,
    p: &Formula,
    q: &Formula,
    first: Tree,
    second: Tree,
) -> Result<Tree, OutOfMemory>
    requires sound { DifferIsSound f.now p.now q.now }
    ensures tree { IfOk result (λ t. t ≡ differ_tree f.now p.now q.now first second) }
{
    let not_q = negation(alloc, q.copy(alloc)?)?;
    let new = predicate(alloc, Op::Equivalent, p, &not_q)?;
    let shown = not_tree(alloc, q, first)?;
    let below = both_ways_tree(alloc, &new, p, &not_q, shown, second)?;
    denied_tree(alloc, 5, f, &new, below)
}

/// `P ⇔ Q`: where P is denied, a tree proves Q, so that P is true after all; else both are true.
fn both_ways_tree(
    alloc: Global,
    h: &Formula,
    p: &Formula,
    q: &Formula,
    first: Tree,
    second: Tree,
) -> Result<Tree, OutOfMemory>
    requires sound { BothWaysAreSound h.now p.now q.now }
    ensures tree { IfOk result (λ t. t ≡ both_ways_tree h.now p.now q.now first second) }
{
    let left = neither_tree(alloc, p, q, first)?;
    let right = made_mp_tree(alloc, q, p, second)?;
    let split = made_imp_tree(alloc, p, q, left, right)?;
    iff_tree(alloc, h, p, q, split)
}

fn neither_tree(alloc: Global, p: &Formula, q: &Formula, first: Tree) -> Result<Tree, OutOfMemory>
    requires back { ImpIsSound (implication q.now p.now) q.now p.now }
    requires contra { ContraIsSound p.now }
    requires contr { ContrIsSound p.now }
    ensures tree { IfOk result (λ t. t ≡ neither_tree p.now q.now first) }
{
    let end = contr_tree(alloc, p)?;
    let split = made_imp_tree(alloc, q, p, first, end)?;
    contra_tree(alloc, p, split)
}
