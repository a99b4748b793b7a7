//! Rules on hypotheses.
ghost use Rattle.std.specs.Prelude.{◌≡◌, IfOk, [], ◌∷◌};
ghost use Rattle.case_trees.specs.Trees.{AndIsSound, IffIsSound, ImpIsSound, LawIsSound, MpIsSound, OrIsSound, and_tree, iff_tree, imp_tree, law_tree, mp_tree, or_tree};
ghost use Rattle.rule_table.specs.Rows.{adds, forward, proves};
ghost use Rattle.rule_table.specs.Rules.{rule_of};
ghost use Rattle.rule_table.specs.Shapes.{negation};
ghost use Rattle.well_defined.specs.Predicates.{implication};

use crate::rules::{above, above_two, rule_of};
use formula_core::{Formula, List, Op, OutOfMemory};
use rule_table::{
    Antecedent, Rule, RuleKind, adds, adds_one, forward, forward_one, negation, one_left,
    predicate, proves, two, two_left,
};
use sequent_core::Tree;
use std::alloc::Global;

/// `P ∧ Q`: both are added.
pub fn and_tree(
    alloc: Global,
    h: &Formula,
    p: &Formula,
    q: &Formula,
    below: Tree,
) -> Result<Tree, OutOfMemory>
    requires sound { AndIsSound h.now p.now q.now }
    ensures tree { IfOk result (λ t. t ≡ and_tree h.now p.now q.now below) }
{
    let rule = and_rule(alloc, h, p, q)?;
    above(alloc, rule, below)
}

fn and_rule(alloc: Global, h: &Formula, p: &Formula, q: &Formula) -> Result<Rule, OutOfMemory>
    requires sound { AndIsSound h.now p.now q.now }
    ensures rule { IfOk result (λ r.
        r ≡ rule_of RuleKind.AndL (forward (h.now ∷ []) (adds (p.now ∷ q.now ∷ []) ∷ []))) }
{
    let left = one_left(alloc, adds_both(alloc, p, q)?)?;
    let body = forward_one(alloc, h, left)?;
    rule_of(alloc, RuleKind::AndL, body)
}

fn adds_both(alloc: Global, p: &Formula, q: &Formula) -> Result<Antecedent, OutOfMemory>
    ensures added { IfOk result (λ a. a ≡ adds (p.now ∷ q.now ∷ [])) }
{
    let added = two_copies(alloc, p, q)?;
    Ok(adds(alloc, added))
}

fn two_copies(alloc: Global, p: &Formula, q: &Formula) -> Result<List<Formula>, OutOfMemory>
    ensures copies { IfOk result (λ fs. fs ≡ p.now ∷ q.now ∷ []) }
{
    let first = p.copy(alloc)?;
    two(alloc, first, q.copy(alloc)?)
}

/// `P ∨ Q`: one of them is added.
pub fn or_tree(
    alloc: Global,
    h: &Formula,
    p: &Formula,
    q: &Formula,
    first: Tree,
    second: Tree,
) -> Result<Tree, OutOfMemory>
    requires sound { OrIsSound h.now p.now q.now }
    ensures tree { IfOk result (λ t. t ≡ or_tree h.now p.now q.now first second) }
{
    let rule = or_rule(alloc, h, p, q)?;
    above_two(alloc, rule, first, second)
}

fn or_rule(alloc: Global, h: &Formula, p: &Formula, q: &Formula) -> Result<Rule, OutOfMemory>
    requires sound { OrIsSound h.now p.now q.now }
    ensures rule { IfOk result (λ r.
        r ≡ rule_of RuleKind.OrL (forward (h.now ∷ []) (adds (p.now ∷ []) ∷ adds (q.now ∷ []) ∷ []))) }
{
    let first = adds_one(alloc, p.copy(alloc)?)?;
    let second = adds_one(alloc, q.copy(alloc)?)?;
    let left = two_left(alloc, first, second)?;
    let body = forward_one(alloc, h, left)?;
    rule_of(alloc, RuleKind::OrL, body)
}

/// `P ⇒ Q`: P is proved by a tree, and Q is added.
pub fn imp_tree(
    alloc: Global,
    h: &Formula,
    p: &Formula,
    q: &Formula,
    first: Tree,
    second: Tree,
) -> Result<Tree, OutOfMemory>
    requires sound { ImpIsSound h.now p.now q.now }
    ensures tree { IfOk result (λ t. t ≡ imp_tree h.now p.now q.now first second) }
{
    let rule = imp_rule(alloc, h, p, q)?;
    above_two(alloc, rule, first, second)
}

fn imp_rule(alloc: Global, h: &Formula, p: &Formula, q: &Formula) -> Result<Rule, OutOfMemory>
    requires sound { ImpIsSound h.now p.now q.now }
    ensures rule { IfOk result (λ r.
        r ≡ rule_of RuleKind.ImpL (forward (h.now ∷ []) (proves p.now ∷ adds (q.now ∷ []) ∷ []))) }
{
    let first = proves(alloc, p.copy(alloc)?);
    let second = adds_one(alloc, q.copy(alloc)?)?;
    let left = two_left(alloc, first, second)?;
    let body = forward_one(alloc, h, left)?;
    rule_of(alloc, RuleKind::ImpL, body)
}

/// The same of an implication that is made.
pub(crate) fn made_imp_tree(
    alloc: Global,
    p: &Formula,
    q: &Formula,
    first: Tree,
    second: Tree,
) -> Result<Tree, OutOfMemory>
    requires sound { ImpIsSound (implication p.now q.now) p.now q.now }
    ensures tree { IfOk result (λ t. t ≡ imp_tree (implication p.now q.now) p.now q.now first second) }
{
    let h = predicate(alloc, Op::Implies, p, q)?;
    imp_tree(alloc, &h, p, q, first, second)
}

/// `P ⇒ Q`, where P is a hypothesis too: Q is added.
pub(crate) fn made_mp_tree(
    alloc: Global,
    p: &Formula,
    q: &Formula,
    below: Tree,
) -> Result<Tree, OutOfMemory>
    requires sound { MpIsSound (implication p.now q.now) p.now q.now }
    ensures tree { IfOk result (λ t. t ≡ mp_tree (implication p.now q.now) p.now q.now below) }
{
    let rule = made_mp_rule(alloc, p, q)?;
    above(alloc, rule, below)
}

fn made_mp_rule(alloc: Global, p: &Formula, q: &Formula) -> Result<Rule, OutOfMemory>
    requires sound { MpIsSound (implication p.now q.now) p.now q.now }
    ensures rule { IfOk result (λ r.
        r ≡ rule_of RuleKind.Mp (forward (implication p.now q.now ∷ p.now ∷ []) (adds (q.now ∷ []) ∷ []))) }
{
    let h = predicate(alloc, Op::Implies, p, q)?;
    let needed = two(alloc, h, p.copy(alloc)?)?;
    let left = one_left(alloc, adds_one(alloc, q.copy(alloc)?)?)?;
    rule_of(alloc, RuleKind::Mp, forward(needed, left))
}

/// `P ⇔ Q`: the two implications are added.
pub(crate) fn iff_tree(
    alloc: Global,
    h: &Formula,
    p: &Formula,
    q: &Formula,
    below: Tree,
) -> Result<Tree, OutOfMemory>
    requires sound { IffIsSound h.now p.now q.now }
    ensures tree { IfOk result (λ t. t ≡ iff_tree h.now p.now q.now below) }
{
    let rule = iff_rule(alloc, h, p, q)?;
    above(alloc, rule, below)
}

fn iff_rule(alloc: Global, h: &Formula, p: &Formula, q: &Formula) -> Result<Rule, OutOfMemory>
    requires sound { IffIsSound h.now p.now q.now }
    ensures rule { IfOk result (λ r. r ≡ rule_of RuleKind.IffL
        (forward (h.now ∷ []) (adds (implication p.now q.now ∷ implication q.now p.now ∷ []) ∷ []))) }
{
    let over = predicate(alloc, Op::Implies, p, q)?;
    let back = predicate(alloc, Op::Implies, q, p)?;
    let left = one_left(alloc, adds(alloc, two(alloc, over, back)?))?;
    let body = forward_one(alloc, h, left)?;
    rule_of(alloc, RuleKind::IffL, body)
}

/// The law with this number, at the negation of a formula.
pub fn denied_tree(
    alloc: Global,
    law: u8,
    f: &Formula,
    new: &Formula,
    below: Tree,
) -> Result<Tree, OutOfMemory>
    requires sound { LawIsSound law (negation f.now) new.now }
    ensures tree { IfOk result (λ t. t ≡ law_tree law (negation f.now) new.now below) }
{
    let rule = denied_rule(alloc, law, f, new)?;
    above(alloc, rule, below)
}

fn denied_rule(alloc: Global, law: u8, f: &Formula, new: &Formula) -> Result<Rule, OutOfMemory>
    requires sound { LawIsSound law (negation f.now) new.now }
    ensures rule { IfOk result (λ r.
        r ≡ rule_of (RuleKind.RwHyp law []) (forward (negation f.now ∷ []) (adds (new.now ∷ []) ∷ []))) }
{
    let denied = negation(alloc, f.copy(alloc)?)?;
    let left = one_left(alloc, adds_one(alloc, new.copy(alloc)?)?)?;
    let body = forward_one(alloc, &denied, left)?;
    let place = List::of(Vec::new(alloc));
    rule_of(alloc, RuleKind::RwHyp(law, place), body)
}
