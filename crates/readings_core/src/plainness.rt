//! Which rules are plain, and the first one of a tree that isn't.
ghost use Rattle.std.specs.Prelude.{◌≡◌, IfOk, Some, map};
ghost use Rattle.formula_core.specs.declared.Formula.{out-Formula};
ghost use Rattle.plain_logic.specs.Plain.{is_of_integers, is_plain_rule, is_sum_at, keeps_number, keeps_number_at, keeps_truth, keeps_truth_at, rewrites_plainly};
ghost use Rattle.plain_rules.specs.Derivations.{first_below, not_plain};
ghost use Rattle.readings_core.specs.Private.{with_rest};

use formula_core::{Formula, List, Op, OutOfMemory};
use formula_readings::{adds_up, are_integers, is_arithmetic, is_comparison, is_connected};
use rule_table::{Law, RuleKind, two_operands};
use rules_arith::at_place;
use sequent_core::{Path, Rule, Tree};
use std::alloc::Global;

/// The path to the first rule of a tree that isn't plain, parents before children.
pub(crate) fn first_unplain(tree: &Tree, alloc: Global) -> Result<Option<Path>, OutOfMemory>
    ensures { IfOk result (λ path. path ≡ not_plain tree.now) }
{
    let mut path = Vec::new(alloc);
    if leads_to_unplain(tree, &mut path)? {
        Ok(Some(List::of(path)))
    } else {
        Ok(None)
    }
}

/// Whether a rule isn't plain; then the path to the first one is behind the path so far, which else is as it was.
#[cycle(unplain)]
#[tactic(auto, using(crate::proofs::Unplain::equations))]
fn leads_to_unplain(tree: &Tree, path: &mut Vec<u32>) -> Result<bool, OutOfMemory>
    ensures { IfOk result (λ found. (found, path.new.items) ≡ with_rest path.old.items (not_plain tree.now)) }
{
    match tree {
        Tree::Leaf => Ok(false),
        Tree::Node(rule, children) => {
            if !is_plain(rule) {
                return Ok(true);
            }
            lead_to_unplain(children.items(), path)
        }
    }
}

#[cycle(unplain)]
fn lead_to_unplain(trees: &[Tree], path: &mut Vec<u32>) -> Result<bool, OutOfMemory>
    ensures { IfOk result (λ found.
        (found, path.new.items) ≡ with_rest path.old.items (first_below 0 (map not_plain trees.now))) }
{
    for i in 0..trees.len() {
        // So many trees take more memory than there is.
        let Ok(at) = u32::try_from(i) else {
            return Err(OutOfMemory);
        };
        path.push(at)?;
        if leads_to_unplain(&trees[i], path)? {
            return Ok(true);
        }
        let _ = path.pop();
    }
    Ok(false)
}

/// Whether each reading keeps the truth by the rule.
pub(crate) fn is_plain(rule: &Rule) -> bool
    ensures { result ≡ is_plain_rule rule.now }
{
    match &rule.kind {
        RuleKind::Hyp
        | RuleKind::Top
        | RuleKind::Bot
        | RuleKind::Contr
        | RuleKind::AndR
        | RuleKind::AndL
        | RuleKind::OrR
        | RuleKind::OrL
        | RuleKind::ImpR
        | RuleKind::ImpL
        | RuleKind::Mp
        | RuleKind::IffR
        | RuleKind::IffL
        | RuleKind::NotR
        | RuleKind::NotL
        | RuleKind::Contra
        | RuleKind::Cut
        | RuleKind::Cases
        | RuleKind::Linear(_) => true,
        RuleKind::EqRefl => match &rule.needed_goal {
            Some(goal) => is_of_integers(goal),
            None => false,
        },
        RuleKind::RwGoal(law, place) => match &rule.needed_goal {
            Some(goal) => rewrites_plainly(*law, place.items(), goal),
            None => false,
        },
        RuleKind::RwHyp(law, place) => match rule.needed_hyps.items() {
            [h, ..] => rewrites_plainly(*law, place.items(), h),
            [] => false,
        },
        _ => false,
    }
}

/// Whether it is an equation of integers.
fn is_of_integers(f: &Formula) -> bool
    ensures { result ≡ is_of_integers f.now }
{
    match two_operands(Op::Equal, f) {
        Some((e, g)) => are_integers(e, g),
        None => false,
    }
}

fn rewrites_plainly(law: u8, place: &[u32], f: &Formula) -> bool
    ensures { result ≡ rewrites_plainly law place.now (Some f.now) }
{
    match Law::of_number(law) {
        Some(law) => keeps_truth_at(law, place, f),
        None => false,
    }
}

/// Whether the law keeps the truth of a predicate at a place.
#[tactic(auto, using(crate::proofs::Places::laws))]
fn keeps_truth_at(law: Law, place: &[u32], f: &Formula) -> bool
    ensures { result ≡ keeps_truth_at law place.now f.now }
{
    match place {
        [] => keeps_truth(law, f),
        [i, rest @ ..] => match at_place(&[*i], f) {
            Some(part) => {
                (is_connected(f) && keeps_truth_at(law, rest, part))
                    || (is_comparison(f) && keeps_number_at(law, rest, part))
            }
            None => false,
        },
    }
}

/// Whether the law keeps the number of an expression at a place.
#[tactic(auto, using(crate::proofs::Places::laws))]
fn keeps_number_at(law: Law, place: &[u32], f: &Formula) -> bool
    ensures { result ≡ keeps_number_at law place.now f.now }
{
    match place {
        [] => keeps_number(law, f),
        [i, rest @ ..] => match at_place(&[*i], f) {
            Some(part) => is_arithmetic(f) && keeps_number_at(law, rest, part),
            None => false,
        },
    }
}

fn keeps_truth(law: Law, f: &Formula) -> bool
    ensures { result ≡ keeps_truth law f.now }
{
    match law {
        Law::DoubleNegation
        | Law::NegatedAnd
        | Law::NegatedOr
        | Law::NegatedImplies
        | Law::NegatedEquivalent
        | Law::NegatedLess
        | Law::NegatedAtMost
        | Law::EqualIntegers
        | Law::LessIsAtMost => true,
        Law::EqualTurned => is_of_integers(f),
        _ => false,
    }
}

fn keeps_number(law: Law, f: &Formula) -> bool
    ensures { result ≡ keeps_number law f.now }
{
    match law {
        Law::Computed => is_sum(f),
        _ => false,
    }
}

fn is_sum(f: &Formula) -> bool
    ensures { result ≡ is_sum_at (out-Formula f.now) }
{
    match f {
        Formula::Node(op, _, _) => adds_up(*op),
        _ => false,
    }
}
