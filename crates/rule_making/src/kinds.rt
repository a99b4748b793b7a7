//! The kind that a number names, with what a hint gives it.
ghost use Rattle.std.specs.Prelude.{◌≡◌, ◌<◌, ◌≤◌, IfOk};
ghost use Rattle.rule_table.specs.Rows.{first};
ghost use Rattle.rule_making.specs.Make.{has_only, plain, reviewing, naming, with_terms, with_term, rewriting, multiplying, kind_of, takes_goal, goal_for, hyps_for, main_for};

use crate::hint::hyps_at;
use formula_core::{Formula, List, Name, OutOfMemory, copy_formulas};
use rule_table::{Main, RuleKind};
use sequent_core::{Hint, Sequent};
use std::alloc::Global;

/// Whether the hint has names, a law with a place, and multipliers only where the kind takes them.
fn has_only(hint: &Hint, names: bool, rewriting: bool, multipliers: bool) -> bool
    ensures { result ≡ has_only hint.now names rewriting multipliers }
{
    (names || hint.names.items().len() == 0)
        && (rewriting || hint.law == 0 && hint.place.items().len() == 0)
        && (multipliers || hint.multipliers.items().len() == 0)
}

fn plain(hint: &Hint, terms: &[Formula], kind: RuleKind) -> Option<RuleKind>
    ensures { result ≡ plain hint.now terms.now kind }
{
    if has_only(hint, false, false, false) && terms.len() == 0 {
        Some(kind)
    } else {
        None
    }
}

fn reviewing(hint: &Hint, terms: &[Formula], kind: RuleKind) -> Option<RuleKind>
    ensures { result ≡ reviewing hint.now terms.now kind }
{
    if has_only(hint, false, false, false) && terms.len() == 0 && hint.hyps.items().len() == 0 {
        Some(kind)
    } else {
        None
    }
}

fn naming(hint: &Hint, terms: &[Formula], kind: RuleKind) -> Option<RuleKind>
    ensures { result ≡ naming hint.now terms.now kind }
{
    if has_only(hint, true, false, false) && terms.len() == 0 {
        Some(kind)
    } else {
        None
    }
}

fn with_terms(hint: &Hint, kind: RuleKind) -> Option<RuleKind>
    ensures { result ≡ with_terms hint.now kind }
{
    if has_only(hint, false, false, false) {
        Some(kind)
    } else {
        None
    }
}

fn with_term(hint: &Hint, terms: &[Formula], kind: RuleKind) -> Option<RuleKind>
    ensures { result ≡ with_term hint.now terms.now kind }
{
    if has_only(hint, false, false, false) && terms.len() == 1 {
        Some(kind)
    } else {
        None
    }
}

fn rewriting(count: usize, hint: &Hint, terms: &[Formula], kind: RuleKind) -> Option<RuleKind>
    ensures { result ≡ rewriting count hint.now terms.now kind }
{
    if has_only(hint, false, true, false) && terms.len() == 0 && hint.hyps.items().len() == count {
        Some(kind)
    } else {
        None
    }
}

fn multiplying(hint: &Hint, terms: &[Formula], kind: RuleKind) -> Option<RuleKind>
    ensures { result ≡ multiplying hint.now terms.now kind }
{
    if has_only(hint, false, false, true) && terms.len() == 0 {
        Some(kind)
    } else {
        None
    }
}

/// The kind with a number, with what the hint gives it, where the hint has that and no more.
pub(crate) fn kind_of(
    alloc: Global,
    number: u8,
    hint: &Hint,
    terms: &[Formula],
) -> Result<Option<RuleKind>, OutOfMemory>
    ensures { IfOk result (λ o. o ≡ kind_of number hint.now terms.now) }
{
    if number <= 16 {
        return Ok(connective_kind(number, hint, terms));
    }
    if number <= 23 {
        return quantifier_kind(alloc, number, hint, terms);
    }
    if number > 35 {
        return Ok(None);
    }
    value_kind(alloc, number, hint, terms)
}

/// The kinds 1 to 16.
#[tactic(auto, unfolding(crate::specs::Make::kind_of))]
fn connective_kind(number: u8, hint: &Hint, terms: &[Formula]) -> Option<RuleKind>
    requires { number ≤ 16 }
    ensures { result ≡ kind_of number hint.now terms.now }
{
    match number {
        1 => plain(hint, terms, RuleKind::Hyp),
        2 => plain(hint, terms, RuleKind::Top),
        3 => plain(hint, terms, RuleKind::Bot),
        4 => plain(hint, terms, RuleKind::Contr),
        5 => plain(hint, terms, RuleKind::AndR),
        6 => plain(hint, terms, RuleKind::AndL),
        7 => plain(hint, terms, RuleKind::OrR),
        8 => plain(hint, terms, RuleKind::OrL),
        9 => plain(hint, terms, RuleKind::ImpR),
        10 => plain(hint, terms, RuleKind::ImpL),
        11 => plain(hint, terms, RuleKind::Mp),
        12 => plain(hint, terms, RuleKind::IffR),
        13 => plain(hint, terms, RuleKind::IffL),
        14 => plain(hint, terms, RuleKind::NotR),
        15 => plain(hint, terms, RuleKind::NotL),
        16 => plain(hint, terms, RuleKind::Contra),
        _ => None,
    }
}

/// The kinds 17 to 23.
#[tactic(auto, unfolding(crate::specs::Make::kind_of))]
fn quantifier_kind(
    alloc: Global,
    number: u8,
    hint: &Hint,
    terms: &[Formula],
) -> Result<Option<RuleKind>, OutOfMemory>
    requires least { 16 < number }
    requires most { number ≤ 23 }
    ensures { IfOk result (λ o. o ≡ kind_of number hint.now terms.now) }
{
    match number {
        17 => Ok(naming(hint, terms, RuleKind::AllR)),
        18 => Ok(with_terms(hint, RuleKind::AllL(copy_formulas(alloc, terms)?))),
        19 => Ok(with_terms(hint, RuleKind::ExR(copy_formulas(alloc, terms)?))),
        20 => Ok(naming(hint, terms, RuleKind::ExL)),
        21 => Ok(with_term(hint, terms, RuleKind::Cut)),
        22 => Ok(with_term(hint, terms, RuleKind::Cases)),
        _ => Ok(reviewing(hint, terms, RuleKind::Review)),
    }
}

/// The kinds 24 to 35.
#[tactic(auto, unfolding(crate::specs::Make::kind_of))]
fn value_kind(
    alloc: Global,
    number: u8,
    hint: &Hint,
    terms: &[Formula],
) -> Result<Option<RuleKind>, OutOfMemory>
    requires least { 23 < number }
    requires most { number ≤ 35 }
    ensures { IfOk result (λ o. o ≡ kind_of number hint.now terms.now) }
{
    match number {
        24 => Ok(plain(hint, terms, RuleKind::EqRefl)),
        25 => Ok(plain(hint, terms, RuleKind::EqGoal)),
        26 => Ok(plain(hint, terms, RuleKind::EqHyp)),
        27 => Ok(with_term(hint, terms, RuleKind::BoolCases)),
        28 => Ok(plain(hint, terms, RuleKind::BoolDiff)),
        29 => {
            let kind = RuleKind::RwGoal(hint.law, copy_place(alloc, hint.place.items())?);
            Ok(rewriting(0, hint, terms, kind))
        }
        30 => {
            let kind = RuleKind::RwHyp(hint.law, copy_place(alloc, hint.place.items())?);
            Ok(rewriting(1, hint, terms, kind))
        }
        31 => {
            let kind = RuleKind::Linear(copy_multipliers(alloc, hint.multipliers.items())?);
            Ok(multiplying(hint, terms, kind))
        }
        32 => Ok(with_term(hint, terms, RuleKind::CardNat)),
        33 => Ok(with_term(hint, terms, RuleKind::FunIn)),
        34 => Ok(plain(hint, terms, RuleKind::FunEq)),
        _ => Ok(plain(hint, terms, RuleKind::OverOther)),
    }
}

fn copy_place(alloc: Global, place: &[u32]) -> Result<List<u32>, OutOfMemory>
    ensures { IfOk result (λ copy. copy ≡ place.now) }
{
    Ok(List::of(place.iter().copied().collect(alloc)?))
}

fn copy_multipliers(alloc: Global, multipliers: &[i128]) -> Result<List<i128>, OutOfMemory>
    ensures { IfOk result (λ copy. copy ≡ multipliers.now) }
{
    Ok(List::of(multipliers.iter().copied().collect(alloc)?))
}

/// Whether a kind takes the goal of the sequent.
fn takes_goal(kind: u8) -> bool
    ensures { result ≡ takes_goal kind }
{
    match kind {
        1 | 2 | 5 | 7 | 9 | 12 | 14 | 16 | 17 | 19 | 23 | 24 | 25 | 29 | 31 | 35 => true,
        _ => false,
    }
}

fn goal_for(alloc: Global, kind: u8, sequent: &Sequent) -> Result<Option<Formula>, OutOfMemory>
    ensures { IfOk result (λ o. o ≡ goal_for kind sequent.now) }
{
    if takes_goal(kind) {
        Ok(Some(sequent.goal.copy(alloc)?))
    } else {
        Ok(None)
    }
}

fn hyps_for(
    alloc: Global,
    kind: u8,
    hint: &Hint,
    sequent: &Sequent,
) -> Result<List<Formula>, OutOfMemory>
    ensures { IfOk result (λ hyps. hyps ≡ hyps_for kind hint.now sequent.now) }
{
    if kind == 23 {
        copy_formulas(alloc, sequent.hyps.items())
    } else {
        hyps_at(alloc, sequent, hint.hyps.items())
    }
}

/// The first term, where there is one.
fn chosen(alloc: Global, terms: &[Formula]) -> Result<Option<Formula>, OutOfMemory>
    ensures { IfOk result (λ o. o ≡ first terms.now) }
{
    match terms {
        [term, ..] => Ok(Some(term.copy(alloc)?)),
        [] => Ok(None),
    }
}

fn copy_names(alloc: Global, names: &[Name]) -> Result<List<Name>, OutOfMemory>
    ensures { IfOk result (λ copies. copies ≡ names.now) }
{
    let mut copies = Vec::new(alloc);
    for name in names {
        copies.push(name.copy(alloc)?)?;
    }
    Ok(List::of(copies))
}

/// The main formulas that the hint names.
#[tactic(auto, unfolding(crate::specs::Make::main_for))]
pub(crate) fn main_for(
    alloc: Global,
    kind: u8,
    hint: &Hint,
    terms: &[Formula],
    sequent: &Sequent,
) -> Result<Main, OutOfMemory>
    ensures { IfOk result (λ main. main ≡ main_for kind hint.now terms.now sequent.now) }
{
    Ok(Main {
        goal: goal_for(alloc, kind, sequent)?,
        hyps: hyps_for(alloc, kind, hint, sequent)?,
        names: copy_names(alloc, hint.names.items())?,
        chosen: chosen(alloc, terms)?,
    })
}
