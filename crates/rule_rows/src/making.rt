//! Rules that are asked for, and rules by hand.

use crate::items::read_hint;
use crate::reading::sequent_of;
use crate::showing::{add_fault, add_rule};
use formula_core::{Env, Formula, List, Name, Ty, copy_formulas, copy_identifiers};
use proof_tree::hypothesis;
use rule_kernel::{is_rule, used_if_sound};
use rule_making::make;
use rule_table::{Antecedent, Rule, RuleKind, adds_one, none_left, one_left, proves, two_left};
use sequent_core::{Hint, Sequent};
use std::alloc::Global;

/// What is asked of `make`.
#[derive(Drop)]
pub struct Asked {
    kind: u8,
    hint: Hint,
    sequent: Sequent,
}

/// What is asked by the number of a kind and items, for names, hypotheses and a goal.
pub fn asked_of(
    alloc: Global,
    names: &Env,
    kind: &str,
    items: &str,
    listed: &str,
    formulas: &str,
) -> Option<Asked> {
    let kind = kind.parse::<u8>().ok()?;
    let (hyps, goal) = formulas.split_once('\t')?;
    let hint = read_hint(alloc, names, items)?;
    let sequent = sequent_of(alloc, names, listed, hyps, goal)?;
    Some(Asked {
        kind,
        hint,
        sequent,
    })
}

/// The rule that is asked for. Where there is none, it writes why.
pub fn rule_for(alloc: Global, asked: &Asked, out: &mut String) -> Option<Rule> {
    match make(alloc, asked.kind, &asked.hint, &asked.sequent) {
        Ok(rule) => Some(rule),
        Err(fault) => {
            let _ = add_fault(&fault, out);
            None
        }
    }
}

/// Writes the rule that is asked for, or why there is none.
pub fn add_made(alloc: Global, asked: &Asked, out: &mut String) -> Option<()> {
    match rule_for(alloc, asked, out) {
        Some(rule) => add_rule(alloc, &rule, out).ok(),
        None => Some(()),
    }
}

fn tested(alloc: Global, rule: &Rule) -> &'static str {
    match is_rule(alloc, rule) {
        Ok(true) => "a rule",
        _ => "no rule, but made",
    }
}

// Writes whether a rule of the table is made, or why there is none.
fn add_tested(alloc: Global, asked: &Asked, out: &mut String) -> Option<()> {
    match rule_for(alloc, asked, out) {
        Some(rule) => out.push_str(tested(alloc, &rule)).ok(),
        None => Some(()),
    }
}

/// The same, asked so often: the last answer.
pub fn add_tested_often(alloc: Global, asked: &Asked, times: u32, out: &mut String) -> Option<()> {
    for _ in 0..times {
        out.clear();
        add_tested(alloc, asked, out)?;
    }
    Some(())
}

fn goal_left(alloc: Global, rule: &Rule) -> Option<Formula> {
    let left = rule.antecedents.items().first()?;
    left.goal.as_ref()?.copy(alloc).ok()
}

// Asks for the rule, and goes on to the goal that it leaves. Where there is none, it writes why.
fn go_on(alloc: Global, asked: &mut Asked, out: &mut String) -> Option<()> {
    let rule = rule_for(alloc, &*asked, out)?;
    asked.sequent.goal = goal_left(alloc, &rule)?;
    Some(())
}

// How often the rule is made, at most so often. Where it isn't once more, it writes why.
fn times_made(alloc: Global, asked: &mut Asked, most: u32, out: &mut String) -> u32 {
    for times in 0..most {
        if go_on(alloc, asked, out).is_none() {
            return times;
        }
    }
    most
}

/// Writes how often the rule is made, at most so often, each time for the goal that it left, and why not once more.
pub fn add_rewrites(alloc: Global, asked: &mut Asked, most: u32, out: &mut String) -> Option<()> {
    let mut fault = String::new(alloc);
    let times = times_made(alloc, asked, most, &mut fault);
    write!(out, "{times} times, then {fault}").ok()
}

/// How often of so many times the rule is found to be one of the table.
pub fn times_found(alloc: Global, rule: &Rule, times: u32) -> Option<u32> {
    let mut found: u32 = 0;
    for _ in 0..times {
        if is_rule(alloc, rule).ok()? {
            found = found.saturating_add(1);
        }
    }
    Some(found)
}

/// The rule that the goal is a hypothesis.
pub fn known_goal(alloc: Global, sequent: &Sequent) -> Option<Rule> {
    hypothesis(alloc, &sequent.goal).ok()
}

// The kinds of which there are rules by hand. The law is that of listed members.
fn kind_by_hand(alloc: Global, number: &str) -> Option<RuleKind> {
    match number {
        "1" => Some(RuleKind::Hyp),
        "21" => Some(RuleKind::Cut),
        "25" => Some(RuleKind::EqGoal),
        "29" => Some(RuleKind::RwGoal(15, List::of(Vec::new(alloc)))),
        _ => None,
    }
}

// The formula is proved, and added.
fn twice_left(alloc: Global, formula: &Formula) -> Option<List<Antecedent>> {
    let added = adds_one(alloc, formula.copy(alloc).ok()?).ok()?;
    let proved = proves(alloc, formula.copy(alloc).ok()?);
    two_left(alloc, proved, added).ok()
}

// A hypothesis leaves nothing, and a cut its formula twice. Else the goal is left as it is.
fn left_by_hand(alloc: Global, kind: &RuleKind, goal: &Formula) -> Option<List<Antecedent>> {
    match kind {
        RuleKind::Hyp => Some(none_left(alloc)),
        RuleKind::Cut => twice_left(alloc, goal),
        _ => one_left(alloc, proves(alloc, goal.copy(alloc).ok()?)).ok(),
    }
}

// A cut needs no goal.
fn goal_by_hand(alloc: Global, kind: &RuleKind, goal: &Formula) -> Option<Option<Formula>> {
    match kind {
        RuleKind::Cut => Some(None),
        _ => Some(Some(goal.copy(alloc).ok()?)),
    }
}

// What is like a rule, for the names, the hypotheses and the goal of a sequent.
fn like_rule(alloc: Global, kind: RuleKind, sequent: &Sequent) -> Option<Rule> {
    let antecedents = left_by_hand(alloc, &kind, &sequent.goal)?;
    let needed_goal = goal_by_hand(alloc, &kind, &sequent.goal)?;
    let needed_hyps = copy_formulas(alloc, sequent.hyps.items()).ok()?;
    let used = copy_identifiers(alloc, sequent.env.entries()).ok()?;
    Some(Rule {
        kind,
        needed_goal,
        needed_hyps,
        used,
        antecedents,
    })
}

fn names_asked(alloc: Global, rule: &Rule) -> Option<List<(Name, Ty)>> {
    used_if_sound(alloc, rule).ok()?
}

/// A rule by hand. Where the sequent has no names, it asks for those that are in its formulas.
pub fn by_hand(alloc: Global, number: &str, sequent: &Sequent) -> Option<Rule> {
    let mut rule = like_rule(alloc, kind_by_hand(alloc, number)?, sequent)?;
    if rule.used.items().is_empty() {
        rule.used = names_asked(alloc, &rule)?;
    }
    Some(rule)
}
