//! The rows of the input.

use crate::asking::asked_prover;
use crate::large::{large_formula, negated};
use crate::reading::typed_predicate;
use crate::showing::{add_outcome, add_proof};
use crate::strategies::asked_strategy;
use formula_core::{Env, Formula, List};
use sequent_core::Sequent;
use std::alloc::{AllocError, Global};

/// A prover or a strategy, its budget, hypotheses, a goal, and the answer wanted.
#[derive(Clone, Copy)]
pub struct Row<'a> {
    pub asked: &'a str,
    pub budget: &'a str,
    pub hyps: &'a str,
    pub goal: &'a str,
    pub wanted: &'a str,
}

/// A name and a set, where the line has just these.
pub fn declaration(line: &str) -> Option<(&str, &str)> {
    let (name, set) = line.split_once('\t')?;
    if set.contains('\t') {
        return None;
    }
    Some((name, set))
}

/// The row of a line. None where it is a comment.
pub fn row_of(line: &str) -> Option<Row<'_>> {
    let (asked, rest) = line.split_once('\t')?;
    let (budget, rest) = rest.split_once('\t')?;
    let (hyps, rest) = rest.split_once('\t')?;
    let (goal, wanted) = rest.split_once('\t')?;
    Some(Row {
        asked,
        budget,
        hyps,
        goal,
        wanted,
    })
}

fn plain_formula(alloc: Global, env: &Env, text: &str) -> Option<Formula> {
    match large_formula(alloc, text) {
        Some(large) => Some(large),
        None => typed_predicate(alloc, env, text),
    }
}

fn formula_of(alloc: Global, env: &Env, text: &str) -> Option<Formula> {
    match text.split_once(" negated ") {
        Some((text, times)) => {
            let formula = plain_formula(alloc, env, text)?;
            negated(alloc, &formula, times.parse::<u32>().ok()?)
        }
        None => plain_formula(alloc, env, text),
    }
}

/// The sequent of hypotheses, separated by ` ;; `, and a goal.
fn sequent_of(alloc: Global, env: &Env, hyps: &str, goal: &str) -> Option<Sequent> {
    let mut formulas = Vec::new(alloc);
    if hyps != "-" {
        for hyp in hyps.split(" ;; ") {
            formulas.push(formula_of(alloc, env, hyp)?).ok()?;
        }
    }
    Some(Sequent {
        env: env.copy(alloc).ok()?,
        hyps: List::of(formulas),
        goal: formula_of(alloc, env, goal)?,
    })
}

/// Writes what a prover or a strategy answers on a sequent.
fn add_answer(
    alloc: Global,
    asked: &str,
    sequent: &Sequent,
    budget: u32,
    out: &mut String,
) -> Result<(), AllocError> {
    if let Some(attempt) = asked_prover(alloc, asked, sequent, budget) {
        return add_proof(alloc, &attempt, sequent, budget, out);
    }
    match asked_strategy(alloc, asked, sequent, budget) {
        Some(attempt) => add_outcome(alloc, &attempt, sequent, out),
        None => out.push_str("not asked"),
    }
}

/// Writes what comes of a row.
pub fn answer(alloc: Global, out: &mut String, env: &Env, row: &Row<'_>) -> Result<(), AllocError> {
    let Some(sequent) = sequent_of(alloc, env, row.hyps, row.goal) else {
        return out.push_str("no sequent");
    };
    let Ok(budget) = row.budget.parse::<u32>() else {
        return out.push_str("no budget");
    };
    add_answer(alloc, row.asked, &sequent, budget, out)
}
