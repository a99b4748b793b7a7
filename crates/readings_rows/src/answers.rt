//! What the calls answer.

use crate::reading::{expression_of, predicate_of, put, sequent_of};
use crate::steps::tree_of;
use case_proofs::proof_by_cases;
use formula_core::{Env, Formula, List};
use proof_tree::derives;
use readings_core::{Follows, Reading, ValueFault, follows, value};
use sequent_core::Sequent;
use sequent_test::is_sequent;
use std::alloc::Global;

fn truths_of(alloc: Global, names: &Env, texts: &str) -> Option<List<(Formula, bool)>> {
    let mut truths = Vec::new(alloc);
    if texts != "-" {
        for text in texts.split(" ;; ") {
            let (truth, atom) = text.split_once(' ')?;
            let atom = predicate_of(alloc, names, atom)?;
            put(&mut truths, (atom, truth == "true")).ok()?;
        }
    }
    Some(List::of(truths))
}

fn numbers_of(alloc: Global, names: &Env, texts: &str) -> Option<List<(Formula, i128)>> {
    let mut numbers = Vec::new(alloc);
    if texts != "-" {
        for text in texts.split(" ;; ") {
            let (number, atom) = text.split_once(' ')?;
            let number = number.parse::<i128>().ok()?;
            put(&mut numbers, (expression_of(alloc, names, atom)?, number)).ok()?;
        }
    }
    Some(List::of(numbers))
}

/// Writes the truth of a predicate in a reading, or why it has none.
pub fn add_value(alloc: Global, names: &Env, parts: &str, out: &mut String) -> Option<()> {
    let (truths, parts) = parts.split_once('\t')?;
    let (numbers, formula) = parts.split_once('\t')?;
    let reading = Reading {
        truths: truths_of(alloc, names, truths)?,
        numbers: numbers_of(alloc, names, numbers)?,
    };
    match value(&predicate_of(alloc, names, formula)?, &reading) {
        Ok(truth) => write!(out, "{truth}").ok(),
        Err(ValueFault::TooWide(m, n)) => write!(out, "too wide {m} {n}").ok(),
        Err(ValueFault::OutOfMemory) => None,
    }
}

fn add_path(path: &[u32], out: &mut String) -> Option<()> {
    if path.is_empty() {
        return out.push_str("-").ok();
    }
    for (i, number) in path.iter().enumerate() {
        if i > 0 {
            out.push_str(".").ok()?;
        }
        write!(out, "{number}").ok()?;
    }
    Some(())
}

/// Writes whether a sequent follows by the tree of steps.
pub fn add_follows(alloc: Global, names: &Env, parts: &str, out: &mut String) -> Option<()> {
    let (hyps, parts) = parts.split_once('\t')?;
    let (goal, steps) = parts.split_once('\t')?;
    let sequent = sequent_of(alloc, names, hyps, goal)?;
    let tree = tree_of(alloc, &sequent, steps)?;
    match follows(&tree, alloc, &sequent).ok()? {
        Follows::Yes => out.push_str("follows").ok(),
        Follows::NotDerived => out.push_str("not derived").ok(),
        Follows::NotPlain(path) => {
            out.push_str("not plain at ").ok()?;
            add_path(path.items(), out)
        }
    }
}

// What is found within a budget that a prover may have.
fn proved_within(alloc: Global, sequent: &Sequent, budget: u32) -> Option<&'static str> {
    if budget > 2000 {
        return None;
    }
    let Ok(true) = is_sequent(alloc, sequent) else {
        return None;
    };
    let Some(tree) = proof_by_cases(alloc, sequent, budget).ok()? else {
        return Some("no proof");
    };
    if derives(&tree, alloc, sequent).ok()? && tree.node_count() <= u64::from(budget) {
        Some("proved")
    } else {
        Some("no proof, but a tree")
    }
}

/// Writes whether a sequent is proved by cases.
pub fn add_proved(alloc: Global, names: &Env, parts: &str, out: &mut String) -> Option<()> {
    let (budget, parts) = parts.split_once('\t')?;
    let (hyps, goal) = parts.split_once('\t')?;
    let sequent = sequent_of(alloc, names, hyps, goal)?;
    out.push_str(proved_within(alloc, &sequent, budget.parse::<u32>().ok()?)?)
        .ok()
}
