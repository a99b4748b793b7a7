//! Formulas that are too large to be written.

use formula_core::{Formula, List, Name, Op, Ty};
use rule_table::{negation, one, predicate, two};
use std::alloc::Global;

/// The formula of a text such as `doubled 3`, `signed 3` or `conjoined 3`, if it is one.
pub fn large_formula(alloc: Global, text: &str) -> Option<Formula> {
    let (form, times) = text.split_once(' ')?;
    match form {
        "doubled" => equal_to_itself(alloc, &doubled(alloc, times.parse::<u32>().ok()?)?),
        "signed" => equal_to_itself(alloc, &signed(alloc, times.parse::<u32>().ok()?)?),
        "conjoined" => conjoined(alloc, times.parse::<u32>().ok()?),
        _ => None,
    }
}

/// The formula behind so many negations.
pub fn negated(alloc: Global, formula: &Formula, times: u32) -> Option<Formula> {
    let mut negated = formula.copy(alloc).ok()?;
    for _ in 0..times {
        negated = negation(alloc, negated).ok()?;
    }
    Some(negated)
}

fn equal_to_itself(alloc: Global, part: &Formula) -> Option<Formula> {
    predicate(alloc, Op::Equal, part, part).ok()
}

// x added to itself so many times over
fn doubled(alloc: Global, times: u32) -> Option<Formula> {
    let mut sum = name_x(alloc)?;
    for _ in 0..times {
        sum = sum_of(alloc, &sum)?;
    }
    Some(sum)
}

// so many signs before x
fn signed(alloc: Global, times: u32) -> Option<Formula> {
    let mut signed = name_x(alloc)?;
    for _ in 0..times {
        signed = sign_before(alloc, signed)?;
    }
    Some(signed)
}

// x = x, joined to itself so many times over
fn conjoined(alloc: Global, times: u32) -> Option<Formula> {
    let mut whole = equal_to_itself(alloc, &name_x(alloc)?)?;
    for _ in 0..times {
        whole = predicate(alloc, Op::And, &whole, &whole).ok()?;
    }
    Some(whole)
}

fn name_x(alloc: Global) -> Option<Formula> {
    Some(Formula::Free(Name::read(alloc, "x").ok()?, Ty::Int))
}

fn sum_of(alloc: Global, part: &Formula) -> Option<Formula> {
    let first = part.copy(alloc).ok()?;
    let second = part.copy(alloc).ok()?;
    Some(Formula::Node(Op::Plus, two(alloc, first, second).ok()?, Ty::Int))
}

fn sign_before(alloc: Global, part: Formula) -> Option<Formula> {
    Some(Formula::Node(Op::Negate, one(alloc, part).ok()?, Ty::Int))
}
