//! Functions that operators make of others, at an argument: that they are functions, and have a value there.
use crate::lemmas::{STILL, lemma, note_asked};
use formula_core::Op;
use rule_table::Law;
use search_facts::{Facts, Limits, Next, Way};
use search_steps::{Head, Id, NONE, Stop};
use search_terms::Branch;

/// With the fuel that it takes to show that a set is a function.
const LONG: Way = Way::Aside(
    900,
    Limits {
        splits: 5,
        rounds: 3,
    },
);

/// With the fuel that it takes to find a value.
const SHORT: Way = Way::Aside(
    300,
    Limits {
        splits: 2,
        rounds: 2,
    },
);

/// Of `g(E)` with g made by operators: `g ∈ A ⇸ B` of the whole sets of its types, then `∃y·E ↦ y ∈ g`.
pub(crate) fn made_function(
    facts: &mut Facts,
    b: &mut Branch,
    application: Id,
) -> Result<Next, Stop> {
    let (function, argument) = facts.search.bank.two(application);
    if facts.search.bank.is_free(function) || facts.search.bank.is(function, Op::Apply) {
        return Ok(STILL);
    }
    let is_function = is_function(facts, function)?;
    if is_function == NONE {
        return Ok(STILL);
    }
    if !b.has(is_function) {
        return asked(facts, b, is_function, LONG);
    }
    let has_value = has_value(facts, function, argument)?;
    if has_value == NONE || b.has(has_value) {
        return Ok(STILL);
    }
    asked(facts, b, has_value, SHORT)
}

fn asked(facts: &mut Facts, b: &mut Branch, f: Id, way: Way) -> Result<Next, Stop> {
    if b.note(f).done {
        return Ok(STILL);
    }
    note_asked(b, f)?;
    lemma(facts, f, way)
}

/// `g ∈ A ⇸ B` of the whole sets, or `NONE`.
fn is_function(facts: &mut Facts, function: Id) -> Result<Id, Stop> {
    let ty = facts.search.bank.ty(function);
    let pair = facts.search.bank.members(ty);
    let Some((from, to)) = facts.search.bank.components(pair) else {
        return Ok(NONE);
    };
    let from = facts.search.bank.whole(from, 64)?;
    let to = facts.search.bank.whole(to, 64)?;
    let ty = facts.search.bank.power(ty)?;
    let set = facts
        .search
        .bank
        .add(Head::Node(Op::PartialFunctions), &[from, to], &[], ty)?;
    facts.search.bank.member(function, set)
}

/// `∃y·E ↦ y ∈ g`, or `NONE`.
fn has_value(facts: &mut Facts, function: Id, argument: Id) -> Result<Id, Stop> {
    let ty = facts.search.bank.ty(argument);
    let ty = facts.search.bank.power(ty)?;
    let domain = facts
        .search
        .bank
        .add(Head::Node(Op::Domain), &[function], &[], ty)?;
    let within = facts.search.bank.member(argument, domain)?;
    facts.search.by_law(Law::MemberOfDomain, within)
}
