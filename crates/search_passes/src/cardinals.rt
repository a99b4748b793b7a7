//! What is known of `card(S)` of a finite set: that it isn't negative.
use crate::lemmas::{BRIEF, STILL, note_asked};
use formula_core::Op;
use search_facts::{Facts, Next, Plan, Way};
use search_steps::{Bank, Head, Id, Kind, Search, Stop};
use search_terms::Branch;

/// Of `card(S)` in a hypothesis, with S known to be finite: `0 ≤ card(S)`.
pub fn cardinality(facts: &mut Facts, b: &mut Branch) -> Result<Next, Stop> {
    if !facts.reckons {
        return Ok(STILL);
    }
    let mut values = Vec::new(facts.search.alloc());
    for i in 0..b.order.len() {
        let h = b.at(i);
        facts.search.look()?;
        if b.is_live(h) && facts.comparison(h)?.is_some() {
            facts.add_closed_values(h, &mut values, 40)?;
        }
    }
    for value in &values {
        if facts.search.bank.is(*value, Op::Cardinality) && is_unbounded(facts, b, *value)? {
            return at_least_zero(facts, b, *value);
        }
    }
    Ok(STILL)
}

/// Whether nothing says yet that `card(S)` isn't negative, and S is known to be finite.
fn is_unbounded(facts: &mut Facts, b: &Branch, card: Id) -> Result<bool, Stop> {
    if b.note(card).done {
        return Ok(false);
    }
    let zero = facts.search.bank.int(0)?;
    let bound = facts.search.bank.both(Op::LessOrEqual, zero, card)?;
    if facts.known_by_bounds(b, bound)? == Some(true) {
        return Ok(false);
    }
    let set = facts.search.bank.part(card, 0);
    let finite = facts
        .search
        .bank
        .add(Head::Node(Op::Finite), &[set], &[], Bank::TRUTH)?;
    Ok(facts.known(b, finite, 14)? == Some(true))
}

fn at_least_zero(facts: &mut Facts, b: &mut Branch, card: Id) -> Result<Next, Stop> {
    note_asked(b, card)?;
    let mut step = Search::of_kind(Kind::CardNat);
    step.chosen = facts.search.bank.part(card, 0);
    let Some(step) = facts.search.made(step)? else {
        return Ok(STILL);
    };
    let ways = if facts.search.left_count(step) == 3 {
        [Way::ASIDE, BRIEF, Way::Here]
    } else {
        [BRIEF, Way::Here, Way::Here]
    };
    Ok(Next::Plan(Plan {
        step,
        ways,
        must: false,
    }))
}
