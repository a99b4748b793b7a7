//! `m ÷ n`, `m mod n` and `m ^ n` of numerals, computed where they stand.
use formula_core::Op;
use rule_table::Law;
use search_facts::Facts;
use search_steps::{Id, Link, Span, Stop};
use search_terms::{Branch, State};

/// How many formulas below one another are looked into.
const LEVELS: u32 = 40;

/// Computes a part of the goal. Whether there is one.
pub(crate) fn goal_computed(
    facts: &mut Facts,
    b: &mut Branch,
    chain: &mut Vec<Link>,
    goal: Id,
) -> Result<bool, Stop> {
    let Some(place) = place_to_compute(facts, goal)? else {
        return Ok(false);
    };
    let step = facts.search.rewriting_goal(goal, Law::Computed, &place)?;
    facts.forward(b, chain, step)
}

/// Computes a part of a hypothesis, which goes. Whether there is one.
pub(crate) fn computed(
    facts: &mut Facts,
    b: &mut Branch,
    chain: &mut Vec<Link>,
    h: Id,
) -> Result<bool, Stop> {
    let Some(place) = place_to_compute(facts, h)? else {
        return Ok(false);
    };
    let step = facts.search.rewriting(h, Law::Computed, &place)?;
    let Some(number) = facts.search.made(step)? else {
        return Ok(false);
    };
    b.set_state(h, State::Opened)?;
    let _ = facts.advance(b, chain, number, Span::EMPTY)?;
    Ok(true)
}

/// Where the first part stands that is computed next.
fn place_to_compute(facts: &Facts, f: Id) -> Result<Option<Vec<u32>>, Stop> {
    let mut back: Vec<u32> = Vec::new(facts.search.alloc());
    if !facts.reckons || !find_numerals(facts, f, false, &mut back, LEVELS)? {
        return Ok(None);
    }
    let mut place = Vec::new(facts.search.alloc());
    for i in 0..back.len() {
        place.push(back[back.len() - 1 - i])?;
    }
    Ok(Some(place))
}

/// Finds the innermost such part; sums and products count where they are operands of one. The place is built from its end.
fn find_numerals(
    facts: &Facts,
    f: Id,
    is_operand: bool,
    place: &mut Vec<u32>,
    levels: u32,
) -> Result<bool, Stop> {
    let term = facts.search.bank.term(f);
    if levels == 0 {
        return Ok(false);
    }
    let is_computed = is_computed(facts, f, is_operand);
    for i in 0..term.parts.count {
        let part = facts.search.bank.at(term.parts, i);
        if find_numerals(facts, part, is_computed, place, levels - 1)? {
            place.push(i)?;
            return Ok(true);
        }
    }
    Ok(is_computed && is_of_numerals(facts, f))
}

/// Whether an operator isn't part of linear arithmetic, or stands below such a one.
fn is_computed(facts: &Facts, f: Id, is_operand: bool) -> bool {
    match facts.search.bank.operator(f) {
        Some(op) => match op {
            Op::Divide | Op::Modulo | Op::Power => true,
            Op::Plus | Op::Minus | Op::Times => is_operand,
            _ => false,
        },
        None => false,
    }
}

fn is_of_numerals(facts: &Facts, f: Id) -> bool {
    let (left, right) = facts.search.bank.two(f);
    facts.search.bank.value(left).is_some() && facts.search.bank.value(right).is_some()
}
