//! Overridden functions at an argument in the goal.
use formula_core::Op;
use rule_table::Law;
use search_facts::{Facts, Limits, Next, Plan, Turn, Way};
use search_steps::{Head, Id, Kind, Link, Search, Stop};
use search_terms::Branch;

/// `(f <+ {x ↦ y})(z)` in a formula: where, with which argument z and index x.
#[derive(Drop)]
pub(crate) struct Overriding {
    pub place: Vec<u32>,
    pub argument: Id,
    pub index: Id,
}

/// The argument and the index, where a formula is `(f <+ {x ↦ y})(z)`.
fn overridden(facts: &Facts, f: Id) -> Option<(Id, Id)> {
    if !facts.search.bank.is(f, Op::Apply) {
        return None;
    }
    let (function, argument) = facts.search.bank.two(f);
    if !facts.search.bank.is(function, Op::Overriding) {
        return None;
    }
    let set = facts.search.bank.part(function, 1);
    let is_one = facts.search.bank.term(set).parts.count == 1;
    let pair = facts.search.bank.part(set, 0);
    if facts.search.bank.is(set, Op::SetExtension)
        && is_one
        && facts.search.bank.is(pair, Op::Maplet)
    {
        return Some((argument, facts.search.bank.part(pair, 0)));
    }
    None
}

/// Finds the innermost such part outside binders; the place is built from its end.
fn find_overriding(
    facts: &Facts,
    f: Id,
    place: &mut Vec<u32>,
    levels: u32,
) -> Result<Option<(Id, Id)>, Stop> {
    let term = facts.search.bank.term(f);
    if levels == 0 {
        return Ok(None);
    }
    if let Head::Bind(_) = term.head {
        return Ok(None);
    }
    for i in 0..term.parts.count {
        let part = facts.search.bank.at(term.parts, i);
        if let Some(found) = find_overriding(facts, part, place, levels - 1)? {
            place.push(i)?;
            return Ok(Some(found));
        }
    }
    Ok(overridden(facts, f))
}

fn overriding_in(facts: &Facts, f: Id) -> Result<Option<Overriding>, Stop> {
    let mut back: Vec<u32> = Vec::new(facts.search.alloc());
    let Some((argument, index)) = find_overriding(facts, f, &mut back, 64)? else {
        return Ok(None);
    };
    let mut place = Vec::new(facts.search.alloc());
    for i in 0..back.len() {
        place.push(back[back.len() - 1 - i])?;
    }
    Ok(Some(Overriding {
        place,
        argument,
        index,
    }))
}

/// A step on an overridden function in the goal, if there is one that isn't given up.
pub(crate) fn goal_override(
    facts: &mut Facts,
    b: &mut Branch,
    chain: &mut Vec<Link>,
    goal: Id,
    limits: Limits,
) -> Result<Option<Next>, Stop> {
    if !facts.unfolds {
        return Ok(None);
    }
    let Some(found) = overriding_in(facts, goal)? else {
        return Ok(None);
    };
    if found.argument == found.index {
        let step = facts
            .search
            .rewriting_goal(goal, Law::OverriddenAt, &found.place)?;
        return Ok(moved(facts.forward(b, chain, step)?));
    }
    let same = facts.search.bank.equal(found.argument, found.index)?;
    let differ = facts.search.bank.not(same)?;
    if b.has(differ) {
        let mut step = facts.on(Kind::OverOther, differ)?;
        step.goal = goal;
        return Ok(moved(facts.forward(b, chain, step)?));
    }
    if b.note(goal).hard {
        return Ok(None);
    }
    turned_difference(facts, b, chain, same)?;
    if b.has(differ) {
        return Ok(moved(true));
    }
    cases_of(facts, b, goal, same, limits)
}

/// Of `¬(x = z)`: `¬(z = x)`.
fn turned_difference(
    facts: &mut Facts,
    b: &mut Branch,
    chain: &mut Vec<Link>,
    same: Id,
) -> Result<(), Stop> {
    let turned = facts.search.bank.turned(same)?;
    let other = facts.search.bank.not(turned)?;
    if b.has(other) {
        let step = facts.search.rewriting(other, Law::EqualTurned, &[0])?;
        facts.quiet(b, chain, step)?;
    }
    Ok(())
}

fn cases_of(
    facts: &mut Facts,
    b: &mut Branch,
    goal: Id,
    same: Id,
    limits: Limits,
) -> Result<Option<Next>, Stop> {
    let mut note = b.note(goal);
    note.hard = true;
    b.set(goal, note)?;
    let mut step = Search::of_kind(Kind::Cases);
    step.chosen = same;
    let Some(number) = facts.search.made(step)? else {
        return Ok(None);
    };
    let way = Way::Apart(limits);
    let ways = if facts.search.left_count(number) == 3 {
        [Way::ASIDE, way, way]
    } else {
        [way, way, way]
    };
    Ok(Some(Next::Plan(Plan {
        step: number,
        ways,
        must: false,
    })))
}

fn moved(is_new: bool) -> Option<Next> {
    if is_new {
        Some(Next::Turn(Turn::Moved))
    } else {
        None
    }
}
