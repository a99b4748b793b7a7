//! `finite(S)` of a set that is listed, or within one that is finite.
use crate::lemmas::{lemma, note_asked};
use formula_core::Op;
use rule_table::Law;
use search_facts::{Facts, Limits, Next, Turn, Way};
use search_steps::{Bank, Head, Id, Kind, Link, Search, Stop};
use search_terms::Branch;

/// With the fuel that it takes to show an inclusion.
const WITHIN: Way = Way::Aside(
    200,
    Limits {
        splits: 2,
        rounds: 2,
    },
);

/// A step on a goal `finite(S)`: S is listed by an equation, or S is within a set that is finite.
pub(crate) fn goal_finite(
    facts: &mut Facts,
    b: &mut Branch,
    chain: &mut Vec<Link>,
    goal: Id,
) -> Result<Option<Next>, Stop> {
    let set = facts.search.bank.part(goal, 0);
    if let Some(equation) = listing(facts, b, set) {
        let mut step = facts.on(Kind::EqGoal, equation)?;
        step.goal = goal;
        if facts.forward(b, chain, step)? {
            return Ok(Some(Next::Turn(Turn::Moved)));
        }
    }
    if let Some(next) = listed_around(facts, b, set)? {
        return Ok(Some(next));
    }
    if let Some(next) = finite_within(facts, b, goal, set)? {
        return Ok(Some(next));
    }
    listed_whole(facts, b, set)
}

/// The hypothesis that says which members a set has.
fn listing(facts: &Facts, b: &Branch, set: Id) -> Option<Id> {
    for h in &b.order {
        if facts.search.bank.is(*h, Op::Equal) {
            let (left, right) = facts.search.bank.two(*h);
            if left == set
                && is_listed(facts, right)
                && !facts.search.bank.contains(right, set, 64)
            {
                return Some(*h);
            }
        }
    }
    None
}

fn is_listed(facts: &Facts, set: Id) -> bool {
    match facts.search.bank.operator(set) {
        Some(op) => match op {
            Op::EmptySet | Op::SetExtension | Op::Union | Op::Interval => true,
            _ => false,
        },
        None => false,
    }
}

/// Asks that a set is finite in which the set is by a hypothesis, where its members are listed.
fn listed_around(facts: &mut Facts, b: &mut Branch, set: Id) -> Result<Option<Next>, Stop> {
    for i in 0..b.order.len() {
        let h = b.at(i);
        let (left, right) = facts.search.bank.two(h);
        if left == set && facts.search.bank.is(h, Op::Subset) && is_listed(facts, right) {
            let finite = finite_of(facts, right)?;
            if !b.has(finite) && !b.note(finite).done {
                note_asked(b, finite)?;
                return Ok(Some(lemma(facts, finite, WITHIN)?));
            }
        }
    }
    Ok(None)
}

/// By a hypothesis `finite(T)`: of `T = S ∪ (T ∖ S)` follows the goal.
fn finite_within(
    facts: &mut Facts,
    b: &mut Branch,
    goal: Id,
    set: Id,
) -> Result<Option<Next>, Stop> {
    for i in 0..b.order.len() {
        let h = b.at(i);
        facts.search.look()?;
        if facts.search.bank.is(h, Op::Finite) {
            let whole = facts.search.bank.part(h, 0);
            if whole != set && facts.search.bank.ty(whole) == facts.search.bank.ty(set) {
                let rest = facts.search.bank.like_first(Op::Difference, whole, set)?;
                let both = facts.search.bank.like_first(Op::Union, set, rest)?;
                let equation = facts.search.bank.equal(whole, both)?;
                if b.has(equation) {
                    return finished(facts, goal, h, equation, both, rest);
                }
                if !b.note(equation).done {
                    note_asked(b, equation)?;
                    return Ok(Some(lemma(facts, equation, WITHIN)?));
                }
            }
        }
    }
    Ok(None)
}

/// Asks that the whole set of a set's members is finite, where its members are listed.
fn listed_whole(facts: &mut Facts, b: &mut Branch, set: Id) -> Result<Option<Next>, Stop> {
    let members = facts.search.bank.members(facts.search.bank.ty(set));
    let whole = facts.search.bank.whole(members, 64)?;
    let finite = finite_of(facts, whole)?;
    if whole == set || b.has(finite) || b.note(finite).done || listing(facts, b, whole).is_none() {
        return Ok(None);
    }
    note_asked(b, finite)?;
    Ok(Some(lemma(facts, finite, WITHIN)?))
}

/// The proof of the goal once the equation is there.
fn finished(
    facts: &mut Facts,
    goal: Id,
    finite: Id,
    equation: Id,
    both: Id,
    rest: Id,
) -> Result<Option<Next>, Stop> {
    let of_both = finite_of(facts, both)?;
    let of_rest = finite_of(facts, rest)?;
    let pair = facts.search.bank.both(Op::And, goal, of_rest)?;
    let inner = facts.ended(Search::on_goal(Kind::Hyp, goal))?;
    let step = facts.on(Kind::AndL, pair)?;
    let inner = facts.topped(step, inner)?;
    let step = facts.search.rewriting(of_both, Law::FiniteUnion, &[])?;
    let inner = facts.topped(step, inner)?;
    let step = facts.search.on_hyps(Kind::EqHyp, &[equation, finite])?;
    match facts.topped(step, inner)? {
        Some(proof) => Ok(Some(Next::Turn(Turn::Closed(proof)))),
        None => Ok(None),
    }
}

fn finite_of(facts: &mut Facts, set: Id) -> Result<Id, Stop> {
    facts
        .search
        .bank
        .add(Head::Node(Op::Finite), &[set], &[], Bank::TRUTH)
}
