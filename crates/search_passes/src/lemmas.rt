//! Facts that the hypotheses give of applications, truth values and equal bounds.
use crate::compound::made_function;
use formula_core::Op;
use search_facts::{Facts, Limits, Next, Plan, Turn, Way};
use search_steps::{Bank, Id, Kind, Search, Stop};
use search_terms::Branch;

pub(crate) const STILL: Next = Next::Turn(Turn::Still);

/// With little fuel, without splits.
pub(crate) const BRIEF: Way = Way::Aside(
    150,
    Limits {
        splits: 0,
        rounds: 1,
    },
);

/// Asks for a proof of a formula, which is added then.
pub(crate) fn lemma(facts: &mut Facts, f: Id, way: Way) -> Result<Next, Stop> {
    let mut step = Search::of_kind(Kind::Cut);
    step.chosen = f;
    let Some(step) = facts.search.made(step)? else {
        return Ok(STILL);
    };
    let ways = if facts.search.left_count(step) == 3 {
        [way, way, Way::Here]
    } else {
        [way, Way::Here, Way::Here]
    };
    Ok(Next::Plan(Plan {
        step,
        ways,
        must: false,
    }))
}

/// Notes that a formula was asked for.
pub(crate) fn note_asked(b: &mut Branch, f: Id) -> Result<(), Stop> {
    let mut note = b.note(f);
    note.done = true;
    b.set(f, note)
}

/// The range of a function at an argument in its domain.
pub fn application(facts: &mut Facts, b: &mut Branch) -> Result<Next, Stop> {
    if !facts.unfolds {
        return Ok(STILL);
    }
    let mut applications = Vec::new(facts.search.alloc());
    for i in 0..b.order.len() {
        let h = b.at(i);
        facts.search.look()?;
        if b.is_live(h) {
            facts.add_closed_applications(h, &mut applications, 40)?;
        }
    }
    for application in &applications {
        let next = made_function(facts, b, *application)?;
        if let Next::Plan(_) = next {
            return Ok(next);
        }
    }
    for application in &applications {
        if !b.note(*application).done {
            let next = range_of(facts, b, *application)?;
            if let Next::Plan(_) = next {
                return Ok(next);
            }
        }
    }
    Ok(STILL)
}

fn range_of(facts: &mut Facts, b: &mut Branch, application: Id) -> Result<Next, Stop> {
    let mut note = b.note(application);
    note.done = true;
    b.set(application, note)?;
    let (function, argument) = facts.search.bank.two(application);
    let Some(hyp) = facts.function_for(b, function) else {
        return Ok(STILL);
    };
    let target = facts.search.bank.part(facts.search.bank.part(hyp, 1), 1);
    if facts.is_whole(target)? {
        return Ok(STILL);
    }
    let fact = facts.search.bank.member(application, target)?;
    let fact = facts.normal(b, fact)?;
    if facts.known(b, fact, 14)? == Some(true) {
        return Ok(STILL);
    }
    let mut step = facts.on(Kind::FunIn, hyp)?;
    step.chosen = argument;
    let Some(step) = facts.search.made(step)? else {
        return Ok(STILL);
    };
    let ways = if facts.search.left_count(step) == 3 {
        [BRIEF, BRIEF, Way::Here]
    } else {
        [BRIEF, Way::Here, Way::Here]
    };
    Ok(Next::Plan(Plan {
        step,
        ways,
        must: false,
    }))
}

/// `¬(E = TRUE)` gives `E = FALSE`, and the other way round.
pub fn truth_value(facts: &mut Facts, b: &mut Branch) -> Result<Next, Stop> {
    for i in 0..b.order.len() {
        let h = b.at(i);
        let f = facts.search.bank.part(h, 0);
        if b.is_live(h)
            && facts.search.bank.is(h, Op::Not)
            && facts.search.bank.is(f, Op::Equal)
            && facts.search.bank.ty(facts.search.bank.part(f, 0)) == Bank::BOOL
            && !b.note(h).done
        {
            return other_value(facts, b, h, f);
        }
    }
    Ok(STILL)
}

fn other_value(facts: &mut Facts, b: &mut Branch, h: Id, f: Id) -> Result<Next, Stop> {
    let mut note = b.note(h);
    note.done = true;
    b.set(h, note)?;
    let (left, right) = facts.search.bank.two(f);
    if right != facts.search.yes && right != facts.search.no {
        return Ok(Next::Turn(Turn::Moved));
    }
    let step = facts.search.on_hyps(Kind::Contr, &[f, h])?;
    let Some(refuted) = facts.ended(step)? else {
        return Ok(STILL);
    };
    let mut step = Search::of_kind(Kind::BoolCases);
    step.chosen = left;
    let Some(step) = facts.search.made(step)? else {
        return Ok(STILL);
    };
    let done = Way::Done(refuted);
    let (first, second) = if right == facts.search.yes {
        (done, Way::Here)
    } else {
        (Way::Here, done)
    };
    let ways = if facts.search.left_count(step) == 3 {
        [Way::ASIDE, first, second]
    } else {
        [first, second, second]
    };
    Ok(Next::Plan(Plan {
        step,
        ways,
        must: false,
    }))
}
