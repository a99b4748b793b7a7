//! Disjunctions and implications: used where one alternative is open, split where two are.
use formula_core::Op;
use search_facts::{Facts, Limits, Next, Plan, Turn, Way};
use search_steps::{Id, Kind, Step, Stop};
use search_terms::Branch;

/// What is known of the two alternatives of a clause.
#[derive(Clone, Copy)]
struct Clause {
    first: Option<bool>,
    second: Option<bool>,
}

impl Clause {
    fn holds(self) -> bool {
        self.first == Some(true) || self.second == Some(true)
    }

    fn is_open_twice(self) -> bool {
        self.first.is_none() && self.second.is_none()
    }
}

/// Proved with little fuel, without splits.
const SMALL: Way = Way::Aside(
    200,
    Limits {
        splits: 0,
        rounds: 0,
    },
);

fn is_clause(facts: &Facts, f: Id) -> bool {
    facts.search.bank.is(f, Op::Or) || facts.search.bank.is(f, Op::Implies)
}

fn clause_of(facts: &mut Facts, b: &Branch, f: Id) -> Result<Clause, Stop> {
    let (left, right) = facts.search.bank.two(f);
    let left = facts.normal(b, left)?;
    let right = facts.normal(b, right)?;
    let mut first = facts.known(b, left, 14)?;
    if facts.search.bank.is(f, Op::Implies) {
        first = match first {
            Some(known) => Some(!known),
            None => None,
        };
    }
    let second = facts.known(b, right, 14)?;
    Ok(Clause { first, second })
}

/// A clause with at most one open alternative.
pub fn propagate(facts: &mut Facts, b: &mut Branch) -> Result<Next, Stop> {
    for i in 0..b.order.len() {
        let f = b.at(i);
        let note = b.note(f);
        if b.is_live(f) && is_clause(facts, f) && !note.used && !note.hard {
            let clause = clause_of(facts, b, f)?;
            if !clause.holds() && !clause.is_open_twice() {
                let mut note = b.note(f);
                note.hard = true;
                b.set(f, note)?;
                return used_clause(facts, b, f, clause);
            }
        }
    }
    Ok(Next::Turn(Turn::Still))
}

fn used_clause(facts: &mut Facts, b: &mut Branch, f: Id, clause: Clause) -> Result<Next, Stop> {
    let is_implication = facts.search.bank.is(f, Op::Implies);
    let left = facts.search.bank.part(f, 0);
    if is_implication && clause.first == Some(false) && b.has(left) {
        let step = facts.on(Kind::Mp, f)?;
        return planned(facts, step, [Way::Here, Way::Here, Way::Here], false);
    }
    let kind = if is_implication {
        Kind::ImpL
    } else {
        Kind::OrL
    };
    let step = facts.on(kind, f)?;
    if clause.first == Some(false) {
        return planned(facts, step, [SMALL, Way::Here, Way::Here], false);
    }
    if is_implication && b.goal != facts.search.bottom {
        return Ok(Next::Turn(Turn::Moved));
    }
    planned(facts, step, [Way::Here, SMALL, SMALL], false)
}

fn planned(facts: &mut Facts, step: Step, ways: [Way; 3], must: bool) -> Result<Next, Stop> {
    match facts.search.made(step)? {
        Some(step) => Ok(Next::Plan(Plan { step, ways, must })),
        None => Ok(Next::Turn(Turn::Moved)),
    }
}

/// The nearest clause that is open.
pub fn nearest_clause(facts: &mut Facts, b: &Branch, most: u32) -> Result<Option<Id>, Stop> {
    let mut best: Option<(u32, Id)> = None;
    for i in 0..b.order.len() {
        let f = b.at(i);
        if b.is_live(f) && is_clause(facts, f) && !b.note(f).used {
            let distance = facts.distance(f);
            let is_nearer = match best {
                Some(found) => distance < found.0,
                None => distance <= most,
            };
            if is_nearer && !clause_of(facts, b, f)?.holds() {
                best = Some((distance, f));
            }
        }
    }
    Ok(match best {
        Some(found) => Some(found.1),
        None => None,
    })
}

/// The split of a clause.
pub fn split(facts: &mut Facts, b: &mut Branch, f: Id, limits: Limits) -> Result<Next, Stop> {
    let mut note = b.note(f);
    note.used = true;
    b.set(f, note)?;
    let kind = if facts.search.bank.is(f, Op::Implies) {
        Kind::ImpL
    } else {
        Kind::OrL
    };
    let step = facts.on(kind, f)?;
    let way = Way::Apart(Limits {
        splits: limits.splits.saturating_sub(1),
        rounds: limits.rounds,
    });
    planned(facts, step, [way, way, way], true)
}
