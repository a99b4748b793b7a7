//! Work on large formulas, whose time is taken.

use crate::calls::swap;
use crate::formulas::{Step, add, add_name, make, repeat};
use formula_core::{Binder, Formula, Op};
use std::alloc::Global;

const ROUNDS: u32 = 20;

/// How often each binder's index stands in a formula of many binders.
const USES: u32 = 15;

/// One kind of work on a formula.
#[derive(Clone, Copy)]
pub enum Work {
    Make,
    Free,
    IsWell,
    Binders,
    Same,
    Substitute,
}

fn work_of(word: &str) -> Option<Work> {
    match word {
        "make" => Some(Work::Make),
        "free" => Some(Work::Free),
        "well" => Some(Work::IsWell),
        "binders" => Some(Work::Binders),
        "same" => Some(Work::Same),
        "substitute" => Some(Work::Substitute),
        _ => None,
    }
}

pub fn work_asked(word: &str, number: &str) -> Option<(Work, u32)> {
    Some((work_of(word)?, number.parse().ok()?))
}

// Adds {x0, x1, ..} with so many members.
fn add_names(alloc: Global, members: u32, made: &mut Vec<Formula>) -> Option<()> {
    for number in 0..members {
        let name = format!(in alloc; "x{number}").ok()?;
        add_name(alloc, name.as_str(), made)?;
    }
    add(alloc, Step::Set(members), made)
}

// Adds ∃x·∃y·.. finite({..}) with so many binders.
fn add_bound(alloc: Global, binders: u32, made: &mut Vec<Formula>) -> Option<()> {
    for at in 0..binders {
        repeat(alloc, USES, Step::Bound(at), made)?;
    }
    let members = binders.checked_mul(USES)?;
    make(
        alloc,
        &[
            (1, Step::Set(members)),
            (1, Step::Predicate(Op::Finite, 1)),
            (binders, Step::Bind(Binder::Exists, 1)),
        ],
        made,
    )
}

// Adds two formulas that the work is done on.
fn add_both(alloc: Global, work: Work, number: u32, made: &mut Vec<Formula>) -> Option<()> {
    for _ in 0..2 {
        match work {
            Work::Binders => add_bound(alloc, number, made)?,
            _ => add_names(alloc, number, made)?,
        }
    }
    Some(())
}

// x0 and x1 change places.
fn nodes_after_swap(alloc: Global, f: &Formula) -> Option<u64> {
    let pairs = swap(alloc, "x0", "x1")?;
    Some(f.substitute_any(alloc, &pairs).ok()?.node_count())
}

// How many free identifiers or nodes there are, or 1 for yes and 0 for no.
fn done(alloc: Global, work: Work, f: &Formula, g: &Formula) -> Option<u64> {
    match work {
        Work::Make => Some(1),
        Work::Free => u64::try_from(f.free(alloc).ok()?.len()).ok(),
        Work::IsWell | Work::Binders => Some(u64::from(f.is_well())),
        Work::Same => Some(u64::from(f.same(g))),
        Work::Substitute => nodes_after_swap(alloc, f),
    }
}

// The answer of the last of several rounds, so that the time is more than that of making the formulas.
fn done_on(alloc: Global, work: Work, items: &[Formula]) -> Option<u64> {
    let [f, g] = items else {
        return None;
    };
    let mut answer = None;
    for _ in 0..ROUNDS {
        answer = Some(done(alloc, work, f, g)?);
    }
    answer
}

/// What the work answers on two formulas of so many names or binders, or 0 where memory ran out.
pub fn answer(alloc: Global, work: Work, number: u32) -> u64 {
    let mut made = Vec::new(alloc);
    match add_both(alloc, work, number, &mut made) {
        Some(()) => done_on(alloc, work, &made).unwrap_or(0),
        None => 0,
    }
}
