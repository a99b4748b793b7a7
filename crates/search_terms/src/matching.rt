//! Formulas with identifiers of a binder matched against closed ones.
use formula_core::Op;
use std::alloc::Global;
use term_bank::{Bank, Head, Id, NONE, Stop};

/// Whether a formula with bound identifiers is a closed one, with these terms and further ones that it adds. Indices
/// below `depth` fit everything.
pub fn matches(
    bank: &Bank,
    pattern: Id,
    term: Id,
    depth: u32,
    terms: &mut Vec<Id>,
    levels: u32,
) -> bool {
    let shape = bank.term(pattern);
    let other = bank.term(term);
    if shape.loose == 0 {
        return pattern == term;
    }
    if levels == 0 || shape.ty != other.ty {
        return false;
    }
    if let Head::Bound(at) = shape.head {
        return matches_index(bank, at, depth, term, terms);
    }
    if shape.head != other.head
        || shape.parts.count != other.parts.count
        || shape.types.count != 0
    {
        return false;
    }
    for i in 0..shape.parts.count {
        let part = bank.at(shape.parts, i);
        let against = bank.at(other.parts, i);
        if !matches(bank, part, against, depth, terms, levels - 1) {
            return false;
        }
    }
    true
}

/// Whether two formulas are alike at a glance: in their heads, and memberships in their sets, where these are closed.
pub fn may_match(bank: &Bank, pattern: Id, other: Id) -> bool {
    if bank.term(pattern).head != bank.term(other).head {
        return false;
    }
    if !bank.is(pattern, Op::Member) {
        return true;
    }
    let set = bank.part(pattern, 1);
    !bank.is_closed(set) || set == bank.part(other, 1)
}

fn matches_index(bank: &Bank, at: u32, depth: u32, term: Id, terms: &mut Vec<Id>) -> bool {
    if at < depth {
        return true;
    }
    if !bank.is_closed(term) {
        return true;
    }
    let from_last = (at - depth) as usize;
    if from_last >= terms.len() {
        return false;
    }
    let i = terms.len() - 1 - from_last;
    if terms[i] == NONE {
        terms[i] = term;
        return true;
    }
    terms[i] == term
}

/// Whether an identifier without a term stands in a formula.
pub fn misses(bank: &Bank, id: Id, depth: u32, terms: &[Id], levels: u32) -> bool {
    let term = bank.term(id);
    if term.loose <= depth || levels == 0 {
        return false;
    }
    if let Head::Bound(at) = term.head {
        return is_missing(at.saturating_sub(depth), terms);
    }
    let inner = depth.saturating_add(term.types.count);
    for i in 0..term.parts.count {
        if misses(bank, bank.at(term.parts, i), inner, terms, levels - 1) {
            return true;
        }
    }
    false
}

fn is_missing(from_last: u32, terms: &[Id]) -> bool {
    if (from_last as usize) < terms.len() {
        terms[terms.len() - 1 - from_last as usize] == NONE
    } else {
        false
    }
}

/// Fills an identifier by an equation with a side that has no missing one. Whether it did.
pub fn filled(bank: &mut Bank, f: Id, terms: &mut Vec<Id>) -> Result<bool, Stop> {
    if !bank.is(f, Op::Equal) {
        return Ok(false);
    }
    let (left, right) = bank.two(f);
    if filled_by(bank, left, right, terms)? {
        return Ok(true);
    }
    filled_by(bank, right, left, terms)
}

/// Fills an identifier by a bound that a comparison with a side without missing ones gives. Whether it did.
pub fn bounded(bank: &mut Bank, f: Id, terms: &mut Vec<Id>) -> Result<bool, Stop> {
    let (left, right) = bank.two(f);
    match bank.operator(f) {
        Some(Op::LessOrEqual) => {
            Ok(filled_by(bank, right, left, terms)? || filled_by(bank, left, right, terms)?)
        }
        Some(Op::Less) => {
            let one = bank.int(1)?;
            let above = bank.like_first(Op::Plus, left, one)?;
            let below = bank.like_first(Op::Minus, right, one)?;
            Ok(filled_by(bank, right, above, terms)? || filled_by(bank, left, below, terms)?)
        }
        _ => Ok(false),
    }
}

fn filled_by(bank: &mut Bank, name: Id, by: Id, terms: &mut Vec<Id>) -> Result<bool, Stop> {
    let Head::Bound(at) = bank.term(name).head else {
        return Ok(false);
    };
    if (at as usize) >= terms.len() || misses(bank, by, 0, terms, 64) {
        return Ok(false);
    }
    let i = terms.len() - 1 - at as usize;
    if terms[i] != NONE {
        return Ok(false);
    }
    let term = bank.instantiated(by, terms, 0, 4096)?;
    if i < terms.len() {
        terms[i] = term;
    }
    Ok(true)
}

/// As many places as a binder has identifiers, none filled.
pub fn unfilled(alloc: Global, count: u32) -> Result<Vec<Id>, Stop> {
    let mut terms = Vec::new(alloc);
    for _ in 0..count {
        terms.push(NONE)?;
    }
    Ok(terms)
}

/// Whether each identifier has a term.
pub fn is_full(terms: &[Id]) -> bool {
    for term in terms {
        if *term == NONE {
            return false;
        }
    }
    true
}
