//! What says of the values of a product type that they are pairs, used for those that aren't written as pairs.
use crate::instances::instance_at;
use formula_core::{Binder, Op};
use search_facts::{Facts, Next, Turn, is_in};
use search_steps::{Bank, Head, Id, Stop};
use search_terms::Branch;

/// How many formulas below one another are looked into.
const LEVELS: u32 = 40;

/// The most values of one type.
const MOST: usize = 60;

/// Whether it is `∀x·P ⇒ (∃..·.. x = E ↦ F ..)`, over one identifier, with any number of conditions.
pub fn tells_pairs(bank: &Bank, f: Id) -> bool {
    let types = bank.term(f).types;
    if !bank.binds(f, Binder::ForAll)
        || types.count != 1
        || bank.components(bank.at(types, 0)).is_none()
    {
        return false;
    }
    let mut body = bank.part(f, 0);
    for _ in 0..LEVELS {
        if bank.is(body, Op::Implies) {
            body = bank.part(body, 1);
        }
    }
    let inner = bank.term(body).types.count;
    bank.binds(body, Binder::Exists) && has_pair(bank, bank.part(body, 0), inner, LEVELS)
}

/// Whether a conjunction has a part that says of an identifier that it is a pair.
fn has_pair(bank: &Bank, f: Id, at: u32, levels: u32) -> bool {
    let (left, right) = bank.two(f);
    if levels == 0 {
        return false;
    }
    if bank.is(f, Op::And) {
        return has_pair(bank, left, at, levels - 1) || has_pair(bank, right, at, levels - 1);
    }
    bank.is(f, Op::Equal)
        && (is_index(bank, left, at) && bank.is(right, Op::Maplet)
            || is_index(bank, right, at) && bank.is(left, Op::Maplet))
}

fn is_index(bank: &Bank, id: Id, at: u32) -> bool {
    bank.term(id).head == Head::Bound(at)
}

/// One step that makes a pair of a name, or of the value of a function.
pub fn pair_of_value(facts: &mut Facts, b: &mut Branch) -> Result<Next, Stop> {
    for i in 0..b.order.len() {
        let f = b.at(i);
        if b.is_live(f) && tells_pairs(&facts.search.bank, f) {
            let next = pair_by(facts, b, f)?;
            if let Next::Plan(_) = next {
                return Ok(next);
            }
        }
    }
    Ok(Next::Turn(Turn::Still))
}

fn pair_by(facts: &mut Facts, b: &mut Branch, f: Id) -> Result<Next, Stop> {
    let ty = facts.search.bank.at(facts.search.bank.term(f).types, 0);
    let mut values = Vec::new(facts.search.alloc());
    add_names(facts, b.goal, ty, &mut values, LEVELS)?;
    for i in 0..b.order.len() {
        let h = b.at(i);
        if b.is_live(h) {
            add_names(facts, h, ty, &mut values, LEVELS)?;
            add_sides(facts, h, ty, &mut values)?;
        }
    }
    for value in &values {
        let put = facts.put(f, &[*value])?;
        if !b.note(put).done && is_told(facts, b, put)? {
            let next = instance_at(facts, b, f, &[*value])?;
            if let Next::Plan(_) = next {
                return Ok(next);
            }
        }
    }
    Ok(Next::Turn(Turn::Still))
}

/// Whether the conditions are known to hold.
fn is_told(facts: &mut Facts, b: &Branch, put: Id) -> Result<bool, Stop> {
    let mut body = put;
    for _ in 0..LEVELS {
        if facts.search.bank.is(body, Op::Implies) {
            let (left, right) = facts.search.bank.two(body);
            if facts.known(b, left, 14)? != Some(true) {
                return Ok(false);
            }
            body = right;
        }
    }
    Ok(true)
}

/// Names of a type, each once.
fn add_names(facts: &Facts, f: Id, ty: Id, out: &mut Vec<Id>, levels: u32) -> Result<(), Stop> {
    let term = facts.search.bank.term(f);
    if levels == 0 || out.len() >= MOST {
        return Ok(());
    }
    if facts.search.bank.is_free(f) && term.ty == ty && !is_in(out, f) {
        out.push(f)?;
    }
    for i in 0..term.parts.count {
        add_names(
            facts,
            facts.search.bank.at(term.parts, i),
            ty,
            out,
            levels - 1,
        )?;
    }
    Ok(())
}

/// Values of functions of a type that are members of a set or sides of an equation, each once.
fn add_sides(facts: &Facts, h: Id, ty: Id, out: &mut Vec<Id>) -> Result<(), Stop> {
    let bank = &facts.search.bank;
    let f = if bank.is(h, Op::Not) {
        bank.part(h, 0)
    } else {
        h
    };
    let (left, right) = bank.two(f);
    if bank.is(f, Op::Member) || bank.is(f, Op::Equal) {
        if is_value(bank, left, ty) && !is_in(out, left) {
            out.push(left)?;
        }
    }
    if bank.is(f, Op::Equal) && is_value(bank, right, ty) && !is_in(out, right) {
        out.push(right)?;
    }
    Ok(())
}

fn is_value(bank: &Bank, id: Id, ty: Id) -> bool {
    bank.is(id, Op::Apply) && bank.is_closed(id) && bank.ty(id) == ty
}
