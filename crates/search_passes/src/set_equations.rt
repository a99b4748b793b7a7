//! Equations of sets among the hypotheses.
use crate::opening::open_by_law;
use formula_core::Op;
use rule_table::Law;
use search_facts::Facts;
use search_steps::{Id, Kind, Link, NONE, Stop};
use search_terms::{Branch, State, is_plain};

/// One step that opens an equation.
pub(crate) fn open_equation(
    facts: &mut Facts,
    b: &mut Branch,
    chain: &mut Vec<Link>,
    h: Id,
) -> Result<(), Stop> {
    let (left, right) = facts.search.bank.two(h);
    if left == right {
        return b.set_state(h, State::Opened);
    }
    let law = facts.law_to_open(h)?;
    match law {
        Some(law) if is_plain(law) => {
            b.set_state(h, State::Opened)?;
            return open_by_law(facts, b, chain, h, law, &[]);
        }
        _ => {}
    }
    if facts.is_number(left) {
        facts.note_bounds(b, h)?;
    }
    open_set_equation(facts, b, chain, h, law)?;
    facts.take_equation(b, h)
}

fn open_set_equation(
    facts: &mut Facts,
    b: &mut Branch,
    chain: &mut Vec<Link>,
    h: Id,
    law: Option<Law>,
) -> Result<(), Stop> {
    match law {
        Some(Law::EqualToEmpty) => open_by_law(facts, b, chain, h, Law::EqualToEmpty, &[]),
        Some(Law::EqualTurned) => {
            let turned = facts.search.bank.turned(h)?;
            let step = facts.search.rewriting(h, Law::EqualTurned, &[])?;
            facts.quiet(b, chain, step)?;
            open_by_law(facts, b, chain, turned, Law::EqualToEmpty, &[])
        }
        Some(Law::EqualSets) => open_equal_sets(facts, b, chain, h),
        _ => Ok(()),
    }
}

fn open_equal_sets(
    facts: &mut Facts,
    b: &mut Branch,
    chain: &mut Vec<Link>,
    h: Id,
) -> Result<(), Stop> {
    let (left, right) = facts.search.bank.two(h);
    if is_mapped(facts, left) || is_mapped(facts, right) {
        find_partners(facts, b, chain, h)?;
    }
    if let Some((side, _)) = facts.oriented(h)? {
        if facts.search.bank.is_free(side) {
            return Ok(());
        }
    }
    open_by_law(facts, b, chain, h, Law::EqualSets, &[])
}

/// Whether it is `dom(r)` or `ran(r)`.
fn is_mapped(facts: &Facts, id: Id) -> bool {
    match facts.search.bank.operator(id) {
        Some(Op::Domain) | Some(Op::Range) => true,
        _ => false,
    }
}

/// Of `dom(r) = S` or `ran(r) = S`: every member of S has a partner in r, and what has one is a member of S.
fn find_partners(
    facts: &mut Facts,
    b: &mut Branch,
    chain: &mut Vec<Link>,
    h: Id,
) -> Result<(), Stop> {
    if b.note(h).done {
        return Ok(());
    }
    let mut note = b.note(h);
    note.done = true;
    b.set(h, note)?;
    let (left, right) = facts.search.bank.two(h);
    let step = facts.search.rewriting(h, Law::EqualSets, &[])?;
    facts.quiet(b, chain, step)?;
    let forth = facts.search.bank.both(Op::Subset, left, right)?;
    let back = facts.search.bank.both(Op::Subset, right, left)?;
    let pair = facts.search.bank.both(Op::And, forth, back)?;
    let step = facts.on(Kind::AndL, pair)?;
    facts.quiet(b, chain, step)?;
    if is_mapped(facts, left) {
        partners_of(facts, b, chain, back, left, 1)?;
        if !facts.is_whole(right)? {
            partners_of(facts, b, chain, forth, left, 0)?;
        }
    }
    if is_mapped(facts, right) {
        partners_of(facts, b, chain, forth, right, 1)?;
        if !facts.is_whole(left)? {
            partners_of(facts, b, chain, back, right, 0)?;
        }
    }
    Ok(())
}

/// Of an inclusion with `dom(r)` or `ran(r)` at one side of its `∀`: the same with what that says.
fn partners_of(
    facts: &mut Facts,
    b: &mut Branch,
    chain: &mut Vec<Link>,
    inclusion: Id,
    mapped: Id,
    side: u32,
) -> Result<(), Stop> {
    let law = if facts.search.bank.is(mapped, Op::Domain) {
        Law::MemberOfDomain
    } else {
        Law::MemberOfRange
    };
    let step = facts.search.rewriting(inclusion, Law::Inclusion, &[])?;
    facts.quiet(b, chain, step)?;
    let all = facts.search.by_law(Law::Inclusion, inclusion)?;
    if all == NONE {
        return Ok(());
    }
    open_by_law(facts, b, chain, all, law, &[0, side])
}
