//! Saturation: each new hypothesis closes, is rewritten, or is opened by one step.
use crate::computing::computed;
use crate::set_equations::open_equation;
use formula_core::{Binder, Op};
use rule_table::Law;
use search_facts::Facts;
use search_steps::{Head, Id, Kind, Link, Stop};
use search_terms::{Branch, State, negation_law};

/// The most hypotheses that are taken in a row.
const MANY: u32 = 100000;

/// Takes new hypotheses until none waits. A proof of `⊥` or of the goal, where one closes the branch.
pub fn saturate(
    facts: &mut Facts,
    b: &mut Branch,
    chain: &mut Vec<Link>,
) -> Result<Option<u32>, Stop> {
    for _ in 0..MANY {
        let Some(h) = b.take() else {
            return Ok(None);
        };
        if b.state(h) == State::New {
            if let Some(proof) = taken(facts, b, chain, h)? {
                return Ok(Some(proof));
            }
        }
    }
    Ok(None)
}

fn taken(
    facts: &mut Facts,
    b: &mut Branch,
    chain: &mut Vec<Link>,
    h: Id,
) -> Result<Option<u32>, Stop> {
    if let Some(proof) = facts.contradiction(b, h)? {
        let whole = facts.search.by_contradiction(b.goal, proof)?;
        return Ok(Some(whole));
    }
    if facts.rewritten(b, chain, h)? || computed(facts, b, chain, h)? {
        return Ok(None);
    }
    b.set_state(h, State::Live)?;
    open(facts, b, chain, h)?;
    Ok(None)
}

/// One step that opens a hypothesis.
fn open(facts: &mut Facts, b: &mut Branch, chain: &mut Vec<Link>, h: Id) -> Result<(), Stop> {
    match facts.search.bank.term(h).head {
        Head::Bind(Binder::Exists) => open_exists(facts, b, chain, h),
        Head::Node(op) => open_node(facts, b, chain, h, op),
        _ => Ok(()),
    }
}

fn open_exists(
    facts: &mut Facts,
    b: &mut Branch,
    chain: &mut Vec<Link>,
    h: Id,
) -> Result<(), Stop> {
    b.set_state(h, State::Opened)?;
    let names = facts.names_for(h)?;
    let mut step = facts.on(Kind::ExL, h)?;
    step.names = names;
    let _ = facts.forward(b, chain, step)?;
    Ok(())
}

fn open_node(
    facts: &mut Facts,
    b: &mut Branch,
    chain: &mut Vec<Link>,
    h: Id,
    op: Op,
) -> Result<(), Stop> {
    match op {
        Op::Top => b.set_state(h, State::Opened),
        Op::And => {
            b.set_state(h, State::Opened)?;
            open_by(facts, b, chain, h, Kind::AndL)
        }
        Op::Equivalent => open_by(facts, b, chain, h, Kind::IffL),
        Op::Not => open_negation(facts, b, chain, h),
        Op::Less | Op::LessOrEqual => facts.note_bounds(b, h),
        Op::Equal => open_equation(facts, b, chain, h),
        Op::Or | Op::Implies => Ok(()),
        _ => open_atom(facts, b, chain, h),
    }
}

fn open_by(
    facts: &mut Facts,
    b: &mut Branch,
    chain: &mut Vec<Link>,
    h: Id,
    kind: Kind,
) -> Result<(), Stop> {
    let step = facts.on(kind, h)?;
    let _ = facts.forward(b, chain, step)?;
    Ok(())
}

pub(crate) fn open_by_law(
    facts: &mut Facts,
    b: &mut Branch,
    chain: &mut Vec<Link>,
    h: Id,
    law: Law,
    place: &[u32],
) -> Result<(), Stop> {
    let step = facts.search.rewriting(h, law, place)?;
    let _ = facts.forward(b, chain, step)?;
    Ok(())
}

fn open_negation(
    facts: &mut Facts,
    b: &mut Branch,
    chain: &mut Vec<Link>,
    h: Id,
) -> Result<(), Stop> {
    let f = facts.search.bank.part(h, 0);
    match facts.search.bank.term(f).head {
        Head::Bind(Binder::ForAll) => {
            b.set_state(h, State::Opened)?;
            open_by_law(facts, b, chain, h, Law::NegatedForAll, &[])
        }
        Head::Bind(Binder::Exists) => {
            b.set_state(h, State::Opened)?;
            open_by_law(facts, b, chain, h, Law::NegatedExists, &[])
        }
        Head::Node(op) => match negation_law(op) {
            Some(law) => {
                b.set_state(h, State::Opened)?;
                open_by_law(facts, b, chain, h, law, &[])
            }
            None => open_negated_atom(facts, b, chain, h, f),
        },
        _ => open_negated_atom(facts, b, chain, h, f),
    }
}

fn open_negated_atom(
    facts: &mut Facts,
    b: &mut Branch,
    chain: &mut Vec<Link>,
    h: Id,
    f: Id,
) -> Result<(), Stop> {
    if let Some(law) = facts.law_to_open(f)? {
        return open_by_law(facts, b, chain, h, law, &[0]);
    }
    if !facts.search.bank.is(f, Op::Equal) {
        return Ok(());
    }
    let (left, _) = facts.search.bank.two(f);
    if facts.reckons && facts.is_number(left) {
        return open_by_law(facts, b, chain, h, Law::EqualIntegers, &[0]);
    }
    if left == facts.search.yes || left == facts.search.no {
        return open_by_law(facts, b, chain, h, Law::EqualTurned, &[0]);
    }
    Ok(())
}

fn open_atom(facts: &mut Facts, b: &mut Branch, chain: &mut Vec<Link>, h: Id) -> Result<(), Stop> {
    if let Some(law) = facts.law_to_open(h)? {
        if tells_nothing(facts, h, law)? {
            return b.set_state(h, State::Opened);
        }
        if law != Law::MemberOfRelations || !is_between_wholes(facts, h)? {
            open_by_law(facts, b, chain, h, law, &[])?;
        }
    }
    if facts.search.bank.is(h, Op::Member) && facts.unfolds {
        values_of(facts, b, chain, h)?;
    }
    Ok(())
}

/// Whether it is `E ∈ T` or `S ⊆ T` with T whole, by the law that opens it.
fn tells_nothing(facts: &mut Facts, h: Id, law: Law) -> Result<bool, Stop> {
    let set = facts.search.bank.part(h, 1);
    match law {
        Law::MemberOfWhole => Ok(true),
        Law::Inclusion => facts.is_whole(set),
        _ => Ok(false),
    }
}

/// Whether it is `r ∈ S ↔ T`, of whole sets.
fn is_between_wholes(facts: &mut Facts, h: Id) -> Result<bool, Stop> {
    let set = facts.search.bank.part(h, 1);
    let (from, to) = facts.search.bank.two(set);
    Ok(facts.is_whole(from)? && facts.is_whole(to)?)
}

/// Of `E ↦ F ∈ f` with f a function: `f(E) = F`.
fn values_of(facts: &mut Facts, b: &mut Branch, chain: &mut Vec<Link>, h: Id) -> Result<(), Stop> {
    let (element, set) = facts.search.bank.two(h);
    if facts.search.bank.is(element, Op::Maplet) {
        if let Some(function) = facts.function_for(b, set) {
            let step = facts.search.on_hyps(Kind::FunEq, &[h, function])?;
            let _ = facts.forward(b, chain, step)?;
        }
    }
    if facts.is_function_set(set) {
        for i in 0..b.order.len() {
            let other = b.at(i);
            if facts.is_pair_in(other, element) {
                let step = facts.search.on_hyps(Kind::FunEq, &[other, h])?;
                let _ = facts.forward(b, chain, step)?;
            }
        }
    }
    Ok(())
}
