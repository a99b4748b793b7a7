//! Integers that are equal: by bounds from either side, and sums at which functions are applied.
use crate::lemmas::{BRIEF, STILL, lemma, note_asked};
use formula_core::Op;
use search_facts::{Facts, Limits, Next, Way, is_in};
use search_steps::{Id, NONE, Stop};
use search_terms::{Branch, Comparison, Form, form_of};

/// Of bounds of a sum from either side that are the same: the equation.
pub fn equal_bounds(facts: &mut Facts, b: &mut Branch) -> Result<Next, Stop> {
    if !facts.reckons {
        return Ok(STILL);
    }
    for i in 0..b.order.len() {
        let h = b.at(i);
        if b.is_live(h) && is_inequality(facts, h) {
            if let Some(read) = facts.comparison(h)? {
                if is_pinned(b, read) {
                    note_asked(b, read.form)?;
                    note_asked(b, read.turned)?;
                    let equation = pinned_equation(facts, b, h)?;
                    if equation != NONE {
                        return lemma(facts, equation, BRIEF);
                    }
                }
            }
        }
    }
    Ok(STILL)
}

fn is_inequality(facts: &Facts, h: Id) -> bool {
    facts.search.bank.is(h, Op::LessOrEqual) || facts.search.bank.is(h, Op::Less)
}

/// Whether the sum of a comparison has a bound from either side, and these are the same.
fn is_pinned(b: &Branch, read: Comparison) -> bool {
    let below = b.bounds.greatest(read.turned);
    read.has_atoms && below == Some(read.constant.saturating_neg()) && !b.note(read.form).done
}

/// The equation of a comparison whose sum is pinned, or `NONE` where it is known or isn't short.
fn pinned_equation(facts: &mut Facts, b: &Branch, h: Id) -> Result<Id, Stop> {
    let equation = match form_of(&facts.search.bank, h)? {
        Some((form, _)) => equation_of(facts, &form)?,
        None => NONE,
    };
    if equation == NONE {
        return Ok(NONE);
    }
    let equation = facts.normal(b, equation)?;
    let (left, right) = facts.search.bank.two(equation);
    if left == right || known_equal(facts, b, left, right)? {
        return Ok(NONE);
    }
    Ok(equation)
}

/// The equation that says that a sum of one atom, or of an atom less another, is 0.
fn equation_of(facts: &mut Facts, form: &Form) -> Result<Id, Stop> {
    match form.atoms.as_slice() {
        [one] => of_one(facts, *one, form.constant),
        [one, other] => of_two(facts, *one, *other, form.constant),
        _ => Ok(NONE),
    }
}

/// `m·a + c = 0`, solved for a.
fn of_one(facts: &mut Facts, one: (Id, i128), constant: i128) -> Result<Id, Stop> {
    let value = match one.1 {
        1 => constant.saturating_neg(),
        -1 => constant,
        _ => return Ok(NONE),
    };
    let value = facts.search.bank.numeral(value)?;
    facts.search.bank.equal(one.0, value)
}

/// `a − b + c = 0`, as an atom equal to the other, to which a number may be added.
fn of_two(
    facts: &mut Facts,
    one: (Id, i128),
    other: (Id, i128),
    constant: i128,
) -> Result<Id, Stop> {
    match (one.1, other.1) {
        (1, -1) => of_difference(facts, one.0, other.0, constant),
        (-1, 1) => of_difference(facts, other.0, one.0, constant),
        _ => Ok(NONE),
    }
}

fn of_difference(facts: &mut Facts, a: Id, b: Id, constant: i128) -> Result<Id, Stop> {
    if constant == 0 {
        return facts.search.bank.equal(a, b);
    }
    let (small, large) = if constant < 0 { (b, a) } else { (a, b) };
    let by = facts.search.bank.numeral(constant.saturating_abs())?;
    let sum = facts.search.bank.like_first(Op::Plus, small, by)?;
    facts.search.bank.equal(large, sum)
}

fn known_equal(facts: &mut Facts, b: &Branch, left: Id, right: Id) -> Result<bool, Stop> {
    let equation = facts.search.bank.equal(left, right)?;
    let turned = facts.search.bank.equal(right, left)?;
    Ok(b.has(equation) || b.has(turned))
}

/// Of a sum at which a function is applied, and a shorter one that is the same: the equation.
pub fn equal_arguments(facts: &mut Facts, b: &mut Branch) -> Result<Next, Stop> {
    if !facts.reckons {
        return Ok(STILL);
    }
    let arguments = arguments_of(facts, b)?;
    for sum in &arguments {
        if is_sum(facts, *sum) {
            let equation = simpler(facts, b, *sum, &arguments)?;
            if equation != NONE {
                note_asked(b, equation)?;
                return lemma(facts, equation, BRIEF);
            }
        }
    }
    Ok(STILL)
}

/// The integers at which functions are applied.
fn arguments_of(facts: &mut Facts, b: &Branch) -> Result<Vec<Id>, Stop> {
    let mut applications = Vec::new(facts.search.alloc());
    for i in 0..b.order.len() {
        let h = b.at(i);
        facts.search.look()?;
        if b.is_live(h) {
            facts.add_closed_applications(h, &mut applications, 40)?;
        }
    }
    let mut arguments = Vec::new(facts.search.alloc());
    for application in &applications {
        let argument = facts.search.bank.part(*application, 1);
        if facts.is_number(argument) && !is_in(&arguments, argument) {
            arguments.push(argument)?;
        }
    }
    Ok(arguments)
}

fn is_sum(facts: &Facts, id: Id) -> bool {
    match facts.search.bank.operator(id) {
        Some(Op::Plus) | Some(Op::Minus) => true,
        _ => false,
    }
}

/// The equation of a sum with a shorter one, that wasn't asked for, or `NONE`.
fn simpler(facts: &mut Facts, b: &Branch, sum: Id, others: &[Id]) -> Result<Id, Stop> {
    let zero = facts.search.bank.int(0)?;
    let is_zero = facts.search.bank.equal(sum, zero)?;
    let short = match form_of(&facts.search.bank, is_zero)? {
        Some((form, _)) => short_sum(facts, &form)?,
        None => NONE,
    };
    if short != NONE {
        return to_ask(facts, b, sum, short);
    }
    for other in others {
        if facts.search.bank.size(*other) < facts.search.bank.size(sum) {
            facts.search.look()?;
            let equation = facts.search.bank.equal(sum, *other)?;
            if is_same_sum(facts, equation)? {
                return to_ask(facts, b, sum, *other);
            }
        }
    }
    Ok(NONE)
}

/// Whether the sides of an equation are the same sum.
fn is_same_sum(facts: &mut Facts, equation: Id) -> Result<bool, Stop> {
    match facts.comparison(equation)? {
        Some(read) => Ok(!read.has_atoms && read.constant == 0),
        None => Ok(false),
    }
}

/// The atom or the number that a sum is, or `NONE`.
fn short_sum(facts: &mut Facts, form: &Form) -> Result<Id, Stop> {
    match form.atoms.as_slice() {
        [] => facts.search.bank.numeral(form.constant),
        [(atom, 1)] if form.constant == 0 => Ok(*atom),
        _ => Ok(NONE),
    }
}

fn to_ask(facts: &mut Facts, b: &Branch, left: Id, right: Id) -> Result<Id, Stop> {
    let equation = facts.search.bank.equal(left, right)?;
    if b.has(equation) || b.note(equation).done {
        return Ok(NONE);
    }
    Ok(equation)
}

/// With the fuel that it takes to try the values of an expression.
const VALUES: Way = Way::Aside(
    80,
    Limits {
        splits: 3,
        rounds: 0,
    },
);

/// An expression that has one of some numbers: the least and the greatest of these.
#[derive(Clone, Copy)]
struct Values {
    of: Id,
    least: i128,
    greatest: i128,
}

/// Of `E = m ∨ E = n` with numbers m and n: that E is at most the greater, then that it is at least the smaller.
pub fn bounds_of_values(facts: &mut Facts, b: &mut Branch) -> Result<Next, Stop> {
    if !facts.reckons {
        return Ok(STILL);
    }
    for i in 0..b.order.len() {
        let h = b.at(i);
        if b.is_live(h) && facts.search.bank.is(h, Op::Or) {
            if let Some(values) = values_in(facts, h, 16) {
                let bound = open_bound(facts, b, values)?;
                if bound != NONE {
                    note_asked(b, bound)?;
                    return lemma(facts, bound, VALUES);
                }
            }
        }
    }
    Ok(STILL)
}

/// The values of the one expression that a disjunction of equations gives.
fn values_in(facts: &Facts, f: Id, levels: u32) -> Option<Values> {
    if levels == 0 {
        return None;
    }
    let (left, right) = facts.search.bank.two(f);
    if facts.search.bank.is(f, Op::Or) {
        let first = values_in(facts, left, levels - 1)?;
        let second = values_in(facts, right, levels - 1)?;
        return joined(first, second);
    }
    if !facts.search.bank.is(f, Op::Equal) || facts.search.bank.value(left).is_some() {
        return None;
    }
    let value = facts.search.bank.value(right)?;
    Some(Values {
        of: left,
        least: value,
        greatest: value,
    })
}

fn joined(first: Values, second: Values) -> Option<Values> {
    if first.of != second.of {
        return None;
    }
    Some(Values {
        of: first.of,
        least: first.least.min(second.least),
        greatest: first.greatest.max(second.greatest),
    })
}

/// A bound of an expression that isn't known and wasn't asked for, or `NONE`.
fn open_bound(facts: &mut Facts, b: &Branch, values: Values) -> Result<Id, Stop> {
    let greatest = facts.search.bank.numeral(values.greatest)?;
    let above = facts
        .search
        .bank
        .both(Op::LessOrEqual, values.of, greatest)?;
    if is_open(facts, b, above)? {
        return Ok(above);
    }
    let least = facts.search.bank.numeral(values.least)?;
    let below = facts.search.bank.both(Op::LessOrEqual, least, values.of)?;
    if is_open(facts, b, below)? {
        return Ok(below);
    }
    Ok(NONE)
}

fn is_open(facts: &mut Facts, b: &Branch, f: Id) -> Result<bool, Stop> {
    Ok(!b.note(f).done && facts.known_by_bounds(b, f)?.is_none())
}
