//! Which side of an equation gives way to the other.
use crate::forms::form_of;
use crate::unfold::is_whole;
use formula_core::Op;
use term_bank::{Bank, Head, Id, Stop, TypeHead};

/// How many formulas below one another are looked into.
const LEVELS: u32 = 64;

fn is_kept(bank: &Bank, id: Id) -> bool {
    match bank.operator(id) {
        Some(op) => match op {
            Op::Apply | Op::Cardinality | Op::Domain | Op::Range => true,
            Op::Minimum | Op::Maximum => true,
            _ => false,
        },
        None => false,
    }
}

fn is_image_of_function(bank: &Bank, id: Id) -> bool {
    match bank.operator(id) {
        Some(Op::Apply) | Some(Op::Domain) | Some(Op::Range) => true,
        _ => false,
    }
}

fn is_number_atom(bank: &Bank, id: Id) -> bool {
    match bank.operator(id) {
        Some(op) => match op {
            Op::Apply | Op::Cardinality | Op::Minimum | Op::Maximum => true,
            Op::Divide | Op::Modulo | Op::Power => true,
            _ => false,
        },
        None => false,
    }
}

fn is_literal(bank: &Bank, id: Id) -> bool {
    bank.is(id, Op::TrueValue) || bank.is(id, Op::FalseValue) || bank.value(id).is_some()
}

/// Whether a name may give way to an expression.
fn may_go(bank: &Bank, name: Id, by: Id) -> bool {
    match bank.term(name).head {
        Head::Free(number) => !bank.has_name(by, number),
        _ => false,
    }
}

/// The sides of an equation as it rewrites, if it does. Names from the number `first_new` on are new.
pub fn oriented(bank: &mut Bank, equation: Id, first_new: u32) -> Result<Option<(Id, Id)>, Stop> {
    let (a, b) = bank.two(equation);
    if a == b {
        return Ok(None);
    }
    if is_whole(bank, a)? {
        return Ok(to_whole(bank, b, a));
    }
    if is_whole(bank, b)? {
        return Ok(to_whole(bank, a, b));
    }
    if bank.is_free(a) && bank.is_free(b) {
        return Ok(of_names(bank, a, b));
    }
    if let Some(found) = of_name(bank, a, b, first_new) {
        return Ok(Some(found));
    }
    if let Some(found) = of_name(bank, b, a, first_new) {
        return Ok(Some(found));
    }
    if bank.is(a, Op::Maplet) != bank.is(b, Op::Maplet) {
        return Ok(to_pair(bank, a, b));
    }
    if is_same_sum(bank, equation)? && bank.size(a) != bank.size(b) {
        return Ok(of_sizes(bank, a, b));
    }
    Ok(of_terms(bank, a, b))
}

/// What isn't written as a pair gives way to the pair.
fn to_pair(bank: &Bank, a: Id, b: Id) -> Option<(Id, Id)> {
    let (value, pair) = if bank.is(a, Op::Maplet) {
        (b, a)
    } else {
        (a, b)
    };
    if bank.contains(pair, value, LEVELS) {
        return None;
    }
    Some((value, pair))
}

/// Whether the sides of an equation are the same sum.
fn is_same_sum(bank: &Bank, equation: Id) -> Result<bool, Stop> {
    match form_of(bank, equation)? {
        Some((form, _)) => Ok(form.atoms.is_empty() && form.constant == 0),
        None => Ok(false),
    }
}

fn to_whole(bank: &Bank, side: Id, whole: Id) -> Option<(Id, Id)> {
    if bank.is_free(side) || is_image_of_function(bank, side) {
        return Some((side, whole));
    }
    None
}

fn of_names(bank: &Bank, a: Id, b: Id) -> Option<(Id, Id)> {
    if bank.name_in(a) > bank.name_in(b) {
        Some((a, b))
    } else {
        Some((b, a))
    }
}

/// Whether it is a value of a function that rather has a name: bounds and sums speak of integers as they are.
fn is_named_value(bank: &Bank, id: Id) -> bool {
    bank.is(id, Op::Apply) && bank.ty(id) != Bank::INT
}

fn of_name(bank: &Bank, a: Id, b: Id, first_new: u32) -> Option<(Id, Id)> {
    if !may_go(bank, a, b) {
        return None;
    }
    if !is_kept(bank, b) || bank.name_in(a) >= first_new && !is_named_value(bank, b) {
        return Some((a, b));
    }
    Some((b, a))
}

fn of_terms(bank: &Bank, a: Id, b: Id) -> Option<(Id, Id)> {
    if is_literal(bank, b) {
        return to_literal(bank, a, b);
    }
    if is_literal(bank, a) {
        return to_literal(bank, b, a);
    }
    match bank.type_head(bank.ty(a)) {
        TypeHead::Int => of_numbers(bank, a, b),
        TypeHead::Pow(_) => of_sets(bank, a, b),
        _ => of_sizes(bank, a, b),
    }
}

fn to_literal(bank: &Bank, side: Id, literal: Id) -> Option<(Id, Id)> {
    if is_literal(bank, side) {
        return None;
    }
    match bank.operator(side) {
        Some(op) => match op {
            Op::Plus | Op::Minus | Op::Times | Op::Negate => None,
            _ => Some((side, literal)),
        },
        None => None,
    }
}

fn of_numbers(bank: &Bank, a: Id, b: Id) -> Option<(Id, Id)> {
    let is_left = is_number_atom(bank, a) && !bank.contains(b, a, LEVELS);
    let is_right = is_number_atom(bank, b) && !bank.contains(a, b, LEVELS);
    if is_left && is_number_atom(bank, b) {
        return of_sizes(bank, a, b);
    }
    if is_left {
        return Some((a, b));
    }
    if is_right {
        return Some((b, a));
    }
    None
}

fn of_sets(bank: &Bank, a: Id, b: Id) -> Option<(Id, Id)> {
    let is_left = is_image_of_function(bank, a);
    let is_right = is_image_of_function(bank, b);
    if is_left && is_right {
        return of_sizes(bank, a, b);
    }
    if is_left && !bank.is(b, Op::EmptySet) && !bank.contains(b, a, LEVELS) {
        return Some((a, b));
    }
    if is_right && !bank.is(a, Op::EmptySet) && !bank.contains(a, b, LEVELS) {
        return Some((b, a));
    }
    None
}

fn of_sizes(bank: &Bank, a: Id, b: Id) -> Option<(Id, Id)> {
    let first = bank.size(a);
    let second = bank.size(b);
    if first > second || first == second && a > b {
        Some((a, b))
    } else {
        Some((b, a))
    }
}
