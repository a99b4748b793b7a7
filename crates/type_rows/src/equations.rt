//! Equations between types, and what solves them.
ghost use Rattle.std.specs.Prelude.{◌+◌, ◌<◌, ◌^◌};

use crate::showing::write_type;
use formula_core::{BinaryRow, Letter, Name, Op, OutOfMemory, Raw, RawOp, Scheme, Ty};
use std::alloc::{AllocError, Global};
use unification::{Equation, SolveFault, Term, close, solve, type_of};

/// What is asked of the types that solve equations.
#[derive(Clone, Copy)]
pub enum Question<'a> {
    /// How many there are, of how many variables.
    Count,
    /// The type of the variable with this letter.
    TypeOf(&'a str),
    /// The type that the variable with this letter stands for as a term.
    Closed(&'a str),
    /// The type that a term stands for.
    ClosedTerm(&'a Term),
}

/// The number of the variable with a letter.
fn variable(letter: &str) -> Option<u32> {
    match letter {
        "a" => Some(0),
        "b" => Some(1),
        "c" => Some(2),
        _ => None,
    }
}

fn named_term(alloc: Global, name: &Name) -> Option<Term> {
    let text = name.as_text();
    match variable(text) {
        Some(number) => Some(Term::Var(number)),
        None if text == "Truth" => Some(Term::Truth),
        None => Some(Term::Given(name.copy(alloc).ok()?)),
    }
}

fn powerset(alloc: Global, members: Term) -> Option<Term> {
    Some(Term::Pow(Box::new(alloc, members).ok()?))
}

fn product(alloc: Global, left: Term, right: Term) -> Option<Term> {
    let left = Box::new(alloc, left).ok()?;
    Some(Term::Pair(left, Box::new(alloc, right).ok()?))
}

/// The term that is written as a set.
#[cycle(term)]
fn term(alloc: Global, raw: &Raw) -> Option<Term> {
    match raw {
        Raw::Name(name, _) => named_term(alloc, name),
        Raw::Node(RawOp::Plain(op), parts, _) => node_term(alloc, *op, parts.items()),
        _ => None,
    }
}

#[cycle(term)]
fn node_term(alloc: Global, op: Op, parts: &[Raw]) -> Option<Term> {
    match parts {
        [] if op.same(Op::Integers) => Some(Term::Int),
        [] if op.same(Op::Booleans) => Some(Term::Bool),
        [part] if op.same(Op::PowerSet) => powerset(alloc, term(alloc, part)?),
        [left, right] if op.same(Op::Product) => {
            let left = term(alloc, left)?;
            product(alloc, left, term(alloc, right)?)
        }
        _ => None,
    }
}

/// Adds the equations of a predicate.
fn add(alloc: Global, equations: &mut Vec<Equation>, raw: &Raw) -> Option<()> {
    match raw {
        Raw::Node(RawOp::Plain(op), parts, _) => match parts.items() {
            [left, right] if op.same(Op::And) => {
                add(alloc, equations, left)?;
                add(alloc, equations, right)
            }
            [left, right] if op.same(Op::Equal) => {
                equate(equations, term(alloc, left)?, term(alloc, right)?)
            }
            _ => None,
        },
        _ => None,
    }
}

fn equate(equations: &mut Vec<Equation>, left: Term, right: Term) -> Option<()> {
    equations.push(Equation { left, right }).ok()
}

fn write_found(out: &mut String, found: Option<&Ty>) -> Result<(), AllocError> {
    match found {
        Some(ty) => write_type(out, ty),
        None => out.push_str("none"),
    }
}

fn write_types(
    alloc: Global,
    out: &mut String,
    question: Question<'_>,
    types: &[Option<Ty>],
) -> Result<(), AllocError> {
    match question {
        Question::Count => write_count(out, types),
        Question::TypeOf(letter) => match variable(letter) {
            Some(number) => write_found(out, type_of(types, number)),
            None => out.push_str("no variable"),
        },
        Question::Closed(letter) => match variable(letter) {
            Some(number) => write_closed(alloc, out, types, &Term::Var(number)),
            None => out.push_str("no variable"),
        },
        Question::ClosedTerm(term) => write_closed(alloc, out, types, term),
    }
}

fn write_closed(
    alloc: Global,
    out: &mut String,
    types: &[Option<Ty>],
    term: &Term,
) -> Result<(), AllocError> {
    let closed = close(alloc, types, term);
    match &closed {
        Ok(found) => write_found(out, found.as_ref()),
        Err(_) => Err(AllocError),
    }
}

fn write_count(out: &mut String, types: &[Option<Ty>]) -> Result<(), AllocError> {
    let mut found = 0u64;
    for ty in types {
        if ty.is_some() {
            found = found.saturating_add(1);
        }
    }
    let all = types.len();
    write!(out, "{found} types of {all} variables")
}

fn write_solved(
    alloc: Global,
    out: &mut String,
    question: Question<'_>,
    equations: Vec<Equation>,
) -> Result<(), AllocError> {
    let solved = solve(alloc, equations);
    match &solved {
        Ok(types) => write_types(alloc, out, question, types),
        Err(SolveFault::NoSolution) => out.push_str("no solution"),
        Err(SolveFault::OutOfMemory) => Err(AllocError),
    }
}

/// Writes the answer to the equations of a predicate.
pub fn answer_equations(
    alloc: Global,
    out: &mut String,
    question: Question<'_>,
    raw: &Raw,
) -> Result<(), AllocError> {
    let mut equations = Vec::new(alloc);
    match add(alloc, &mut equations, raw) {
        Some(()) => write_solved(alloc, out, question, equations),
        None => out.push_str("no equations"),
    }
}

/// A pair of twice the first of four variables.
const SQUARE: Scheme = Scheme::Pair(&Scheme::Any(Letter::Alpha), &Scheme::Any(Letter::Alpha));

/// Adds that each of so many variables after the first is a product of the one before it with itself.
fn add_squares(
    alloc: Global,
    equations: &mut Vec<Equation>,
    first: u32,
    count: u32,
) -> Result<(), OutOfMemory>
    requires { first + count < 2 ^ 31 }
{
    for i in 0..count {
        let right = Term::of_scheme(alloc, &SQUARE, first + i)?;
        let left = Term::Var(first + i + 1);
        equations.push(Equation { left, right })?;
    }
    Ok(())
}

fn add_products(alloc: Global, equations: &mut Vec<Equation>, count: u32) -> Result<(), OutOfMemory>
    requires small { count < 2 ^ 16 }
{
    add_squares(alloc, equations, 0, count)?;
    say(equations, Term::Var(0), Term::Int)
}

fn say(equations: &mut Vec<Equation>, left: Term, right: Term) -> Result<(), OutOfMemory> {
    equations.push(Equation { left, right })?;
    Ok(())
}

fn add_unequal(
    alloc: Global,
    equations: &mut Vec<Equation>,
    count: u32,
    other: u32,
) -> Result<(), OutOfMemory>
    requires small { (count < 2 ^ 16) × (other < 2 ^ 16) }
{
    add_squares(alloc, equations, 0, count)?;
    add_squares(alloc, equations, other, count)?;
    say(equations, Term::Var(count), Term::Var(other + count))?;
    say(equations, Term::Var(0), Term::Int)?;
    say(equations, Term::Var(other), Term::Bool)
}

/// Writes the answer to products that double from variable to variable, the first of which is an integer.
pub fn answer_products(alloc: Global, out: &mut String, text: &str) -> Result<(), AllocError> {
    let Ok(count) = text.parse::<u16>() else {
        return out.push_str("no number");
    };
    let mut equations = Vec::new(alloc);
    match add_products(alloc, &mut equations, u32::from(count)) {
        Ok(()) => write_solved(alloc, out, Question::Count, equations),
        Err(OutOfMemory) => Err(AllocError),
    }
}

/// Writes the answer to two such rows of products whose first ones have other types, and whose last ones are to have the same.
pub fn answer_unequal(
    alloc: Global,
    out: &mut String,
    other: &str,
    text: &str,
) -> Result<(), AllocError> {
    let (Ok(other), Ok(count)) = (other.parse::<u16>(), text.parse::<u16>()) else {
        return out.push_str("no number");
    };
    let mut equations = Vec::new(alloc);
    match add_unequal(alloc, &mut equations, u32::from(count), u32::from(other)) {
        Ok(()) => write_solved(alloc, out, Question::Count, equations),
        Err(OutOfMemory) => Err(AllocError),
    }
}

/// Adds that the member, by the scheme of membership, is an integer. It answers the set.
fn add_membership(alloc: Global, equations: &mut Vec<Equation>) -> Result<Term, OutOfMemory> {
    let (member, set, _) = BinaryRow::Membership.scheme();
    add_member(alloc, equations, &member)?;
    Term::of_scheme(alloc, &set, 0)
}

fn add_member(
    alloc: Global,
    equations: &mut Vec<Equation>,
    member: &Scheme,
) -> Result<(), OutOfMemory> {
    let member = Term::of_scheme(alloc, member, 0)?;
    say(equations, member, Term::of_type(alloc, &Ty::Int)?)
}

/// Writes the type that the set of the scheme of membership stands for, where the member is an integer.
pub fn answer_membership(alloc: Global, out: &mut String) -> Result<(), AllocError> {
    let mut equations = Vec::new(alloc);
    let set = add_membership(alloc, &mut equations);
    match &set {
        Ok(set) => write_solved(alloc, out, Question::ClosedTerm(set), equations),
        Err(_) => Err(AllocError),
    }
}
