//! Formulas that are put together, as large as no text may be.
//!
//! Words that are blanks apart are done from left to right, with a stack: `x0` puts a name, `..N` the names x0, x1, .. so many,
//! `1` the number, `_` what the next quantifier binds, and a sign takes its operands from the stack and puts what it makes of
//! them; `{}N` makes a set of so many. Behind a comma, `N of ..` does the words so often.

use crate::reading::{name_of, put, sets_of, type_of};
use formula_core::{Binder, Env, Formula, List, Name, Op, Raw, RawOp, Ty};
use std::alloc::Global;

// A sign, its operator, how many operands it has, and whether it makes a predicate, else an integer.
const SIGNS: [(&str, Op, usize, bool); 8] = [
    ("=", Op::Equal, 2, true),
    ("∈", Op::Member, 2, true),
    ("∧", Op::And, 2, true),
    ("¬", Op::Not, 1, true),
    ("⊤", Op::Top, 0, true),
    ("÷", Op::Divide, 2, false),
    ("−", Op::Negate, 1, false),
    ("card", Op::Cardinality, 1, false),
];

// Takes so many formulas from the stack, and puts their node.
fn put_node(stack: &mut Vec<Formula>, op: Op, count: usize, ty: Ty) -> Option<()> {
    let left = stack.len().checked_sub(count)?;
    let parts = List::of(stack.split_off(left).ok()?);
    put(stack, Formula::Node(op, parts, ty)).ok()
}

// The type of the set of the last formulas, of which there are so many.
fn set_type(alloc: Global, stack: &[Formula], count: usize) -> Option<Ty> {
    let first = stack.get(stack.len().checked_sub(count)?)?;
    let members = first.type_of(&Ty::Int).copy(alloc).ok()?;
    sets_of(alloc, members)
}

fn put_set(alloc: Global, stack: &mut Vec<Formula>, count: usize) -> Option<()> {
    let ty = set_type(alloc, stack, count)?;
    put_node(stack, Op::SetExtension, count, ty)
}

fn put_numbered(alloc: Global, stack: &mut Vec<Formula>, count: u32) -> Option<()> {
    for number in 0..count {
        put(stack, Formula::Free(name_of(alloc, number)?, Ty::Int)).ok()?;
    }
    Some(())
}

fn put_name(alloc: Global, names: &Env, stack: &mut Vec<Formula>, word: &str) -> Option<()> {
    let name = Name::read(alloc, word).ok()?;
    let ty = type_of(alloc, names, &name)?;
    put(stack, Formula::Free(name, ty)).ok()
}

// Binds the one name that is free in the last formula.
fn put_bound(alloc: Global, stack: &mut Vec<Formula>, binder: Binder) -> Option<()> {
    let mut types = Vec::new(alloc);
    put(&mut types, Ty::Int).ok()?;
    let left = stack.len().checked_sub(1)?;
    let parts = List::of(stack.split_off(left).ok()?);
    put(
        stack,
        Formula::Bind(binder, List::of(types), parts, Ty::Truth),
    )
    .ok()
}

fn put_sign(stack: &mut Vec<Formula>, op: Op, count: usize, is_truth: bool) -> Option<()> {
    put_node(stack, op, count, if is_truth { Ty::Truth } else { Ty::Int })
}

fn put_word(alloc: Global, names: &Env, stack: &mut Vec<Formula>, word: &str) -> Option<()> {
    for (sign, op, count, is_truth) in SIGNS {
        if word == sign {
            return put_sign(stack, op, count, is_truth);
        }
    }
    if let Some(count) = word.strip_prefix("..") {
        return put_numbered(alloc, stack, count.parse::<u32>().ok()?);
    }
    if let Some(count) = word.strip_prefix("{}") {
        return put_set(alloc, stack, count.parse::<usize>().ok()?);
    }
    match word {
        "1" => put(stack, Formula::Int(1)).ok(),
        "_" => put(stack, Formula::Bound(0, Ty::Int)).ok(),
        "∀" => put_bound(alloc, stack, Binder::ForAll),
        "∃" => put_bound(alloc, stack, Binder::Exists),
        _ => put_name(alloc, names, stack, word),
    }
}

fn put_words(alloc: Global, names: &Env, stack: &mut Vec<Formula>, words: &str) -> Option<()> {
    for word in words.split(' ') {
        put_word(alloc, names, stack, word)?;
    }
    Some(())
}

fn put_part(alloc: Global, names: &Env, stack: &mut Vec<Formula>, part: &str) -> Option<()> {
    let (times, words) = part.split_once(" of ").unwrap_or(("1", part));
    for _ in 0..times.parse::<u32>().ok()? {
        put_words(alloc, names, stack, words)?;
    }
    Some(())
}

/// The formula that is put together by these words.
pub fn built(alloc: Global, names: &Env, text: &str) -> Option<Formula> {
    let mut stack = Vec::new(alloc);
    for part in text.split(", ") {
        put_part(alloc, names, &mut stack, part)?;
    }
    stack.pop()
}

/// A formula without binders, as it is written.
#[cycle(raw)]
pub fn raw_of(alloc: Global, formula: &Formula) -> Option<Raw> {
    match formula {
        Formula::Int(number) => Some(Raw::Int(*number, 0)),
        Formula::Free(name, _) => Some(Raw::Name(name.copy(alloc).ok()?, 0)),
        Formula::Node(op, parts, _) => {
            let parts = raws_of(alloc, parts.items())?;
            Some(Raw::Node(RawOp::Plain(*op), parts, 0))
        }
        _ => None,
    }
}

#[cycle(raw)]
fn raws_of(alloc: Global, parts: &[Formula]) -> Option<List<Raw>> {
    let mut raws = Vec::new(alloc);
    for part in parts {
        put(&mut raws, raw_of(alloc, part)?).ok()?;
    }
    Some(List::of(raws))
}
