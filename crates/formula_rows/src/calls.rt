//! Substitution, instantiation, binding, shifting and the free identifiers of formulas. In the text of a row, `[n]` is the index n.
ghost use Rattle.std.specs.Prelude.{◌≡◌, ◌++◌, ◌∷◌, [], IfSome, OnSome};
ghost use Rattle.formula_core.specs.declared.ty.Ty.TheVariants as Ty;
ghost use Rattle.formula_core.specs.declared.op.Op.TheVariants as Op;
ghost use Rattle.formula_core.specs.declared.formula.Formula.TheVariants as Formula;

use crate::formulas::{Recipe, Step, add_name, make};
use crate::row::row;
use formula_core::{Binder, Formula, List, Name, Op, Ty};
use std::alloc::Global;
use std::io;

/// What is done to a formula.
#[derive(Clone, Copy)]
enum Call {
    InstantiateAny,
    Instantiate,
    /// x and y change places.
    SubstituteAny,
    Substitute,
    /// a is bound.
    BindFree,
    /// One identifier more is bound outside.
    Shift,
}

/// A call on the first formula of a recipe. It makes the second, and takes the others as terms.
struct CallRow {
    what: &'static str,
    of: &'static str,
    call: Call,
    recipe: Recipe,
    answer: &'static str,
}

const A: (u32, Step) = (1, Step::Free("a"));

const X: (u32, Step) = (1, Step::Free("x"));

const Y: (u32, Step) = (1, Step::Free("y"));

const Z: (u32, Step) = (1, Step::Free("z"));

const THREE: (u32, Step) = (1, Step::Int(3));

const FOUR: (u32, Step) = (1, Step::Int(4));

/// The index 0.
const FIRST: (u32, Step) = (1, Step::Bound(0));

const SECOND: (u32, Step) = (1, Step::Bound(1));

const THIRD: (u32, Step) = (1, Step::Bound(2));

/// The greatest index.
const LAST: (u32, Step) = (1, Step::Bound(u32::MAX));

const EQUAL: (u32, Step) = (1, Step::Predicate(Op::Equal, 2));

const EXISTS: (u32, Step) = (1, Step::Bind(Binder::Exists, 1));

const CALLS: [CallRow; 7] = [
    CallRow {
        what: "substitute_any, y for x and x for y",
        of: "x = y",
        call: Call::SubstituteAny,
        recipe: &[X, Y, EQUAL, Y, X, EQUAL],
        answer: "y = x",
    },
    CallRow {
        what: "substitute, y for x and x for y",
        of: "x = y",
        call: Call::Substitute,
        recipe: &[X, Y, EQUAL, Y, X, EQUAL],
        answer: "y = x",
    },
    CallRow {
        what: "instantiate_any, the terms 3 and 4",
        of: "[0] = [1]",
        call: Call::InstantiateAny,
        recipe: &[FIRST, SECOND, EQUAL, FOUR, THREE, EQUAL, THREE, FOUR],
        answer: "4 = 3",
    },
    CallRow {
        what: "instantiate, the term 3",
        of: "∃z·z = x",
        call: Call::Instantiate,
        recipe: &[FIRST, X, EQUAL, EXISTS, THREE, X, EQUAL, THREE],
        answer: "3 = x",
    },
    CallRow {
        what: "bind_free, a",
        of: "∃y·a = y",
        call: Call::BindFree,
        recipe: &[A, FIRST, EQUAL, EXISTS, SECOND, FIRST, EQUAL, EXISTS],
        answer: "∃y·[1] = y",
    },
    CallRow {
        what: "shift by 1",
        of: "∃y·[1] = y",
        call: Call::Shift,
        recipe: &[SECOND, FIRST, EQUAL, EXISTS, THIRD, FIRST, EQUAL, EXISTS],
        answer: "∃y·[2] = y",
    },
    CallRow {
        what: "shift by 1",
        of: "[4294967295]",
        call: Call::Shift,
        recipe: &[LAST, LAST],
        answer: "[4294967295]",
    },
];

fn add_pair(alloc: Global, name: &str, term: &str, pairs: &mut Vec<(Name, Formula)>) -> Option<()>
    ensures { OnSome result (pairs.new.items ≡ pairs.old.items ++ (name.now, Formula.Free term.now Ty.Int) ∷ []) }
{
    let name = Name::read(alloc, name).ok()?;
    let term = Name::read(alloc, term).ok()?;
    pairs.push((name, Formula::Free(term, Ty::Int))).ok()
}

/// Two integers change places.
pub fn swap(alloc: Global, first: &str, second: &str) -> Option<Vec<(Name, Formula)>>
    ensures { IfSome result (λ pairs. pairs.items
        ≡ (first.now, Formula.Free second.now Ty.Int) ∷ (second.now, Formula.Free first.now Ty.Int) ∷ []) }
{
    let mut pairs = Vec::new(alloc);
    add_pair(alloc, first, second, &mut pairs)?;
    add_pair(alloc, second, first, &mut pairs)?;
    Some(pairs)
}

// `left = right` of two integers.
fn equation(alloc: Global, left: &str, right: &str) -> Option<Formula>
    ensures { IfSome result (λ f. f
        ≡ Formula.Node Op.Equal (Formula.Free left.now Ty.Int ∷ Formula.Free right.now Ty.Int ∷ []) Ty.Truth) }
{
    let mut parts = Vec::new(alloc);
    add_name(alloc, left, &mut parts)?;
    add_name(alloc, right, &mut parts)?;
    Some(Formula::Node(Op::Equal, List::of(parts), Ty::Truth))
}

fn integer_named(alloc: Global, name: &str) -> Option<Vec<(Name, Ty)>> {
    let name = Name::read(alloc, name).ok()?;
    let mut identifiers = Vec::new(alloc);
    identifiers.push((name, Ty::Int)).ok()?;
    Some(identifiers)
}

// x and y change places in `x = y`, and in no other formula.
fn substitute(alloc: Global, f: &Formula) -> Option<Formula> {
    let pairs = swap(alloc, "x", "y")?;
    let known = equation(alloc, "x", "y")?;
    if f.same(&known) {
        f.substitute(alloc, &pairs).ok()
    } else {
        None
    }
}

// Of a quantifier over one integer, with a number in its place.
fn instantiate(alloc: Global, f: &Formula, terms: &[Formula]) -> Option<Formula> {
    let Formula::Bind(_, types, _, _) = f else {
        return None;
    };
    let ([ty], [term]) = (types.items(), terms) else {
        return None;
    };
    let integer = Ty::Int;
    if term.is_well() && ty.same(term.type_of(&integer)) && f.body().is_some() {
        f.instantiate(alloc, terms).ok()
    } else {
        None
    }
}

fn changed(alloc: Global, call: Call, f: &Formula, terms: &[Formula]) -> Option<Formula> {
    match call {
        Call::InstantiateAny => f.instantiate_any(alloc, terms).ok(),
        Call::Instantiate => instantiate(alloc, f, terms),
        Call::SubstituteAny => f.substitute_any(alloc, &swap(alloc, "x", "y")?).ok(),
        Call::Substitute => substitute(alloc, f),
        Call::BindFree => f.bind_free(alloc, &integer_named(alloc, "a")?).ok(),
        Call::Shift => f.shift(alloc, 1, 0).ok(),
    }
}

// The answer of a row, if the call makes the formula of this answer.
fn answer(alloc: Global, call: &CallRow, items: &[Formula]) -> &'static str {
    let [f, wanted, terms @ ..] = items else {
        return "not made";
    };
    match changed(alloc, call.call, f, terms) {
        Some(found) if found.same(wanted) => call.answer,
        Some(_) => "another formula",
        None => "refused",
    }
}

fn call_answer(alloc: Global, call: &CallRow) -> &'static str {
    let mut made = Vec::new(alloc);
    match make(alloc, call.recipe, &mut made) {
        Some(()) => answer(alloc, call, &made),
        None => "not made",
    }
}

/// A row for each name.
pub fn print_names(rt: &impl Print, what: &str, of: &str, names: &[(Name, Ty)]) -> io::Result<()> {
    for (name, _) in names {
        row(rt, what, of, name.as_text())?;
    }
    Ok(())
}

fn print_free(rt: &impl Print, alloc: Global, of: &str, items: &[Formula]) -> io::Result<()> {
    for f in items {
        match f.free(alloc) {
            Ok(found) => print_names(rt, "free in", of, &found)?,
            Err(_) => row(rt, "free in", of, "no memory")?,
        }
    }
    Ok(())
}

/// The free identifiers of one formula, by first place.
const FREE: Recipe = &[Y, X, EQUAL, Z, Y, EQUAL, (1, Step::Predicate(Op::And, 2))];

fn print_free_made(rt: &impl Print, alloc: Global) -> io::Result<()> {
    let of = "y = x ∧ z = y";
    let mut made = Vec::new(alloc);
    match make(alloc, FREE, &mut made) {
        Some(()) => print_free(rt, alloc, of, &made),
        None => row(rt, "free in", of, "not made"),
    }
}

pub fn print_calls(rt: &impl Print, alloc: Global) -> io::Result<()> {
    for call in &CALLS {
        row(rt, call.what, call.of, call_answer(alloc, call))?;
    }
    print_free_made(rt, alloc)
}
