//! Formulas, made by steps in postfix order.
ghost use Rattle.std.specs.Prelude.{◌≡◌, ◌++◌, ◌∷◌, [], OnSome};
ghost use Rattle.formula_core.specs.declared.ty.Ty.TheVariants as Ty;
ghost use Rattle.formula_core.specs.declared.formula.Formula.TheVariants as Formula;

use formula_core::{Binder, Boxed, Formula, List, Name, Op, Ty};
use std::alloc::Global;

/// One step that makes a formula, of the last ones that were made where it has parts.
#[derive(Clone, Copy)]
pub enum Step {
    Int(i128),
    /// An integer with a name.
    Free(&'static str),
    /// An integer with an index.
    Bound(u32),
    /// A predicate over so many parts.
    Predicate(Op, u32),
    /// A set of so many integers.
    Set(u32),
    /// A predicate below a binder of so many integers.
    Bind(Binder, u32),
}

/// Steps, each of them so many times.
pub type Recipe = &'static [(u32, Step)];

// The last so many formulas of a list, in their order. None where there are fewer, or memory ran out.
fn taken(alloc: Global, count: u32, made: &mut Vec<Formula>) -> Option<List<Formula>> {
    let mut parts = Vec::new(alloc);
    for _ in 0..count {
        parts.push(made.pop()?).ok()?;
    }
    parts.reverse();
    Some(List::of(parts))
}

fn integers(alloc: Global, count: u32) -> Option<List<Ty>> {
    let mut types = Vec::new(alloc);
    for _ in 0..count {
        types.push(Ty::Int).ok()?;
    }
    Some(List::of(types))
}

/// Adds an integer with a name.
pub fn add_name(alloc: Global, name: &str, made: &mut Vec<Formula>) -> Option<()>
    ensures { OnSome result (made.new.items ≡ made.old.items ++ Formula.Free name.now Ty.Int ∷ []) }
{
    let name = Name::read(alloc, name).ok()?;
    made.push(Formula::Free(name, Ty::Int)).ok()
}

fn add_predicate(alloc: Global, op: Op, count: u32, made: &mut Vec<Formula>) -> Option<()> {
    let parts = taken(alloc, count, made)?;
    made.push(Formula::Node(op, parts, Ty::Truth)).ok()
}

fn add_set(alloc: Global, count: u32, made: &mut Vec<Formula>) -> Option<()> {
    let ty = Ty::Pow(Boxed::new(alloc, Ty::Int).ok()?);
    let parts = taken(alloc, count, made)?;
    made.push(Formula::Node(Op::SetExtension, parts, ty)).ok()
}

fn add_binder(alloc: Global, binder: Binder, count: u32, made: &mut Vec<Formula>) -> Option<()> {
    let types = integers(alloc, count)?;
    let parts = taken(alloc, 1, made)?;
    made.push(Formula::Bind(binder, types, parts, Ty::Truth))
        .ok()
}

pub fn add(alloc: Global, step: Step, made: &mut Vec<Formula>) -> Option<()> {
    match step {
        Step::Int(n) => made.push(Formula::Int(n)).ok(),
        Step::Free(name) => add_name(alloc, name, made),
        Step::Bound(at) => made.push(Formula::Bound(at, Ty::Int)).ok(),
        Step::Predicate(op, count) => add_predicate(alloc, op, count, made),
        Step::Set(count) => add_set(alloc, count, made),
        Step::Bind(binder, count) => add_binder(alloc, binder, count, made),
    }
}

pub fn repeat(alloc: Global, times: u32, step: Step, made: &mut Vec<Formula>) -> Option<()> {
    for _ in 0..times {
        add(alloc, step, made)?;
    }
    Some(())
}

/// Adds what a recipe makes.
pub fn make(alloc: Global, recipe: &[(u32, Step)], made: &mut Vec<Formula>) -> Option<()> {
    for (times, step) in recipe {
        repeat(alloc, *times, *step, made)?;
    }
    Some(())
}
