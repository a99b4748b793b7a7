//! Texts as names and formulas.

use formula_core::{Boxed, Env, Formula, Name, OutOfMemory, Raw, Ty};
use math_parse::{expression, predicate};
use math_tokens::tokens;
use std::alloc::Global;
use type_core::{type_expression, type_predicate};

/// Puts an item behind others.
pub fn put<T: Drop>(items: &mut Vec<T>, item: T) -> Result<(), OutOfMemory> {
    items.push(item)?;
    Ok(())
}

/// A predicate or an expression, without types.
pub fn written(alloc: Global, is_predicate: bool, text: &str) -> Option<Raw> {
    if text.len() > 100_000 {
        return None;
    }
    let cut = tokens(alloc, text).ok()?;
    if is_predicate {
        predicate(alloc, text, &cut).ok()
    } else {
        expression(alloc, text, &cut).ok()
    }
}

/// Declares a name by a predicate on it.
pub fn declare(alloc: Global, names: &mut Env, name: &str, text: &str) -> Option<()> {
    let mut wanted = Vec::new(alloc);
    put(&mut wanted, Name::read(alloc, name).ok()?).ok()?;
    let raw = written(alloc, true, text)?;
    type_predicate(alloc, names, &wanted, &raw).ok()?;
    Some(())
}

/// Declares a carrier set.
pub fn declare_carrier(alloc: Global, names: &mut Env, name: &str) -> Option<()> {
    let given = Ty::Given(Name::read(alloc, name).ok()?);
    let ty = Ty::Pow(Boxed::new(alloc, given).ok()?);
    names.add(Name::read(alloc, name).ok()?, ty).ok()
}

/// A predicate over the names.
pub fn predicate_of(alloc: Global, names: &Env, text: &str) -> Option<Formula> {
    let mut env = names.copy(alloc).ok()?;
    let raw = written(alloc, true, text)?;
    type_predicate(alloc, &mut env, &[], &raw).ok()
}

/// An expression over the names.
pub fn expression_of(alloc: Global, names: &Env, text: &str) -> Option<Formula> {
    let raw = written(alloc, false, text)?;
    type_expression(alloc, names, None, &raw).ok()
}
