//! Texts as names, formulas, sequents and paths.

use crate::building::{built, raw_of};
use formula_core::{Boxed, Env, Formula, List, Name, OutOfMemory, Raw, Ty};
use math_parse::{expression, predicate};
use math_tokens::tokens;
use sequent_core::Sequent;
use std::alloc::Global;
use type_core::type_predicate;

/// Puts an item behind others.
pub fn put<T: Drop>(items: &mut Vec<T>, item: T) -> Result<(), OutOfMemory> {
    items.push(item)?;
    Ok(())
}

/// The name of a number.
pub fn name_of(alloc: Global, number: u32) -> Option<Name> {
    let text = format!(in alloc; "x{number}").ok()?;
    Name::read(alloc, text.as_str()).ok()
}

/// The type of a name: an integer, where it isn't declared.
pub fn type_of(alloc: Global, names: &Env, name: &Name) -> Option<Ty> {
    match names.get(name) {
        Some(ty) => ty.copy(alloc).ok(),
        None => Some(Ty::Int),
    }
}

fn parsed(alloc: Global, is_predicate: bool, text: &str) -> Option<Raw> {
    if text.len() > 100_000 {
        return None;
    }
    let cut = tokens(alloc, text).ok()?;
    if is_predicate {
        predicate(alloc, text, &cut).ok()
    } else {
        expression(alloc, text, &cut).ok()
    }
}

/// A predicate or an expression, without types.
pub fn written(alloc: Global, names: &Env, is_predicate: bool, text: &str) -> Option<Raw> {
    match text.strip_prefix("#") {
        Some(words) => raw_of(alloc, &built(alloc, names, words)?),
        None => parsed(alloc, is_predicate, text),
    }
}

// A predicate with its types. The wanted names in it get theirs.
fn typed(alloc: Global, env: &mut Env, wanted: &[Name], text: &str) -> Option<Formula> {
    let raw = parsed(alloc, true, text)?;
    type_predicate(alloc, env, wanted, &raw).ok()
}

/// Declares a name by a predicate on it.
pub fn declare(alloc: Global, names: &mut Env, name: &str, text: &str) -> Option<()> {
    let mut wanted = Vec::new(alloc);
    put(&mut wanted, Name::read(alloc, name).ok()?).ok()?;
    typed(alloc, names, &wanted, text)?;
    Some(())
}

/// The type of sets.
pub fn sets_of(alloc: Global, members: Ty) -> Option<Ty> {
    Some(Ty::Pow(Boxed::new(alloc, members).ok()?))
}

/// Declares a carrier set.
pub fn declare_carrier(alloc: Global, names: &mut Env, name: &str) -> Option<()> {
    let given = Ty::Given(Name::read(alloc, name).ok()?);
    let ty = sets_of(alloc, given)?;
    names.add(Name::read(alloc, name).ok()?, ty).ok()
}

fn add_numbered(alloc: Global, env: &mut Env, count: u32) -> Option<()> {
    for number in 0..count {
        env.add(name_of(alloc, number)?, Ty::Int).ok()?;
    }
    Some(())
}

fn add_known(alloc: Global, names: &Env, env: &mut Env, word: &str) -> Option<()> {
    let name = Name::read(alloc, word).ok()?;
    let ty = type_of(alloc, names, &name)?;
    env.add(name, ty).ok()
}

fn add_listed(alloc: Global, names: &Env, env: &mut Env, word: &str) -> Option<()> {
    match word.strip_prefix("..") {
        Some(count) => add_numbered(alloc, env, count.parse::<u32>().ok()?),
        None => add_known(alloc, names, env, word),
    }
}

// These names with their types.
fn env_of(alloc: Global, names: &Env, listed: &str) -> Option<Env> {
    if listed == "*" {
        return names.copy(alloc).ok();
    }
    let mut env = Env::new(alloc);
    if listed != "-" {
        for word in listed.split(' ') {
            add_listed(alloc, names, &mut env, word)?;
        }
    }
    Some(env)
}

fn formula_of(alloc: Global, names: &Env, env: &mut Env, text: &str) -> Option<Formula> {
    match text.strip_prefix("#") {
        Some(words) => built(alloc, names, words),
        None => typed(alloc, env, &[], text),
    }
}

fn formulas_of(alloc: Global, names: &Env, env: &mut Env, texts: &str) -> Option<List<Formula>> {
    let mut formulas = Vec::new(alloc);
    if texts != "-" {
        for text in texts.split(" ;; ") {
            put(&mut formulas, formula_of(alloc, names, env, text)?).ok()?;
        }
    }
    Some(List::of(formulas))
}

/// The sequent over these names, with these hypotheses and this goal.
pub fn sequent_of(
    alloc: Global,
    names: &Env,
    listed: &str,
    hyps: &str,
    goal: &str,
) -> Option<Sequent> {
    let mut env = env_of(alloc, names, listed)?;
    let hyps = formulas_of(alloc, names, &mut env, hyps)?;
    let goal = formula_of(alloc, names, &mut env, goal)?;
    Some(Sequent { env, hyps, goal })
}

/// The sequent whose parts these are.
pub fn sequent_in(alloc: Global, names: &Env, parts: &str) -> Option<Sequent> {
    let (listed, parts) = parts.split_once('\t')?;
    let (hyps, goal) = parts.split_once('\t')?;
    sequent_of(alloc, names, listed, hyps, goal)
}

fn put_zeros(path: &mut Vec<u32>, steps: u32) -> Option<()> {
    for _ in 0..steps {
        put(path, 0).ok()?;
    }
    Some(())
}

fn put_numbers(path: &mut Vec<u32>, text: &str) -> Option<()> {
    for number in text.split('.') {
        put(path, number.parse::<u32>().ok()?).ok()?;
    }
    Some(())
}

fn put_path(path: &mut Vec<u32>, text: &str) -> Option<()> {
    match text.strip_prefix("0*") {
        Some(steps) => put_zeros(path, steps.parse::<u32>().ok()?),
        None => put_numbers(path, text),
    }
}

/// The numbers of a path.
pub fn path_of(alloc: Global, text: &str) -> Option<List<u32>> {
    let mut path = Vec::new(alloc);
    if text != "-" {
        put_path(&mut path, text)?;
    }
    Some(List::of(path))
}
