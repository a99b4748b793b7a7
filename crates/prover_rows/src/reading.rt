//! Texts as formulas.

use formula_core::{Boxed, Env, Formula, Name, Raw, Ty};
use math_parse::{expression, predicate};
use math_tokens::{Token, tokens};
use std::alloc::Global;
use type_core::{type_expression, type_predicate};

fn tokens_of(alloc: Global, text: &str) -> Option<Vec<Token>> {
    if text.len() > 100_000 {
        return None;
    }
    tokens(alloc, text).ok()
}

/// The predicate that is written.
fn read_predicate(alloc: Global, text: &str) -> Option<Raw> {
    let cut = tokens_of(alloc, text)?;
    predicate(alloc, text, &cut).ok()
}

/// The expression that is written.
fn read_expression(alloc: Global, text: &str) -> Option<Raw> {
    let cut = tokens_of(alloc, text)?;
    expression(alloc, text, &cut).ok()
}

/// The predicate that is written, typed.
pub fn typed_predicate(alloc: Global, env: &Env, text: &str) -> Option<Formula> {
    let raw = read_predicate(alloc, text)?;
    let mut env = env.copy(alloc).ok()?;
    type_predicate(alloc, &mut env, &[], &raw).ok()
}

/// The type of the members of a set that is written.
fn member_type(alloc: Global, env: &Env, text: &str) -> Option<Ty> {
    let raw = read_expression(alloc, text)?;
    let set = type_expression(alloc, env, None, &raw).ok()?;
    set.type_of(&Ty::Int).members()?.copy(alloc).ok()
}

/// The type of a carrier set with this name.
fn carrier_type(alloc: Global, name: &str) -> Option<Ty> {
    let name = Name::read(alloc, name).ok()?;
    let given = Boxed::new(alloc, Ty::Given(name)).ok()?;
    Some(Ty::Pow(given))
}

fn declared_type(alloc: Global, env: &Env, name: &str, set: &str) -> Option<Ty> {
    if set == "carrier set" {
        carrier_type(alloc, name)
    } else {
        member_type(alloc, env, set)
    }
}

/// Adds a name that is declared to be a carrier set or a member of a set.
pub fn declare(alloc: Global, env: &mut Env, name: &str, set: &str) -> Option<()> {
    let ty = declared_type(alloc, env, name, set)?;
    env.add(Name::read(alloc, name).ok()?, ty).ok()
}
