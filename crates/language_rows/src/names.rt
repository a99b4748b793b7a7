//! The names of the environment.

use crate::kinds::Form;
use crate::typed::typed;
use formula_core::{Boxed, Env, Formula, Name, Ty};
use std::alloc::Global;

/// The type of a carrier set with this name.
fn carrier_type(alloc: Global, name: &str) -> Option<Ty> {
    let name = Name::read(alloc, name).ok()?;
    let given = Boxed::new(alloc, Ty::Given(name)).ok()?;
    Some(Ty::Pow(given))
}

fn members_of(alloc: Global, set: &Formula) -> Option<Ty> {
    set.type_of(&Ty::Int).members()?.copy(alloc).ok()
}

/// The type of the members of a set that is written.
fn member_type(alloc: Global, env: &Env, set: &str) -> Option<Ty> {
    let set = typed(alloc, env, Form::Expression, set);
    match &set {
        Ok(set) => members_of(alloc, set),
        Err(_) => None,
    }
}

fn declared_type(alloc: Global, env: &Env, name: &str, set: &str) -> Option<Ty> {
    if set == "carrier set" {
        carrier_type(alloc, name)
    } else {
        member_type(alloc, env, set)
    }
}

fn add(alloc: Global, env: &mut Env, name: &str, ty: Ty) -> bool {
    match Name::read(alloc, name) {
        Ok(name) => env.add(name, ty).is_ok(),
        Err(_) => false,
    }
}

/// Adds a name that is declared, and answers whether it could.
pub fn declare(alloc: Global, env: &mut Env, name: &str, set: &str) -> bool {
    match declared_type(alloc, env, name, set) {
        Some(ty) => add(alloc, env, name, ty),
        None => false,
    }
}
