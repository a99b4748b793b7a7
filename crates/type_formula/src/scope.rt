//! Names and the variables or types that they have.
ghost use Rattle.std.specs.Prelude.{◌≡◌, ◌+◌, ◌<◌, ◌^◌, length, IfOk, IfSome, IfNone};
ghost use Rattle.type_formula.specs.Scopes.{position_of, has_name};
ghost use Rattle.type_formula.specs.PrivateGenerated.{nearest};
ghost use Rattle.type_formula.specs.PrivateViews.{scope_of, free_scope, numbered_scope, variable_at, found_of, variable_of, term_in};

use formula_core::{Env, Name, OutOfMemory};
use std::alloc::Global;
use unification::Term;

/// A bound name and the variable of its type.
#[derive(Drop)]
pub(crate) struct Entry {
    pub name: Name,
    pub variable: u32,
}

/// How many bound names are nearer, and the name's variable. The nearest stands last.
pub(crate) fn find_bound(scope: &[Entry], name: &Name) -> Option<(usize, u32)>
    ensures place { variable_at result ≡ position_of name.now (scope_of scope.now) }
    ensures within { IfSome result (λ p. p.0 < length scope.now) }
{
    match scope.split_last() {
        None => None,
        Some((entry, rest)) => {
            if entry.name.same(name) {
                Some((0, entry.variable))
            } else {
                match find_bound(rest, name) {
                    None => None,
                    Some((nearer, variable)) => Some((nearer + 1, variable)),
                }
            }
        }
    }
}

/// Whether a name is bound.
pub(crate) fn is_bound(scope: &[Entry], name: &Name) -> bool
    ensures { result ≡ has_name name.now (scope_of scope.now) }
{
    find_bound(scope, name).is_some()
}

/// The variable of a wanted name, which is its place among them.
fn find_wanted(wanted: &[Name], name: &Name) -> Option<u32>
    requires { length wanted.now < 2 ^ 32 }
    ensures { variable_of result ≡ found_of (position_of name.now (numbered_scope wanted.now 0)) }
{
    for i in 0..wanted.len() {
        if wanted[i].same(name) {
            return Some(i as u32);
        }
    }
    None
}

/// The type of a name that isn't bound.
fn find_free(
    alloc: Global,
    env: &Env,
    wanted: &[Name],
    name: &Name,
) -> Result<Option<Term>, OutOfMemory>
    requires { length wanted.now < 2 ^ 32 }
    ensures { IfOk result (λ t. term_in t ≡ found_of (position_of name.now (free_scope env.now wanted.now))) }
{
    if let Some(ty) = env.get(name) {
        return Ok(Some(Term::of_type(alloc, ty)?));
    }
    match find_wanted(wanted, name) {
        None => Ok(None),
        Some(i) => Ok(Some(Term::Var(i))),
    }
}

/// The type of a name, bound or free.
pub(crate) fn name_term(
    alloc: Global,
    env: &Env,
    wanted: &[Name],
    scope: &[Entry],
    name: &Name,
) -> Result<Option<Term>, OutOfMemory>
    requires { length wanted.now < 2 ^ 32 }
    ensures { IfOk result (λ t. term_in t ≡ found_of
        (nearest (position_of name.now (scope_of scope.now)) (position_of name.now (free_scope env.now wanted.now)))) }
{
    match find_bound(scope, name) {
        None => find_free(alloc, env, wanted, name),
        Some((_, variable)) => Ok(Some(Term::Var(variable))),
    }
}
