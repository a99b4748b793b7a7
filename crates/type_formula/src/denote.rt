//! Type expressions and the types that they denote.
ghost use Rattle.std.specs.Prelude.{◌≡◌, ◌∷◌, [], ℕ, IfOk, Some, None};
ghost use Rattle.type_formula.specs.Bare.{Identifier};
ghost use Rattle.type_formula.specs.TypeExpressions.{is_carrier, power_of, pair_of, denoted, all_denoted, denoted_form};
ghost use Rattle.type_formula.specs.Views.{bare_of, bares_of};
ghost use Rattle.type_formula.specs.PrivateViews.{scope_of};

use crate::scope::{Entry, is_bound};
use crate::tree::{Tree, Trees};
use formula_core::{Boxed, Env, Name, Op, OutOfMemory, Ty};
use std::alloc::Global;

/// The type that a type expression denotes; None for any other formula.
#[cycle(denote)]
pub(crate) fn denote(
    alloc: Global,
    env: &Env,
    scope: &[Entry],
    tree: &Tree,
) -> Result<Option<Ty>, OutOfMemory>
    ensures { IfOk result (λ t. t ≡ denoted env.now (scope_of scope.now) (bare_of tree.now)) }
{
    match tree {
        Tree::Identifier(name, _) => denote_name(alloc, env, scope, name),
        Tree::Form(op, parts) => denote_form(alloc, env, scope, *op, parts),
        _ => Ok(None),
    }
}

fn denote_name(
    alloc: Global,
    env: &Env,
    scope: &[Entry],
    name: &Name,
) -> Result<Option<Ty>, OutOfMemory>
    ensures { (place : ℕ) → IfOk result (λ t. t ≡ denoted env.now (scope_of scope.now) (Identifier name.now place)) }
{
    if is_bound(scope, name) {
        return Ok(None);
    }
    if is_carrier(alloc, env, name)? {
        return Ok(Some(Ty::Given(name.copy(alloc)?)));
    }
    Ok(None)
}

fn is_carrier(alloc: Global, env: &Env, name: &Name) -> Result<bool, OutOfMemory>
    ensures { IfOk result (λ b. b ≡ is_carrier env.now name.now) }
{
    match env.get(name) {
        Some(ty) => {
            let set = Ty::Pow(Boxed::new(alloc, Ty::Given(name.copy(alloc)?))?);
            Ok(set.same(ty))
        }
        None => Ok(false),
    }
}

#[cycle(denote)]
fn denote_form(
    alloc: Global,
    env: &Env,
    scope: &[Entry],
    op: Op,
    parts: &Trees,
) -> Result<Option<Ty>, OutOfMemory>
    ensures { IfOk result (λ t. t ≡ denoted_form op (all_denoted env.now (scope_of scope.now) (bares_of parts.now))) }
{
    match parts {
        Trees::End => Ok(denote_nullary(op)),
        Trees::More(first, rest) => match &**rest {
            Trees::End => denote_unary(alloc, op, denote(alloc, env, scope, first)?),
            Trees::More(second, others) => match &**others {
                Trees::End => {
                    let first = denote(alloc, env, scope, first)?;
                    let second = denote(alloc, env, scope, second)?;
                    denote_binary(alloc, op, first, second)
                }
                Trees::More(_, _) => Ok(None),
            },
        },
    }
}

fn denote_nullary(op: Op) -> Option<Ty>
    ensures { result ≡ denoted_form op [] }
{
    match op {
        Op::Integers => Some(Ty::Int),
        Op::Booleans => Some(Ty::Bool),
        _ => None,
    }
}

fn denote_unary(alloc: Global, op: Op, part: Option<Ty>) -> Result<Option<Ty>, OutOfMemory>
    ensures { IfOk result (λ t. t ≡ denoted_form op (part ∷ [])) }
{
    match op {
        Op::PowerSet => power_of(alloc, part),
        _ => Ok(None),
    }
}

fn denote_binary(
    alloc: Global,
    op: Op,
    left: Option<Ty>,
    right: Option<Ty>,
) -> Result<Option<Ty>, OutOfMemory>
    ensures { IfOk result (λ t. t ≡ denoted_form op (left ∷ right ∷ [])) }
{
    match op {
        Op::Product => pair_of(alloc, left, right),
        Op::Relations => power_of(alloc, pair_of(alloc, left, right)?),
        _ => Ok(None),
    }
}

fn power_of(alloc: Global, part: Option<Ty>) -> Result<Option<Ty>, OutOfMemory>
    ensures { IfOk result (λ t. t ≡ power_of part) }
{
    match part {
        Some(part) => Ok(Some(Ty::Pow(Boxed::new(alloc, part)?))),
        None => Ok(None),
    }
}

fn pair_of(alloc: Global, left: Option<Ty>, right: Option<Ty>) -> Result<Option<Ty>, OutOfMemory>
    ensures { IfOk result (λ t. t ≡ pair_of left right) }
{
    match left {
        Some(left) => match right {
            Some(right) => {
                let left = Boxed::new(alloc, left)?;
                Ok(Some(Ty::Pair(left, Boxed::new(alloc, right)?)))
            }
            None => Ok(None),
        },
        None => Ok(None),
    }
}
