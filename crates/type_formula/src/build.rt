//! The formula of a tree whose variables have types.
ghost use Rattle.std.specs.Prelude.{◌≡◌, ◌+◌, ◌<◌, ◌^◌, ◌++◌, ◌∷◌, [], IfOk, OnOk, IsErrOf, Some, None};
ghost use Rattle.formula_core.specs.Rows.{row_of};
ghost use Rattle.formula_core.specs.Schemes.{result_scheme, binder_scheme};
ghost use Rattle.unification.specs.Terms.{instance_from, term_of};
ghost use Rattle.unification.specs.Known.{type_at, closed_type};
ghost use Rattle.type_formula.specs.Bare.{Form, Partition, Binding};
ghost use Rattle.type_formula.specs.Scopes.{position_of};
ghost use Rattle.type_formula.specs.PrivateGenerated.{variable_width, widths, with_variables, name_count};
ghost use Rattle.type_formula.specs.PrivateClosed.{appended_to, known_names, known_name, known, all_known, known_form, known_partition, known_binding};
ghost use Rattle.type_formula.specs.Views.{bare_of, bares_of, bounds_of};
ghost use Rattle.type_formula.specs.PrivateViews.{scope_of};

use crate::collect::{bind_names, count_names, take_variables};
use crate::partition::make_partition;
use crate::scope::{Entry, find_bound};
use crate::terms::{binder_term, result_term};
use crate::tree::{BoundNames, Tree, Trees};
use formula_core::{Binder, Formula, List, Name, Op, OutOfMemory, Ty};
use std::alloc::{AllocFailed, Global};
use unification::{Term, close, type_of};

/// Why a formula is not built.
#[derive(Clone, Copy, Debug, PartialEq, Eq)]
pub(crate) enum BuildFault {
    Untyped,
    OutOfMemory,
}

impl<T: Drop> From<AllocFailed<T>> for BuildFault {
    ghost use Rattle.std.specs.Prelude.{◌≡◌};
    ghost use Rattle.type_formula.specs.declared.build.BuildFault.TheVariants.{OutOfMemory};

    ghost from_gives = { λ _ e. e ≡ OutOfMemory };

    fn from(_: AllocFailed<T>) -> BuildFault {
        BuildFault::OutOfMemory
    }
}

impl From<OutOfMemory> for BuildFault {
    ghost use Rattle.std.specs.Prelude.{◌≡◌};
    ghost use Rattle.type_formula.specs.declared.build.BuildFault.TheVariants.{OutOfMemory};

    ghost from_gives = { λ _ e. e ≡ OutOfMemory };

    fn from(_: OutOfMemory) -> BuildFault {
        BuildFault::OutOfMemory
    }
}

/// The formula of a tree whose variables begin with the next one.
#[cycle(build)]
pub(crate) fn build(
    alloc: Global,
    types: &[Option<Ty>],
    scope: &mut Vec<Entry>,
    next: &mut u32,
    tree: &Tree,
) -> Result<Formula, BuildFault>
    ensures scope { OnOk result (scope.new.items ≡ scope.old.items) }
    ensures next { OnOk result (next.new ≡ next.old + variable_width (bare_of tree.now)) }
    ensures ok { IfOk result (λ f. known types.now (scope_of scope.old.items) (bare_of tree.now) next.old ≡ Some f) }
    ensures untyped { IsErrOf result BuildFault.Untyped
        → known types.now (scope_of scope.old.items) (bare_of tree.now) next.old ≡ None }
{
    match tree {
        Tree::Number(n) => Ok(Formula::Int(*n)),
        Tree::Identifier(name, _) => {
            let variable = take_variables(next, 1)?;
            build_name(alloc, types, scope, name, variable)
        }
        Tree::Form(op, parts) => build_form(alloc, types, scope, next, *op, parts),
        Tree::Partition(parts) => build_partition(alloc, types, scope, next, parts),
        Tree::Binding(binder, names, parts) => {
            let first = take_variables(next, 4)?;
            let term = binder_term(alloc, *binder, first)?;
            let ty = close_type(alloc, types, &term)?;
            let from = take_variables(next, count_names(names)?)?;
            let bound = name_types(alloc, types, names, from)?;
            let depth = scope.len();
            bind_names(alloc, scope, names, from)?;
            let parts = build_all(alloc, types, scope, next, parts)?;
            scope.truncate(depth);
            Ok(Formula::Bind(*binder, List::of(bound), List::of(parts), ty))
        }
        Tree::Ascribed(formula, _) => build(alloc, types, scope, next, formula),
        Tree::Broken(_) => Ok(Formula::Int(0)),
    }
}

fn build_name(
    alloc: Global,
    types: &[Option<Ty>],
    scope: &[Entry],
    name: &Name,
    variable: u32,
) -> Result<Formula, BuildFault>
    ensures ok { IfOk result (λ f.
        known_name name.now (position_of name.now (scope_of scope.now)) (type_at types.now variable) ≡ Some f) }
    ensures untyped { IsErrOf result BuildFault.Untyped
        → known_name name.now (position_of name.now (scope_of scope.now)) (type_at types.now variable) ≡ None }
{
    let ty = copy_type(alloc, types, variable)?;
    match find_bound(scope, name) {
        None => Ok(Formula::Free(name.copy(alloc)?, ty)),
        Some((index, _)) => {
            if index > 0xffff_ffff {
                return Err(BuildFault::OutOfMemory);
            }
            Ok(Formula::Bound(index as u32, ty))
        }
    }
}

fn copy_type(alloc: Global, types: &[Option<Ty>], i: u32) -> Result<Ty, BuildFault>
    ensures ok { IfOk result (λ t. type_at types.now i ≡ Some t) }
    ensures untyped { IsErrOf result BuildFault.Untyped → type_at types.now i ≡ None }
{
    match type_of(types, i) {
        Some(ty) => Ok(ty.copy(alloc)?),
        None => Err(BuildFault::Untyped),
    }
}

fn close_type(alloc: Global, types: &[Option<Ty>], term: &Term) -> Result<Ty, BuildFault>
    ensures ok { IfOk result (λ t. closed_type types.now (term_of term.now) ≡ Some t) }
    ensures untyped { IsErrOf result BuildFault.Untyped → closed_type types.now (term_of term.now) ≡ None }
{
    match close(alloc, types, term)? {
        Some(ty) => Ok(ty),
        None => Err(BuildFault::Untyped),
    }
}

#[cycle(build)]
fn build_form(
    alloc: Global,
    types: &[Option<Ty>],
    scope: &mut Vec<Entry>,
    next: &mut u32,
    op: Op,
    parts: &Trees,
) -> Result<Formula, BuildFault>
    ensures scope { OnOk result (scope.new.items ≡ scope.old.items) }
    ensures next { OnOk result (next.new ≡ next.old + (4 + widths (bares_of parts.now))) }
    ensures ok { IfOk result (λ f.
        known types.now (scope_of scope.old.items) (Form op (bares_of parts.now)) next.old ≡ Some f) }
    ensures untyped { IsErrOf result BuildFault.Untyped
        → known types.now (scope_of scope.old.items) (Form op (bares_of parts.now)) next.old ≡ None }
{
    let first = take_variables(next, 4)?;
    let term = result_term(alloc, op, first)?;
    let ty = close_type(alloc, types, &term)?;
    let parts = build_all(alloc, types, scope, next, parts)?;
    Ok(Formula::Node(op, List::of(parts), ty))
}

#[cycle(build)]
fn build_partition(
    alloc: Global,
    types: &[Option<Ty>],
    scope: &mut Vec<Entry>,
    next: &mut u32,
    parts: &Trees,
) -> Result<Formula, BuildFault>
    ensures scope { OnOk result (scope.new.items ≡ scope.old.items) }
    ensures next { OnOk result (next.new ≡ next.old + (4 + widths (bares_of parts.now))) }
    ensures ok { IfOk result (λ f.
        known types.now (scope_of scope.old.items) (Partition (bares_of parts.now)) next.old ≡ Some f) }
    ensures untyped { IsErrOf result BuildFault.Untyped
        → known types.now (scope_of scope.old.items) (Partition (bares_of parts.now)) next.old ≡ None }
{
    take_variables(next, 4)?;
    let parts = build_all(alloc, types, scope, next, parts)?;
    Ok(make_partition(alloc, parts)?)
}

fn name_types(
    alloc: Global,
    types: &[Option<Ty>],
    names: &BoundNames,
    first: u32,
) -> Result<Vec<Ty>, BuildFault>
    requires { first + name_count (bounds_of names.now) < 2 ^ 32 }
    ensures ok { IfOk result (λ v. known_names types.now first (bounds_of names.now) ≡ Some v.items) }
    ensures untyped { IsErrOf result BuildFault.Untyped → known_names types.now first (bounds_of names.now) ≡ None }
{
    let mut found = Vec::new(alloc);
    add_name_types(alloc, types, names, first, &mut found)?;
    Ok(found)
}

/// The types of the variables from `first` on, one for each name, at the end of `found`.
fn add_name_types(
    alloc: Global,
    types: &[Option<Ty>],
    names: &BoundNames,
    first: u32,
    found: &mut Vec<Ty>,
) -> Result<(), BuildFault>
    requires { first + name_count (bounds_of names.now) < 2 ^ 32 }
    ensures ok { OnOk result (appended_to found.old.items (known_names types.now first (bounds_of names.now))
        ≡ Some found.new.items) }
    ensures untyped { IsErrOf result BuildFault.Untyped → known_names types.now first (bounds_of names.now) ≡ None }
{
    match names {
        BoundNames::End => Ok(()),
        BoundNames::Plain(_, rest) => {
            found.push(copy_type(alloc, types, first)?)?;
            add_name_types(alloc, types, rest, first + 1, found)
        }
        BoundNames::Typed(_, _, rest) => {
            found.push(copy_type(alloc, types, first)?)?;
            add_name_types(alloc, types, rest, first + 1, found)
        }
    }
}

#[cycle(build)]
fn build_all(
    alloc: Global,
    types: &[Option<Ty>],
    scope: &mut Vec<Entry>,
    next: &mut u32,
    parts: &Trees,
) -> Result<Vec<Formula>, BuildFault>
    ensures scope { OnOk result (scope.new.items ≡ scope.old.items) }
    ensures next { OnOk result (next.new ≡ next.old + widths (bares_of parts.now)) }
    ensures ok { IfOk result (λ v.
        all_known types.now (scope_of scope.old.items) (bares_of parts.now) next.old ≡ Some v.items) }
    ensures untyped { IsErrOf result BuildFault.Untyped
        → all_known types.now (scope_of scope.old.items) (bares_of parts.now) next.old ≡ None }
{
    let mut built = Vec::new(alloc);
    build_onto(alloc, types, scope, next, parts, &mut built)?;
    Ok(built)
}

#[cycle(build)]
fn build_onto(
    alloc: Global,
    types: &[Option<Ty>],
    scope: &mut Vec<Entry>,
    next: &mut u32,
    parts: &Trees,
    built: &mut Vec<Formula>,
) -> Result<(), BuildFault>
    ensures scope { OnOk result (scope.new.items ≡ scope.old.items) }
    ensures next { OnOk result (next.new ≡ next.old + widths (bares_of parts.now)) }
    ensures ok { OnOk result (appended_to built.old.items
        (all_known types.now (scope_of scope.old.items) (bares_of parts.now) next.old) ≡ Some built.new.items) }
    ensures untyped { IsErrOf result BuildFault.Untyped
        → all_known types.now (scope_of scope.old.items) (bares_of parts.now) next.old ≡ None }
{
    match parts {
        Trees::End => Ok(()),
        Trees::More(part, rest) => {
            let formula = build(alloc, types, scope, next, part)?;
            built.push(formula)?;
            build_onto(alloc, types, scope, next, rest, built)
        }
    }
}
