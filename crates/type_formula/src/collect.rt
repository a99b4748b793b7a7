//! The equations between the types of a formula.
ghost use Rattle.std.specs.Prelude.{◌≡◌, ◌+◌, ◌<◌, ◌^◌, ◌++◌, ◌∷◌, [], map, suc, IfOk, OnOk, length, take};
ghost use Rattle.formula_core.specs.Rows.{row_of};
ghost use Rattle.formula_core.specs.Schemes.{operand_schemes, result_scheme, part_schemes, binder_scheme};
ghost use Rattle.unification.specs.Terms.{term_of, variable, integers, predicates, open_of, instance_from};
ghost use Rattle.unification.specs.Solutions.{equations_of};
ghost use Rattle.type_formula.specs.Bare.{part_count, has_names};
ghost use Rattle.type_formula.specs.Scopes.{position_of};
ghost use Rattle.type_formula.specs.TypeExpressions.{denoted};
ghost use Rattle.type_formula.specs.Partition.{partition_schemes};
ghost use Rattle.type_formula.specs.PrivateGenerated.{variable_width, widths, impossible, condition, type_equations, bound_equations, generated, all_generated, binder_equations, with_variables, name_equations, name_count};
ghost use Rattle.type_formula.specs.Views.{bare_of, bares_of, bounds_of};
ghost use Rattle.type_formula.specs.PrivateViews.{scope_of, entry, free_scope, open_terms};

use crate::denote::denote;
use crate::scope::{Entry, name_term};
use crate::terms::{binder_term, binder_terms, operand_terms, partition_terms, result_term};
use crate::tree::{BoundNames, Tree, Trees, has_names};
use formula_core::{Binder, Env, Name, Op, OutOfMemory};
use std::alloc::Global;
use unification::{Equation, Term};

/// What formulas are read in: an environment, and wanted names beside it.
#[derive(Clone, Copy)]
pub(crate) struct Surroundings<'a> {
    pub alloc: Global,
    pub env: &'a Env,
    pub wanted: &'a [Name],
}

/// Equations, and the next variable.
#[derive(Drop)]
pub(crate) struct System {
    pub next: u32,
    pub equations: Vec<Equation>,
}

/// The next `count` variables. There are below 2^32 of them, as if more found no room.
pub(crate) fn take_variables(next: &mut u32, count: u32) -> Result<u32, OutOfMemory>
    ensures first { IfOk result (λ n. n ≡ next.old) }
    ensures room { IfOk result (λ n. n + count < 2 ^ 32) }
    ensures next { OnOk result (next.new ≡ next.old + count) }
{
    let first = *next;
    if count > u32::MAX - first {
        return Err(OutOfMemory);
    }
    *next = first + count;
    Ok(first)
}

fn add(equations: &mut Vec<Equation>, left: Term, right: Term) -> Result<(), OutOfMemory>
    ensures { OnOk result (equations_of equations.new.items
        ≡ equations_of equations.old.items ++ (term_of left, term_of right) ∷ []) }
{
    equations.push(Equation { left, right })?;
    Ok(())
}

fn add_impossible(equations: &mut Vec<Equation>) -> Result<(), OutOfMemory>
    ensures { OnOk result (equations_of equations.new.items ≡ equations_of equations.old.items ++ impossible ∷ []) }
{
    add(equations, Term::Int, Term::Bool)
}

fn add_condition(equations: &mut Vec<Equation>, holds: bool) -> Result<(), OutOfMemory>
    ensures { OnOk result (equations_of equations.new.items ≡ equations_of equations.old.items ++ condition holds) }
{
    if holds {
        Ok(())
    } else {
        add_impossible(equations)
    }
}

/// A term is the type of a type expression.
fn add_type(
    alloc: Global,
    env: &Env,
    scope: &[Entry],
    equations: &mut Vec<Equation>,
    written: &Tree,
    term: Term,
) -> Result<(), OutOfMemory>
    ensures { OnOk result (equations_of equations.new.items ≡ equations_of equations.old.items
        ++ type_equations (denoted env.now (scope_of scope.now) (bare_of written.now)) (term_of term)) }
{
    match denote(alloc, env, scope, written)? {
        Some(ty) => add(equations, Term::of_type(alloc, &ty)?, term),
        None => add_impossible(equations),
    }
}

/// Gives each name a variable, the first one to the first name. The last name is nearest.
pub(crate) fn bind_names(
    alloc: Global,
    scope: &mut Vec<Entry>,
    names: &BoundNames,
    first: u32,
) -> Result<(), OutOfMemory>
    requires { first + name_count (bounds_of names.now) < 2 ^ 32 }
    ensures scope { OnOk result (scope_of scope.new.items
        ≡ with_variables (bounds_of names.now) first (scope_of scope.old.items)) }
    ensures kept { OnOk result (take (length scope.old.items) scope.new.items ≡ scope.old.items) }
{
    match names {
        BoundNames::End => Ok(()),
        BoundNames::Plain(name, rest) => {
            bind_name(alloc, scope, name, first)?;
            bind_names(alloc, scope, rest, first + 1)
        }
        BoundNames::Typed(name, _, rest) => {
            bind_name(alloc, scope, name, first)?;
            bind_names(alloc, scope, rest, first + 1)
        }
    }
}

fn bind_name(
    alloc: Global,
    scope: &mut Vec<Entry>,
    name: &Name,
    variable: u32,
) -> Result<(), OutOfMemory>
    ensures { OnOk result (scope.new.items ≡ scope.old.items ++ entry name.now variable ∷ []) }
{
    let name = name.copy(alloc)?;
    scope.push(Entry { name, variable })?;
    Ok(())
}

/// The number of names.
pub(crate) fn count_names(names: &BoundNames) -> Result<u32, OutOfMemory>
    ensures { IfOk result (λ n. n ≡ name_count (bounds_of names.now)) }
{
    match names {
        BoundNames::End => Ok(0),
        BoundNames::Plain(_, rest) => one_more(count_names(rest)?),
        BoundNames::Typed(_, _, rest) => one_more(count_names(rest)?),
    }
}

fn one_more(count: u32) -> Result<u32, OutOfMemory>
    ensures { IfOk result (λ n. n ≡ suc count) }
{
    match count.checked_add(1) {
        Some(count) => Ok(count),
        None => Err(OutOfMemory),
    }
}

/// The equations of the types that are written at the names of a binder.
fn add_bound_types(
    alloc: Global,
    env: &Env,
    scope: &[Entry],
    equations: &mut Vec<Equation>,
    names: &BoundNames,
    first: u32,
) -> Result<(), OutOfMemory>
    requires { first + name_count (bounds_of names.now) < 2 ^ 32 }
    ensures { OnOk result (equations_of equations.new.items ≡ equations_of equations.old.items
        ++ bound_equations env.now (scope_of scope.now) (bounds_of names.now) first) }
{
    match names {
        BoundNames::End => Ok(()),
        BoundNames::Plain(_, rest) => add_bound_types(
            alloc,
            env,
            scope,
            equations,
            rest,
            first + 1,
        ),
        BoundNames::Typed(_, written, rest) => {
            add_type(alloc, env, scope, equations, written, Term::Var(first))?;
            add_bound_types(alloc, env, scope, equations, rest, first + 1)
        }
    }
}

fn collect_name(
    around: &Surroundings<'_>,
    scope: &[Entry],
    system: &mut System,
    name: &Name,
    expected: Term,
) -> Result<(), OutOfMemory>
    requires { length around.now.wanted.now < 2 ^ 32 }
    ensures next { OnOk result (system.new.next ≡ system.old.next + 1) }
    ensures equations { OnOk result (equations_of system.new.equations.items
        ≡ equations_of system.old.equations.items ++ name_equations (position_of name.now (scope_of scope.now))
        (position_of name.now (free_scope around.now.env.now around.now.wanted.now))
        system.old.next (term_of expected)) }
{
    let variable = take_variables(&mut system.next, 1)?;
    match name_term(around.alloc, around.env, around.wanted, scope, name)? {
        None => add_impossible(&mut system.equations),
        Some(term) => {
            add(&mut system.equations, Term::Var(variable), term)?;
            add(&mut system.equations, Term::Var(variable), expected)
        }
    }
}

/// Adds the equations of a formula of the expected type.
#[cycle(collect)]
pub(crate) fn collect(
    around: &Surroundings<'_>,
    scope: &mut Vec<Entry>,
    system: &mut System,
    tree: &Tree,
    expected: Term,
) -> Result<(), OutOfMemory>
    requires { length around.now.wanted.now < 2 ^ 32 }
    ensures scope { OnOk result (scope.new.items ≡ scope.old.items) }
    ensures next { OnOk result (system.new.next ≡ system.old.next + variable_width (bare_of tree.now)) }
    ensures equations { OnOk result (equations_of system.new.equations.items
        ≡ equations_of system.old.equations.items ++ generated around.now.env.now
        (scope_of scope.old.items) (free_scope around.now.env.now around.now.wanted.now)
        (bare_of tree.now) system.old.next (term_of expected)) }
{
    match tree {
        Tree::Number(n) => {
            add(&mut system.equations, Term::Int, expected)?;
            add_condition(&mut system.equations, *n >= 0)
        }
        Tree::Identifier(name, _) => collect_name(around, scope, system, name, expected),
        Tree::Form(op, parts) => collect_form(around, scope, system, *op, parts, expected),
        Tree::Partition(parts) => collect_partition(around, scope, system, parts, expected),
        Tree::Binding(binder, names, parts) => {
            let depth = scope.len();
            let operands = open_binding(around, scope, system, *binder, names, expected)?;
            collect_all(around, scope, system, parts, &operands)?;
            scope.truncate(depth);
            Ok(())
        }
        Tree::Ascribed(formula, written) => {
            add_type(
                around.alloc,
                around.env,
                scope,
                &mut system.equations,
                written,
                expected.copy(around.alloc)?,
            )?;
            collect(around, scope, system, formula, expected)
        }
        Tree::Broken(_) => add_impossible(&mut system.equations),
    }
}

#[cycle(collect)]
fn collect_form(
    around: &Surroundings<'_>,
    scope: &mut Vec<Entry>,
    system: &mut System,
    op: Op,
    parts: &Trees,
    expected: Term,
) -> Result<(), OutOfMemory>
    requires { length around.now.wanted.now < 2 ^ 32 }
    ensures scope { OnOk result (scope.new.items ≡ scope.old.items) }
    ensures next { OnOk result (system.new.next ≡ system.old.next + (4 + widths (bares_of parts.now))) }
    ensures equations { OnOk result (equations_of system.new.equations.items
        ≡ equations_of system.old.equations.items
        ++ (instance_from system.old.next (result_scheme (row_of op)), term_of expected)
        ∷ all_generated around.now.env.now
        (scope_of scope.old.items) (free_scope around.now.env.now around.now.wanted.now)
        (bares_of parts.now) (system.old.next + 4)
        (map (instance_from system.old.next) (operand_schemes (row_of op) (part_count (bares_of parts.now))))) }
{
    let first = take_variables(&mut system.next, 4)?;
    add(
        &mut system.equations,
        result_term(around.alloc, op, first)?,
        expected,
    )?;
    let operands = operand_terms(around.alloc, op, count_parts(parts)?, first)?;
    collect_all(around, scope, system, parts, &operands)
}

#[cycle(collect)]
fn collect_partition(
    around: &Surroundings<'_>,
    scope: &mut Vec<Entry>,
    system: &mut System,
    parts: &Trees,
    expected: Term,
) -> Result<(), OutOfMemory>
    requires { length around.now.wanted.now < 2 ^ 32 }
    ensures scope { OnOk result (scope.new.items ≡ scope.old.items) }
    ensures next { OnOk result (system.new.next ≡ system.old.next + (4 + widths (bares_of parts.now))) }
    ensures equations { OnOk result (equations_of system.new.equations.items
        ≡ equations_of system.old.equations.items ++ (predicates, term_of expected)
        ∷ all_generated around.now.env.now
        (scope_of scope.old.items) (free_scope around.now.env.now around.now.wanted.now)
        (bares_of parts.now) (system.old.next + 4)
        (map (instance_from system.old.next) (partition_schemes (part_count (bares_of parts.now))))) }
{
    let first = take_variables(&mut system.next, 4)?;
    add(&mut system.equations, Term::Truth, expected)?;
    let operands = partition_terms(around.alloc, count_parts(parts)?, first)?;
    collect_all(around, scope, system, parts, &operands)
}

/// Adds the equations of a binder but for those of its parts, and binds its names. Gives the types of the parts.
fn open_binding(
    around: &Surroundings<'_>,
    scope: &mut Vec<Entry>,
    system: &mut System,
    binder: Binder,
    names: &BoundNames,
    expected: Term,
) -> Result<Vec<Term>, OutOfMemory>
    ensures scope { OnOk result (scope_of scope.new.items
        ≡ with_variables (bounds_of names.now) (system.old.next + 4) (scope_of scope.old.items)) }
    ensures kept { OnOk result (take (length scope.old.items) scope.new.items ≡ scope.old.items) }
    ensures next { OnOk result (system.new.next ≡ system.old.next + 4 + name_count (bounds_of names.now)) }
    ensures operands { IfOk result (λ v.
        open_terms v.items ≡ map (instance_from system.old.next) (part_schemes binder)) }
    ensures equations { OnOk result (equations_of system.new.equations.items
        ≡ equations_of system.old.equations.items ++ binder_equations around.now.env.now
        (scope_of scope.old.items) binder (bounds_of names.now) system.old.next (term_of expected)) }
{
    let first = take_variables(&mut system.next, 4)?;
    add(
        &mut system.equations,
        binder_term(around.alloc, binder, first)?,
        expected,
    )?;
    add_condition(&mut system.equations, has_names(names))?;
    let from = take_variables(&mut system.next, count_names(names)?)?;
    add_bound_types(
        around.alloc,
        around.env,
        scope,
        &mut system.equations,
        names,
        from,
    )?;
    bind_names(around.alloc, scope, names, from)?;
    binder_terms(around.alloc, binder, first)
}

/// The number of parts.
fn count_parts(parts: &Trees) -> Result<usize, OutOfMemory>
    ensures { IfOk result (λ n. n ≡ part_count (bares_of parts.now)) }
{
    match parts {
        Trees::End => Ok(0),
        Trees::More(_, rest) => {
            let count = count_parts(rest)?;
            if count == usize::MAX {
                return Err(OutOfMemory);
            }
            Ok(count + 1)
        }
    }
}

#[cycle(collect)]
fn collect_all(
    around: &Surroundings<'_>,
    scope: &mut Vec<Entry>,
    system: &mut System,
    parts: &Trees,
    expected: &[Term],
) -> Result<(), OutOfMemory>
    requires { length around.now.wanted.now < 2 ^ 32 }
    ensures scope { OnOk result (scope.new.items ≡ scope.old.items) }
    ensures next { OnOk result (system.new.next ≡ system.old.next + widths (bares_of parts.now)) }
    ensures equations { OnOk result (equations_of system.new.equations.items
        ≡ equations_of system.old.equations.items ++ all_generated around.now.env.now
        (scope_of scope.old.items) (free_scope around.now.env.now around.now.wanted.now)
        (bares_of parts.now) system.old.next (open_terms expected.now)) }
{
    match parts {
        Trees::End => add_condition(&mut system.equations, expected.is_empty()),
        Trees::More(part, rest) => match expected.split_first() {
            None => {
                add_impossible(&mut system.equations)?;
                collect(around, scope, system, part, Term::Int)?;
                collect_all(around, scope, system, rest, expected)
            }
            Some((term, others)) => {
                collect(around, scope, system, part, term.copy(around.alloc)?)?;
                collect_all(around, scope, system, rest, others)
            }
        },
    }
}
