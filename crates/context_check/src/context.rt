//! Checks a context.

ghost use Rattle.std.specs.Prelude.{◌≡◌, ◌++◌, ◌∷◌, [], ℕ, List as Listed, Ok, Err, bytes_eq, length, map};
ghost use Rattle.std.specs.Prelude.{IsErrOf, IsTrue, IfOk, OnOk};
ghost use Rattle.std.specs.List.{IsDistinct};
ghost use Rattle.model_core.specs.declared.fault.Fault.{Fault as Told};
ghost use Rattle.model_core.specs.Each.{is_among};
ghost use Rattle.model_core.specs.Faults.{first_by_place};
ghost use Rattle.check_rules.specs.Visible.{entries, origins};
ghost use Rattle.check_rules.specs.Declarations.{declared_twice, labelled_twice};
ghost use Rattle.check_rules.specs.Typed.{in_order};
ghost use Rattle.check_rules.specs.Contexts.{ChecksAxioms, ChecksContext, carrier_set, checked_context_of, labels_of, names_of};
ghost use Rattle.check_rules.specs.Components.{AreByName, AreContextsOf, ChecksBeside, contexts_in, is_context};
ghost use Rattle.model_core.specs.Borrowed.{has};
ghost use Rattle.context_check.specs.Views.{placed, visible};
ghost use Rattle.context_check.specs.Private.{AreDeclaredOnce, placed_names};

use crate::copies::{
    add_carrier_sets, add_for_each, copy_entries, copy_formulas, copy_names, copy_origins, count,
    names_of,
};
use crate::declarations::{Texts, add_labels, add_refs, first_repeated, put};
use crate::fault::CheckFault;
use crate::typing::{add_in_order, first_never_typed, type_all};
use crate::visible::{Placed, View, add_referenced, nothing_seen};
use formula_core::{Env, List, Name, OutOfMemory, Ref, Ty};
use model_core::{
    Checked, CheckedContext, Fault, FaultKind, Labelled, RawComponent, RawLabelled, Shared, earlier,
};
use std::alloc::Global;
use std::collections::BTreeSet;

fn known_names<'a>(
    alloc: Global,
    constants: &[Placed<'a, (Name, Ty)>],
) -> Result<Texts<'a>, OutOfMemory>
    ensures { IfOk result (λ known. (x : Listed ℕ) → has known x ≡ is_among (placed_names constants.now) x) }
{
    let mut known = BTreeSet::new(alloc);
    for constant in constants {
        put(&mut known, constant.0.0.as_text())?;
    }
    Ok(known)
}

/// The first declared name that is seen, or stands before it.
fn first_declared_twice(
    alloc: Global,
    name: &Name,
    constants: &[Placed<'_, (Name, Ty)>],
    sets: &[Ref],
    declared: &[Ref],
) -> Result<Option<Fault>, OutOfMemory>
    ensures { IfOk result (λ first.
        first ≡ first_by_place (declared_twice name.now (placed_names constants.now) (sets.now ++ declared.now))) }
{
    let known = known_names(alloc, constants)?;
    let mut marks = Vec::new(alloc);
    add_refs(&mut marks, sets)?;
    add_refs(&mut marks, declared)?;
    let first = first_repeated(
        alloc,
        name,
        FaultKind::DeclaredTwice,
        &known,
        BTreeSet::new(alloc),
        &marks,
    )?;
    Ok(first)
}

/// The first label that stands before it.
pub fn first_labelled_twice(
    alloc: Global,
    name: &Name,
    axioms: &[RawLabelled],
) -> Result<Option<Fault>, OutOfMemory>
    ensures { IfOk result (λ first. first ≡ first_by_place (labelled_twice name.now [] (labels_of axioms.now))) }
{
    let known = BTreeSet::new(alloc);
    let mut marks = Vec::new(alloc);
    add_labels(&mut marks, axioms)?;
    let first = first_repeated(
        alloc,
        name,
        FaultKind::LabelTwice,
        &known,
        BTreeSet::new(alloc),
        &marks,
    )?;
    Ok(first)
}

/// The environment in which the first axiom is typed.
fn context_env(
    alloc: Global,
    sets: &[Ref],
    constants: &[Placed<'_, (Name, Ty)>],
) -> Result<Env, OutOfMemory>
    requires { IsDistinct bytes_eq (placed_names constants.now ++ names_of sets.now) }
    ensures { IfOk result (λ env. env ≡ entries (map placed constants.now) ++ map carrier_set sets.now) }
{
    let mut entries = copy_entries(alloc, constants)?;
    add_carrier_sets(alloc, &mut entries, sets)?;
    Ok(Env::of(entries))
}

/// What is seen, and then the declared names.
fn checked_env(
    alloc: Global,
    constants: &[Placed<'_, (Name, Ty)>],
    env: &Env,
    sets: &[Ref],
    declared: &[Ref],
) -> Result<Env, OutOfMemory>
    requires { IsDistinct bytes_eq (placed_names constants.now ++ names_of (sets.now ++ declared.now)) }
    ensures { IfOk result (λ all.
        all ≡ entries (map placed constants.now) ++ in_order env.now (names_of (sets.now ++ declared.now))) }
{
    let mut entries = copy_entries(alloc, constants)?;
    add_in_order(alloc, &mut entries, env, sets)?;
    add_in_order(alloc, &mut entries, env, declared)?;
    Env::of(entries).shared(alloc)
}

/// The components of what is seen, and then this one for each declared name.
fn checked_env_of(
    alloc: Global,
    constants: &[Placed<'_, (Name, Ty)>],
    name: &Name,
    sets: &[Ref],
    declared: &[Ref],
) -> Result<List<Shared<Name>>, OutOfMemory>
    ensures { IfOk result (λ all.
        all ≡ origins (map placed constants.now) ++ map (λ r. name.now) (sets.now ++ declared.now)) }
{
    let mut names = copy_origins(alloc, constants)?;
    add_for_each(alloc, &mut names, name, sets)?;
    add_for_each(alloc, &mut names, name, declared)?;
    Ok(List::of(names))
}

fn checked_axioms_of(
    alloc: Global,
    axioms: &[Placed<'_, Labelled>],
    name: &Name,
    own: &[Labelled],
) -> Result<List<Shared<Name>>, OutOfMemory>
    ensures { IfOk result (λ all. all ≡ origins (map placed axioms.now) ++ map (λ l. name.now) own.now) }
{
    let mut names = copy_origins(alloc, axioms)?;
    add_for_each(alloc, &mut names, name, own)?;
    Ok(List::of(names))
}

fn checked_axioms(
    alloc: Global,
    axioms: &[Placed<'_, Labelled>],
    own: Vec<Labelled>,
) -> Result<List<Labelled>, OutOfMemory>
    ensures { IfOk result (λ all. all ≡ map (λ x. x.0) (map placed axioms.now) ++ own.items) }
{
    let mut own = own;
    let mut all = copy_formulas(alloc, axioms)?;
    all.append(&mut own)?;
    Ok(List::of(all))
}

/// How many axioms are seen, where there are fewer than 2 ^ 32.
fn own_from(axioms: &[Placed<'_, Labelled>]) -> Result<u32, OutOfMemory>
    ensures { IfOk result (λ from. from ≡ length (map placed axioms.now)) }
{
    let from = count(axioms.len())?;
    Ok(from)
}

fn of_parts(
    name: Name,
    ancestors: List<Name>,
    env: Env,
    env_of: List<Shared<Name>>,
    axioms: List<Labelled>,
    axioms_of: List<Shared<Name>>,
    own_from: u32,
) -> CheckedContext
    ensures { result ≡ record {
      name = name;
      ancestors = ancestors;
      env = env;
      env_of = env_of;
      axioms = axioms;
      axioms_of = axioms_of;
      own_from = own_from;
    } }
{
    CheckedContext {
        name,
        ancestors,
        env,
        env_of,
        axioms,
        axioms_of,
        own_from,
    }
}

/// The checked context.
fn context_of(
    alloc: Global,
    name: &Name,
    sets: &[Ref],
    constants: &[Ref],
    view: &View<'_>,
    own: Vec<Labelled>,
    env: &Env,
) -> Result<CheckedContext, OutOfMemory>
    requires { AreDeclaredOnce (visible view.now) (sets.now ++ constants.now) }
    ensures { IfOk result (λ context.
        context ≡ checked_context_of name.now (sets.now ++ constants.now) (visible view.now) own.items env.now) }
{
    let axioms_of = checked_axioms_of(alloc, &view.axioms, name, &own)?;
    let ancestors = copy_names(alloc, &view.contexts)?;
    let entries = checked_env(alloc, &view.constants, env, sets, constants)?;
    let origins = checked_env_of(alloc, &view.constants, name, sets, constants)?;
    let axioms = checked_axioms(alloc, &view.axioms, own)?;
    let from = own_from(&view.axioms)?;
    let copied = name.copy(alloc)?;
    Ok(of_parts(
        copied,
        List::of(ancestors),
        entries,
        origins,
        axioms,
        axioms_of,
        from,
    ))
}

/// Types the axioms.
fn check_axioms(
    alloc: Global,
    name: &Name,
    sets: &[Ref],
    constants: &[Ref],
    axioms: &[RawLabelled],
    view: &View<'_>,
) -> Result<Result<Checked, Fault>, OutOfMemory>
    requires { AreDeclaredOnce (visible view.now) (sets.now ++ constants.now) }
    ensures { IfOk result (λ outcome.
        ChecksAxioms name.now sets.now constants.now axioms.now (visible view.now) outcome) }
{
    let mut env = context_env(alloc, sets, &view.constants)?;
    let wanted = names_of(alloc, constants)?;
    let all = type_all(alloc, name, &mut env, &wanted, axioms)?;
    let untyped = first_never_typed(alloc, name, &env, constants)?;
    match earlier(all.first, untyped) {
        Some(fault) => Ok(Err(fault)),
        None => {
            let context = context_of(alloc, name, sets, constants, view, all.typed, &env)?;
            Ok(Ok(Checked::Context(context)))
        }
    }
}

/// Checks a context beside those that it extends.
fn check_beside(
    alloc: Global,
    name: &Name,
    extends: &[Ref],
    sets: &[Ref],
    constants: &[Ref],
    axioms: &[RawLabelled],
    parents: &[&CheckedContext],
) -> Result<Result<Checked, Fault>, OutOfMemory>
    requires { AreByName extends.now (map (λ p. p.now) parents.now) }
    ensures { IfOk result (λ outcome.
        ChecksContext name.now extends.now sets.now constants.now axioms.now (map (λ p. p.now) parents.now) outcome) }
{
    let mut view = nothing_seen(alloc);
    let clash = add_referenced(alloc, name, &mut view, extends, parents)?;
    let twice = first_declared_twice(alloc, name, &view.constants, sets, constants)?;
    let label = first_labelled_twice(alloc, name, axioms)?;
    match earlier(earlier(clash, twice), label) {
        Some(fault) => Ok(Err(fault)),
        None => {
            let outcome = check_axioms(alloc, name, sets, constants, axioms, &view)?;
            Ok(outcome)
        }
    }
}

fn add_context_in<'a>(
    contexts: &mut Vec<&'a CheckedContext>,
    part: &'a Checked,
) -> Result<(), OutOfMemory>
    ensures { OnOk result (map (λ c. c.now) contexts.new.items
        ≡ map (λ c. c.now) contexts.old.items ++ contexts_in (part.entry.now ∷ [])) }
{
    match part {
        Checked::Context(context) => {
            contexts.push(context)?;
            Ok(())
        }
        Checked::Machine(_) => Ok(()),
    }
}

/// The contexts among the parts.
pub fn contexts_in<'a>(
    alloc: Global,
    parts: &[&'a Checked],
) -> Result<Vec<&'a CheckedContext>, OutOfMemory>
    ensures { IfOk result (λ contexts.
        map (λ c. c.now) contexts.items ≡ contexts_in (map (λ p. p.now) parts.now)) }
{
    let mut contexts = Vec::new(alloc);
    for part in parts {
        add_context_in(&mut contexts, part)?;
    }
    Ok(contexts)
}

fn outcome_of(
    alloc: Global,
    raw: &RawComponent,
    parents: &[&Checked],
) -> Result<Result<Checked, Fault>, OutOfMemory>
    requires context { IsTrue (is_context raw.now) }
    requires parents { AreContextsOf raw.now (map (λ p. p.now) parents.now) }
    ensures { IfOk result (λ outcome. ChecksBeside raw.now (map (λ p. p.now) parents.now) outcome) }
{
    let RawComponent::Context {
        name,
        extends,
        sets,
        constants,
        axioms,
    } = raw
    else {
        unreachable!()
    };
    let parents = contexts_in(alloc, parents)?;
    let outcome = check_beside(
        alloc,
        &name.name,
        extends.items(),
        sets.items(),
        constants.items(),
        axioms.items(),
        &parents,
    )?;
    Ok(outcome)
}

/// Checks a context beside the contexts that it extends, in the order of its references. The answer is the context, or
/// its first fault of kinds 10 to 16.
pub fn check_context(
    alloc: Global,
    raw: &RawComponent,
    parents: &[&Checked],
) -> Result<Checked, CheckFault>
    requires context { IsTrue (is_context raw.now) }
    requires parents { AreContextsOf raw.now (map (λ p. p.now) parents.now) }
    ensures checked { IfOk result (λ c. ChecksBeside raw.now (map (λ p. p.now) parents.now) (Ok c)) }
    ensures fault { (f : Told) → IsErrOf result (CheckFault.Fault f)
        → ChecksBeside raw.now (map (λ p. p.now) parents.now) (Err f) }
{
    let outcome = outcome_of(alloc, raw, parents)?;
    match outcome {
        Ok(checked) => Ok(checked),
        Err(fault) => Err(CheckFault::Fault(fault)),
    }
}
