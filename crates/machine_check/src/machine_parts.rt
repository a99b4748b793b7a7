//! What a machine checks to.

ghost use Rattle.std.specs.Prelude.{◌≡◌, ◌++◌, ◌∷◌, ◌&&◌, [], not, ℕ, List as Listed, IfOk, OnOk, length, map};
ghost use Rattle.std.specs.List.{filter};
ghost use Rattle.std.specs.Option.{option_copied};
ghost use Rattle.formula_core.specs.Formulas.{joined};
ghost use Rattle.model_core.specs.Each.{is_among};
ghost use Rattle.check_rules.specs.Contexts.{names_of};
ghost use Rattle.check_rules.specs.Machines.{abstract_view, checked_machine_of, new_variables};
ghost use Rattle.check_rules.specs.Typed.{in_order};
ghost use Rattle.check_rules.specs.Visible.{entries, names, origins};
ghost use Rattle.model_core.specs.Borrowed.{has};
ghost use Rattle.machine_check.specs.PrivateMachine.{written_of};
ghost use Rattle.context_check.specs.Views.{placed, visible};

use crate::assignments::{add_names, texts_of};
use crate::machine::WrittenMachine;
use crate::machine_names::add_ref_names;
use crate::parts::with_labelled;
use crate::refined_machine::{
    abstract_events, abstract_invariants, abstract_name, abstract_variables,
};
use context_check::copies::{
    add_for_each, copy_entries, copy_formulas, copy_origins, count, env_of, names_of,
};
use context_check::declarations::{Texts, has};
use context_check::typing::add_typed;
use context_check::visible::{Placed, View};
use formula_core::{Env, Formula, List, Name, OutOfMemory, Ref, Ty};
use model_core::{CheckedEvent, CheckedMachine, Labelled, Shared};
use std::alloc::Global;
use std::collections::BTreeSet;

fn push_kept(
    alloc: Global,
    all: &mut Vec<(Name, Ty)>,
    kept: &Texts<'_>,
    entry: &(Name, Ty),
) -> Result<(), OutOfMemory>
    ensures { OnOk result (all.new.items ≡ all.old.items ++ filter (λ e. has kept.now e.0) (entry.now ∷ [])) }
{
    if has(kept, entry.0.as_text()) {
        all.push((entry.0.copy(alloc)?, entry.1.copy(alloc)?))?;
    }
    Ok(())
}

fn add_kept(
    alloc: Global,
    all: &mut Vec<(Name, Ty)>,
    kept: &Texts<'_>,
    variables: &[Placed<'_, (Name, Ty)>],
) -> Result<(), OutOfMemory>
    ensures { OnOk result (all.new.items ≡ all.old.items
        ++ filter (λ e. has kept.now e.0) (entries (map placed variables.now))) }
{
    for variable in variables {
        push_kept(alloc, all, kept, variable.0)?;
    }
    Ok(())
}

/// The environment in which the first invariant is typed.
pub fn machine_env(alloc: Global, kept: &[Name], view: &View<'_>) -> Result<Env, OutOfMemory>
    ensures { IfOk result (λ env. env ≡ entries (visible view.now).constants
        ++ filter (λ e. is_among kept.now e.0) (entries (visible view.now).variables)) }
{
    let kept = texts_of(alloc, kept)?;
    let mut all = copy_entries(alloc, &view.constants)?;
    add_kept(alloc, &mut all, &kept, &view.variables)?;
    env_of(alloc, all)
}

fn push_unless(
    alloc: Global,
    names: &mut Vec<Name>,
    except: &Texts<'_>,
    name: &Name,
) -> Result<(), OutOfMemory>
    ensures { OnOk result (names.new.items ≡ names.old.items ++ filter (λ n. not (has except.now n)) (name.now ∷ [])) }
{
    if !has(except, name.as_text()) {
        names.push(name.copy(alloc)?)?;
    }
    Ok(())
}

fn add_new(
    alloc: Global,
    names: &mut Vec<Name>,
    kept: &Texts<'_>,
    variables: &[Ref],
) -> Result<(), OutOfMemory>
    ensures { OnOk result (names.new.items ≡ names.old.items
        ++ filter (λ n. not (has kept.now n)) (names_of variables.now)) }
{
    for variable in variables {
        push_unless(alloc, names, kept, &variable.name)?;
    }
    Ok(())
}

/// The variables that the abstraction hasn't.
pub fn new_variables(
    alloc: Global,
    kept: &[Name],
    variables: &[Ref],
) -> Result<Vec<Name>, OutOfMemory>
    ensures { IfOk result (λ names. names.items ≡ filter (λ n. not (is_among kept.now n)) (names_of variables.now)) }
{
    let kept = texts_of(alloc, kept)?;
    let mut names = Vec::new(alloc);
    add_new(alloc, &mut names, &kept, variables)?;
    Ok(names)
}

fn is_lost(kept: &Texts<'_>, own: &Texts<'_>, text: &str) -> bool
    ensures { result ≡ (has kept.now text.now && not (has own.now text.now)) }
{
    has(kept, text) && !has(own, text)
}

fn push_lost(
    alloc: Global,
    names: &mut Vec<Name>,
    kept: &Texts<'_>,
    own: &Texts<'_>,
    name: &Name,
) -> Result<(), OutOfMemory>
    ensures { OnOk result (names.new.items ≡ names.old.items
        ++ filter (λ n. has kept.now n && not (has own.now n)) (name.now ∷ [])) }
{
    if is_lost(kept, own, name.as_text()) {
        names.push(name.copy(alloc)?)?;
    }
    Ok(())
}

fn add_lost(
    alloc: Global,
    found: &mut Vec<Name>,
    kept: &Texts<'_>,
    own: &Texts<'_>,
    variables: &[Placed<'_, (Name, Ty)>],
) -> Result<(), OutOfMemory>
    ensures { OnOk result (found.new.items ≡ found.old.items
        ++ filter (λ n. has kept.now n && not (has own.now n)) (names (entries (map placed variables.now)))) }
{
    for variable in variables {
        push_lost(alloc, found, kept, own, &variable.0.0)?;
    }
    Ok(())
}

/// Adds the variables of the abstraction that the machine hasn't.
pub fn add_lost_variables(
    alloc: Global,
    found: &mut Vec<Name>,
    kept: &[Name],
    variables: &[Ref],
    view: &View<'_>,
) -> Result<(), OutOfMemory>
    ensures { OnOk result (found.new.items ≡ found.old.items
        ++ filter (λ n. is_among kept.now n && not (is_among (names_of variables.now) n))
        (names (entries (visible view.now).variables))) }
{
    let kept = texts_of(alloc, kept)?;
    let mut own = BTreeSet::new(alloc);
    add_ref_names(&mut own, variables)?;
    add_lost(alloc, found, &kept, &own, &view.variables)?;
    Ok(())
}

fn lost_variables(
    alloc: Global,
    kept: &[Name],
    variables: &[Ref],
    view: &View<'_>,
) -> Result<List<Name>, OutOfMemory>
    ensures { IfOk result (λ lost. lost ≡ filter (λ n. is_among kept.now n && not (is_among (names_of variables.now) n))
        (names (entries (visible view.now).variables))) }
{
    let mut lost = Vec::new(alloc);
    add_lost_variables(alloc, &mut lost, kept, variables, view)?;
    Ok(List::of(lost))
}

fn add_typed_names(
    alloc: Global,
    all: &mut Vec<(Name, Ty)>,
    env: &Env,
    names: &[Name],
) -> Result<(), OutOfMemory>
    ensures { OnOk result (all.new.items ≡ all.old.items ++ in_order env.now names.now) }
{
    for name in names {
        add_typed(alloc, all, env, name)?;
    }
    Ok(())
}

/// What is seen, and then the new variables.
fn checked_env(alloc: Global, view: &View<'_>, env: &Env, new: &[Name]) -> Result<Env, OutOfMemory>
    ensures { IfOk result (λ all. all ≡ entries (visible view.now).constants ++ entries (visible view.now).variables
        ++ in_order env.now new.now) }
{
    let mut all = copy_entries(alloc, &view.constants)?;
    let mut variables = copy_entries(alloc, &view.variables)?;
    all.append(&mut variables)?;
    add_typed_names(alloc, &mut all, env, new)?;
    env_of(alloc, all)?.shared(alloc)
}

/// The components of what is seen, and then this one for each new variable.
fn checked_env_of(
    alloc: Global,
    view: &View<'_>,
    component: &Name,
    new: &[Name],
) -> Result<List<Shared<Name>>, OutOfMemory>
    ensures { IfOk result (λ all. all ≡ origins (visible view.now).constants ++ origins (visible view.now).variables
        ++ map (λ n. component.now) new.now) }
{
    let mut all = copy_origins(alloc, &view.constants)?;
    let mut variables = copy_origins(alloc, &view.variables)?;
    all.append(&mut variables)?;
    add_for_each(alloc, &mut all, component, new)?;
    Ok(List::of(all))
}

fn refined_names<'a>(alloc: Global, events: &'a [CheckedEvent]) -> Result<Texts<'a>, OutOfMemory>
    ensures { IfOk result (λ texts. (x : Listed ℕ) → has texts x
        ≡ is_among (joined (map (λ e. e.refines) events.entry.now)) x) }
{
    let mut texts = BTreeSet::new(alloc);
    for event in events {
        add_names(&mut texts, event.refines.items())?;
    }
    Ok(texts)
}

fn add_unrefined(
    alloc: Global,
    names: &mut Vec<Name>,
    refined: &Texts<'_>,
    events: &[CheckedEvent],
) -> Result<(), OutOfMemory>
    ensures { OnOk result (names.new.items ≡ names.old.items
        ++ filter (λ n. not (has refined.now n)) (map (λ e. e.name) events.now)) }
{
    for event in events {
        push_unless(alloc, names, refined, &event.name)?;
    }
    Ok(())
}

/// The abstraction's events that none of these refines.
fn unrefined(
    alloc: Global,
    abstract_events: &[CheckedEvent],
    events: &[CheckedEvent],
) -> Result<List<Name>, OutOfMemory>
    ensures { IfOk result (λ names. names ≡ filter (λ n. not (is_among (joined (map (λ e. e.refines) events.now)) n))
        (map (λ e. e.name) abstract_events.now)) }
{
    let refined = refined_names(alloc, events)?;
    let mut names = Vec::new(alloc);
    add_unrefined(alloc, &mut names, &refined, abstract_events)?;
    Ok(List::of(names))
}

/// How many constants are seen, where there are fewer than 2 ^ 32.
fn variables_from(constants: &[Placed<'_, (Name, Ty)>]) -> Result<u32, OutOfMemory>
    ensures { IfOk result (λ from. from ≡ length (map placed constants.now)) }
{
    let from = count(constants.len())?;
    Ok(from)
}

/// The checked machine of what typing gave, where `new` are its new variables.
pub fn machine_of(
    alloc: Global,
    abstraction: Option<&CheckedMachine>,
    written: &WrittenMachine<'_>,
    view: &View<'_>,
    env: &Env,
    new: &[Name],
    invariants: Vec<Labelled>,
    variant: Option<Formula>,
    events: Vec<CheckedEvent>,
) -> Result<CheckedMachine, OutOfMemory>
    requires new { new.now ≡ new_variables (option_copied abstraction) (written_of written.now) }
    requires variables { (visible view.now).variables ≡ (abstract_view (option_copied abstraction)).variables }
    ensures { IfOk result (λ typed.
        typed ≡ checked_machine_of (option_copied abstraction.entry) (written_of written.now)
        (visible view.now) env.now invariants.items variant events.items) }
{
    let component = &written.name.name;
    let inherited = abstract_invariants(abstraction);
    let kept = abstract_variables(abstraction);
    let unrefined = unrefined(alloc, abstract_events(abstraction), &events)?;
    Ok(CheckedMachine {
        name: component.copy(alloc)?,
        abstraction: abstract_name(alloc, abstraction)?,
        env: checked_env(alloc, view, env, new)?,
        env_of: checked_env_of(alloc, view, component, new)?,
        variables_from: variables_from(&view.constants)?,
        axioms: List::of(copy_formulas(alloc, &view.axioms)?),
        axioms_of: List::of(copy_origins(alloc, &view.axioms)?),
        invariants: with_labelled(alloc, inherited, invariants)?,
        own_from: count(inherited.len())?,
        variables: List::of(names_of(alloc, written.variables)?),
        lost: lost_variables(alloc, kept, written.variables, view)?,
        variant,
        events: List::of(events),
        unrefined,
    })
}
