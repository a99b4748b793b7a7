//! What the rows of one event share.
ghost use Rattle.std.specs.Prelude.{◌≡◌, ◌++◌, ◌∷◌, [], IfOk, OnOk, bytes_eq, map, not};
ghost use Rattle.std.specs.List.{filter, filter_map, find};
ghost use Rattle.std.specs.Option.{option_copied, option_to_list};
ghost use Rattle.model_core.specs.Each.{for_each, is_among};
ghost use Rattle.po_rules.specs.Parts.{actions_of_first, after_pairs, obligation_env, parts_of, primed_values};
ghost use Rattle.formula_core.specs.Names.{with_prime};
ghost use Rattle.model_core.specs.Refined.{refined_by};
ghost use Rattle.po_machine.specs.Shared.{parts_in};
ghost use Rattle.po_machine.specs.declared.changes.Wanted.{Wanted};
ghost use Rattle.po_machine.specs.Private.{primed_value, substituted_witness, wanted_targets};

use crate::changes::{Wanted, add_all_new_values, add_all_open_targets, choices_of, primed};
use crate::names::Names;
use crate::predicates::instead_of;
use formula_core::{Action, Env, EnvFault, Formula, Label, Name, OutOfMemory, Ty};
use model_core::{CheckedEvent, CheckedMachine};
use std::alloc::Global;

/// What the rows of one event share. Axioms, invariants and guards are read from the machine and the event.
#[derive(Drop)]
pub struct SharedParts<'a> {
    pub machine: &'a CheckedMachine,
    pub event: &'a CheckedEvent,
    pub env: Env,
    /// The before-after predicates of the nondeterministic actions.
    pub choices: Vec<Formula>,
    /// The witnesses, with each primed variable replaced by its value after the event.
    pub witnesses: Vec<(Name, Formula)>,
    /// The new value of each variable that is changed, own or lost.
    pub after: Vec<(Name, Formula)>,
}

/// The first event of the name.
fn event_named<'a>(events: &'a [CheckedEvent], name: &Name) -> Option<&'a CheckedEvent>
    ensures { option_copied result ≡ find (λ x. bytes_eq name.now x.name) events.now }
{
    for event in events {
        if name.same(&event.name) {
            return Some(event);
        }
    }
    None
}

fn add_found<'a>(
    event: Option<&'a CheckedEvent>,
    found: &mut Vec<&'a CheckedEvent>,
) -> Result<(), OutOfMemory>
    ensures { OnOk result (map (λ x. x.now) found.new.items
        ≡ map (λ x. x.now) found.old.items ++ option_to_list (option_copied event.entry)) }
{
    if let Some(event) = event {
        found.push(event)?;
    }
    Ok(())
}

fn add_named<'a>(
    events: &'a [CheckedEvent],
    names: &[Name],
    found: &mut Vec<&'a CheckedEvent>,
) -> Result<(), OutOfMemory>
    ensures { OnOk result (map (λ x. x.now) found.new.items ≡ map (λ x. x.now) found.old.items
        ++ filter_map (λ name. find (λ x. bytes_eq name x.name) events.entry.now) names.now) }
{
    for name in names {
        add_found(event_named(events, name), found)?;
    }
    Ok(())
}

/// The events of the abstraction that an event refines, in order.
pub fn refined_by<'a>(
    alloc: Global,
    abstraction: Option<&'a CheckedMachine>,
    event: &CheckedEvent,
) -> Result<Vec<&'a CheckedEvent>, OutOfMemory>
    ensures { IfOk result (λ found.
        map (λ x. x.now) found.items ≡ refined_by (option_copied abstraction.entry) event.now) }
{
    let mut found = Vec::new(alloc);
    if let Some(machine) = abstraction {
        add_named(machine.events.items(), event.refines.items(), &mut found)?;
    }
    Ok(found)
}

/// The actions of the first of some events.
fn actions_of_first<'a>(refined: &[&'a CheckedEvent]) -> &'a [(Label, Action)]
    ensures { map (λ a. a.1) result.now ≡ actions_of_first (map (λ x. x.now) refined.now) }
{
    match refined.first() {
        Some(first) => first.actions.items(),
        None => &[],
    }
}

/// Adds a name with its type. In a checked machine no name of an event's environment is taken, which is not proved here:
/// for one that is, this answers `OutOfMemory`.
fn add_entry(env: &mut Env, name: Name, ty: Ty) -> Result<(), OutOfMemory>
    ensures { OnOk result (env.new ≡ env.old ++ (name, ty) ∷ []) }
{
    match env.add(name, ty) {
        Ok(()) => Ok(()),
        Err(_) => Err(OutOfMemory),
    }
}

fn add_params(alloc: Global, params: &[(Name, Ty)], env: &mut Env) -> Result<(), OutOfMemory>
    ensures { OnOk result (env.new ≡ env.old ++ params.now) }
{
    for param in params {
        add_entry(env, param.0.copy(alloc)?, param.1.copy(alloc)?)?;
    }
    Ok(())
}

/// Adds the parameters that aren't kept.
fn add_lost_params(
    alloc: Global,
    kept: &Names<'_>,
    params: &[(Name, Ty)],
    env: &mut Env,
) -> Result<(), OutOfMemory>
    ensures { OnOk result (env.new ≡ env.old ++ filter (λ x. not (is_among kept.entry.now x.0)) params.entry.now) }
{
    for param in params {
        if !kept.has(&param.0) {
            add_entry(env, param.0.copy(alloc)?, param.1.copy(alloc)?)?;
        }
    }
    Ok(())
}

fn add_all_lost_params(
    alloc: Global,
    kept: &Names<'_>,
    refined: &[&CheckedEvent],
    env: &mut Env,
) -> Result<(), OutOfMemory>
    ensures { OnOk result (env.new ≡ env.old ++ filter (λ x. not (is_among kept.entry.now x.0))
        (for_each (λ r. r.params) (map (λ x. x.now) refined.entry.now))) }
{
    for event in refined {
        add_lost_params(alloc, kept, event.params.items(), env)?;
    }
    Ok(())
}

/// Adds names with a prime at their ends.
fn add_primed(alloc: Global, targets: Vec<(Name, Ty)>, env: &mut Env) -> Result<(), OutOfMemory>
    ensures { OnOk result (env.new ≡ env.old ++ map with_prime targets.items) }
{
    for target in targets {
        let (name, ty) = target;
        add_entry(env, primed(alloc, &name)?, ty)?;
    }
    Ok(())
}

/// The variables that the machine no longer has.
fn lost_of<'a>(alloc: Global, machine: &'a CheckedMachine) -> Result<Wanted<'a>, OutOfMemory>
    ensures { IfOk result (λ wanted. wanted ≡ Wanted.Among machine.now.lost) }
{
    let lost = Names::of_list(alloc, machine.lost.items())?;
    Ok(Wanted::Among(lost))
}

/// The variables whose new values the actions of the event don't give, and the lost ones of the abstract event.
fn wanted_targets(
    alloc: Global,
    machine: &CheckedMachine,
    event: &CheckedEvent,
    refined: &[&CheckedEvent],
) -> Result<Vec<(Name, Ty)>, OutOfMemory>
    ensures { IfOk result (λ ids. ids.items ≡ wanted_targets machine.now event.now (map (λ x. x.now) refined.now)) }
{
    let mut targets = Vec::new(alloc);
    add_all_open_targets(alloc, event.actions.items(), &Wanted::All, &mut targets)?;
    let lost = lost_of(alloc, machine)?;
    add_all_open_targets(alloc, actions_of_first(refined), &lost, &mut targets)?;
    Ok(targets)
}

/// The names with which formulas of an event may be written.
fn obligation_env(
    alloc: Global,
    machine: &CheckedMachine,
    event: &CheckedEvent,
    refined: &[&CheckedEvent],
) -> Result<Env, OutOfMemory>
    ensures { IfOk result (λ env. env ≡ obligation_env machine.now event.now (map (λ x. x.now) refined.now)) }
{
    let mut env = machine.env.copy(alloc)?;
    add_params(alloc, event.params.items(), &mut env)?;
    let kept = Names::of_pairs(alloc, event.params.items())?;
    add_all_lost_params(alloc, &kept, refined, &mut env)?;
    let targets = wanted_targets(alloc, machine, event, refined)?;
    add_primed(alloc, targets, &mut env)?;
    env.shared(alloc)
}

/// Each variable that is changed, own or lost, with its value after the event.
fn after_pairs(
    alloc: Global,
    machine: &CheckedMachine,
    event: &CheckedEvent,
    refined: &[&CheckedEvent],
) -> Result<Vec<(Name, Formula)>, OutOfMemory>
    ensures { IfOk result (λ pairs. pairs.items ≡ after_pairs machine.now event.now (map (λ x. x.now) refined.now)) }
{
    let mut after = Vec::new(alloc);
    add_all_new_values(alloc, event.actions.items(), &Wanted::All, &mut after)?;
    let lost = lost_of(alloc, machine)?;
    add_all_new_values(alloc, actions_of_first(refined), &lost, &mut after)?;
    Ok(after)
}

/// A primed variable with the variable's value after the event.
fn primed_value(
    alloc: Global,
    variable: &(Name, Ty),
    after: &[(Name, Formula)],
) -> Result<(Name, Formula), OutOfMemory>
    ensures { IfOk result (λ pair. pair ≡ primed_value after.now variable.now) }
{
    let name = primed(alloc, &variable.0)?;
    let term = Formula::Free(variable.0.copy(alloc)?, variable.1.copy(alloc)?);
    let value = term.substitute_any(alloc, after);
    Ok((name, instead_of(term, value)?))
}

fn add_primed_values(
    alloc: Global,
    variables: &Names<'_>,
    entries: &[(Name, Ty)],
    after: &[(Name, Formula)],
    out: &mut Vec<(Name, Formula)>,
) -> Result<(), OutOfMemory>
    ensures { OnOk result (out.new.items ≡ out.old.items
        ++ map (primed_value after.entry.now) (filter (λ x. is_among variables.entry.now x.0) entries.entry.now)) }
{
    for entry in entries {
        if variables.has(&entry.0) {
            out.push(primed_value(alloc, entry, after)?)?;
        }
    }
    Ok(())
}

fn primed_values(
    alloc: Global,
    machine: &CheckedMachine,
    after: &[(Name, Formula)],
) -> Result<Vec<(Name, Formula)>, OutOfMemory>
    ensures { IfOk result (λ pairs. pairs.items ≡ primed_values machine.now after.now) }
{
    let variables = Names::of_both(alloc, machine.variables.items(), machine.lost.items())?;
    let mut out = Vec::new(alloc);
    add_primed_values(alloc, &variables, machine.env.entries(), after, &mut out)?;
    Ok(out)
}

/// Witnesses with terms in the place of identifiers.
fn substituted_witnesses(
    alloc: Global,
    pairs: &[(Name, Formula)],
    witnesses: &[(Name, Formula)],
) -> Result<Vec<(Name, Formula)>, OutOfMemory>
    ensures { IfOk result (λ ws. ws.items ≡ map (substituted_witness pairs.now) witnesses.now) }
{
    let mut out = Vec::new(alloc);
    for witness in witnesses {
        out.push((
            witness.0.copy(alloc)?,
            witness.1.substitute_any(alloc, pairs)?,
        ))?;
    }
    Ok(out)
}

/// The witnesses, with each primed variable replaced by its value after the event.
fn witnesses_of(
    alloc: Global,
    machine: &CheckedMachine,
    event: &CheckedEvent,
    after: &[(Name, Formula)],
) -> Result<Vec<(Name, Formula)>, OutOfMemory>
    ensures { IfOk result (λ ws.
        ws.items ≡ map (substituted_witness (primed_values machine.now after.now)) event.now.witnesses) }
{
    let witnesses = event.witnesses.items();
    if witnesses.is_empty() {
        return Ok(Vec::new(alloc));
    }
    let pairs = primed_values(alloc, machine, after)?;
    substituted_witnesses(alloc, &pairs, witnesses)
}

/// What the rows of an event share. `refined` are the events that it refines. `OutOfMemory` is also the answer where a name
/// would stand twice in the environment, or a variable or a target has a prime: no checked machine has these.
pub fn shared_parts<'a>(
    alloc: Global,
    machine: &'a CheckedMachine,
    event: &'a CheckedEvent,
    refined: &[&CheckedEvent],
) -> Result<SharedParts<'a>, OutOfMemory>
    ensures parts { IfOk result (λ p. parts_in p ≡ parts_of machine.now event.now (map (λ x. x.now) refined.now)) }
    ensures machine { IfOk result (λ p. p.machine.now ≡ machine.now) }
    ensures event { IfOk result (λ p. p.event.now ≡ event.now) }
{
    let env = obligation_env(alloc, machine, event, refined)?;
    let choices = choices_of(alloc, event.actions.items())?;
    let after = after_pairs(alloc, machine, event, refined)?;
    let witnesses = witnesses_of(alloc, machine, event, &after)?;
    Ok(SharedParts {
        machine,
        event,
        env,
        choices,
        witnesses,
        after,
    })
}
