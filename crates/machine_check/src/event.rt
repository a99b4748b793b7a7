//! The events of a machine.

ghost use Rattle.std.specs.Prelude.{◌≡◌, ℕ, List, IfOk, OnOk, map};
ghost use Rattle.std.specs.Option.{option_copied};
ghost use Rattle.check_rules.specs.Events.{extended_of, primed_env};
ghost use Rattle.machine_check.specs.PrivateTyped.{guards_in, actions_in, event_from, witness_env_from, ExtendsEntries};
ghost use Rattle.machine_check.specs.PrivateTyped.{AreTypedWitnesses, IsTypedSoFar, AreTypedEventsSoFar};

use crate::environment::{add_event_names, add_witness_names, inherited_params, primed_env};
use crate::parts::{event_names, with_actions, with_labelled, with_params, witnesses_of};
use check_rules::{AbstractEvents, refined};
use context_check::copies::{count, names_of};
use context_check::typing::{TypedParts, first_never_typed, type_actions, type_all};
use formula_core::{Action, Env, Label, Name, OutOfMemory, Ty};
use model_core::{CheckedEvent, Fault, Labelled, RawEvent, earlier};
use std::alloc::Global;

/// The event that it extends.
pub fn extended<'a>(refined: &[&'a CheckedEvent], event: &RawEvent) -> Option<&'a CheckedEvent>
    ensures { option_copied result ≡ extended_of event.now (map (λ x. x.now) refined.now) }
{
    if !event.extended {
        return None;
    }
    refined.first().copied()
}

pub fn guards_in<'a>(extended: Option<&'a CheckedEvent>) -> &'a [Labelled]
    ensures { result.now ≡ guards_in (option_copied extended.entry) }
{
    match extended {
        Some(event) => event.guards.items(),
        None => &[],
    }
}

pub fn actions_in<'a>(extended: Option<&'a CheckedEvent>) -> &'a [(Label, Action)]
    ensures { result.now ≡ actions_in (option_copied extended.entry) }
{
    match extended {
        Some(event) => event.actions.items(),
        None => &[],
    }
}

/// The checked event of what typing gave.
fn event_from(
    alloc: Global,
    event: &RawEvent,
    refined: &[&CheckedEvent],
    env: &Env,
    guards: Vec<Labelled>,
    witnesses: Vec<Labelled>,
    actions: Vec<(Label, Action)>,
) -> Result<CheckedEvent, OutOfMemory>
    ensures { IfOk result (λ typed. typed ≡ event_from event.now (map (λ x. x.now) refined.now) env.now
        guards.items witnesses.items actions.items) }
{
    let extended = extended(refined, event);
    let inherited_guards = guards_in(extended);
    let inherited_actions = actions_in(extended);
    let params = inherited_params(refined, event);
    Ok(CheckedEvent {
        name: event.name.name.copy(alloc)?,
        convergence: event.convergence,
        refines: event_names(alloc, refined)?,
        params: with_params(alloc, params, env, event.params.items())?,
        guards: with_labelled(alloc, inherited_guards, guards)?,
        own_guards_from: count(inherited_guards.len())?,
        witnesses: witnesses_of(alloc, witnesses)?,
        actions: with_actions(alloc, inherited_actions, actions)?,
        own_actions_from: count(inherited_actions.len())?,
    })
}

/// Types the witnesses of an event, where `primed` is the machine's environment with primed names, and the event adds
/// these names to the machine's.
fn type_witnesses(
    alloc: Global,
    component: &Name,
    refined: &[&CheckedEvent],
    event: &RawEvent,
    added: &[(Name, Ty)],
    primed: &mut Env,
) -> Result<TypedParts<Labelled>, OutOfMemory>
    ensures typed { IfOk result (λ all. AreTypedWitnesses component.now
        (witness_env_from (map (λ x. x.now) refined.now) event.now primed.old added.now)
        event.now.witnesses all.typed.items all.first) }
    ensures kept { OnOk result (primed.new ≡ primed.old) }
{
    if event.witnesses.items().is_empty() {
        return Ok(TypedParts {
            typed: Vec::new(alloc),
            first: None,
        });
    }
    let len = primed.entries().len();
    add_witness_names(alloc, primed, refined, event, added)?;
    let all = type_all(alloc, component, primed, &[], event.witnesses.items())?;
    primed.cut(len);
    Ok(all)
}

/// Types an event in an environment that grows by the names of the event. `primed` is that environment with the primed
/// names of the variables.
fn type_in_place(
    alloc: Global,
    component: &Name,
    events: &AbstractEvents<'_>,
    env: &mut Env,
    primed: &mut Env,
    event: &RawEvent,
) -> Result<(CheckedEvent, Option<Fault>), OutOfMemory>
    ensures typed { IfOk result (λ one. (names : List (List ℕ)) → primed.old ≡ primed_env env.old names
        → IsTypedSoFar component.now events.now names env.old event.now one.0 one.1) }
    ensures grown { OnOk result (ExtendsEntries env.old env.new) }
    ensures primed_kept { OnOk result (primed.new ≡ primed.old) }
{
    let len = env.entries().len();
    let refined = refined(alloc, events, event)?;
    add_event_names(alloc, env, &refined, event)?;
    let params = names_of(alloc, event.params.items())?;
    let guards = type_all(alloc, component, env, &params, event.guards.items())?;
    let untyped = first_never_typed(alloc, component, env, event.params.items())?;
    let added = &env.entries()[len..];
    let witnesses = type_witnesses(alloc, component, &refined, event, added, primed)?;
    let actions = type_actions(alloc, component, env, event.actions.items())?;
    let first = earlier(
        earlier(earlier(guards.first, untyped), witnesses.first),
        actions.first,
    );
    let typed = event_from(
        alloc,
        event,
        &refined,
        env,
        guards.typed,
        witnesses.typed,
        actions.typed,
    )?;
    Ok((typed, first))
}

/// Types an event, and answers the first fault of its formulas beside it.
fn type_event(
    alloc: Global,
    component: &Name,
    events: &AbstractEvents<'_>,
    env: &mut Env,
    primed: &mut Env,
    event: &RawEvent,
) -> Result<(CheckedEvent, Option<Fault>), OutOfMemory>
    ensures typed { IfOk result (λ one. (names : List (List ℕ)) → primed.old ≡ primed_env env.old names
        → IsTypedSoFar component.now events.now names env.old event.now one.0 one.1) }
    ensures kept { OnOk result (env.new ≡ env.old) }
    ensures primed_kept { OnOk result (primed.new ≡ primed.old) }
{
    let len = env.entries().len();
    let one = type_in_place(alloc, component, events, env, primed, event)?;
    env.cut(len);
    Ok(one)
}

/// Types the events of a machine, where `events` are those of the abstraction. The environment is as before.
pub fn type_events(
    alloc: Global,
    component: &Name,
    events: &AbstractEvents<'_>,
    variables: &[Name],
    env: &mut Env,
    written: &[RawEvent],
) -> Result<TypedParts<CheckedEvent>, OutOfMemory>
    ensures typed { IfOk result (λ all. AreTypedEventsSoFar component.now events.now variables.now env.old written.now
        all.typed.items all.first) }
    ensures kept { OnOk result (env.new ≡ env.old) }
{
    let mut primed = primed_env(alloc, env, variables)?;
    let mut typed = Vec::new(alloc);
    let mut first = None;
    for event in written {
        let (one, here) = type_event(alloc, component, events, env, &mut primed, event)?;
        typed.push(one)?;
        first = earlier(first, here);
    }
    Ok(TypedParts { typed, first })
}
