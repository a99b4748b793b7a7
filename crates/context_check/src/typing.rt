//! Formulas typed in order.

ghost use Rattle.std.specs.Prelude.{◌≡◌, ◌++◌, ◌∷◌, [], IfOk, OnOk, List};
ghost use Rattle.std.specs.Option.{option_copied};
ghost use Rattle.formula_core.specs.Env.{type_in};
ghost use Rattle.model_core.specs.declared.fault.Fault.{Fault};
ghost use Rattle.model_core.specs.Faults.{first_by_place};
ghost use Rattle.check_rules.specs.Contexts.{names_of};
ghost use Rattle.check_rules.specs.Typed.{IsTypedVariant, place_of_first, first_token_of_action, labelled_of};
ghost use Rattle.check_rules.specs.Typed.{never_typed, never_typed_row, in_order};
ghost use Rattle.context_check.specs.Typings.{AreTypedSoFar, AreTypedStepsSoFar};
ghost use Rattle.context_check.specs.Private.{IsCollected, IsToldBy, IsTypedFormula, IsTypedStep};

use formula_core::{Action, Env, Formula, Label, Name, OutOfMemory, RawAction, Ref, Ty};
use model_core::{
    Fault, FaultKind, Labelled, RawLabelled, RawStep, RawVariant, Shared, earlier, fault_at,
};
use std::alloc::Global;
use type_action::type_action;
use type_formula::{TypeFault, type_expression, type_predicate};

/// The formulas or actions that have a typing, and the first fault of the others.
#[derive(Drop)]
pub struct TypedParts<T> {
    pub typed: Vec<T>,
    pub first: Option<Fault>,
}

/// The fault of a formula that isn't typed, where this is its first token.
fn told_by(
    alloc: Global,
    component: &Name,
    first: u32,
    why: TypeFault,
) -> Result<Fault, OutOfMemory>
    ensures { IfOk result (λ fault. IsToldBy component.now first why fault) }
{
    match why {
        TypeFault::Unknown(name, place) => {
            fault_at(alloc, component, FaultKind::Unknown, place, name.as_text())
        }
        TypeFault::Clash => fault_at(alloc, component, FaultKind::TypesClash, first, ""),
        TypeFault::Untyped => fault_at(alloc, component, FaultKind::NoSingleType, first, ""),
        TypeFault::OutOfMemory => Err(OutOfMemory),
    }
}

fn labelled_of(
    alloc: Global,
    written: &RawLabelled,
    formula: Formula,
) -> Result<Labelled, OutOfMemory>
    ensures { IfOk result (λ labelled. labelled ≡ labelled_of written.now formula) }
{
    Ok(Labelled {
        label: Shared::new(alloc, written.label.copy(alloc)?)?,
        theorem: written.theorem,
        formula: Shared::new(alloc, formula)?,
    })
}

fn type_one(
    alloc: Global,
    component: &Name,
    env: &mut Env,
    wanted: &[Name],
    written: &RawLabelled,
) -> Result<Result<Labelled, Fault>, OutOfMemory>
    ensures { IfOk result (λ one. IsTypedFormula component.now env.old wanted.now written.now one env.new) }
{
    match type_predicate(alloc, env, wanted, &written.formula) {
        Ok(formula) => Ok(Ok(labelled_of(alloc, written, formula)?)),
        Err(why) => Ok(Err(told_by(alloc, component, written.first, why)?)),
    }
}

fn keep<T: Drop>(
    typed: &mut Vec<T>,
    first: Option<Fault>,
    one: Result<T, Fault>,
) -> Result<Option<Fault>, OutOfMemory>
    ensures { IfOk result (λ last. IsCollected typed.old.items first one typed.new.items last) }
{
    match one {
        Ok(part) => {
            typed.push(part)?;
            Ok(first)
        }
        Err(fault) => Ok(earlier(first, Some(fault))),
    }
}

/// Types the formulas in order. The environment grows by the names that they type.
pub fn type_all(
    alloc: Global,
    component: &Name,
    env: &mut Env,
    wanted: &[Name],
    labelled: &[RawLabelled],
) -> Result<TypedParts<Labelled>, OutOfMemory>
    ensures { IfOk result (λ all.
        AreTypedSoFar component.now env.old wanted.now labelled.now all.typed.items all.first env.new) }
{
    let mut typed = Vec::new(alloc);
    let mut first = None;
    for written in labelled {
        let one = type_one(alloc, component, env, wanted, written)?;
        first = keep(&mut typed, first, one)?;
    }
    Ok(TypedParts { typed, first })
}

/// The place of an action's first token, which is a target.
pub fn first_token_of_action(action: &RawAction) -> u32
    ensures { result ≡ first_token_of_action action.now }
{
    match action {
        RawAction::Assign(targets, _) => place_of_first(targets.items()),
        RawAction::Apply(target, _, _) => target.place,
        RawAction::ChooseIn(target, _) => target.place,
        RawAction::ChooseSuch(targets, _) => place_of_first(targets.items()),
    }
}

fn place_of_first(refs: &[Ref]) -> u32
    ensures { result ≡ place_of_first refs.now }
{
    match refs.first() {
        Some(r) => r.place,
        None => 0,
    }
}

fn type_step(
    alloc: Global,
    component: &Name,
    env: &Env,
    step: &RawStep,
) -> Result<Result<(Label, Action), Fault>, OutOfMemory>
    ensures { IfOk result (λ one. IsTypedStep component.now env.now step.now one) }
{
    match type_action(alloc, env, &step.action) {
        Ok(action) => Ok(Ok((step.label.copy(alloc)?, action))),
        Err(why) => {
            let first = first_token_of_action(&step.action);
            Ok(Err(told_by(alloc, component, first, why)?))
        }
    }
}

/// Types the actions.
pub fn type_actions(
    alloc: Global,
    component: &Name,
    env: &Env,
    steps: &[RawStep],
) -> Result<TypedParts<(Label, Action)>, OutOfMemory>
    ensures { IfOk result (λ all. AreTypedStepsSoFar component.now env.now steps.now all.typed.items all.first) }
{
    let mut typed = Vec::new(alloc);
    let mut first = None;
    for step in steps {
        let one = type_step(alloc, component, env, step)?;
        first = keep(&mut typed, first, one)?;
    }
    Ok(TypedParts { typed, first })
}

/// A variant that has a typing, or its fault.
#[derive(Drop)]
pub struct TypedVariant {
    pub typed: Option<Formula>,
    pub first: Option<Fault>,
}

/// Types a variant, if there is one.
pub fn type_variant(
    alloc: Global,
    component: &Name,
    env: &Env,
    variant: Option<&RawVariant>,
) -> Result<TypedVariant, OutOfMemory>
    ensures { IfOk result (λ v. (faults : List Fault)
        × IsTypedVariant component.now env.now (option_copied variant.entry) v.typed faults
        × (v.first ≡ first_by_place faults)) }
{
    let Some(written) = variant else {
        return Ok(TypedVariant {
            typed: None,
            first: None,
        });
    };
    match type_expression(alloc, env, None, &written.formula) {
        Ok(formula) => Ok(TypedVariant {
            typed: Some(formula),
            first: None,
        }),
        Err(why) => Ok(TypedVariant {
            typed: None,
            first: Some(told_by(alloc, component, written.first, why)?),
        }),
    }
}

fn never_typed_at(
    alloc: Global,
    component: &Name,
    env: &Env,
    declared: &Ref,
) -> Result<Option<Fault>, OutOfMemory>
    ensures { IfOk result (λ here. here ≡ first_by_place (never_typed_row component.now env.now [] declared.now)) }
{
    if env.get(&declared.name).is_some() {
        return Ok(None);
    }
    let here = fault_at(
        alloc,
        component,
        FaultKind::NoType,
        declared.place,
        declared.name.as_text(),
    )?;
    Ok(Some(here))
}

/// The first declared name that the environment lacks.
pub fn first_never_typed(
    alloc: Global,
    component: &Name,
    env: &Env,
    declared: &[Ref],
) -> Result<Option<Fault>, OutOfMemory>
    ensures { IfOk result (λ first. first ≡ first_by_place (never_typed component.now env.now declared.now)) }
{
    let mut first = None;
    for one in declared {
        let here = never_typed_at(alloc, component, env, one)?;
        first = earlier(first, here);
    }
    Ok(first)
}

/// Adds a name with its type, if it has one.
pub fn add_typed(
    alloc: Global,
    entries: &mut Vec<(Name, Ty)>,
    env: &Env,
    name: &Name,
) -> Result<(), OutOfMemory>
    ensures { OnOk result (entries.new.items ≡ entries.old.items ++ in_order env.now (name.now ∷ [])) }
{
    if let Some(ty) = env.get(name) {
        entries.push((name.copy(alloc)?, ty.copy(alloc)?))?;
    }
    Ok(())
}

/// Adds the declared names with their types, in declared order.
pub fn add_in_order(
    alloc: Global,
    entries: &mut Vec<(Name, Ty)>,
    env: &Env,
    declared: &[Ref],
) -> Result<(), OutOfMemory>
    ensures { OnOk result (entries.new.items ≡ entries.old.items ++ in_order env.now (names_of declared.now)) }
{
    for one in declared {
        add_typed(alloc, entries, env, &one.name)?;
    }
    Ok(())
}
