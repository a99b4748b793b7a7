//! `bad convergence`.
ghost use Rattle.std.specs.Prelude.{◌≡◌, ◌||◌, ◌&&◌, not, nat_le, length, map, IfOk, is_some};
ghost use Rattle.std.specs.List.{list_all, list_any};
ghost use Rattle.formula_core.specs.Types.{is_integer, members};
ghost use Rattle.formula_core.specs.Wellness.{type_of};
ghost use Rattle.model_core.specs.Faults.{first_by_place};
ghost use Rattle.model_core.specs.Components.{is_ordinary, is_convergent, is_anticipated};
ghost use Rattle.check_rules.specs.Refinements.{converges_badly, bad_variant, bad_variant_row};
ghost use Rattle.refine_check.specs.Private.{bad_convergence_of};

use check_rules::is_initialisation;
use formula_core::{Formula, Name, OutOfMemory, Ty};
use model_core::{CheckedEvent, Convergence, Fault, FaultKind, RawEvent, RawVariant, fault_at};
use std::alloc::Global;

fn is_ordinary(convergence: Convergence) -> bool
    ensures { result ≡ is_ordinary convergence }
{
    match convergence {
        Convergence::Ordinary => true,
        _ => false,
    }
}

fn is_convergent(convergence: Convergence) -> bool
    ensures { result ≡ is_convergent convergence }
{
    match convergence {
        Convergence::Convergent => true,
        _ => false,
    }
}

fn is_anticipated(convergence: Convergence) -> bool
    ensures { result ≡ is_anticipated convergence }
{
    match convergence {
        Convergence::Anticipated => true,
        _ => false,
    }
}

fn are_convergent(events: &[&CheckedEvent]) -> bool
    ensures { result ≡ list_all (λ a. is_convergent a.now.convergence) events.now }
{
    events.iter().all(|a| is_convergent(a.convergence))
}

fn has_ordinary(events: &[&CheckedEvent]) -> bool
    ensures { result ≡ list_any (λ a. is_ordinary a.now.convergence) events.now }
{
    events.iter().any(|a| is_ordinary(a.convergence))
}

fn has_anticipated(events: &[&CheckedEvent]) -> bool
    ensures { result ≡ list_any (λ a. is_anticipated a.now.convergence) events.now }
{
    events.iter().any(|a| is_anticipated(a.convergence))
}

fn has_some(events: &[&CheckedEvent]) -> bool
    ensures { result ≡ nat_le 1 (length events.now) }
{
    1 <= events.len()
}

fn lacks_variant(convergent: bool, has_variant: bool, some: bool, all_converge: bool) -> bool
    ensures { result ≡ (convergent && not has_variant && not (some && all_converge)) }
{
    convergent && !has_variant && !(some && all_converge)
}

fn is_bad(
    lacks: bool,
    ordinary: bool,
    of_ordinary: bool,
    of_anticipated: bool,
    starts: bool,
) -> bool
    ensures { result ≡ (lacks || not ordinary && of_ordinary || ordinary && of_anticipated || starts && not ordinary) }
{
    lacks || !ordinary && of_ordinary || ordinary && of_anticipated || starts && !ordinary
}

fn converges_badly(has_variant: bool, refined: &[&CheckedEvent], event: &RawEvent) -> bool
    ensures { result ≡ converges_badly has_variant (map (λ x. x.now) refined.now) event.now }
{
    let convergent = is_convergent(event.convergence);
    let some = has_some(refined);
    let all_converge = are_convergent(refined);
    let lacks = lacks_variant(convergent, has_variant, some, all_converge);
    let ordinary = is_ordinary(event.convergence);
    let of_ordinary = has_ordinary(refined);
    let of_anticipated = has_anticipated(refined);
    let starts = is_initialisation(event);
    is_bad(lacks, ordinary, of_ordinary, of_anticipated, starts)
}

/// An event that converges badly beside those that it refines.
pub(crate) fn bad_convergence(
    alloc: Global,
    component: &Name,
    refined: &[&CheckedEvent],
    has_variant: bool,
    event: &RawEvent,
) -> Result<Option<Fault>, OutOfMemory>
    ensures { IfOk result (λ first. first
        ≡ first_by_place (bad_convergence_of component.now (map (λ x. x.now) refined.now) has_variant event.now)) }
{
    if !converges_badly(has_variant, refined, event) {
        return Ok(None);
    }
    let here = fault_at(
        alloc,
        component,
        FaultKind::BadConvergence,
        event.name.place,
        "",
    )?;
    Ok(Some(here))
}

fn may_vary(formula: &Formula) -> bool
    ensures { result ≡ (is_integer (type_of formula.now) || is_some (members (type_of formula.now))) }
{
    let integer = Ty::Int;
    let ty = formula.type_of(&integer);
    ty.is_integer() || ty.members().is_some()
}

fn bad_variant_at(
    alloc: Global,
    component: &Name,
    written: &RawVariant,
    typed: &Formula,
) -> Result<Option<Fault>, OutOfMemory>
    ensures { IfOk result (λ first. first ≡ first_by_place (bad_variant_row component.now (written.now, typed.now))) }
{
    if may_vary(typed) {
        return Ok(None);
    }
    let here = fault_at(
        alloc,
        component,
        FaultKind::BadConvergence,
        written.first,
        "",
    )?;
    Ok(Some(here))
}

/// A variant that is neither an integer nor a set.
pub(crate) fn bad_variant(
    alloc: Global,
    component: &Name,
    written: &Option<RawVariant>,
    typed: &Option<Formula>,
) -> Result<Option<Fault>, OutOfMemory>
    ensures { IfOk result (λ first. first ≡ first_by_place (bad_variant component.now written.now typed.now)) }
{
    match written {
        Some(written) => match typed {
            Some(typed) => bad_variant_at(alloc, component, written, typed),
            None => Ok(None),
        },
        None => Ok(None),
    }
}
