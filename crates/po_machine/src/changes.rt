//! What actions change, and to what.
ghost use Rattle.std.specs.Prelude.{◌≡◌, ◌++◌, ◌∷◌, [], IfOk, OnOk, map};
ghost use Rattle.std.specs.Option.{option_copied};
ghost use Rattle.formula_core.specs.Names.{prime, with_prime};
ghost use Rattle.formula_core.specs.Types.{members};
ghost use Rattle.formula_core.specs.Wellness.{type_of};
ghost use Rattle.formula_core.specs.declared.raw.Action.TheVariants as action;
ghost use Rattle.model_core.specs.Each.{for_each};
ghost use Rattle.po_rules.specs.Parts.{as_term, before_after, new_values, open_targets};
ghost use Rattle.po_machine.specs.Private.{is_wanted_name, wanted_of};

use crate::names::Names;
use crate::predicates::{instead_of, of_two};
use formula_core::{Action, Formula, Label, List, Name, Op, OutOfMemory, Ty};
use std::alloc::Global;

/// Of which variables something is wanted.
#[derive(Drop)]
pub(crate) enum Wanted<'a> {
    All,
    Among(Names<'a>),
}

fn is_wanted(wanted: &Wanted<'_>, name: &Name) -> bool
    ensures { result ≡ is_wanted_name wanted.now name.now }
{
    match wanted {
        Wanted::All => true,
        Wanted::Among(names) => names.has(name),
    }
}

/// The identifier with a prime at its end. No target and no variable of a checked component has a prime, which is not
/// proved here: for one that has, this answers `OutOfMemory`.
pub(crate) fn primed(alloc: Global, name: &Name) -> Result<Name, OutOfMemory>
    ensures { IfOk result (λ p. p ≡ name.now ++ prime ∷ []) }
{
    if name.is_primed() {
        return Err(OutOfMemory);
    }
    name.primed(alloc)
}

/// The term x', of the type of x.
pub(crate) fn primed_term(alloc: Global, name: &Name, ty: &Ty) -> Result<Formula, OutOfMemory>
    ensures { IfOk result (λ f. f ≡ as_term (with_prime (name.now, ty.now))) }
{
    Ok(Formula::Free(primed(alloc, name)?, ty.copy(alloc)?))
}

/// The type of the members of a set.
fn member_type<'a>(set: &'a Formula, integer: &'a Ty) -> Option<&'a Ty>
    requires { integer.now ≡ Ty.Int }
    ensures { option_copied result ≡ members (type_of set.now) }
{
    set.type_of(integer).members()
}

// Targets.

fn add_target(
    alloc: Global,
    name: &Name,
    ty: &Ty,
    wanted: &Wanted<'_>,
    out: &mut Vec<(Name, Ty)>,
) -> Result<(), OutOfMemory>
    ensures { OnOk result (out.new.items
        ≡ out.old.items ++ wanted_of wanted.entry.now ((name.entry.now, ty.entry.now) ∷ [])) }
{
    if is_wanted(wanted, name) {
        out.push((name.copy(alloc)?, ty.copy(alloc)?))?;
    }
    Ok(())
}

fn add_targets(
    alloc: Global,
    targets: &[(Name, Ty)],
    wanted: &Wanted<'_>,
    out: &mut Vec<(Name, Ty)>,
) -> Result<(), OutOfMemory>
    ensures { OnOk result (out.new.items ≡ out.old.items ++ wanted_of wanted.entry.now targets.entry.now) }
{
    for target in targets {
        add_target(alloc, &target.0, &target.1, wanted, out)?;
    }
    Ok(())
}

fn add_member_target(
    alloc: Global,
    name: &Name,
    set: &Formula,
    wanted: &Wanted<'_>,
    out: &mut Vec<(Name, Ty)>,
) -> Result<(), OutOfMemory>
    ensures { OnOk result (out.new.items
        ≡ out.old.items ++ wanted_of wanted.entry.now (open_targets (action.ChooseIn name.entry.now set.entry.now))) }
{
    let integer = Ty::Int;
    match member_type(set, &integer) {
        Some(ty) => add_target(alloc, name, ty, wanted, out),
        None => Ok(()),
    }
}

/// Adds the targets whose new values an action doesn't give.
fn add_open_targets(
    alloc: Global,
    action: &Action,
    wanted: &Wanted<'_>,
    out: &mut Vec<(Name, Ty)>,
) -> Result<(), OutOfMemory>
    ensures { OnOk result (out.new.items
        ≡ out.old.items ++ wanted_of wanted.entry.now (open_targets action.entry.now)) }
{
    match action {
        Action::Assign(_) => Ok(()),
        Action::ChooseIn(name, set) => add_member_target(alloc, name, set, wanted, out),
        Action::ChooseSuch(targets, _) => add_targets(alloc, targets.items(), wanted, out),
    }
}

pub(crate) fn add_all_open_targets(
    alloc: Global,
    actions: &[(Label, Action)],
    wanted: &Wanted<'_>,
    out: &mut Vec<(Name, Ty)>,
) -> Result<(), OutOfMemory>
    ensures { OnOk result (out.new.items
        ≡ out.old.items ++ wanted_of wanted.entry.now (for_each open_targets (map (λ a. a.1) actions.entry.now))) }
{
    for action in actions {
        add_open_targets(alloc, &action.1, wanted, out)?;
    }
    Ok(())
}

// New values.

fn add_value(
    alloc: Global,
    pair: &(Name, Formula),
    wanted: &Wanted<'_>,
    out: &mut Vec<(Name, Formula)>,
) -> Result<(), OutOfMemory>
    ensures { OnOk result (out.new.items ≡ out.old.items ++ wanted_of wanted.entry.now (pair.entry.now ∷ [])) }
{
    if is_wanted(wanted, &pair.0) {
        out.push((pair.0.copy(alloc)?, pair.1.copy(alloc)?))?;
    }
    Ok(())
}

fn add_values(
    alloc: Global,
    pairs: &[(Name, Formula)],
    wanted: &Wanted<'_>,
    out: &mut Vec<(Name, Formula)>,
) -> Result<(), OutOfMemory>
    ensures { OnOk result (out.new.items ≡ out.old.items ++ wanted_of wanted.entry.now pairs.entry.now) }
{
    for pair in pairs {
        add_value(alloc, pair, wanted, out)?;
    }
    Ok(())
}

fn add_open_value(
    alloc: Global,
    name: &Name,
    ty: &Ty,
    wanted: &Wanted<'_>,
    out: &mut Vec<(Name, Formula)>,
) -> Result<(), OutOfMemory>
    ensures { OnOk result (out.new.items ≡ out.old.items
        ++ wanted_of wanted.entry.now ((name.entry.now, as_term (with_prime (name.entry.now, ty.entry.now))) ∷ [])) }
{
    if is_wanted(wanted, name) {
        out.push((name.copy(alloc)?, primed_term(alloc, name, ty)?))?;
    }
    Ok(())
}

fn add_open_values(
    alloc: Global,
    targets: &[(Name, Ty)],
    wanted: &Wanted<'_>,
    out: &mut Vec<(Name, Formula)>,
) -> Result<(), OutOfMemory>
    ensures { OnOk result (out.new.items
        ≡ out.old.items ++ wanted_of wanted.entry.now (map (λ y. (y.0, as_term (with_prime y))) targets.entry.now)) }
{
    for target in targets {
        add_open_value(alloc, &target.0, &target.1, wanted, out)?;
    }
    Ok(())
}

fn add_member_value(
    alloc: Global,
    name: &Name,
    set: &Formula,
    wanted: &Wanted<'_>,
    out: &mut Vec<(Name, Formula)>,
) -> Result<(), OutOfMemory>
    ensures { OnOk result (out.new.items
        ≡ out.old.items ++ wanted_of wanted.entry.now (new_values (action.ChooseIn name.entry.now set.entry.now))) }
{
    let integer = Ty::Int;
    match member_type(set, &integer) {
        Some(ty) => add_open_value(alloc, name, ty, wanted, out),
        None => Ok(()),
    }
}

/// Adds the targets of an action with their new values.
fn add_new_values(
    alloc: Global,
    action: &Action,
    wanted: &Wanted<'_>,
    out: &mut Vec<(Name, Formula)>,
) -> Result<(), OutOfMemory>
    ensures { OnOk result (out.new.items ≡ out.old.items ++ wanted_of wanted.entry.now (new_values action.entry.now)) }
{
    match action {
        Action::Assign(pairs) => add_values(alloc, pairs.items(), wanted, out),
        Action::ChooseIn(name, set) => add_member_value(alloc, name, set, wanted, out),
        Action::ChooseSuch(targets, _) => add_open_values(alloc, targets.items(), wanted, out),
    }
}

pub(crate) fn add_all_new_values(
    alloc: Global,
    actions: &[(Label, Action)],
    wanted: &Wanted<'_>,
    out: &mut Vec<(Name, Formula)>,
) -> Result<(), OutOfMemory>
    ensures { OnOk result (out.new.items
        ≡ out.old.items ++ wanted_of wanted.entry.now (for_each new_values (map (λ a. a.1) actions.entry.now))) }
{
    for action in actions {
        add_new_values(alloc, &action.1, wanted, out)?;
    }
    Ok(())
}

// Before-after predicates.

/// `x' ∈ S`
fn add_membership(
    alloc: Global,
    name: &Name,
    set: &Formula,
    out: &mut Vec<Formula>,
) -> Result<(), OutOfMemory>
    ensures { OnOk result (out.new.items ≡ out.old.items ++ before_after (action.ChooseIn name.now set.now)) }
{
    let integer = Ty::Int;
    if let Some(ty) = member_type(set, &integer) {
        let value = primed_term(alloc, name, ty)?;
        let Ok(set) = set.copy(alloc) else {
            return instead_of(value, Err(OutOfMemory));
        };
        out.push(of_two(alloc, Op::Member, value, set)?)?;
    }
    Ok(())
}

/// Adds the before-after predicate of an action, where it is nondeterministic.
fn add_choice(alloc: Global, action: &Action, out: &mut Vec<Formula>) -> Result<(), OutOfMemory>
    ensures { OnOk result (out.new.items ≡ out.old.items ++ before_after action.now) }
{
    match action {
        Action::Assign(_) => Ok(()),
        Action::ChooseIn(name, set) => add_membership(alloc, name, set, out),
        Action::ChooseSuch(_, predicate) => {
            out.push(predicate.copy(alloc)?)?;
            Ok(())
        }
    }
}

/// The before-after predicates of actions.
pub(crate) fn choices_of(
    alloc: Global,
    actions: &[(Label, Action)],
) -> Result<Vec<Formula>, OutOfMemory>
    ensures { IfOk result (λ fs. fs.items ≡ for_each before_after (map (λ a. a.1) actions.now)) }
{
    let mut out = Vec::new(alloc);
    for action in actions {
        add_choice(alloc, &action.1, &mut out)?;
    }
    Ok(out)
}

/// Identifiers with primes at their ends.
pub(crate) fn with_primes(
    alloc: Global,
    identifiers: &[(Name, Ty)],
) -> Result<Vec<(Name, Ty)>, OutOfMemory>
    ensures { IfOk result (λ ids. ids.items ≡ map with_prime identifiers.now) }
{
    let mut out = Vec::new(alloc);
    for identifier in identifiers {
        out.push((primed(alloc, &identifier.0)?, identifier.1.copy(alloc)?))?;
    }
    Ok(out)
}
