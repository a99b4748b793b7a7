//! Well-definedness and feasibility of actions.
ghost use Rattle.std.specs.Prelude.{◌≡◌, IfOk, OnOk, IsTrue, codes, fold, map};
ghost use Rattle.formula_core.specs.Texts.{is_part};
ghost use Rattle.model_core.specs.Each.{for_each};
ghost use Rattle.well_defined.specs.Conditions.{wd_of};
ghost use Rattle.well_defined.specs.Connectives.{conjoined};
ghost use Rattle.well_defined.specs.Predicates.{top};
ghost use Rattle.po_rules.specs.Gathering.{gathered};
ghost use Rattle.po_rules.specs.Rows.{action_condition, action_row, action_rows, feasible, for_some_of, from_base, of_kind};
ghost use Rattle.formula_core.specs.Names.{with_prime};
ghost use Rattle.po_machine.specs.Shared.{parts_in, view};

use crate::changes::with_primes;
use crate::gathered::Gathered;
use crate::labelled::items_from;
use crate::needed::{add_from_base, is_full, label_part};
use crate::parts::SharedParts;
use crate::predicates::{conjoined, for_every_of, for_some_of, instead_of, not_empty, top};
use formula_core::{Action, Formula, Label, Name, OutOfMemory, Ty};
use std::alloc::Global;
use well_defined::wd;

/// The condition of some values, from left to right.
fn values_condition(alloc: Global, pairs: &[(Name, Formula)]) -> Result<Formula, OutOfMemory>
    ensures { IfOk result (λ f. f ≡ fold conjoined top (map (λ x. wd_of x.1) pairs.now)) }
{
    let mut all = top(alloc);
    for pair in pairs {
        let Ok(condition) = wd(alloc, &pair.1) else {
            return instead_of(all, Err(OutOfMemory));
        };
        all = conjoined(alloc, all, condition)?;
    }
    Ok(all)
}

/// The condition of an action's sides.
fn action_condition(alloc: Global, action: &Action) -> Result<Formula, OutOfMemory>
    ensures { IfOk result (λ f. f ≡ action_condition action.now) }
{
    match action {
        Action::Assign(pairs) => values_condition(alloc, pairs.items()),
        Action::ChooseIn(_, set) => wd(alloc, set),
        Action::ChooseSuch(targets, predicate) => {
            let primed = with_primes(alloc, targets.items())?;
            let condition = wd(alloc, predicate)?;
            let all = for_every_of(alloc, &primed, &condition);
            instead_of(condition, all)
        }
    }
}

/// That some new values meet the predicate.
fn some_values(
    alloc: Global,
    targets: &[(Name, Ty)],
    predicate: &Formula,
) -> Result<Formula, OutOfMemory>
    ensures { IfOk result (λ f. f ≡ for_some_of (map with_prime targets.now) predicate.now) }
{
    let primed = with_primes(alloc, targets)?;
    for_some_of(alloc, &primed, predicate)
}

/// Adds that a nondeterministic action can happen.
fn add_feasible(
    alloc: Global,
    out: &mut Gathered,
    parts: &SharedParts<'_>,
    label: &str,
    action: &Action,
) -> Result<(), OutOfMemory>
    requires { IsTrue (is_part label.now) }
    ensures { OnOk result (view out.new ≡ gathered (view out.old)
        (for_each (from_base (parts_in parts.now) (of_kind label.now (codes "FIS"))) (feasible action.now))) }
{
    match action {
        Action::Assign(_) => Ok(()),
        Action::ChooseIn(_, set) => {
            let goal = not_empty(alloc, set)?;
            add_from_base(alloc, out, parts, label, "FIS", goal)
        }
        Action::ChooseSuch(targets, predicate) => {
            let goal = some_values(alloc, targets.items(), predicate)?;
            add_from_base(alloc, out, parts, label, "FIS", goal)
        }
    }
}

/// Adds that an action's sides have values and that it can happen.
fn add_action_row(
    alloc: Global,
    out: &mut Gathered,
    parts: &SharedParts<'_>,
    action: &(Label, Action),
) -> Result<(), OutOfMemory>
    ensures { OnOk result (view out.new ≡ gathered (view out.old) (action_row (parts_in parts.now) action.now)) }
{
    if is_full(out) {
        return Ok(());
    }
    let label = label_part(&action.0);
    let goal = action_condition(alloc, &action.1)?;
    add_from_base(alloc, out, parts, label, "WD", goal)?;
    add_feasible(alloc, out, parts, label, &action.1)
}

/// Adds well-definedness and feasibility of each own action of an event. `OutOfMemory` is also the answer where a target has
/// a prime: no checked machine has one.
pub fn add_action_rows(
    alloc: Global,
    out: &mut Gathered,
    parts: &SharedParts<'_>,
) -> Result<(), OutOfMemory>
    ensures { OnOk result (view out.new
        ≡ gathered (view out.old) (action_rows parts.now.event.now (parts_in parts.now))) }
{
    for action in items_from(parts.event.actions.items(), parts.event.own_actions_from) {
        add_action_row(alloc, out, parts, action)?;
    }
    Ok(())
}
