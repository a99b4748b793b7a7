//! Well-definedness and theorems: axioms, invariants and guards.
ghost use Rattle.std.specs.Prelude.{◌≡◌, IfOk, OnOk, IsTrue, take, drop};
ghost use Rattle.formula_core.specs.Texts.{is_kind};
ghost use Rattle.po_rules.specs.Gathering.{gathered};
ghost use Rattle.po_rules.specs.Rows.{axiom_rows, guard_rows, own_invariant_rows};
ghost use Rattle.po_machine.specs.Shared.{parts_in, view};
ghost use Rattle.po_machine.specs.Private.{referenced, obligation_name, needed_at, own_rows_at, row_at, rows_at, theorem_at};

use crate::gathered::Gathered;
use crate::hypotheses::{add_labelled, labelled_hypotheses, machine_hypotheses};
use crate::needed::{add_one, is_full, is_idle, label_part};
use crate::parts::SharedParts;
use crate::predicates::instead_of;
use formula_core::{Env, Formula, Label, Name, OutOfMemory, PoName};
use model_core::{CheckedContext, CheckedMachine, Labelled};
use std::alloc::Global;
use well_defined::wd;

/// The first items, so many or all.
pub(crate) fn first_items<T>(items: &[T], count: u32) -> &[T]
    ensures { result.now ≡ take count items.now }
{
    match items.get(..count as usize) {
        Some(first) => first,
        None => items,
    }
}

/// The items behind so many.
pub(crate) fn items_from<T>(items: &[T], from: u32) -> &[T]
    ensures { result.now ≡ drop from items.now }
{
    match items.get(from as usize..) {
        Some(rest) => rest,
        None => &[],
    }
}

/// Where labelled formulas stand: in a component itself or in an event of it, with their environment.
#[derive(Drop)]
pub(crate) struct Site<'a> {
    component: &'a Name,
    event: Option<&'a Name>,
    env: &'a Env,
}

fn name_at(alloc: Global, site: &Site<'_>, label: &Label, kind: &str) -> Result<PoName, OutOfMemory>
    requires { IsTrue (is_kind kind.now) }
    ensures { IfOk result (λ name. name ≡ obligation_name site.now label.now kind.now) }
{
    match site.event {
        None => PoName::of_labelled(alloc, site.component, label, kind),
        Some(event) => {
            PoName::of_event_part(alloc, site.component, event, label_part(label), kind)
        }
    }
}

fn add_at(
    alloc: Global,
    out: &mut Gathered,
    site: &Site<'_>,
    hyps: &[&Formula],
    label: &Label,
    kind: &str,
    goal: Formula,
) -> Result<(), OutOfMemory>
    requires { IsTrue (is_kind kind.now) }
    ensures { OnOk result (view out.new ≡ gathered
        (view out.old) (needed_at site.entry.now (referenced hyps.entry.now) label.entry.now kind.entry.now goal)) }
{
    if is_idle(out, &goal) {
        return instead_of(goal, Ok(()));
    }
    let Ok(name) = name_at(alloc, site, label, kind) else {
        return instead_of(goal, Err(OutOfMemory));
    };
    add_one(alloc, out, name, site.env, hyps, goal)
}

/// Adds that a theorem holds.
fn add_theorem(
    alloc: Global,
    out: &mut Gathered,
    site: &Site<'_>,
    hyps: &[&Formula],
    labelled: &Labelled,
) -> Result<(), OutOfMemory>
    ensures { OnOk result (view out.new
        ≡ gathered (view out.old) (theorem_at site.entry.now (referenced hyps.entry.now) labelled.entry.now)) }
{
    if !labelled.theorem {
        return Ok(());
    }
    let goal = labelled.formula.get().copy(alloc)?;
    add_at(alloc, out, site, hyps, labelled.label.get(), "THM", goal)
}

/// Adds that a labelled formula has a value and, where it is a theorem, that it holds.
fn add_row(
    alloc: Global,
    out: &mut Gathered,
    site: &Site<'_>,
    hyps: &[&Formula],
    labelled: &Labelled,
) -> Result<(), OutOfMemory>
    ensures { OnOk result (view out.new
        ≡ gathered (view out.old) (row_at site.entry.now (referenced hyps.entry.now) labelled.entry.now)) }
{
    if is_full(out) {
        return Ok(());
    }
    let goal = wd(alloc, labelled.formula.get())?;
    add_at(alloc, out, site, hyps, labelled.label.get(), "WD", goal)?;
    add_theorem(alloc, out, site, hyps, labelled)
}

/// Adds the rows of labelled formulas, each from the hypotheses and those before it.
fn add_rows<'a>(
    alloc: Global,
    out: &mut Gathered,
    site: &Site<'_>,
    hyps: Vec<&'a Formula>,
    own: &'a [Labelled],
) -> Result<(), OutOfMemory>
    ensures { OnOk result (view out.new
        ≡ gathered (view out.old) (rows_at site.entry.now (referenced hyps.entry.items) own.entry.now)) }
{
    let mut hyps = hyps;
    for labelled in own {
        add_row(alloc, out, site, &hyps, labelled)?;
        hyps.push(labelled.formula.get())?;
    }
    Ok(())
}

/// Adds the rows of own labelled formulas, which stand behind inherited ones.
fn add_own_rows<'a>(
    alloc: Global,
    out: &mut Gathered,
    site: &Site<'_>,
    hyps: Vec<&'a Formula>,
    all: &'a [Labelled],
    own_from: u32,
) -> Result<(), OutOfMemory>
    ensures { OnOk result (view out.new
        ≡ gathered (view out.old) (own_rows_at site.entry.now (referenced hyps.entry.items) all.entry.now own_from)) }
{
    let mut hyps = hyps;
    add_labelled(first_items(all, own_from), &mut hyps)?;
    add_rows(alloc, out, site, hyps, items_from(all, own_from))
}

/// Adds the obligations of a context: well-definedness of each own axiom, and that each own theorem holds.
pub fn add_axiom_rows(
    alloc: Global,
    out: &mut Gathered,
    context: &CheckedContext,
) -> Result<(), OutOfMemory>
    ensures { OnOk result (view out.new ≡ gathered (view out.old) (axiom_rows context.now)) }
{
    let site = Site {
        component: &context.name,
        event: None,
        env: &context.env,
    };
    let axioms = context.axioms.items();
    let hyps = Vec::new(alloc);
    add_own_rows(alloc, out, &site, hyps, axioms, context.own_from)
}

/// Adds well-definedness of each own invariant of a machine, and that each own theorem among them holds.
pub fn add_own_invariant_rows(
    alloc: Global,
    out: &mut Gathered,
    machine: &CheckedMachine,
) -> Result<(), OutOfMemory>
    ensures { OnOk result (view out.new ≡ gathered (view out.old) (own_invariant_rows machine.now)) }
{
    let site = Site {
        component: &machine.name,
        event: None,
        env: &machine.env,
    };
    let invariants = machine.invariants.items();
    let hyps = labelled_hypotheses(alloc, machine.axioms.items())?;
    add_own_rows(alloc, out, &site, hyps, invariants, machine.own_from)
}

/// Adds well-definedness of each own guard of an event, and that each own theorem among them holds.
pub fn add_guard_rows(
    alloc: Global,
    out: &mut Gathered,
    parts: &SharedParts<'_>,
) -> Result<(), OutOfMemory>
    ensures { OnOk result (view out.new
        ≡ gathered (view out.old) (guard_rows parts.now.machine.now parts.now.event.now (parts_in parts.now))) }
{
    let site = Site {
        component: &parts.machine.name,
        event: Some(&parts.event.name),
        env: &parts.env,
    };
    let guards = parts.event.guards.items();
    let hyps = machine_hypotheses(alloc, parts.machine)?;
    add_own_rows(alloc, out, &site, hyps, guards, parts.event.own_guards_from)
}
