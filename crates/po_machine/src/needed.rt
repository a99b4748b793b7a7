//! One obligation: left out where its goal is ⊤, and counted.
ghost use Rattle.std.specs.Prelude.{◌≡◌, ◌+◌, ◌-◌, ◌^◌, ◌++◌, ◌∷◌, [], ◌||◌, IfOk, OnOk, IsTrue, false, map, min, nat_lt, sum};
ghost use Rattle.formula_core.specs.Sizes.{formula_nodes};
ghost use Rattle.formula_core.specs.Texts.{is_kind, is_part};
ghost use Rattle.well_defined.specs.Connectives.{is_top};
ghost use Rattle.po_rules.specs.Gathering.{gathered, table_limit};
ghost use Rattle.po_rules.specs.Rows.{from_base, from_choices, from_witnesses, needed, of_kind};
ghost use Rattle.po_machine.specs.Shared.{parts_in, view};
ghost use Rattle.po_machine.specs.Private.{added_within, referenced, obligation_of};

use crate::gathered::Gathered;
use crate::hypotheses::{base_hypotheses, choice_hypotheses, witness_hypotheses};
use crate::parts::SharedParts;
use crate::predicates::{instead_of, is_top};
use formula_core::{Env, Formula, Label, List, Name, OutOfMemory, PoName};
use sequent_core::{Obligation, Sequent};
use std::alloc::Global;

/// How many formula nodes the sequents of a table may have.
pub const TABLE_LIMIT: u64 = 8_388_608;

/// Whether too many nodes were counted, so that nothing more is added.
pub(crate) fn is_full(out: &Gathered) -> bool
    ensures { result ≡ nat_lt table_limit out.now.nodes }
{
    out.nodes > TABLE_LIMIT
}

/// Whether an obligation with this goal is passed over: the goal is ⊤, or too many nodes were counted before.
pub(crate) fn is_idle(out: &Gathered, goal: &Formula) -> bool
    ensures { result ≡ (is_top goal.now || nat_lt table_limit out.now.nodes) }
{
    is_top(goal) || is_full(out)
}

fn nodes_of_all(formulas: &[&Formula]) -> u64
    ensures { result ≡ min (sum (map formula_nodes (referenced formulas.now))) (2 ^ 64 - 1) }
{
    let mut total: u64 = 0;
    for formula in formulas {
        total = total.saturating_add(formula.node_count());
    }
    total
}

/// The nodes that were counted before, with those of one sequent more.
fn nodes_with(before: u64, hyps: &[&Formula], goal: &Formula) -> u64
    ensures { result
        ≡ min (before + (sum (map formula_nodes (referenced hyps.now)) + formula_nodes goal.now)) (2 ^ 64 - 1) }
{
    before
        .saturating_add(nodes_of_all(hyps))
        .saturating_add(goal.node_count())
}

fn copied(alloc: Global, formulas: &[&Formula]) -> Result<List<Formula>, OutOfMemory>
    ensures { IfOk result (λ copies. copies ≡ referenced formulas.now) }
{
    let mut copies = Vec::with_capacity(alloc, formulas.len())?;
    for formula in formulas {
        formula.copy_onto(alloc, &mut copies)?;
    }
    Ok(List::of(copies))
}

fn add_obligation(
    alloc: Global,
    obligations: &mut Vec<Obligation>,
    name: PoName,
    env: &Env,
    hyps: &[&Formula],
    goal: Formula,
) -> Result<(), OutOfMemory>
    ensures { OnOk result (obligations.new.items
        ≡ obligations.old.items ++ obligation_of name env.now (referenced hyps.now) goal ∷ []) }
{
    let Ok(env) = env.copy(alloc) else {
        return instead_of(goal, Err(OutOfMemory));
    };
    let Ok(hyps) = copied(alloc, hyps) else {
        return instead_of(goal, Err(OutOfMemory));
    };
    let sequent = Sequent { env, hyps, goal };
    obligations.push(Obligation { name, sequent })?;
    Ok(())
}

/// Adds an obligation, unless with it there are too many nodes.
fn add_within(
    alloc: Global,
    obligations: &mut Vec<Obligation>,
    nodes: u64,
    name: PoName,
    env: &Env,
    hyps: &[&Formula],
    goal: Formula,
) -> Result<(), OutOfMemory>
    ensures { OnOk result (obligations.new.items
        ≡ added_within nodes obligations.old.items (obligation_of name env.now (referenced hyps.now) goal)) }
{
    if nodes > TABLE_LIMIT {
        return instead_of(goal, Ok(()));
    }
    add_obligation(alloc, obligations, name, env, hyps, goal)
}

/// Adds an obligation that isn't passed over.
pub(crate) fn add_one(
    alloc: Global,
    out: &mut Gathered,
    name: PoName,
    env: &Env,
    hyps: &[&Formula],
    goal: Formula,
) -> Result<(), OutOfMemory>
    requires { (is_top goal || nat_lt table_limit out.old.nodes) ≡ false }
    ensures { OnOk result (view out.new ≡ gathered (view out.old) (needed name env.now (referenced hyps.now) goal)) }
{
    let nodes = nodes_with(out.nodes, hyps, &goal);
    add_within(alloc, &mut out.obligations, nodes, name, env, hyps, goal)?;
    out.nodes = nodes;
    Ok(())
}

/// A label, as a part of an obligation's name.
#[tactic(auto, using(formula_core::proofs::Texts::label_is_part))]
pub fn label_part(label: &Label) -> &str
    ensures text { result.now ≡ label.now }
    ensures part { IsTrue (is_part result.now) }
{
    label.as_text()
}

/// An identifier, as a part of an obligation's name.
#[tactic(auto, using(formula_core::proofs::Texts::name_is_part))]
pub fn name_part(name: &Name) -> &str
    ensures text { result.now ≡ name.now }
    ensures part { IsTrue (is_part result.now) }
{
    name.as_text()
}

/// Adds an obligation at a part of an event, from axioms, invariants and guards, for INITIALISATION from the axioms alone.
pub fn add_from_base(
    alloc: Global,
    out: &mut Gathered,
    parts: &SharedParts<'_>,
    label: &str,
    kind: &str,
    goal: Formula,
) -> Result<(), OutOfMemory>
    requires label { IsTrue (is_part label.now) }
    requires kind { IsTrue (is_kind kind.now) }
    ensures { OnOk result (view out.new
        ≡ gathered (view out.old) (from_base (parts_in parts.now) (of_kind label.now kind.now) goal)) }
{
    if is_idle(out, &goal) {
        return instead_of(goal, Ok(()));
    }
    let Ok(name) = PoName::of_event_part(alloc, &parts.machine.name, &parts.event.name, label, kind)
    else {
        return instead_of(goal, Err(OutOfMemory));
    };
    let Ok(hyps) = base_hypotheses(alloc, parts) else {
        return instead_of(goal, Err(OutOfMemory));
    };
    add_one(alloc, out, name, &parts.env, &hyps, goal)
}

/// The same, with the before-after predicates among the hypotheses.
pub fn add_from_choices(
    alloc: Global,
    out: &mut Gathered,
    parts: &SharedParts<'_>,
    label: &str,
    kind: &str,
    goal: Formula,
) -> Result<(), OutOfMemory>
    requires label { IsTrue (is_part label.now) }
    requires kind { IsTrue (is_kind kind.now) }
    ensures { OnOk result (view out.new
        ≡ gathered (view out.old) (from_choices (parts_in parts.now) (of_kind label.now kind.now) goal)) }
{
    if is_idle(out, &goal) {
        return instead_of(goal, Ok(()));
    }
    let Ok(name) = PoName::of_event_part(alloc, &parts.machine.name, &parts.event.name, label, kind)
    else {
        return instead_of(goal, Err(OutOfMemory));
    };
    let Ok(hyps) = choice_hypotheses(alloc, parts) else {
        return instead_of(goal, Err(OutOfMemory));
    };
    add_one(alloc, out, name, &parts.env, &hyps, goal)
}

/// The same, with the before-after predicates and the witnesses among the hypotheses.
pub fn add_from_witnesses(
    alloc: Global,
    out: &mut Gathered,
    parts: &SharedParts<'_>,
    label: &str,
    kind: &str,
    goal: Formula,
) -> Result<(), OutOfMemory>
    requires label { IsTrue (is_part label.now) }
    requires kind { IsTrue (is_kind kind.now) }
    ensures { OnOk result (view out.new
        ≡ gathered (view out.old) (from_witnesses (parts_in parts.now) (of_kind label.now kind.now) goal)) }
{
    if is_idle(out, &goal) {
        return instead_of(goal, Ok(()));
    }
    let Ok(name) = PoName::of_event_part(alloc, &parts.machine.name, &parts.event.name, label, kind)
    else {
        return instead_of(goal, Err(OutOfMemory));
    };
    let Ok(hyps) = witness_hypotheses(alloc, parts) else {
        return instead_of(goal, Err(OutOfMemory));
    };
    add_one(alloc, out, name, &parts.env, &hyps, goal)
}

/// Adds an obligation of a whole event, from axioms, invariants and guards, for INITIALISATION from the axioms alone.
pub fn add_whole_from_base(
    alloc: Global,
    out: &mut Gathered,
    parts: &SharedParts<'_>,
    kind: &str,
    goal: Formula,
) -> Result<(), OutOfMemory>
    requires { IsTrue (is_kind kind.now) }
    ensures { OnOk result (view out.new ≡ gathered (view out.old) (from_base (parts_in parts.now) kind.now goal)) }
{
    if is_idle(out, &goal) {
        return instead_of(goal, Ok(()));
    }
    let Ok(name) = PoName::of_event(alloc, &parts.machine.name, &parts.event.name, kind) else {
        return instead_of(goal, Err(OutOfMemory));
    };
    let Ok(hyps) = base_hypotheses(alloc, parts) else {
        return instead_of(goal, Err(OutOfMemory));
    };
    add_one(alloc, out, name, &parts.env, &hyps, goal)
}

/// The same, with the before-after predicates among the hypotheses.
pub fn add_whole_from_choices(
    alloc: Global,
    out: &mut Gathered,
    parts: &SharedParts<'_>,
    kind: &str,
    goal: Formula,
) -> Result<(), OutOfMemory>
    requires { IsTrue (is_kind kind.now) }
    ensures { OnOk result (view out.new ≡ gathered (view out.old) (from_choices (parts_in parts.now) kind.now goal)) }
{
    if is_idle(out, &goal) {
        return instead_of(goal, Ok(()));
    }
    let Ok(name) = PoName::of_event(alloc, &parts.machine.name, &parts.event.name, kind) else {
        return instead_of(goal, Err(OutOfMemory));
    };
    let Ok(hyps) = choice_hypotheses(alloc, parts) else {
        return instead_of(goal, Err(OutOfMemory));
    };
    add_one(alloc, out, name, &parts.env, &hyps, goal)
}
