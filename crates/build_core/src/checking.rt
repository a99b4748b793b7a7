//! Checks the components of a project, references first.

ghost use Rattle.std.specs.Prelude.{◌≡◌, ◌≤◌, ◌+◌, [], None, Some, Err, IsSome, true, false, length, bytes_eq, IfOk, OnOk};
ghost use Rattle.std.specs.Arc.{arc_value};
ghost use Rattle.std.specs.List.{AllByRecursion, IsDistinct};
ghost use Rattle.std.specs.Map.{keys_of};
ghost use Rattle.std.specs.Option.{option_copied};
ghost use Rattle.static_check.specs.Settling.{ReferencesFirst, own_name};
ghost use Rattle.model_core.specs.Faults.{first_by_place};
ghost use Rattle.check_rules.specs.Contexts.{Outcome};
ghost use Rattle.build_core.specs.Moved.{HasFewSteps};
ghost use Rattle.build_core.specs.Projects.{wanted_references};
ghost use Rattle.build_core.specs.Private.{AreConcluded, AreJudged, AreListed, AreSet, AreSteady, ConcludesIn, HaveNames, IsBegun, IsComponentIn, IsIndex, IsJudged, IsStepFor, IsSteady, IsToldCyclic, Sets, faults_at, found};

use crate::before::{Before, stands};
use crate::components::Components;
use crate::index::{component_of, index_of};
use crate::outcomes::Outcomes;
use crate::parts::parts_of;
use crate::reading::{Readings, read_all};
use crate::references::first_reference_fault;
use crate::same::same_checked;
use formula_core::{Name, OutOfMemory, Steps, Text};
use model_core::{Checked, Fault, FaultKind, RawComponent, fault_at};
use static_check::{CheckFault, check};
use std::alloc::Global;
use std::collections::BTreeMap;
use std::sync::Arc;
use std::sync::ledger::Ledger;

/// The texts of a project, and the components that they were read as.
#[derive(Clone, Copy)]
struct Sources<'a> {
    texts: &'a BTreeMap<Name, Text>,
    components: &'a Components,
    /// The place of each component, by its name.
    index: &'a BTreeMap<Name, usize>,
}

/// Outcomes that are concluded one after another.
#[derive(Drop)]
pub struct Progress {
    pub outcomes: Outcomes,
    /// Whether an outcome is that of the build before.
    pub kept: BTreeMap<Name, bool>,
}

/// The outcome of a component, and whether it is that of the build before. This isn't asked of faults.
#[derive(Drop)]
struct Concluded {
    outcome: Arc<Result<Checked, Fault>>,
    kept: bool,
}

/// Checks a component whose references have no fault.
fn check_parts<L: Ledger>(
    alloc: Global,
    raw: &RawComponent,
    outcomes: &Outcomes,
    steps: &mut Steps<L>,
) -> Result<Result<Checked, Fault>, OutOfMemory>
    requires { None ≡ first_by_place (faults_at outcomes.now (own_name raw.now) (wanted_references raw.now)) }
    ensures outcome { IfOk result (λ outcome. ConcludesIn raw.now outcomes.now outcome) }
    ensures steps { steps.new ≤ steps.old + 1 }
{
    let parts = parts_of(alloc, raw, outcomes)?;
    match check(alloc, raw, &parts, steps) {
        Ok(checked) => Ok(Ok(checked)),
        Err(CheckFault::Fault(fault)) => Ok(Err(fault)),
        Err(CheckFault::OutOfMemory) => Err(OutOfMemory),
    }
}

/// Whether a component is without fault, as before, and the same.
fn is_as_before(before: Option<&Result<Checked, Fault>>, outcome: &Result<Checked, Fault>) -> bool
    ensures { IsSteady (option_copied before.entry) outcome.now result }
{
    match before {
        Some(Ok(one)) => match outcome {
            Ok(other) => same_checked(one, other),
            Err(_) => false,
        },
        _ => false,
    }
}

/// The outcome of before.
fn take_over(raw: &RawComponent, before: &Outcomes) -> Result<Concluded, OutOfMemory>
    requires { IsSome (found before.now (own_name raw.now)) }
    ensures outcome { IfOk result
        (λ concluded. found before.now (own_name raw.now) ≡ Some (arc_value concluded.outcome)) }
    ensures kept { IfOk result (λ concluded. concluded.kept ≡ true) }
{
    match before.share(&raw.heading().name)? {
        Some(outcome) => Ok(Concluded {
            outcome,
            kept: true,
        }),
        None => unreachable!(),
    }
}

/// What a component is checked to, whose references have no fault.
fn check_again<L: Ledger>(
    alloc: Global,
    before: &Outcomes,
    raw: &RawComponent,
    outcomes: &Outcomes,
    steps: &mut Steps<L>,
) -> Result<Concluded, OutOfMemory>
    requires { None ≡ first_by_place (faults_at outcomes.now (own_name raw.now) (wanted_references raw.now)) }
    ensures outcome { IfOk result
        (λ concluded. ConcludesIn raw.now outcomes.now (arc_value concluded.outcome)) }
    ensures steady { IfOk result (λ concluded.
        IsSteady (found before.now (own_name raw.now)) (arc_value concluded.outcome) concluded.kept) }
    ensures steps { steps.new ≤ steps.old + 1 }
{
    let outcome = check_parts(alloc, raw, outcomes, steps)?;
    let kept = is_as_before(before.get(&raw.heading().name), &outcome);
    let outcome = Arc::new(alloc, outcome)?;
    Ok(Concluded { outcome, kept })
}

/// The outcome of a component whose references have no fault.
fn conclude_parts<L: Ledger>(
    alloc: Global,
    before: &Before<'_>,
    texts: &BTreeMap<Name, Text>,
    raw: &RawComponent,
    progress: &Progress,
    steps: &mut Steps<L>,
) -> Result<Concluded, OutOfMemory>
    requires before { IsJudged before.now.texts.now.entries before.now.outcomes.now }
    requires once { IsDistinct bytes_eq (keys_of texts.now.entries) }
    requires component { IsComponentIn texts.now.entries raw.now }
    requires steady { AreSteady before.now.outcomes.now progress.now.outcomes progress.now.kept.entries }
    requires none { None ≡ first_by_place
        (faults_at progress.now.outcomes (own_name raw.now) (wanted_references raw.now)) }
    ensures outcome { IfOk result
        (λ concluded. ConcludesIn raw.now progress.now.outcomes (arc_value concluded.outcome)) }
    ensures steady { IfOk result (λ concluded.
        IsSteady (found before.now.outcomes.now (own_name raw.now)) (arc_value concluded.outcome) concluded.kept) }
    ensures steps { IsStepFor before.now.texts.now.entries texts.now.entries progress.now.outcomes
        progress.now.kept.entries raw.now steps.old steps.new }
{
    if stands(before.texts, texts, &progress.kept, raw) {
        let taken = take_over(raw, before.outcomes)?;
        return Ok(taken);
    }
    let checked = check_again(alloc, before.outcomes, raw, &progress.outcomes, steps)?;
    Ok(checked)
}

/// The outcome of a component whose references have a fault.
fn fault_of(alloc: Global, fault: Fault) -> Result<Concluded, OutOfMemory>
    ensures outcome { IfOk result (λ concluded. arc_value concluded.outcome ≡ Err fault) }
    ensures kept { IfOk result (λ concluded. concluded.kept ≡ false) }
{
    let outcome = Arc::new(alloc, Err(fault))?;
    Ok(Concluded {
        outcome,
        kept: false,
    })
}

/// The outcome of a component whose references have theirs.
fn conclude<L: Ledger>(
    alloc: Global,
    before: &Before<'_>,
    texts: &BTreeMap<Name, Text>,
    raw: &RawComponent,
    progress: &Progress,
    steps: &mut Steps<L>,
) -> Result<Concluded, OutOfMemory>
    requires before { IsJudged before.now.texts.now.entries before.now.outcomes.now }
    requires once { IsDistinct bytes_eq (keys_of texts.now.entries) }
    requires component { IsComponentIn texts.now.entries raw.now }
    requires steady { AreSteady before.now.outcomes.now progress.now.outcomes progress.now.kept.entries }
    ensures outcome { IfOk result
        (λ concluded. ConcludesIn raw.now progress.now.outcomes (arc_value concluded.outcome)) }
    ensures steady { IfOk result (λ concluded.
        IsSteady (found before.now.outcomes.now (own_name raw.now)) (arc_value concluded.outcome) concluded.kept) }
    ensures steps { IsStepFor before.now.texts.now.entries texts.now.entries progress.now.outcomes
        progress.now.kept.entries raw.now steps.old steps.new }
{
    let first = first_reference_fault(alloc, raw, &progress.outcomes)?;
    match first {
        Some(fault) => {
            let told = fault_of(alloc, fault)?;
            Ok(told)
        }
        None => {
            let concluded = conclude_parts(alloc, before, texts, raw, progress, steps)?;
            Ok(concluded)
        }
    }
}

fn set(
    alloc: Global,
    progress: &mut Progress,
    raw: &RawComponent,
    concluded: Concluded,
) -> Result<(), OutOfMemory>
    ensures outcomes { OnOk result
        (Sets progress.old.outcomes (own_name raw.now) (arc_value concluded.outcome) progress.new.outcomes) }
    ensures kept { OnOk result
        (Sets progress.old.kept.entries (own_name raw.now) concluded.kept progress.new.kept.entries) }
{
    let name = raw.heading().name.copy(alloc)?;
    progress.kept.insert(name, concluded.kept)?;
    let name = raw.heading().name.copy(alloc)?;
    progress.outcomes.set(name, concluded.outcome)?;
    Ok(())
}

fn add_concluded<L: Ledger>(
    alloc: Global,
    before: &Before<'_>,
    texts: &BTreeMap<Name, Text>,
    raw: &RawComponent,
    progress: &mut Progress,
    steps: &mut Steps<L>,
) -> Result<(), OutOfMemory>
    requires before { IsJudged before.now.texts.now.entries before.now.outcomes.now }
    requires once { IsDistinct bytes_eq (keys_of texts.now.entries) }
    requires component { IsComponentIn texts.now.entries raw.now }
    requires steady { AreSteady before.now.outcomes.now progress.old.outcomes progress.old.kept.entries }
    ensures outcomes { OnOk result ((outcome : Outcome) × ConcludesIn raw.now progress.old.outcomes outcome
        × Sets progress.old.outcomes (own_name raw.now) outcome progress.new.outcomes) }
    ensures steady { OnOk result (AreSteady before.now.outcomes.now progress.new.outcomes progress.new.kept.entries) }
    ensures steps { IsStepFor before.now.texts.now.entries texts.now.entries progress.old.outcomes
        progress.old.kept.entries raw.now steps.old steps.new }
{
    let concluded = conclude(alloc, before, texts, raw, progress, steps)?;
    set(alloc, progress, raw, concluded)?;
    Ok(())
}

fn add_cyclic(
    alloc: Global,
    before: &Before<'_>,
    raw: &RawComponent,
    progress: &mut Progress,
) -> Result<(), OutOfMemory>
    requires steady { AreSteady before.now.outcomes.now progress.old.outcomes progress.old.kept.entries }
    ensures outcomes { OnOk result ((outcome : Outcome) × IsToldCyclic raw.now progress.old.outcomes outcome
        × Sets progress.old.outcomes (own_name raw.now) outcome progress.new.outcomes) }
    ensures steady { OnOk result (AreSteady before.now.outcomes.now progress.new.outcomes progress.new.kept.entries) }
{
    let heading = raw.heading();
    let fault = fault_at(alloc, &heading.name, FaultKind::Cyclic, heading.place, "")?;
    let told = fault_of(alloc, fault)?;
    set(alloc, progress, raw, told)?;
    Ok(())
}

/// Gives the components of these names their outcomes, one after another.
fn conclude_sorted<L: Ledger>(
    alloc: Global,
    before: &Before<'_>,
    sources: &Sources<'_>,
    sorted: &[Name],
    progress: &mut Progress,
    steps: &mut Steps<L>,
) -> Result<(), OutOfMemory>
    requires before { IsJudged before.now.texts.now.entries before.now.outcomes.now }
    requires begun { IsBegun sources.now.texts.now.entries sources.now.components.now progress.old.outcomes }
    requires steady { AreSteady before.now.outcomes.now progress.old.outcomes progress.old.kept.entries }
    requires index { IsIndex sources.now.components.now sources.now.index.now.entries }
    requires names { HaveNames sources.now.components.now sorted.now }
    requires order { ReferencesFirst sources.now.components.now [] sorted.now }
    requires once { IsDistinct bytes_eq sorted.now }
    ensures outcomes { OnOk result
        (AreSet ConcludesIn sources.now.components.now sorted.now progress.old.outcomes progress.new.outcomes) }
    ensures steady { OnOk result (AreSteady before.now.outcomes.now progress.new.outcomes progress.new.kept.entries) }
    ensures steps { HasFewSteps before.now.texts.now.entries sources.now.texts.now.entries steps.old steps.new }
{
    for name in sorted {
        let raw = component_of(sources.components, sources.index, name);
        add_concluded(alloc, before, sources.texts, raw, progress, steps)?;
    }
    Ok(())
}

/// Gives the components of these names the fault that they reference each other.
fn tell_cyclic(
    alloc: Global,
    before: &Before<'_>,
    sources: &Sources<'_>,
    cyclic: &[Name],
    progress: &mut Progress,
) -> Result<(), OutOfMemory>
    requires steady { AreSteady before.now.outcomes.now progress.old.outcomes progress.old.kept.entries }
    requires index { IsIndex sources.now.components.now sources.now.index.now.entries }
    requires names { HaveNames sources.now.components.now cyclic.now }
    ensures outcomes { OnOk result
        (AreSet IsToldCyclic sources.now.components.now cyclic.now progress.old.outcomes progress.new.outcomes) }
    ensures steady { OnOk result (AreSteady before.now.outcomes.now progress.new.outcomes progress.new.kept.entries) }
{
    for name in cyclic {
        let raw = component_of(sources.components, sources.index, name);
        add_cyclic(alloc, before, raw, progress)?;
    }
    Ok(())
}

/// Gives each component its outcome, beside the faults of the texts that are none.
fn conclude_all<L: Ledger>(
    alloc: Global,
    before: &Before<'_>,
    sources: &Sources<'_>,
    progress: &mut Progress,
    steps: &mut Steps<L>,
) -> Result<(), OutOfMemory>
    requires before { IsJudged before.now.texts.now.entries before.now.outcomes.now }
    requires begun { IsBegun sources.now.texts.now.entries sources.now.components.now progress.old.outcomes }
    requires steady { AreSteady before.now.outcomes.now progress.old.outcomes progress.old.kept.entries }
    requires index { IsIndex sources.now.components.now sources.now.index.now.entries }
    ensures outcomes { OnOk result
        (AreConcluded sources.now.components.now progress.old.outcomes progress.new.outcomes) }
    ensures steady { OnOk result (AreSteady before.now.outcomes.now progress.new.outcomes progress.new.kept.entries) }
    ensures steps { HasFewSteps before.now.texts.now.entries sources.now.texts.now.entries steps.old steps.new }
{
    let order = sources.components.order(alloc)?;
    let sorted = order.sorted.items();
    conclude_sorted(alloc, before, sources, sorted, progress, steps)?;
    tell_cyclic(alloc, before, sources, order.cyclic.items(), progress)?;
    Ok(())
}

/// The components of a project, with the outcomes of all its texts.
#[derive(Drop)]
pub struct Judged {
    pub components: Components,
    /// The place of each component, by its name.
    pub index: BTreeMap<Name, usize>,
    pub progress: Progress,
}

/// Reads the texts of a project that aren't those of before, and checks its components beside those of before.
pub fn judge<L: Ledger>(
    alloc: Global,
    before: &Before<'_>,
    texts: &BTreeMap<Name, Text>,
    steps: &mut Steps<L>,
) -> Result<Judged, OutOfMemory>
    requires small { AllByRecursion (λ entry. length entry.1 ≤ 65536) texts.now.entries }
    requires listed { AreListed before.now.texts.now.entries before.now.components.now before.now.index.now.entries }
    requires before { IsJudged before.now.texts.now.entries before.now.outcomes.now }
    ensures judged { IfOk result (λ judged.
        AreJudged texts.now.entries judged.components judged.progress.outcomes) }
    ensures index { IfOk result (λ judged. IsIndex judged.components judged.index.entries) }
    ensures steady { IfOk result (λ judged.
        AreSteady before.now.outcomes.now judged.progress.outcomes judged.progress.kept.entries) }
    ensures steps { HasFewSteps before.now.texts.now.entries texts.now.entries steps.old steps.new }
{
    let Readings {
        components,
        outcomes,
    } = read_all(alloc, before, texts)?;
    let index = index_of(alloc, &components)?;
    let mut progress = Progress {
        outcomes,
        kept: BTreeMap::new(alloc),
    };
    let sources = Sources {
        texts,
        components: &components,
        index: &index,
    };
    conclude_all(alloc, before, &sources, &mut progress, steps)?;
    Ok(Judged {
        components,
        index,
        progress,
    })
}
