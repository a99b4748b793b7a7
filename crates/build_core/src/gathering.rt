//! What the outcomes of a project's components give: obligations, faults and warnings.

ghost use Rattle.std.specs.Prelude.{◌≡◌, ◌++◌, ◌<◌, ◌≤◌, ◌+◌, ℕ, List, Some, Ok, IfOk, IfSome, IsErrOf, OnOk, bytes_eq, length, map};
ghost use Rattle.std.specs.Arc.{arc_value};
ghost use Rattle.std.specs.List.{AllByRecursion, IsDistinct};
ghost use Rattle.std.specs.Map.{keys_of};
ghost use Rattle.std.specs.Option.{option_copied};
ghost use Rattle.sequent_core.specs.declared.sequent.Obligation.{Obligation};
ghost use Rattle.po_rules.specs.Gathering.{table_limit, table_nodes};
ghost use Rattle.po_rules.specs.Tables.{obligations_of};
ghost use Rattle.model_core.specs.declared.checked.Checked.{Checked};
ghost use Rattle.static_check.specs.Settling.{own_name};
ghost use Rattle.build_core.specs.Tables.{IsTableOf, IsTooLargeOf, faults_in, refined_in, warnings_in};
ghost use Rattle.build_core.specs.Private.{AreJudged, AreMade, AreOwnsOf, AreSteady, IsComponentIn, IsIndex, IsJudged, IsOwn, OwnsOf, PassesLimitAt, Sets, abstraction_in, found, given_at, given_in, keeps_obligations, machine_in_outcome, own_list};

use crate::before::{Before, has_same_text, is_kept, is_refined_kept};
use crate::built::BuildFault;
use crate::checking::{Judged, Progress};
use crate::fault_line::{FaultLine, line_of};
use crate::index::component_of;
use crate::numbered::Numbered;
use crate::outcomes::Outcomes;
use crate::owns::{Own, made_shared, share_all};
use formula_core::{Name, OutOfMemory, Text};
use model_core::{Checked, CheckedMachine, Fault, RawComponent};
use po_generate::add_obligations;
use po_machine::{Gathered, TABLE_LIMIT};
use std::alloc::Global;
use std::collections::BTreeMap;
use std::sync::Arc;

fn machine_in<'a>(outcome: Option<&'a Result<Checked, Fault>>) -> Option<&'a CheckedMachine>
    ensures { option_copied result ≡ machine_in_outcome (option_copied outcome.entry) }
{
    match outcome {
        Some(Ok(Checked::Machine(machine))) => Some(machine),
        _ => None,
    }
}

/// The checked machine that a component refines.
fn abstraction_of<'a>(raw: &RawComponent, outcomes: &'a Outcomes) -> Option<&'a CheckedMachine>
    ensures { option_copied result ≡ abstraction_in outcomes.now (refined_in raw.now) }
{
    match raw {
        RawComponent::Context { .. } => None,
        RawComponent::Machine { refines, .. } => match refines {
            None => None,
            Some(refines) => machine_in(outcomes.get(&refines.name)),
        },
    }
}

/// Whether a component has the obligations of before: its text, its outcome and its abstraction are the same.
fn keeps_obligations(
    before: &Before<'_>,
    texts: &BTreeMap<Name, Text>,
    kept: &BTreeMap<Name, bool>,
    raw: &RawComponent,
) -> bool
    ensures { result ≡ keeps_obligations before.now.texts.now.entries texts.now.entries kept.now.entries raw.now }
{
    let name = &raw.heading().name;
    let keeps_abstraction = match raw {
        RawComponent::Context { .. } => true,
        RawComponent::Machine { refines, .. } => is_refined_kept(kept, refines),
    };
    has_same_text(before.texts, texts, name) && is_kept(kept, name) && keeps_abstraction
}

/// The obligations of before of a component, where they stand.
fn kept_own<'a>(
    before: &'a Before<'_>,
    texts: &BTreeMap<Name, Text>,
    progress: &Progress,
    raw: &RawComponent,
) -> Option<&'a Own>
    requires before { IsJudged before.now.texts.now.entries before.now.outcomes.now }
    requires owns { AreOwnsOf before.now.texts.now.entries before.now.owns.now.entries }
    requires once { IsDistinct bytes_eq (keys_of texts.now.entries) }
    requires read { IsComponentIn texts.now.entries raw.now }
    requires steady { AreSteady before.now.outcomes.now progress.now.outcomes progress.now.kept.entries }
    ensures { (checked : Checked) → found progress.now.outcomes (own_name raw.now) ≡ Some (Ok checked) →
        IfSome (option_copied result) (AreMade checked (abstraction_in progress.now.outcomes (refined_in raw.now))) }
{
    if keeps_obligations(before, texts, &progress.kept, raw) {
        before.owns.get(&raw.heading().name)
    } else {
        None
    }
}

/// Makes the obligations of a component without fault, behind so many formula nodes of those before it.
fn make_own(
    alloc: Global,
    checked: &Checked,
    abstraction: Option<&CheckedMachine>,
    nodes: u64,
) -> Result<Own, BuildFault>
    requires within { nodes ≤ table_limit }
    ensures made { IfOk result (λ own. AreMade checked.now (option_copied abstraction.entry) own) }
    ensures fits { IfOk result (λ own. nodes + own.nodes ≤ table_limit) }
    ensures full { (n : ℕ) → IsErrOf result (BuildFault.TableFull n) →
        PassesLimitAt (obligations_of checked.now (option_copied abstraction.entry)) nodes n }
{
    let mut out = Gathered {
        obligations: Vec::new(alloc),
        nodes,
    };
    add_obligations(alloc, &mut out, checked, abstraction)?;
    let Gathered {
        obligations,
        nodes: counted,
    } = out;
    if counted > TABLE_LIMIT {
        return Err(BuildFault::TableFull(counted));
    }
    let obligations = made_shared(alloc, obligations)?;
    Ok(Own {
        obligations,
        nodes: counted - nodes,
    })
}

/// The obligations of a component without fault: those of before where they stand and are within the limit, or new
/// ones.
fn take_or_make(
    alloc: Global,
    kept: Option<&Own>,
    checked: &Checked,
    abstraction: Option<&CheckedMachine>,
    nodes: u64,
) -> Result<Own, BuildFault>
    requires kept { IfSome (option_copied kept) (AreMade checked.now (option_copied abstraction)) }
    requires within { nodes ≤ table_limit }
    ensures made { IfOk result (λ own. AreMade checked.now (option_copied abstraction.entry) own) }
    ensures fits { IfOk result (λ own. nodes + own.nodes ≤ table_limit) }
    ensures full { (n : ℕ) → IsErrOf result (BuildFault.TableFull n) →
        PassesLimitAt (obligations_of checked.now (option_copied abstraction.entry)) nodes n }
{
    match kept {
        Some(own) if own.nodes <= TABLE_LIMIT - nodes => Ok(own.share(alloc)?),
        _ => make_own(alloc, checked, abstraction, nodes),
    }
}

/// The obligations of a component, taken over or made, behind so many formula nodes of those before it.
fn own_of(
    alloc: Global,
    before: &Before<'_>,
    texts: &BTreeMap<Name, Text>,
    judged: &Judged,
    name: &Name,
    nodes: u64,
) -> Result<Own, BuildFault>
    requires before { IsJudged before.now.texts.now.entries before.now.outcomes.now }
    requires owns { AreOwnsOf before.now.texts.now.entries before.now.owns.now.entries }
    requires judged { AreJudged texts.now.entries judged.now.components judged.now.progress.outcomes }
    requires index { IsIndex judged.now.components judged.now.index.entries }
    requires steady { AreSteady before.now.outcomes.now judged.now.progress.outcomes judged.now.progress.kept.entries }
    requires within { nodes ≤ table_limit }
    ensures own { IfOk result (λ own. OwnsOf judged.now.components judged.now.progress.outcomes name.now own) }
    ensures fits { IfOk result (λ own. nodes + own.nodes ≤ table_limit) }
    ensures full { (n : ℕ) → IsErrOf result (BuildFault.TableFull n) → (list : List Obligation)
        × IsOwn judged.now.components judged.now.progress.outcomes name.now list × PassesLimitAt list nodes n }
{
    match judged.progress.outcomes.get(name) {
        Some(Ok(checked)) => {
            let raw = component_of(&judged.components, &judged.index, name);
            let kept = kept_own(before, texts, &judged.progress, raw);
            let abstraction = abstraction_of(raw, &judged.progress.outcomes);
            let own = take_or_make(alloc, kept, checked, abstraction, nodes)?;
            Ok(own)
        }
        _ => Ok(Own {
            obligations: Vec::new(alloc),
            nodes: 0,
        }),
    }
}

/// The obligations of the components that were gone through.
#[derive(Drop)]
pub struct Collected {
    /// Those of each component, by its name.
    pub owns: BTreeMap<Name, Own>,
    pub obligations: Vec<Arc<Numbered>>,
    /// The formula nodes of their sequents.
    pub nodes: u64,
}

fn add_own(alloc: Global, out: &mut Collected, name: &Name, own: Own) -> Result<(), OutOfMemory>
    requires fits { out.old.nodes + own.nodes ≤ table_limit }
    ensures obligations { OnOk result (map arc_value out.new.obligations.items
        ≡ map arc_value out.old.obligations.items ++ own_list own) }
    ensures nodes { OnOk result (out.new.nodes ≡ out.old.nodes + own.nodes) }
    ensures owns { OnOk result (Sets out.old.owns.entries name.now own out.new.owns.entries) }
{
    let mut more = share_all(alloc, &own.obligations)?;
    out.obligations.append(&mut more)?;
    out.nodes += own.nodes;
    out.owns.insert(name.copy(alloc)?, own)?;
    Ok(())
}

/// Collects the obligations of the components without fault, in byte order of the components' names, until these have
/// more formula nodes than a table may have.
pub fn collect(
    alloc: Global,
    before: &Before<'_>,
    texts: &BTreeMap<Name, Text>,
    judged: &Judged,
) -> Result<Collected, BuildFault>
    requires before { IsJudged before.now.texts.now.entries before.now.outcomes.now }
    requires owns { AreOwnsOf before.now.texts.now.entries before.now.owns.now.entries }
    requires judged { AreJudged texts.now.entries judged.now.components judged.now.progress.outcomes }
    requires index { IsIndex judged.now.components judged.now.index.entries }
    requires steady { AreSteady before.now.outcomes.now judged.now.progress.outcomes judged.now.progress.kept.entries }
    ensures table { IfOk result (λ out. IsTableOf texts.now.entries (map arc_value out.obligations.items)) }
    ensures fits { IfOk result (λ out. table_nodes (map arc_value out.obligations.items) ≤ table_limit) }
    ensures owns { IfOk result (λ out. AreOwnsOf texts.now.entries out.owns.entries) }
    ensures full { (n : ℕ) → IsErrOf result (BuildFault.TableFull n) → IsTooLargeOf texts.now.entries n }
{
    let mut out = Collected {
        owns: BTreeMap::new(alloc),
        obligations: Vec::new(alloc),
        nodes: 0,
    };
    for (name, _) in texts {
        let own = own_of(alloc, before, texts, judged, name, out.nodes)?;
        add_own(alloc, &mut out, name, own)?;
    }
    Ok(out)
}

fn add_fault(
    alloc: Global,
    faults: &mut Vec<FaultLine>,
    text: &Text,
    outcome: Option<&Result<Checked, Fault>>,
) -> Result<(), OutOfMemory>
    requires { length text.now ≤ 65536 }
    ensures { OnOk result
        (faults.new.items ≡ faults.old.items ++ given_at (faults_in text.now) (option_copied outcome.entry)) }
{
    match outcome {
        Some(Err(fault)) => {
            let told = line_of(alloc, text, fault)?;
            faults.push(told)?;
            Ok(())
        }
        _ => Ok(()),
    }
}

/// The faults, in byte order of the components' names.
pub fn faults_in(
    alloc: Global,
    texts: &BTreeMap<Name, Text>,
    outcomes: &Outcomes,
) -> Result<Vec<FaultLine>, OutOfMemory>
    requires { AllByRecursion (λ entry. length entry.1 ≤ 65536) texts.now.entries }
    ensures { IfOk result (λ faults. faults.items ≡ given_in faults_in outcomes.now texts.now.entries) }
{
    let mut faults = Vec::new(alloc);
    for (name, text) in texts {
        add_fault(alloc, &mut faults, text, outcomes.get(name))?;
    }
    Ok(faults)
}

fn add_unrefined(
    alloc: Global,
    warnings: &mut Vec<(Name, Name)>,
    machine: &CheckedMachine,
) -> Result<(), OutOfMemory>
    ensures { OnOk result
        (warnings.new.items ≡ warnings.old.items ++ map (λ event. (machine.now.name, event)) machine.now.unrefined) }
{
    for event in machine.unrefined.items() {
        let name = machine.name.copy(alloc)?;
        warnings.push((name, event.copy(alloc)?))?;
    }
    Ok(())
}

fn add_warnings(
    alloc: Global,
    warnings: &mut Vec<(Name, Name)>,
    outcome: Option<&Result<Checked, Fault>>,
) -> Result<(), OutOfMemory>
    ensures { OnOk result
        ((text : List ℕ) → warnings.new.items
        ≡ warnings.old.items ++ given_at (warnings_in text) (option_copied outcome.entry)) }
{
    match outcome {
        Some(Ok(Checked::Machine(machine))) => {
            add_unrefined(alloc, warnings, machine)?;
            Ok(())
        }
        _ => Ok(()),
    }
}

/// The warnings, in byte order of the components' names.
pub fn warnings_in(
    alloc: Global,
    texts: &BTreeMap<Name, Text>,
    outcomes: &Outcomes,
) -> Result<Vec<(Name, Name)>, OutOfMemory>
    ensures { IfOk result
        (λ warnings. warnings.items ≡ given_in warnings_in outcomes.now texts.now.entries) }
{
    let mut warnings = Vec::new(alloc);
    for (name, _) in texts {
        add_warnings(alloc, &mut warnings, outcomes.get(name))?;
    }
    Ok(warnings)
}
