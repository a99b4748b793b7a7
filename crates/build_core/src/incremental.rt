//! A builder: what the texts of a project are built to, and what the next build takes over.

ghost use Rattle.std.specs.Prelude.{◌≡◌, ◌≤◌, ◌+◌, ℕ, List, [], length, map, bytes_eq, IfOk, IfSome, IfNone, IsErrOf, Ok};
ghost use Rattle.std.specs.Arc.{arc_value};
ghost use Rattle.std.specs.List.{IsDistinct};
ghost use Rattle.std.specs.Map.{keys_of};
ghost use Rattle.std.specs.Option.{option_copied};
ghost use Rattle.sequent_core.specs.declared.sequent.Obligation.{Obligation};
ghost use Rattle.model_core.specs.declared.checked.Checked.{Checked};
ghost use Rattle.po_rules.specs.Gathering.{table_limit, table_nodes};
ghost use Rattle.build_core.specs.Moved.{HasFewSteps};
ghost use Rattle.build_core.specs.Private.{AreListed, AreOwnsOf, IndexesTable, IsJudged};
ghost use Rattle.build_core.specs.Projects.{Checks, IsBuildableList};
ghost use Rattle.build_core.specs.Tables.{AreFaultsOf, AreWarningsOf, IsOfName, IsPlaceInTable, IsTableOf, IsTooLargeOf};

use crate::before::Before;
use crate::built::BuildFault;
use crate::checking::{Judged, Progress, judge};
use crate::components::Components;
use crate::copies::copy_texts;
use crate::fault_line::FaultLine;
use crate::gathering::{Collected, collect, faults_in, warnings_in};
use crate::numbered::Numbered;
use crate::outcomes::Outcomes;
use crate::owns::Own;
use crate::places::kept_places;
use formula_core::{Name, OutOfMemory, PoName, Steps, Text};
use model_core::Checked;
use sequent_core::Obligation;
use std::alloc::Global;
use std::collections::BTreeMap;
use std::marker::Model;
use std::sync::Arc;
use std::sync::ledger::Ledger;

/// What the texts of a project are built to, with all that the next build takes over where it hasn't moved. Contracts
/// see it as the project.
#[derive(Drop)]
pub struct Builder {
    texts: BTreeMap<Name, Text>,
    components: Components,
    index: BTreeMap<Name, usize>,
    outcomes: Outcomes,
    owns: BTreeMap<Name, Own>,
    table: Vec<Arc<Numbered>>,
    places: Arc<BTreeMap<PoName, usize>>,
    faults: Vec<FaultLine>,
    warnings: Vec<(Name, Name)>,
}

impl Model for Builder {
    ghost use Rattle.build_core.specs.Projects.{Project};

    ghost Value = { Project };

    ghost use Rattle.std.specs.Prelude.{map};
    ghost use Rattle.std.specs.Arc.{arc_value};
    ghost use Rattle.build_core.specs.PrivateBuilders.{IsBuilt};

    ghost view = { λ b. b.texts.entries };

    ghost invariant = { λ b. IsBuilt b.texts.entries b.components b.index.entries b.outcomes b.owns.entries
        (map arc_value b.table.items) (arc_value b.places).entries b.faults.items b.warnings.items };
}

impl Builder {
    /// The builder of no texts.
    fn empty(alloc: Global) -> Result<Builder, OutOfMemory>
        ensures { IfOk result (λ builder. builder ≡ []) }
    {
        let places = Arc::new(alloc, BTreeMap::new(alloc))?;
        Ok(Builder {
            texts: BTreeMap::new(alloc),
            components: Components::new(alloc),
            index: BTreeMap::new(alloc),
            outcomes: Outcomes::new(alloc),
            owns: BTreeMap::new(alloc),
            table: Vec::new(alloc),
            places,
            faults: Vec::new(alloc),
            warnings: Vec::new(alloc),
        })
    }

    /// Builds the texts of a project: each is read once, and each component is checked at most once, which is a step of
    /// the counter.
    pub fn new<L: Ledger>(
        alloc: Global,
        project: &BTreeMap<Name, Text>,
        steps: &mut Steps<L>,
    ) -> Result<Builder, BuildFault>
        requires small { IsBuildableList project.now.entries }
        ensures built { IfOk result (λ builder. builder ≡ project.now.entries) }
        ensures full { (n : ℕ) → IsErrOf result (BuildFault.TableFull n) → IsTooLargeOf project.now.entries n }
        ensures steps { steps.new ≤ steps.old + length project.now.entries }
    {
        let nothing = Builder::empty(alloc)?;
        nothing.build(alloc, project, steps)
    }

    /// Builds other texts. A text is read only if it is new or differs, or had a fault. A component is checked only if it
    /// may have moved, which is a step of the counter. What has not moved is shared with this builder: neither what a text
    /// was read as nor a checked component nor an obligation of it is copied, nor are its hypotheses numbered anew. The map
    /// of places is shared where all names have their places of before.
    pub fn build<L: Ledger>(
        &self,
        alloc: Global,
        project: &BTreeMap<Name, Text>,
        steps: &mut Steps<L>,
    ) -> Result<Builder, BuildFault>
        requires small { IsBuildableList project.now.entries }
        ensures built { IfOk result (λ builder. builder ≡ project.now.entries) }
        ensures full { (n : ℕ) → IsErrOf result (BuildFault.TableFull n) → IsTooLargeOf project.now.entries n }
        ensures steps { HasFewSteps self.now project.now.entries steps.old steps.new }
    {
        let before = Before {
            texts: &self.texts,
            components: &self.components,
            index: &self.index,
            outcomes: &self.outcomes,
            owns: &self.owns,
            table: &self.table,
            places: &self.places,
        };
        build_from(alloc, &before, project, steps)
    }

    /// The texts that were built.
    pub fn texts(&self) -> &BTreeMap<Name, Text>
        ensures texts { result.now.entries ≡ self.now }
        ensures distinct { IsDistinct bytes_eq (keys_of self.now) }
    {
        &self.texts
    }

    /// The obligations with the numbers of their hypotheses, in byte order of the components' names.
    pub fn table(&self) -> &[Arc<Numbered>]
        ensures table { IsTableOf self.now (map arc_value result.now) }
        ensures fits { table_nodes (map arc_value result.now) ≤ table_limit }
    {
        self.table.as_slice()
    }

    /// The obligation of a name.
    pub fn obligation(&self, name: &PoName) -> Option<&Obligation>
        ensures exact { (table : List Obligation) → IsTableOf self.now table →
            IsOfName table name.now (option_copied result) }
    {
        match self.places.get(name) {
            Some(place) => Some(self.table[*place].obligation()),
            None => None,
        }
    }

    /// The place in the table of the obligation of a name.
    pub fn place(&self, name: &PoName) -> Option<usize>
        ensures exact { (table : List Obligation) → IsTableOf self.now table → IsPlaceInTable table name.now result }
    {
        self.places.get(name).copied()
    }

    /// The first fault of each component that has one, in byte order of the components' names.
    pub fn faults(&self) -> &[FaultLine]
        ensures faults { AreFaultsOf self.now result.now }
    {
        self.faults.as_slice()
    }

    /// Each machine without fault with each event of its abstraction that none of its events refines or extends, in
    /// byte order of the machines' names.
    pub fn warnings(&self) -> &[(Name, Name)]
        ensures warnings { AreWarningsOf self.now result.now }
    {
        self.warnings.as_slice()
    }

    /// The checked component of a name. There is none where the name has no text, or its component has a fault.
    pub fn checked(&self, name: &Name) -> Option<&Checked>
        ensures checked { IfSome result (λ checked. Checks self.now name.now (Ok checked.now)) }
        ensures none { IfNone result ((checked : Checked) → Checks self.now name.now (Ok checked) → ⊥) }
    {
        match self.outcomes.get(name) {
            Some(Ok(checked)) => Some(checked),
            Some(Err(_)) => None,
            None => None,
        }
    }
}

/// Builds texts beside what was built before.
fn build_from<L: Ledger>(
    alloc: Global,
    before: &Before<'_>,
    texts: &BTreeMap<Name, Text>,
    steps: &mut Steps<L>,
) -> Result<Builder, BuildFault>
    requires small { IsBuildableList texts.now.entries }
    requires listed { AreListed before.now.texts.now.entries before.now.components.now before.now.index.now.entries }
    requires before { IsJudged before.now.texts.now.entries before.now.outcomes.now }
    requires owns { AreOwnsOf before.now.texts.now.entries before.now.owns.now.entries }
    requires placed { IndexesTable (map arc_value before.now.table.now) (arc_value before.now.places.now).entries }
    ensures built { IfOk result (λ builder. builder ≡ texts.now.entries) }
    ensures full { (n : ℕ) → IsErrOf result (BuildFault.TableFull n) → IsTooLargeOf texts.now.entries n }
    ensures steps { HasFewSteps before.now.texts.now.entries texts.now.entries steps.old steps.new }
{
    let judged = judge(alloc, before, texts, steps)?;
    let Collected {
        owns,
        obligations: table,
        ..
    } = collect(alloc, before, texts, &judged)?;
    let Judged {
        components,
        index,
        progress,
    } = judged;
    let Progress {
        outcomes,
        kept: _kept,
    } = progress;
    let faults = faults_in(alloc, texts, &outcomes)?;
    let warnings = warnings_in(alloc, texts, &outcomes)?;
    let places = kept_places(alloc, before, &table)?;
    let texts = copy_texts(alloc, texts)?;
    Ok(Builder {
        texts,
        components,
        index,
        outcomes,
        owns,
        table,
        places,
        faults,
        warnings,
    })
}
