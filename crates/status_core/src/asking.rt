// Questions.
ghost use Rattle.std.specs.Prelude.{◌≡◌, ◌↔◌, List, [], map, IsTrue, IfOk, None};
ghost use Rattle.std.specs.List.{AllZip};
ghost use Rattle.std.specs.Arc.{arc_value};
ghost use Rattle.sequent_core.specs.declared.Obligation.{Obligation};
ghost use Rattle.sequent_core.specs.Sequents.{IsSequent};
ghost use Rattle.po_rules.specs.Sequents.{AreSequents};
ghost use Rattle.core_steps.specs.declared.events.Event.{Event};
ghost use Rattle.core_steps.specs.declared.events.Question.{Question};
ghost use Rattle.core_steps.specs.Status.{Shows};
ghost use Rattle.core_steps.specs.Table.{IsTable};
ghost use Rattle.status_core.specs.PrivateParts.{IsFirstOpen, Prepares};

use crate::core_state::Core;
use build_core::Numbered;
use core_steps::{FaultLine, PoMap, Reply, Status, StoredProof};
use durable_entries::state_digest;
use formula_core::{List, Name, OutOfMemory, PoName};
use prepared_events::Prepared;
use proof_entries::Origin;
use sequent_core::Ticket;
use std::alloc::Global;
use std::sync::Arc;
use table_lookup::status_and_origin;
use typed_tables::typed_tables;

impl Core {
    /// What comes of the question for the statuses.
    pub(crate) fn prepare_statuses(&self) -> Result<Prepared, OutOfMemory>
        ensures { IfOk result (λ p. Prepares self.now (Event.Ask Question.Statuses) p) }
    {
        typed_tables();
        let _texts = self.builder.texts();
        let table = self.builder.table();
        let shown = shown_statuses(self.alloc, &self.durable.proofs, table)?;
        Ok(self.tell(Reply::Statuses(List::of(shown))))
    }

    /// What comes of the question for the faults and the warnings.
    pub(crate) fn prepare_faults(&self) -> Result<Prepared, OutOfMemory>
        ensures { IfOk result (λ p. Prepares self.now (Event.Ask Question.Faults) p) }
    {
        self.has_table();
        let faults = copies(self.alloc, self.builder.faults())?;
        let warnings = copy_warnings(self.alloc, self.builder.warnings())?;
        let reply = Reply::Faults(List::of(faults), List::of(warnings));
        Ok(self.tell(reply))
    }

    /// What comes of the question for the digest.
    pub(crate) fn prepare_digest(&self) -> Result<Prepared, OutOfMemory>
        ensures { IfOk result (λ p. Prepares self.now (Event.Ask Question.Digest) p) }
    {
        self.has_table();
        let digest = state_digest(self.alloc, &self.durable)?;
        Ok(self.tell(Reply::Digest(digest)))
    }

    /// What comes of the question whether nothing is open and no ticket is out.
    pub(crate) fn prepare_idle(&mut self) -> Prepared
        ensures prepared { Prepares self.old (Event.Ask Question.Idle) result }
        ensures same { self.new ≡ self.old }
    {
        let found = self.find_open();
        self.tell_idle(found)
    }

    // Nothing is open where no open obligation was found.
    fn tell_idle(&self, found: Option<usize>) -> Prepared
        requires { (table : List Obligation) → IsTable self.now.durable.built table → IsFirstOpen self.now table found }
        ensures { Prepares self.now (Event.Ask Question.Idle) result }
    {
        self.has_table();
        let idle = is_idle(found, &self.out);
        self.tell(Reply::Idle(idle))
    }
}

// Whether nothing was found and no ticket is out.
fn is_idle(found: Option<usize>, out: &[Ticket]) -> bool
    ensures { IsTrue result ↔ (found ≡ None) × (out.now ≡ []) }
{
    found.is_none() && out.is_empty()
}

// The status of each obligation, and who made its proof.
fn shown_statuses(
    alloc: Global,
    proofs: &PoMap<StoredProof>,
    table: &[Arc<Numbered>],
) -> Result<Vec<(PoName, Status, Option<Origin>)>, OutOfMemory>
    requires { AreSequents (map arc_value table.now) }
    ensures { IfOk result (λ shown. AllZip (Shows proofs.now) (map arc_value table.now) shown.items) }
{
    let mut shown = Vec::new(alloc);
    for at in 0..table.len() {
        shown.push(shown_status(alloc, proofs, &table[at])?)?;
    }
    Ok(shown)
}

fn shown_status(
    alloc: Global,
    proofs: &PoMap<StoredProof>,
    numbered: &Numbered,
) -> Result<(PoName, Status, Option<Origin>), OutOfMemory>
    requires { IsSequent numbered.now.sequent }
    ensures { IfOk result (λ shown. Shows proofs.now numbered.now shown) }
{
    let (status, origin) = status_and_origin(proofs, numbered);
    let name = numbered.obligation().name.copy(alloc)?;
    Ok((name, status, origin))
}

fn copies(alloc: Global, faults: &[FaultLine]) -> Result<Vec<FaultLine>, OutOfMemory>
    ensures { IfOk result (λ copies. copies.items ≡ faults.now) }
{
    let mut copies = Vec::new(alloc);
    for fault in faults {
        copies.push(fault.copy(alloc)?)?;
    }
    Ok(copies)
}

fn copy_warnings(alloc: Global, warnings: &[(Name, Name)]) -> Result<Vec<(Name, Name)>, OutOfMemory>
    ensures { IfOk result (λ copies. copies.items ≡ warnings.now) }
{
    let mut copies = Vec::new(alloc);
    for (machine, event) in warnings {
        copies.push((machine.copy(alloc)?, event.copy(alloc)?))?;
    }
    Ok(copies)
}
