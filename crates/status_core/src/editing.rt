// Edits, deletes, builds and purges.
ghost use Rattle.std.specs.Prelude.{◌≡◌, ◌≤◌, ◌↔◌, List, length, IsTrue, IfOk, OnOk};
ghost use Rattle.std.specs.FinMap as map;
ghost use Rattle.sequent_core.specs.declared.Obligation.{Obligation};
ghost use Rattle.build_core.specs.Tables.{IsTableOf};
ghost use Rattle.proof_entries.specs.declared.Entry.{Entry};
ghost use Rattle.core_steps.specs.declared.events.Event.{Event};
ghost use Rattle.core_steps.specs.declared.events.Reply.{Reply};
ghost use Rattle.core_steps.specs.Editing.{IsFullFor, lacking};
ghost use Rattle.core_steps.specs.Outcomes.{entering};
ghost use Rattle.prepared_events.specs.Prepared.{BuildsInFewSteps};
ghost use Rattle.status_core.specs.PrivateParts.{RefusesEdit, ComesAs, Prepares};

use crate::core_state::Core;
use build_core::{BuildFault, Builder, few_faults, one_table};
use core_steps::{PoMap, Project, Reply, StoredProof, Texts};
use formula_core::{List, Name, OutOfMemory, PoName, Steps, Text};
use prepared_events::{Built, Prepared};
use std::alloc::Global;
use std::sync::ledger::Ledger;

/// The most bytes of a component's text.
pub const TEXT_LIMIT: usize = 65_536;

/// The most components of a project.
pub const PROJECT_LIMIT: usize = 256;

// Whether the project has its most components, and none of this name.
fn is_full_for(texts: &Texts, name: &Name) -> bool
    ensures { IsTrue result ↔ IsFullFor texts.now name.now }
{
    texts.get(name).is_none() && texts.len() >= PROJECT_LIMIT
}

// Why the text isn't set, if it isn't.
fn refusal_of(texts: &Texts, name: &Name, text: &Text) -> Option<Reply>
    ensures { RefusesEdit texts.now name.now text.now result }
{
    if name.is_primed() {
        return Some(Reply::BadName);
    }
    if text.as_text().len() > TEXT_LIMIT {
        return Some(Reply::TextTooLong);
    }
    if is_full_for(texts, name) {
        return Some(Reply::ProjectFull);
    }
    None
}

impl Core {
    /// What comes of an edit.
    pub(crate) fn prepare_edit(&self, name: &Name, text: &Text) -> Result<Prepared, OutOfMemory>
        ensures { IfOk result (λ p. Prepares self.now (Event.Edit name.now text.now) p) }
    {
        self.has_table();
        match refusal_of(&self.durable.texts, name, text) {
            Some(reply) => Ok(self.tell(reply)),
            None => self.put_text(name, text),
        }
    }

    // The text is set.
    fn put_text(&self, name: &Name, text: &Text) -> Result<Prepared, OutOfMemory>
        requires short { length text.now ≤ 65536 }
        requires room { IsFullFor self.now.durable.texts name.now → ⊥ }
        ensures { IfOk result (λ p.
            ComesAs self.now (λ x. x ≡ entering self.now (Reply.Edited name.now) (Entry.Put name.now text.now)) p) }
    {
        let room = self.durable.texts.room_for(self.alloc, name)?;
        let edited = name.copy(self.alloc)?;
        let name = name.copy(self.alloc)?;
        let text = text.copy()?;
        let reply = Reply::Edited(edited);
        Ok(Prepared::putting(self.alloc, reply, name, text, room))
    }

    /// What comes of a delete.
    pub(crate) fn prepare_delete(&self, name: &Name) -> Result<Prepared, OutOfMemory>
        ensures { IfOk result (λ p. Prepares self.now (Event.Delete name.now) p) }
    {
        self.has_table();
        let told = name.copy(self.alloc)?;
        match self.durable.texts.get(name) {
            None => Ok(self.tell(Reply::NoSuch(told))),
            Some(_) => self.drop_text(told, name),
        }
    }

    // The component is dropped.
    fn drop_text(&self, told: Name, name: &Name) -> Result<Prepared, OutOfMemory>
        ensures { IfOk result (λ p.
            ComesAs self.now (λ x. x ≡ entering self.now (Reply.Deleted told) (Entry.Drop name.now)) p) }
    {
        let name = name.copy(self.alloc)?;
        Ok(Prepared::dropping(self.alloc, Reply::Deleted(told), name))
    }

    /// What comes of a build.
    pub(crate) fn prepare_build<L: Ledger>(
        &self,
        steps: &mut Steps<L>,
    ) -> Result<Prepared, OutOfMemory>
        ensures prepared { IfOk result (λ p. Prepares self.now Event.Build p) }
        ensures steps { BuildsInFewSteps self.now.durable steps.old steps.new }
    {
        self.has_table();
        let project = Project::of(self.alloc, &self.durable.texts)?;
        match self.builder.build(self.alloc, project.texts(), steps) {
            Ok(builder) => Ok(self.built(project, builder)),
            Err(BuildFault::TableFull(nodes)) => Ok(self.tell(Reply::TableFull(nodes))),
            Err(BuildFault::OutOfMemory) => Err(OutOfMemory),
        }
    }

    // The texts were built: the numbers of components, faulted ones and obligations are told.
    fn built(&self, project: Project, builder: Builder) -> Prepared
        requires project { project ≡ self.now.durable.texts }
        requires builder { builder ≡ map.entries project }
        ensures { Prepares self.now Event.Build result }
    {
        few_faults();
        self.has_table();
        let alloc = self.alloc;
        let components = project.len() as u32;
        let faulted = builder.faults().len() as u32;
        let obligations = builder.table().len() as u32;
        let reply = Reply::Built(components, faulted, obligations);
        Prepared::building(alloc, reply, Built { project, builder })
    }

    /// What comes of a purge.
    pub(crate) fn prepare_purge(&self) -> Result<Prepared, OutOfMemory>
        ensures { IfOk result (λ p. Prepares self.now Event.Purge p) }
    {
        self.has_table();
        let names = names_lacking(self.alloc, &self.durable.proofs, &self.builder)?;
        let reply = Reply::Purged(names.len() as u64);
        Ok(Prepared::purging(self.alloc, reply, List::of(names)))
    }
}

// The names of the stored proofs that the table lacks.
fn names_lacking(
    alloc: Global,
    proofs: &PoMap<StoredProof>,
    builder: &Builder,
) -> Result<Vec<PoName>, OutOfMemory>
    ensures names { IfOk result (λ names. (table : List Obligation) → IsTableOf builder.now table
        → names.items ≡ lacking proofs.now table) }
    ensures few { IfOk result (λ names. length names.items ≤ map.len proofs.now) }
{
    let mut names = Vec::new(alloc);
    for (name, _) in proofs.entries() {
        if builder.place(name).is_none() {
            names.push(name.copy(alloc)?)?;
        }
    }
    Ok(names)
}
