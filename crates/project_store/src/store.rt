// The store: the core, behind a journal.
ghost use Rattle.std.specs.Prelude.{◌≡◌, ◌↔◌, ◌⊎◌, ⊤, ◌+◌, ◌≤◌, ◌++◌, ◌∷◌, [], List, Option, None, Some, Err, IfOk, OnOk, OnErr, IsErrOf, MatchResult};
ghost use Rattle.std.specs.Option.{option_map, option_copied};
ghost use Rattle.std.specs.FinMap as map;
ghost use Rattle.outside.specs.Cause.{Rose};
ghost use Rattle.outside.specs.Disk.{Sides, LeavesOnly};
ghost use Rattle.build_core.specs.Moved.{HasFewSteps};
ghost use Rattle.sequent_core.specs.declared.Obligation.{Obligation};
ghost use Rattle.core_steps.specs.declared.events.Event.{Event};
ghost use Rattle.core_steps.specs.State.{opened};
ghost use Rattle.core_steps.specs.Table.{IsTableWithin};
ghost use Rattle.store_log.specs.declared.fault.StoreFault.{StoreFault};
ghost use Rattle.project_store.specs.declared.fault.KeptFault.{KeptFault};
ghost use Rattle.project_store.specs.Records.{Recovers};
ghost use Rattle.project_store.specs.Private.{IsActed, IsStopped, opening_fault};
ghost use Rattle.project_store.specs.Opening.{StoreMeaning, StandsFor, durable, IsCause, IsAnswerFor, StandsAsSome};
ghost use Rattle.project_store.specs.Store.{IsBeforeOrAfter, IsDiskFault, HasNoRoomFor, IsTooHeavy, Performs, again, failed_act, met};

use crate::acting::perform;
use crate::fault::{KeptFault, OpenFault};
use crate::moment::Opening;
use crate::opening::open_core;
use act_history::History;
use core_steps::{Durable, Event, Reply, opens_orderly};
use event_weights::weight_within;
use formula_core::Steps;
use journal_core::{Journal, JournalFault};
use outside::Disk;
use status_core::Core;
use std::alloc::Global;
use std::marker::{Model, PhantomData};
use std::snapshot::Snapshot;
use std::sync::ledger::Ledger;
use store_log::StoreFault;

/// The most that all events of a session may weigh together.
const MOST_WEIGHT: u64 = 67_108_864;

// What a call answers after this fault. Its event is let go.
fn again(fault: StoreFault, event: Event) -> StoreFault
    ensures { result ≡ again fault }
{
    drop(event);
    match fault {
        StoreFault::DiskFault => StoreFault::Failed,
        other => other,
    }
}

// Keeps the fault with the act that met it.
fn keep(kept: &mut Option<KeptFault>, fault: StoreFault, chair: u32, event: Event)
    ensures { kept.new ≡ Some (met fault chair event) }
{
    *kept = Some(KeptFault {
        fault,
        act: (chair, event),
    });
}

// Why the store isn't opened where the journal isn't.
fn opening_fault(fault: JournalFault) -> OpenFault
    ensures { result ≡ opening_fault fault }
{
    match fault {
        JournalFault::Foreign(side) => OpenFault::Foreign(side),
        JournalFault::Damaged(side, at) => OpenFault::Damaged(side, at),
        JournalFault::DiskFault => OpenFault::DiskFault,
        JournalFault::OutOfMemory => OpenFault::OutOfMemory,
    }
}

/// A project on a disk. Contracts know by `K` what a stop might have left by the time of its opening.
pub struct Store<D: Disk, K: Opening> {
    alloc: Global,
    journal: Journal<D>,
    core: Core,
    history: History<(u32, Event)>,
    weight: u64,
    // the first fault, and the act that met it
    kept: Option<KeptFault>,
    base: Snapshot<Durable>,
    count: u64,
    opening: PhantomData<K>,
}

impl<D: Disk, K: Opening> Model for Store<D, K> {
    ghost use Rattle.std.specs.Prelude.{◌≡◌};
    ghost use Rattle.project_store.specs.Moments.{HasStood};
    ghost use Rattle.project_store.specs.Store.{StoreState, IsSoundStore, weight as weight_of_all};

    ghost Value = { StoreState D };

    ghost use Rattle.std.specs.Coded.{codes, coded_ℕ, coded_list};
    ghost use Rattle.std.specs.FinMap as map;
    ghost use Rattle.sequent_core.specs.contracts.sequent.Sequent as goal_of;
    ghost use Rattle.sequent_core.specs.contracts.sequent.Ticket as taken;
    ghost use Rattle.core_steps.specs.Durable.{text_cmp};
    ghost use Rattle.core_steps.specs.contracts.durable.Durable as lasting;
    ghost use Rattle.core_steps.specs.contracts.events.Event as event_of;
    ghost use Rattle.project_store.specs.contracts.fault.KeptFault as kept_of;

    ghost coded = { Prim.hlevel (
      codes,
      D.code,
      lasting.the_row.coded,
      taken.the_row.coded,
      event_of.the_row.coded,
      kept_of.the_row.coded,
      map.code {R = text_cmp} (coded_list coded_ℕ) goal_of.the_row.coded,
    ) };

    ghost view = { λ s. record {
      journal = s.journal;
      core = s.core;
      history = s.history.items;
      kept = s.kept;
      base = s.base.value;
      count = s.count;
    } };

    ghost invariant = { λ s. IsSoundStore D.told D.bytes_of D.images D.faults (record {
      journal = s.journal;
      core = s.core;
      history = s.history.items;
      kept = s.kept;
      base = s.base.value;
      count = s.count;
    }) × (s.weight ≡ weight_of_all s.history.items)
        × (K.known → D.told → HasStood D.clock D.moments K.moment K.images K.moments (record {
          journal = s.journal;
          core = s.core;
          history = s.history.items;
          kept = s.kept;
          base = s.base.value;
          count = s.count;
        })) };
}

impl<D: Disk, K: Opening> Store<D, K> {
    ghost use Rattle.project_store.specs.Moments.{HasStood, IsOpenedOn};
    ghost use Rattle.project_store.specs.Store.{IsSoundStore, Rests};

    /// Opens the project on a disk. It may stop at any moment, and then the disk stands for what it stood for.
    pub fn start<L: Ledger>(
        alloc: Global,
        disk: D,
        steps: &mut Steps<L>,
    ) -> Result<Store<D, K>, (D, OpenFault)>
        requires opening { K.known → D.told → IsOpenedOn D.clock D.moments K.moment K.images K.moments D.images disk }

        // The durable is the one that the sides stand for; a fault has its cause in the sides.
        ensures opened { D.told → MatchResult result
            (λ store. Recovers (D.bytes_of disk) store.base)
            (λ refused. IsCause (D.bytes_of disk) refused.1) }
        // Sides stand for one thing at most, so a start answers exactly that, if the disk doesn't fail and memory is there.
        ensures exactly { D.told → (meaning : StoreMeaning) → StandsFor (D.bytes_of disk) meaning → MatchResult result
            (λ store. meaning ≡ durable store.base)
            (λ refused. IsAnswerFor meaning refused.1) }
        ensures fits { IfOk result (λ store. (table : List Obligation) × IsTableWithin store.base.built table) }
        ensures begun { IfOk result (λ store.
            (store.core ≡ opened store.base) × (store.history ≡ []) × (store.kept ≡ None)) }
        ensures count { IfOk result (λ store. store.count ≡ D.faults disk) }

        // A stop at any moment leaves what stands for what a stop at entry would have left; after Ok it leaves the durable.
        ensures any_moment { D.told → MatchResult result
            (λ store. LeavesOnly D.clock D.moments disk store.journal.disk (StandsAsSome (D.images disk)))
            (λ refused. LeavesOnly D.clock D.moments disk refused.0 (StandsAsSome (D.images disk))) }
        ensures standing { D.told → IfOk result (λ store. (c : Sides)
            → D.images store.journal.disk c → Recovers c store.base) }
        ensures fault { MatchResult result (λ _. ⊤) (λ refused.
            refused.1 ≡ OpenFault.DiskFault → Rose (D.faults disk) (D.faults refused.0)) }
        ensures steps { IfOk result (λ store. steps.new ≤ steps.old + map.len store.base.built) }
    {
        let count = disk.faults();
        let (journal, pieces) = match Journal::start(alloc, disk) {
            Ok(opened) => opened,
            Err((disk, fault)) => return Err((disk, opening_fault(fault))),
        };
        opens_orderly();
        match open_core(alloc, &pieces, steps) {
            Ok(core) => {
                let base = Snapshot::of(core.durable());
                Ok(Store {
                    alloc,
                    journal,
                    core,
                    history: History::new(alloc),
                    weight: 0,
                    kept: None,
                    base,
                    count,
                    opening: PhantomData,
                })
            }
            Err(fault) => Err((journal.into_disk(), fault)),
        }
    }

    /// Does an event as the chair's act: its entry is on the disk before it is answered. After a fault it does none.
    #[tactic(auto, using(crate::proofs::Preparing::no_steps))]
    pub fn apply<L: Ledger>(
        &mut self,
        chair: u32,
        event: Event,
        steps: &mut Steps<L>,
    ) -> Result<Reply, StoreFault>
        // One step, which is then the last of the history; without an entry there is no device call.
        ensures step { IfOk result (λ reply. Performs self.old event reply self.new) }
        ensures noted { OnOk result (self.new.history ≡ self.old.history ++ (chair, event) ∷ []) }
        ensures same { OnErr result ((self.new.core ≡ self.old.core) × (self.new.history ≡ self.old.history)) }
        ensures base { (self.new.base ≡ self.old.base) × (self.new.count ≡ self.old.count) }

        // A stop at any moment leaves the durable, or the one after the event's entry; after Ok it leaves the new one.
        ensures any_moment { D.told → (IsDiskFault self.old.kept → ⊥)
            → LeavesOnly D.clock D.moments self.old.journal.disk self.new.journal.disk
            (IsBeforeOrAfter self.old.core event) }
        ensures acknowledged { D.told → OnOk result ((c : Sides)
            → D.images self.new.journal.disk c → Recovers c self.new.core.durable) }

        // Which fault comes, the first of these, and what stays. All memory is taken before the first device call.
        ensures again { (kept : KeptFault) → self.old.kept ≡ Some kept
            → (result ≡ Err (again kept.fault)) × (self.new ≡ self.old) }
        ensures first { self.old.kept ≡ None → IsErrOf result StoreFault.Failed → ⊥ }
        ensures heavy { self.old.kept ≡ None
            → (IsErrOf result StoreFault.SessionFull ↔ IsTooHeavy self.old.history event) }
        ensures full { self.old.kept ≡ None → IsErrOf result StoreFault.JournalFull
            → HasNoRoomFor self.old.journal self.old.core event }
        ensures no_room { HasNoRoomFor self.old.journal self.old.core event
            → OnOk result ⊥ × (IsErrOf result StoreFault.DiskFault → ⊥) }
        ensures fault { IsErrOf result StoreFault.DiskFault
            → Rose (D.faults self.old.journal.disk) (D.faults self.new.journal.disk) }
        ensures untouched { OnErr result (IsErrOf result StoreFault.DiskFault ⊎ (self.new.journal ≡ self.old.journal)) }
        ensures kept { self.old.kept ≡ None → MatchResult result
            (λ _. self.new.kept ≡ None)
            (λ fault. self.new.kept ≡ Some (met fault chair event)) }
        ensures later { D.faults self.old.journal.disk ≤ D.faults self.new.journal.disk }

        // What is counted: checks of components, and looks through trees.
        ensures build { event ≡ Event.Build → HasFewSteps (map.entries self.old.core.durable.built)
            (map.entries self.old.core.durable.texts) steps.old steps.new }
        ensures steps { (event ≡ Event.Build → ⊥) → steps.new ≤ steps.old + 2 }
    {
        if let Some(kept) = &self.kept {
            return Err(again(kept.fault, event));
        }
        self.act(chair, event, steps)
    }

    // Does an event where no fault is kept.
    #[tactic(auto, using(crate::proofs::Preparing::no_steps))]
    fn act<L: Ledger>(
        &mut self,
        chair: u32,
        event: Event,
        steps: &mut Steps<L>,
    ) -> Result<Reply, StoreFault>
        requires sound { self.old.kept ≡ None }
        ensures outcome { MatchResult result
            (λ reply. IsActed D.told D.images self.old self.new chair event reply)
            (λ fault. IsStopped D.faults self.old self.new chair event fault) }
        ensures base { (self.new.base ≡ self.old.base) × (self.new.count ≡ self.old.count) }
        ensures any_moment { D.told → LeavesOnly D.clock D.moments self.old.journal.disk self.new.journal.disk
            (IsBeforeOrAfter self.old.core event) }
        ensures later { D.faults self.old.journal.disk ≤ D.faults self.new.journal.disk }
        ensures build { event ≡ Event.Build → HasFewSteps
            (map.entries self.old.core.durable.built) (map.entries self.old.core.durable.texts) steps.old steps.new }
        ensures steps { (event ≡ Event.Build → ⊥) → steps.new ≤ steps.old + 2 }
    {
        let room = MOST_WEIGHT - self.weight;
        let weight = match weight_within(&event, room) {
            Some(weight) => weight,
            None => {
                keep(&mut self.kept, StoreFault::SessionFull, chair, event);
                return Err(StoreFault::SessionFull);
            }
        };
        if self.history.reserve().is_err() {
            keep(&mut self.kept, StoreFault::OutOfMemory, chair, event);
            return Err(StoreFault::OutOfMemory);
        }
        match perform(self.alloc, &mut self.journal, &mut self.core, &event, steps) {
            Ok(reply) => {
                self.weight += weight;
                self.history.note((chair, event));
                Ok(reply)
            }
            Err(fault) => {
                keep(&mut self.kept, fault, chair, event);
                Err(fault)
            }
        }
    }

    /// The acts that were done, in order.
    pub fn history(&self) -> &History<(u32, Event)>
        ensures history { result.now.items ≡ self.now.history }
    {
        &self.history
    }

    /// The core.
    pub fn core(&self) -> &Core
        ensures core { result.now ≡ self.now.core }
    {
        &self.core
    }

    /// The first fault that an act met.
    pub fn kept_fault(&self) -> Option<StoreFault>
        ensures kept { result ≡ option_map (λ kept. kept.fault) self.now.kept }
    {
        match &self.kept {
            Some(kept) => Some(kept.fault),
            None => None,
        }
    }

    /// The chair and the event of the act that met a fault of the disk, if one did.
    pub fn failed(&self) -> Option<&(u32, Event)>
        ensures failed { option_copied result ≡ failed_act self.now.kept }
    {
        match &self.kept {
            Some(kept) if kept.fault == StoreFault::DiskFault => Some(&kept.act),
            _ => None,
        }
    }

    /// What holds of every store. At each moment since it was opened, a stop left what stood so.
    pub fn facts(&self)
        ensures facts { IsSoundStore D.told D.bytes_of D.images D.faults self.now }
        ensures any_moment { K.known → D.told → HasStood D.clock D.moments K.moment K.images K.moments self.now }
    {
        let _alloc = &self.alloc;
    }

    /// The disk, the acts and what lasts.
    pub fn into_parts(self) -> (D, History<(u32, Event)>, Durable)
        ensures disk { result.0 ≡ self.journal.disk }
        ensures history { result.1.items ≡ self.history }
        ensures durable { result.2 ≡ self.core.durable }
        ensures facts { IsSoundStore D.told D.bytes_of D.images D.faults self }
        ensures rests { Rests D.told D.bytes_of D.images self }
        ensures any_moment { K.known → D.told → HasStood D.clock D.moments K.moment K.images K.moments self }
    {
        self.facts();
        let Store {
            alloc: _,
            journal,
            core,
            history,
            weight: _,
            kept,
            base: _,
            count: _,
            opening: _,
        } = self;
        drop(kept);
        (journal.into_disk(), history, core.into_durable())
    }
}
