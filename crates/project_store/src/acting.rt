// One act of the store, over its parts.
ghost use Rattle.std.specs.Prelude.{◌≡◌, ◌⊎◌, ◌+◌, ◌<◌, ◌≤◌, ◌^◌, true, false, None, Ok, Err, IfOk, OnOk, OnErr, IsErrOf, MatchResult};
ghost use Rattle.std.specs.FinMap as map;
ghost use Rattle.outside.specs.Cause.{Rose};
ghost use Rattle.outside.specs.Disk.{Sides, LeavesOnly};
ghost use Rattle.build_core.specs.Moved.{HasFewSteps};
ghost use Rattle.core_steps.specs.declared.events.Event.{Event};
ghost use Rattle.core_steps.specs.Laws.{IsOrderly};
ghost use Rattle.core_steps.specs.State.{entered_if};
ghost use Rattle.prepared_events.specs.Prepared.{IsReady, changed_by};
ghost use Rattle.core_steps.specs.Step.{Does};
ghost use Rattle.store_log.specs.declared.fault.StoreFault.{StoreFault};
ghost use Rattle.project_store.specs.Records.{IsSmall, Recovers, RecoversAt};
ghost use Rattle.project_store.specs.Private.{IsEither, LacksEntryRoom, IsPreparedFor, IsDone, IsUndone};
ghost use Rattle.project_store.specs.Store.{IsBeforeOrAfter};

use crate::recording::record;
use core_steps::{Durable, Event, Reply, enters_all, grows_slowly, one_answer, stays_orderly};
use formula_core::{OutOfMemory, Steps};
use journal_core::Journal;
use outside::Disk;
use status_core::{Core, Prepared};
use std::alloc::Global;
use std::sync::ledger::Ledger;
use store_log::StoreFault;

// Puts the prepared entry on the disk, if there is one. All memory is taken before the first device call.
fn record_prepared<D: Disk>(
    alloc: Global,
    journal: &mut Journal<D>,
    durable: &Durable,
    prepared: &Prepared,
) -> Result<(), StoreFault>
    requires sound { journal.old.failed ≡ false }
    requires small { IsSmall durable.now }
    requires next { IsSmall (entered_if durable.now prepared.now.entry) }
    requires reads { D.told
        → RecoversAt (D.bytes_of journal.old.disk) journal.old.side journal.old.generation durable.now }
    requires stops { D.told → (c : Sides) → D.images journal.old.disk c → Recovers c durable.now }
    ensures idle { prepared.now.entry ≡ None → journal.new ≡ journal.old }
    ensures any_moment { D.told
        → LeavesOnly D.clock D.moments journal.old.disk journal.new.disk (IsEither durable.now prepared.now.entry) }
    ensures acknowledged { D.told → OnOk result ((c : Sides) → D.images journal.new.disk c
        → Recovers c (entered_if durable.now prepared.now.entry)) }
    ensures reads { D.told → OnOk result (RecoversAt (D.bytes_of journal.new.disk)
        journal.new.side journal.new.generation (entered_if durable.now prepared.now.entry)) }
    ensures sound { OnOk result (journal.new.failed ≡ false) }
    ensures causes { (IsErrOf result StoreFault.SessionFull → ⊥) × (IsErrOf result StoreFault.Failed → ⊥) }
    ensures full { IsErrOf result StoreFault.JournalFull
        → LacksEntryRoom journal.old.gate journal.old.generation durable.now prepared.now.entry }
    ensures refused { LacksEntryRoom journal.old.gate journal.old.generation durable.now prepared.now.entry
        → OnOk result ⊥ × (IsErrOf result StoreFault.DiskFault → ⊥) }
    ensures fault { IsErrOf result StoreFault.DiskFault → Rose (D.faults journal.old.disk) (D.faults journal.new.disk) }
    ensures failed { OnErr result (((journal.new ≡ journal.old) × (IsErrOf result StoreFault.DiskFault → ⊥))
        ⊎ (IsErrOf result StoreFault.DiskFault × (journal.new.failed ≡ true))) }
    ensures later { D.faults journal.old.disk ≤ D.faults journal.new.disk }
{
    match prepared.entry() {
        Some(entry) => record(alloc, journal, durable, entry),
        None => Ok(()),
    }
}

// What is known of what is prepared, by the laws of the core.
fn know(core: &Core, event: &Event, prepared: &Prepared)
    requires orderly { IsOrderly core.now }
    requires does { Does core.now event.now prepared.now.reply prepared.now.entry (changed_by prepared.now core.now) }
    requires ready { IsReady core.now prepared.now }
    ensures known { IsPreparedFor core.now event.now prepared.now }
{
    one_answer();
    enters_all();
    grows_slowly();
    stays_orderly();
}

// What comes of the event.
#[tactic(auto, using(crate::proofs::Preparing::no_steps))]
fn prepare<L: Ledger>(
    core: &mut Core,
    event: &Event,
    steps: &mut Steps<L>,
) -> Result<Prepared, OutOfMemory>
    requires orderly { IsOrderly core.old }
    requires number { core.old.next + 1 < 2 ^ 64 }
    ensures known { IfOk result (λ p. IsPreparedFor core.old event.now p) }
    ensures same { core.new ≡ core.old }
    ensures build { event.now ≡ Event.Build
        → HasFewSteps (map.entries core.old.durable.built) (map.entries core.old.durable.texts) steps.old steps.new }
    ensures steps { (event.now ≡ Event.Build → ⊥) → steps.new ≤ steps.old + 2 }
{
    let prepared = core.prepare(event, steps)?;
    know(core, event, &prepared);
    Ok(prepared)
}

// What was prepared takes effect where its entry is on the disk.
fn commit_if(
    core: &mut Core,
    prepared: Prepared,
    recorded: Result<(), StoreFault>,
) -> Result<Reply, StoreFault>
    requires { IsReady core.old prepared }
    ensures { MatchResult recorded
        (λ _. (result ≡ Ok prepared.reply) × (core.new ≡ changed_by prepared core.old))
        (λ fault. (result ≡ Err fault) × (core.new ≡ core.old)) }
{
    match recorded {
        Ok(()) => Ok(core.commit(prepared)),
        Err(fault) => {
            drop(prepared);
            Err(fault)
        }
    }
}

/// Does an event: its entry is on the disk before the core takes it over. All memory is taken before the first device call.
pub(crate) fn perform<D: Disk, L: Ledger>(
    alloc: Global,
    journal: &mut Journal<D>,
    core: &mut Core,
    event: &Event,
    steps: &mut Steps<L>,
) -> Result<Reply, StoreFault>
    requires sound { journal.old.failed ≡ false }
    requires small { IsSmall core.old.durable }
    requires orderly { IsOrderly core.old }
    requires number { core.old.next + 1 < 2 ^ 64 }
    requires reads { D.told
        → RecoversAt (D.bytes_of journal.old.disk) journal.old.side journal.old.generation core.old.durable }
    requires stops { D.told → (c : Sides) → D.images journal.old.disk c → Recovers c core.old.durable }

    // It is done, or a fault is met; a stop at any moment leaves the durable, or the one after the entry.
    ensures outcome { MatchResult result
        (λ reply. IsDone D.told D.bytes_of D.images journal.old journal.new core.old core.new event.now reply)
        (λ fault. IsUndone D.faults journal.old journal.new core.old core.new event.now fault) }
    ensures any_moment { D.told
        → LeavesOnly D.clock D.moments journal.old.disk journal.new.disk (IsBeforeOrAfter core.old event.now) }
    ensures later { D.faults journal.old.disk ≤ D.faults journal.new.disk }

    // What is counted: checks of components, and looks through trees.
    ensures build { event.now ≡ Event.Build
        → HasFewSteps (map.entries core.old.durable.built) (map.entries core.old.durable.texts) steps.old steps.new }
    ensures steps { (event.now ≡ Event.Build → ⊥) → steps.new ≤ steps.old + 2 }
{
    let prepared = prepare(core, event, steps)?;
    let recorded = record_prepared(alloc, journal, core.durable(), &prepared);
    commit_if(core, prepared, recorded)
}
