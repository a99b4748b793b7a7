// One entry is put on the disk, behind a checkpoint where the side is full.
ghost use Rattle.std.specs.Prelude.{◌≡◌, ◌⊎◌, ◌+◌, ◌≤◌, ◌∷◌, [], length, true, false, OnOk, OnErr, IsErrOf};
ghost use Rattle.outside.specs.Cause.{Rose};
ghost use Rattle.outside.specs.Disk.{Sides, LeavesOnly};
ghost use Rattle.core_steps.specs.State.{entered};
ghost use Rattle.store_log.specs.declared.fault.StoreFault.{StoreFault};
ghost use Rattle.project_store.specs.Records.{IsSmall, Recovers, RecoversAt, record_body};
ghost use Rattle.project_store.specs.Store.{HasNoRoom};

use crate::encoding::{checkpoint_body, entry_body};
use core_steps::Durable;
use durable_entries::state_again;
use journal_core::Journal;
use outside::Disk;
use proof_entries::Entry;
use std::alloc::Global;
use store_log::StoreFault;

/// The most bytes of a side.
const LIMIT: usize = 67_108_864;

// Makes a checkpoint of the state where a record of so many bytes doesn't fit. All memory is taken before the first device
// call.
fn make_room<D: Disk>(
    alloc: Global,
    journal: &mut Journal<D>,
    durable: &Durable,
    size: usize,
) -> Result<(), StoreFault>
    requires sound { journal.old.failed ≡ false }
    requires small { IsSmall durable.now }
    requires reads { D.told
        → RecoversAt (D.bytes_of journal.old.disk) journal.old.side journal.old.generation durable.now }
    requires stops { D.told → (c : Sides) → D.images journal.old.disk c → Recovers c durable.now }
    ensures any_moment { D.told
        → LeavesOnly D.clock D.moments journal.old.disk journal.new.disk (λ c. Recovers c durable.now) }
    ensures reads { D.told
        → OnOk result (RecoversAt (D.bytes_of journal.new.disk) journal.new.side journal.new.generation durable.now) }
    ensures room { OnOk result ((journal.new.gate + 6 + size ≤ 67108864) × (journal.new.failed ≡ false)) }
    ensures causes { (IsErrOf result StoreFault.SessionFull → ⊥) × (IsErrOf result StoreFault.Failed → ⊥) }
    ensures full { IsErrOf result StoreFault.JournalFull
        → HasNoRoom journal.old.gate journal.old.generation durable.now size }
    ensures refused { HasNoRoom journal.old.gate journal.old.generation durable.now size
        → OnOk result ⊥ × (IsErrOf result StoreFault.DiskFault → ⊥) }
    ensures fault { IsErrOf result StoreFault.DiskFault → Rose (D.faults journal.old.disk) (D.faults journal.new.disk) }
    ensures failed { OnErr result (((journal.new ≡ journal.old) × (IsErrOf result StoreFault.DiskFault → ⊥))
        ⊎ (IsErrOf result StoreFault.DiskFault × (journal.new.failed ≡ true))) }
    ensures later { D.faults journal.old.disk ≤ D.faults journal.new.disk }
{
    if journal.has_room(size) {
        return Ok(());
    }
    let state = checkpoint_body(alloc, durable)?;
    state_again();
    if !journal.can_turn()
        || size > LIMIT
        || state.len() > LIMIT
        || 27 + state.len() + size > LIMIT
    {
        return Err(StoreFault::JournalFull);
    }
    match journal.checkpoint(&state) {
        Ok(()) => Ok(()),
        Err(_) => Err(StoreFault::DiskFault),
    }
}

/// Puts an entry on the disk. All memory is taken before the first device call.
pub(crate) fn record<D: Disk>(
    alloc: Global,
    journal: &mut Journal<D>,
    durable: &Durable,
    entry: &Entry,
) -> Result<(), StoreFault>
    requires sound { journal.old.failed ≡ false }
    requires small { IsSmall durable.now }
    requires next { IsSmall (entered durable.now entry.now) }
    requires reads { D.told
        → RecoversAt (D.bytes_of journal.old.disk) journal.old.side journal.old.generation durable.now }
    requires stops { D.told → (c : Sides) → D.images journal.old.disk c → Recovers c durable.now }

    // A stop at any moment leaves the durable, or the one after the entry; after Ok it leaves the latter.
    ensures any_moment { D.told → LeavesOnly D.clock D.moments journal.old.disk journal.new.disk (λ c.
        Recovers c durable.now ⊎ Recovers c (entered durable.now entry.now)) }
    ensures acknowledged { D.told
        → OnOk result ((c : Sides) → D.images journal.new.disk c → Recovers c (entered durable.now entry.now)) }
    ensures reads { D.told → OnOk result (RecoversAt
        (D.bytes_of journal.new.disk) journal.new.side journal.new.generation (entered durable.now entry.now)) }
    ensures sound { OnOk result (journal.new.failed ≡ false) }

    // Which fault it is, and what stays.
    ensures causes { (IsErrOf result StoreFault.SessionFull → ⊥) × (IsErrOf result StoreFault.Failed → ⊥) }
    ensures full { IsErrOf result StoreFault.JournalFull
        → HasNoRoom journal.old.gate journal.old.generation durable.now (length (record_body (entry.now ∷ []))) }
    ensures refused { HasNoRoom journal.old.gate journal.old.generation durable.now
        (length (record_body (entry.now ∷ []))) → OnOk result ⊥ × (IsErrOf result StoreFault.DiskFault → ⊥) }
    ensures fault { IsErrOf result StoreFault.DiskFault → Rose (D.faults journal.old.disk) (D.faults journal.new.disk) }
    ensures failed { OnErr result (((journal.new ≡ journal.old) × (IsErrOf result StoreFault.DiskFault → ⊥))
        ⊎ (IsErrOf result StoreFault.DiskFault × (journal.new.failed ≡ true))) }
    ensures later { D.faults journal.old.disk ≤ D.faults journal.new.disk }
{
    let body = entry_body(alloc, entry)?;
    make_room(alloc, journal, durable, body.len())?;
    match journal.append(&body) {
        Ok(()) => Ok(()),
        Err(_) => Err(StoreFault::DiskFault),
    }
}
