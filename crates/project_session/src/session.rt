//! `session WORKERS`, from the opening of the project to the status.
ghost use Rattle.std.specs.Prelude.{◌≡◌, ◌≤◌, [], None};
ghost use Rattle.outside.specs.Cause.{Rose};
ghost use Rattle.outside.specs.Disk.{LeavesOnly};
ghost use Rattle.core_steps.specs.State.{opened};
ghost use Rattle.project_store.specs.Moments.{IsOpenedOn};
ghost use Rattle.prover_pool.specs.Shift.{fair};
ghost use Rattle.session_streams.specs.Streams.{reading, writing};
ghost use Rattle.session_ends.specs.Limits.{IsUnhindered, IsUnfailedSessionStatus};
ghost use Rattle.session_ends.specs.Moments.{IsLeftWithin};
ghost use Rattle.session_ends.specs.Sessions.{Sessions, IsSession, Opens};
ghost use Rattle.session_ends.specs.Statuses.{IsSessionStatus};

use outside::{Disk, Gate, Sink, Source};
use project_store::{Opening, Store};
use prover_pool::Tools;
use sequent_core::Prover;
use session_ends::{Ended, end_played, end_unplayed, open_store, refuse};
use session_play::play;
use std::marker::Brand;
use std::sync::Wait;
use std::sync::ledger::Blank;
use std::thread::Threads;

// Plays a session on an opened store.
fn run_opened<
    R: Threads + Wait + Sync,
    I: Source,
    O: Sink,
    D: Disk + Send,
    P: Prover + Sync,
    G: Gate + Sync,
    K: Opening + Send,
>(
    tools: &Tools<'_, R, P, G>,
    workers: u32,
    store: Store<D, K>,
    input: &mut I,
    output: &mut O,
) -> Ended<D>
    requires workers { workers ≤ 8 }
    requires known { K.known }
    requires begun { (store.core ≡ opened store.base) × (store.history ≡ []) × (store.kept ≡ None) }
    ensures { (old : D) → Opens D.told D.bytes_of D.images D.clock D.moments D.faults old store →
        (D.told → IsOpenedOn D.clock D.moments K.moment K.images K.moments D.images old) →
        IsSession D.told D.bytes_of D.images D.clock D.moments D.faults
        (fair (P.answers tools.now.prover.now) (P.sure tools.now.prover.now)) (P.sure tools.now.prover.now)
        workers old result.disk
        (reading (I.left input.old) (I.left input.new) (I.faults input.old) (I.faults input.new))
        (writing (O.written output.old) (O.written output.new) (O.faults output.old) (O.faults output.new))
        result.status result.history.items result.last }
{
    match play(tools, workers, store, input, output) {
        Ok((store, ending)) => end_played(store, ending, output, tools.prover),
        Err(store) => end_unplayed(store, output, tools.prover),
    }
}

// Opens the project on the disk, and plays a session on it.
fn open_and_run<
    R: Threads + Wait + Sync,
    I: Source,
    O: Sink,
    D: Disk + Send,
    P: Prover + Sync,
    G: Gate + Sync,
    K: Opening + Send,
>(tools: &Tools<'_, R, P, G>, workers: u32, input: &mut I, output: &mut O, disk: D) -> Ended<D>
    requires workers { workers ≤ 8 }
    requires known { K.known }
    requires opening { D.told → IsOpenedOn D.clock D.moments K.moment K.images K.moments D.images disk }
    ensures { Sessions D.told D.bytes_of D.images D.clock D.moments D.faults
        (fair (P.answers tools.now.prover.now) (P.sure tools.now.prover.now)) (P.sure tools.now.prover.now)
        workers disk result.disk (input.new ≡ input.old)
        (reading (I.left input.old) (I.left input.new) (I.faults input.old) (I.faults input.new))
        (writing (O.written output.old) (O.written output.new) (O.faults output.old) (O.faults output.new))
        result.status result.history.items result.last }
{
    match open_store::<Brand, D, K>(tools.alloc, disk, Blank::new(1)) {
        Ok(store) => run_opened(tools, workers, store, input, output),
        Err((disk, fault)) => refuse(tools.alloc, output, disk, fault),
    }
}

/// `session WORKERS`: opens the project on the disk, reads the commands of the source and writes the answers to the
/// sink, while so many workers prove beside it, until the commands end.
pub fn run_session<
    R: Threads + Wait + Sync,
    I: Source,
    O: Sink,
    D: Disk + Send,
    P: Prover + Sync,
    G: Gate + Sync,
>(tools: &Tools<'_, R, P, G>, workers: u32, input: &mut I, output: &mut O, disk: D) -> Ended<D>
    requires workers { workers ≤ 8 }
    ensures session { Sessions D.told D.bytes_of D.images D.clock D.moments D.faults
        (fair (P.answers tools.now.prover.now) (P.sure tools.now.prover.now)) (P.sure tools.now.prover.now)
        workers disk result.disk (input.new ≡ input.old)
        (reading (I.left input.old) (I.left input.new) (I.faults input.old) (I.faults input.new))
        (writing (O.written output.old) (O.written output.new) (O.faults output.old) (O.faults output.new))
        result.status result.history.items result.last }
    ensures known { IsSessionStatus result.status }
    ensures read_fault { result.status ≡ 3 → Rose (I.faults input.old) (I.faults input.new) }
    ensures write_fault { result.status ≡ 4 → Rose (O.faults output.old) (O.faults output.new) }
    ensures disk_fault { result.status ≡ 5 → Rose (D.faults disk) (D.faults result.disk) }
    ensures unhindered { D.told →
        IsUnhindered D.bytes_of D.images D.faults
        (fair (P.answers tools.now.prover.now) (P.sure tools.now.prover.now)) disk result.disk
        (reading (I.left input.old) (I.left input.new) (I.faults input.old) (I.faults input.new))
        (writing (O.written output.old) (O.written output.new) (O.faults output.old) (O.faults output.new))
        result.history.items → IsUnfailedSessionStatus result.status }
    ensures any_moment { D.told → LeavesOnly D.clock D.moments disk result.disk
        (IsLeftWithin (fair (P.answers tools.now.prover.now) (P.sure tools.now.prover.now))
        (reading (I.left input.old) (I.left input.new) (I.faults input.old) (I.faults input.new))
        result.history.items (D.bytes_of disk) (D.images disk)) }
{
    open_and_run::<R, I, O, D, P, G, Brand>(tools, workers, input, output, disk)
}
