//! The two ends of a session: the opening of the project, and the last line with the status.
ghost use Rattle.std.specs.Prelude.{◌≡◌, ◌⊎◌, ◌≤◌, ◌<◌, ℕ, List, [], Option, None, IfOk, IfErr};
ghost use Rattle.std.specs.Option.{option_map};
ghost use Rattle.core_steps.specs.State.{opened, no_texts};
ghost use Rattle.prover_pool.specs.Shift.{fair};
ghost use Rattle.project_store.specs.Moments.{HasStood, IsOpenedOn};
ghost use Rattle.project_store.specs.Store.{StoreState, IsSoundStore, Rests, base_in, log_in};
ghost use Rattle.store_log.specs.StoreLog.{chair_of, store_meaning};
ghost use Rattle.session_play.specs.Playing.{IsPlayed};
ghost use Rattle.session_streams.specs.Streams.{SourceState, reading, writing, WritesNothing};
ghost use Rattle.session_ends.specs.Private.{PlaysEnd, status_at, ending_line};
ghost use Rattle.session_ends.specs.Sessions.{IsSession, Opens, Refuses};
ghost use Rattle.session_ends.specs.Statuses.{opening_status, opening_line};
ghost use Rattle.session_ends.specs.Written.{WritesOrFails};

use crate::exit;
use crate::statuses::{closing, opening_line, opening_status};
use act_history::History;
use core_steps::{Durable, Event, enters_all, one_answer, stays_orderly, tells_the_rebuilt};
use formula_core::Steps;
use outside::{Disk, Sink};
use project_store::{OpenFault, Opening, Store};
use sequent_core::Prover;
use session_run::{complete_when_idle, one_history};
use session_streams::{ReadEnd, write_text};
use session_talk::Ending;
use std::alloc::Global;
use std::sync::ledger::{Blank, Ledger};

/// What a session leaves: the exit status, the disk, the events of all chairs, each with its chair, and what lasts.
pub struct Ended<D> {
    pub status: u8,
    pub disk: D,
    pub history: History<(u32, Event)>,
    pub last: Durable,
}

/// Writes the last line, if there is one, as far as the sink takes it.
pub fn write_last<O: Sink>(output: &mut O, line: &[u8])
    ensures written { WritesOrFails
        (writing (O.written output.old) (O.written output.new) (O.faults output.old) (O.faults output.new)) line.now }
    ensures later { O.faults output.old ≤ O.faults output.new }
{
    if line.is_empty() {
        return;
    }
    match write_text(output, line) {
        Ok(()) => {}
        Err(_) => {}
    }
}

// Writes the last line of a session, and takes its store apart.
fn close_session<O: Sink, D: Disk, K: Opening>(
    store: Store<D, K>,
    ending: Ending,
    output: &mut O,
) -> Ended<D>
    ensures status { result.status ≡ status_at ending (option_map (λ k. k.fault) store.kept) }
    ensures disk { result.disk ≡ store.journal.disk }
    ensures history { result.history.items ≡ store.history }
    ensures last { result.last ≡ store.core.durable }
    ensures facts { IsSoundStore D.told D.bytes_of D.images D.faults store }
    ensures rests { Rests D.told D.bytes_of D.images store }
    ensures any_moment { K.known → D.told → HasStood D.clock D.moments K.moment K.images K.moments store }
    ensures written { WritesOrFails
        (writing (O.written output.old) (O.written output.new) (O.faults output.old) (O.faults output.new))
        (ending_line ending (option_map (λ k. k.fault) store.kept)) }
    ensures later { O.faults output.old ≤ O.faults output.new }
{
    let (status, line) = closing(ending, store.kept_fault());
    write_last(output, line);
    let (disk, history, last) = store.into_parts();
    Ended {
        status,
        disk,
        history,
        last,
    }
}

// What a play of a store leaves makes a session.
fn plays_end<D: Disk, P: Prover>(_prover: &P)
    ensures { PlaysEnd D.told D.bytes_of D.images D.clock D.moments D.faults
        (fair (P.answers _prover.now) (P.sure _prover.now)) (P.sure _prover.now) }
{
    one_answer();
    stays_orderly();
    enters_all();
    tells_the_rebuilt();
    one_history(_prover);
    complete_when_idle(_prover);
}

/// Ends a session that was played on a store, whose commands ended so: writes the last line, and takes the store apart.
pub fn end_played<O: Sink, D: Disk, K: Opening, P: Prover>(
    store: Store<D, K>,
    ending: Ending,
    output: &mut O,
    prover: &P,
) -> Ended<D>
    requires { K.known }
    ensures { (workers : ℕ) (first : StoreState D) (source : SourceState)
        (before : Option (List ℕ)) (lost : ℕ) (old : D) →
        Opens D.told D.bytes_of D.images D.clock D.moments D.faults old first →
        (D.told → IsOpenedOn D.clock D.moments K.moment K.images K.moments D.images old) →
        base_in store ≡ base_in first →
        IsPlayed chair_of store_meaning (fair (P.answers prover.now) (P.sure prover.now)) workers
        (base_in first) (log_in store) source
        (writing before (O.written output.old) lost (O.faults output.old)) ending →
        IsSession D.told D.bytes_of D.images D.clock D.moments D.faults
        (fair (P.answers prover.now) (P.sure prover.now)) (P.sure prover.now) workers old result.disk
        source (writing before (O.written output.new) lost (O.faults output.new))
        result.status result.history.items result.last }
{
    plays_end::<D, P>(prover);
    close_session(store, ending, output)
}

/// Ends a session that memory ran out over before anything was done.
pub fn end_unplayed<O: Sink, D: Disk, K: Opening, P: Prover>(
    store: Store<D, K>,
    output: &mut O,
    _prover: &P,
) -> Ended<D>
    requires known { K.known }
    requires begun { (store.core ≡ opened store.base) × (store.history ≡ []) × (store.kept ≡ None) }
    ensures { (workers : ℕ) (old : D) (left : Option (List ℕ)) (lost : ℕ) →
        Opens D.told D.bytes_of D.images D.clock D.moments D.faults old store →
        (D.told → IsOpenedOn D.clock D.moments K.moment K.images K.moments D.images old) →
        IsSession D.told D.bytes_of D.images D.clock D.moments D.faults
        (fair (P.answers _prover.now) (P.sure _prover.now)) (P.sure _prover.now) workers old result.disk
        (reading left left lost lost)
        (writing (O.written output.old) (O.written output.new) (O.faults output.old) (O.faults output.new))
        result.status result.history.items result.last }
{
    close_session(store, Ending::Read(ReadEnd::OutOfMemory), output)
}

fn nothing_done<D>(alloc: Global, status: u8, disk: D) -> Ended<D>
    ensures status { result.status ≡ status }
    ensures disk { result.disk ≡ disk }
    ensures nothing { (result.history.items ≡ []) × (result.last ≡ no_texts) }
{
    Ended {
        status,
        disk,
        history: History::new(alloc),
        last: Durable::empty(alloc),
    }
}

/// Tells why the project isn't opened.
pub fn refuse<O: Sink, D>(alloc: Global, output: &mut O, disk: D, fault: OpenFault) -> Ended<D>
    ensures disk { result.disk ≡ disk }
    ensures nothing { (result.history.items ≡ []) × (result.last ≡ no_texts) }
    ensures ends { ((result.status ≡ opening_status fault) × WritesOrFails
        (writing (O.written output.old) (O.written output.new) (O.faults output.old) (O.faults output.new))
        (opening_line fault))
        ⊎ ((result.status ≡ 9) × WritesNothing
        (writing (O.written output.old) (O.written output.new) (O.faults output.old) (O.faults output.new))) }
{
    match opening_line(alloc, fault) {
        Ok(line) => {
            write_last(output, line.as_str().as_bytes());
            nothing_done(alloc, opening_status(fault), disk)
        }
        Err(_) => nothing_done(alloc, exit::OUT_OF_MEMORY, disk),
    }
}

/// Opens the project on a disk, with a step counter of its own.
pub fn open_store<L: Ledger, D: Disk, K: Opening>(
    alloc: Global,
    disk: D,
    blank: Blank,
) -> Result<Store<D, K>, (D, OpenFault)>
    requires name { blank.name ≡ L.name }
    requires parts { blank.parts ≡ L.parts }
    requires some { 0 < blank.parts }
    requires opening { K.known → D.told → IsOpenedOn D.clock D.moments K.moment K.images K.moments D.images disk }
    ensures opens { IfOk result (λ store. Opens D.told D.bytes_of D.images D.clock D.moments D.faults disk store) }
    ensures begun { IfOk result
        (λ store. (store.core ≡ opened store.base) × (store.history ≡ []) × (store.kept ≡ None)) }
    ensures refuses { IfErr result (λ refused.
        Refuses D.told D.bytes_of D.images D.clock D.moments D.faults disk refused.0 refused.1) }
{
    let mut steps = Steps::<L>::open(blank);
    Store::start(alloc, disk, &mut steps)
}
