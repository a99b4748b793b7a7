// The store behind a desk.
ghost use Rattle.std.specs.Prelude.{◌≡◌, ◌≢◌, ◌<◌, IfOk, IfSome, None};
ghost use Rattle.sequent_core.specs.declared.Ticket.{Ticket};
ghost use Rattle.sequent_core.specs.Sequents.{IsSequent};
ghost use Rattle.core_steps.specs.declared.events.Event.{Event};
ghost use Rattle.core_steps.specs.declared.events.Reply.{Reply};
ghost use Rattle.turn_desk.specs.Log.{Grows};
ghost use Rattle.store_log.specs.StoreLog.{chair_of};
ghost use Rattle.store_log.specs.Storing.{Handles};
ghost use Rattle.project_store.specs.Store.{base_in, log_in};

use crate::moment::Opening;
use crate::store::Store;
use core_steps::{Event, Reply};
use formula_core::Steps;
use outside::Disk;
use prover_pool::{Done, Taken, Work};
use sequent_core::{Attempt, Ticket};
use std::marker::Brand;
use std::sync::ledger::{Blank, Ledger};
use store_log::{EventStore, Logged, StoreBase, StoreFault};
use turn_desk::Kept;
use typed_tables::typed_tables;

// Does an event, with a step counter of its own.
fn apply_counted<D: Disk, K: Opening, L: Ledger>(
    store: &mut Store<D, K>,
    chair: u32,
    event: Event,
    blank: Blank,
) -> Result<Reply, StoreFault>
    requires name { blank.name ≡ L.name }
    requires parts { blank.parts ≡ L.parts }
    requires some { 0 < blank.parts }
    ensures applied { Handles (base_in store.old) chair event (log_in store.old) result (log_in store.new) }
    ensures log { Grows chair_of chair (log_in store.old) (log_in store.new) }
    ensures base { base_in store.new ≡ base_in store.old }
    ensures taken { event ≡ Event.Take None
        → IfOk result (λ reply. (ticket : Ticket) → reply ≡ Reply.Taken ticket → IsSequent ticket.sequent) }
{
    typed_tables();
    let _texts = store.core().builder().texts();
    store.facts();
    let mut steps = Steps::<L>::open(blank);
    store.apply(chair, event, &mut steps)
}

fn apply_alone<D: Disk, K: Opening>(
    store: &mut Store<D, K>,
    chair: u32,
    event: Event,
) -> Result<Reply, StoreFault>
    ensures applied { Handles (base_in store.old) chair event (log_in store.old) result (log_in store.new) }
    ensures log { Grows chair_of chair (log_in store.old) (log_in store.new) }
    ensures base { base_in store.new ≡ base_in store.old }
    ensures taken { event ≡ Event.Take None
        → IfOk result (λ reply. (ticket : Ticket) → reply ≡ Reply.Taken ticket → IsSequent ticket.sequent) }
{
    apply_counted::<D, K, Brand>(store, chair, event, Blank::new(1))
}

// The ticket that was taken, if one was.
fn ticket_of(reply: Reply) -> Option<Ticket>
    ensures taken { IfSome result (λ ticket. reply ≡ Reply.Taken ticket) }
    ensures none { result ≡ None → (ticket : Ticket) → reply ≢ Reply.Taken ticket }
{
    match reply {
        Reply::Taken(ticket) => Some(ticket),
        other => {
            drop(other);
            None
        }
    }
}

impl<D: Disk, K: Opening> Kept for Store<D, K> {
    type Entry = Logged;

    type Base = StoreBase;

    ghost use Rattle.store_log.specs.StoreLog.{chair_of};
    ghost use Rattle.project_store.specs.Store.{base_in, log_in};

    ghost log = { λ s. log_in s };

    ghost chair_of = { chair_of };

    ghost base = { λ s. base_in s };
}

impl<D: Disk, K: Opening> Work for Store<D, K> {
    ghost use Rattle.store_log.specs.StoreLog.{store_meaning};
    ghost use Rattle.project_store.specs.Marks.{has_mark_last, marks_no_other};

    ghost meaning = { store_meaning };

    ghost marks_last = { λ s. has_mark_last s };

    ghost marks_no_other = { marks_no_other };

    #[tactic(auto, using(crate::proofs::Works::got, crate::proofs::Works::found_nothing, crate::proofs::Works::take_stopped))]
    fn take(&mut self, chair: u32) -> Taken {
        match apply_alone(self, chair, Event::Take(None)) {
            Ok(reply) => match ticket_of(reply) {
                Some(ticket) => Taken::Got(ticket),
                None => Taken::Nothing,
            },
            Err(_) => Taken::Stop,
        }
    }

    #[tactic(auto, using(crate::proofs::Works::finish_kept, crate::proofs::Works::finish_stopped))]
    fn finish(&mut self, chair: u32, ticket: u64, attempt: Attempt) -> Done {
        match apply_alone(self, chair, Event::Finish(ticket, attempt)) {
            Ok(reply) => {
                drop(reply);
                Done::Kept
            }
            Err(_) => Done::Stop,
        }
    }
}

impl<D: Disk, K: Opening> EventStore for Store<D, K> {
    ghost use Rattle.project_store.specs.Marks.{names_chair};

    ghost chair_is = { names_chair };

    fn apply_event(&mut self, chair: u32, event: Event) -> Result<Reply, StoreFault> {
        apply_alone(self, chair, event)
    }
}
