// Tickets that go out.
ghost use Rattle.std.specs.Prelude.{◌≡◌, ◌+◌, ◌<◌, ◌^◌, List, IfOk, None, Some};
ghost use Rattle.sequent_core.specs.declared.Obligation.{Obligation};
ghost use Rattle.sequent_core.specs.Sequents.{IsSequent};
ghost use Rattle.core_steps.specs.declared.events.Event.{Event};
ghost use Rattle.core_steps.specs.Table.{IsTable};
ghost use Rattle.core_steps.specs.Outcomes.{Where};
ghost use Rattle.core_steps.specs.Tickets.{CanTakeNamed, TellsNotOpen, taking, ticket_for};
ghost use Rattle.status_core.specs.PrivateParts.{IsFirstOpen, ComesAs, Prepares};

use crate::core_state::Core;
use build_core::one_table;
use core_steps::{Reply, Room};
use formula_core::{OutOfMemory, PoName};
use prepared_events::Prepared;
use sequent_core::{Obligation, Ticket};
use std::alloc::Global;
use table_lookup::{first_open, is_free, status_of};
use typed_tables::typed_tables;

fn ticket_for(alloc: Global, number: u64, obligation: &Obligation) -> Result<Ticket, OutOfMemory>
    ensures { IfOk result (λ ticket. ticket ≡ ticket_for number obligation.now) }
{
    let name = obligation.name.copy(alloc)?;
    let sequent = obligation.sequent.copy(alloc)?;
    Ok(Ticket {
        number,
        name,
        sequent,
    })
}

impl Core {
    // A ticket for the obligation goes out.
    fn taking(&self, obligation: &Obligation) -> Result<Prepared, OutOfMemory>
        requires { self.now.next + 1 < 2 ^ 64 }
        ensures { IfOk result (λ p. ComesAs self.now (λ x. x ≡ taking self.now obligation.now) p) }
    {
        let room = Room::above(self.alloc, self.out.len())?;
        let told = ticket_for(self.alloc, self.next, obligation)?;
        let kept = ticket_for(self.alloc, self.next, obligation)?;
        let reply = Reply::Taken(told);
        Ok(Prepared::sending(self.alloc, reply, kept, room))
    }

    /// The place of the first open obligation. The next search begins there.
    pub(crate) fn find_open(&mut self) -> Option<usize>
        ensures first { (table : List Obligation) → IsTable self.old.durable.built table
            → IsFirstOpen self.old table result }
        ensures same { self.new ≡ self.old }
    {
        one_table();
        typed_tables();
        let _texts = self.builder.texts();
        let table = self.builder.table();
        let found = first_open(
            &self.durable.proofs,
            &self.out,
            &self.tried,
            table,
            self.closed,
        );
        let end = table.len();
        self.closed = found.unwrap_or(end);
        found
    }

    /// What comes of a take of the first open obligation.
    pub(crate) fn prepare_take(&mut self) -> Result<Prepared, OutOfMemory>
        requires { self.old.next + 1 < 2 ^ 64 }
        ensures prepared { IfOk result (λ p. Prepares self.old (Event.Take None) p) }
        ensures same { self.new ≡ self.old }
    {
        let found = self.find_open();
        self.take_at(found)
    }

    // A ticket for the obligation at this place goes out, if there is one.
    fn take_at(&self, found: Option<usize>) -> Result<Prepared, OutOfMemory>
        requires next { self.now.next + 1 < 2 ^ 64 }
        requires first { (table : List Obligation) → IsTable self.now.durable.built table
            → IsFirstOpen self.now table found }
        ensures { IfOk result (λ p. Prepares self.now (Event.Take None) p) }
    {
        let table = self.builder.table();
        match found {
            None => Ok(self.tell(Reply::Nothing)),
            Some(at) => self.taking(table[at].obligation()),
        }
    }

    /// What comes of a take of the obligation of the name.
    pub(crate) fn prepare_take_named(&self, name: &PoName) -> Result<Prepared, OutOfMemory>
        requires { self.now.next + 1 < 2 ^ 64 }
        ensures { IfOk result (λ p. Prepares self.now (Event.Take (Some name.now)) p) }
    {
        match self.find(name) {
            None => self.tell_none(name),
            Some(obligation) => self.take_this(obligation),
        }
    }

    // A ticket for the obligation goes out, or it isn't open.
    fn take_this(&self, obligation: &Obligation) -> Result<Prepared, OutOfMemory>
        requires next { self.now.next + 1 < 2 ^ 64 }
        requires sequent { IsSequent obligation.now.sequent }
        ensures { IfOk result (λ p.
            ComesAs self.now (λ x. Where (CanTakeNamed self.now obligation.now) (x ≡ taking self.now obligation.now)
            (TellsNotOpen self.now obligation.now.name obligation.now.sequent x)) p) }
    {
        if is_free(&self.durable.proofs, &self.out, obligation) {
            return self.taking(obligation);
        }
        let status = status_of(&self.durable.proofs, &obligation.name, &obligation.sequent);
        let name = obligation.name.copy(self.alloc)?;
        Ok(self.tell(Reply::NotOpen(name, status)))
    }
}
