// Tickets that come in.
ghost use Rattle.std.specs.Prelude.{◌≡◌, ◌<◌, ◌≤◌, ◌+◌, length, slice_get, IfOk, IfSome, Some};
ghost use Rattle.std.specs.List.{HoldsAt};
ghost use Rattle.std.specs.Option.{option_copied, option_map};
ghost use Rattle.sequent_core.specs.declared.Ticket.{Ticket};
ghost use Rattle.sequent_core.specs.declared.Attempt.{Attempt};
ghost use Rattle.sequent_core.specs.Sequents.{IsSequent};
ghost use Rattle.core_steps.specs.declared.events.Event.{Event};
ghost use Rattle.core_steps.specs.declared.events.Reply.{Reply};
ghost use Rattle.core_steps.specs.declared.events.Status.{Status};
ghost use Rattle.proof_entries.specs.declared.Entry.{Entry};
ghost use Rattle.core_steps.specs.Outcomes.{entering};
ghost use Rattle.core_steps.specs.Stored.{AreFactsOf};
ghost use Rattle.core_steps.specs.Tickets.{EndsTicket, IsPresentStatus, by_prover};
ghost use Rattle.table_lookup.specs.Tickets.{IsTicketAt};
ghost use Rattle.status_core.specs.PrivateParts.{IsHeldProof, without_at, ComesAs, Prepares};

use crate::core_state::Core;
use crate::proving::Held;
use core_steps::{Facts, Reply, Status};
use formula_core::{OutOfMemory, PoName, Steps};
use prepared_events::{Prepared, Storing};
use proof_entries::{Origin, Proof};
use sequent_core::{Attempt, Obligation, Tree};
use std::sync::ledger::Ledger;
use table_lookup::{facts_to_store, is_good_proof, present_status, ticket_at};

impl Core {
    /// What comes of a finish. The tree that it brings is looked through at most twice.
    pub(crate) fn prepare_finish<L: Ledger>(
        &self,
        number: u64,
        attempt: &Attempt,
        steps: &mut Steps<L>,
    ) -> Result<Prepared, OutOfMemory>
        ensures prepared { IfOk result (λ p. Prepares self.now (Event.Finish number attempt.now) p) }
        ensures steps { steps.new ≤ steps.old + 2 }
    {
        match ticket_at(&self.out, number) {
            None => {
                self.has_table();
                Ok(self.tell(Reply::NoTicket(number)))
            }
            Some(at) => self.finish_at(number, at, attempt, steps),
        }
    }

    // What comes of the finish of the ticket at the place.
    fn finish_at<L: Ledger>(
        &self,
        number: u64,
        at: usize,
        attempt: &Attempt,
        steps: &mut Steps<L>,
    ) -> Result<Prepared, OutOfMemory>
        requires { IsTicketAt self.now.out number (Some at) }
        ensures prepared { IfOk result (λ p. Prepares self.now (Event.Finish number attempt.now) p) }
        ensures steps { steps.new ≤ steps.old + 2 }
    {
        let ticket = &self.out[at];
        let name = ticket.name.copy(self.alloc)?;
        let obligation = self.find(&ticket.name);
        let status = present_status(&self.durable.proofs, &ticket.name, obligation);
        match attempt {
            Attempt::NoProof => self.try_in(Reply::Noted(name, status), at),
            Attempt::NoMemory => self.try_in(Reply::NoMemory(name, status), at),
            Attempt::Found(tree) => self.found(at, name, obligation, status, tree, steps),
        }
    }

    // The tree is stored, or refused, or stale.
    fn found<L: Ledger>(
        &self,
        at: usize,
        name: PoName,
        obligation: Option<&Obligation>,
        status: Option<Status>,
        tree: &Tree,
        steps: &mut Steps<L>,
    ) -> Result<Prepared, OutOfMemory>
        requires within { at < length self.now.out }
        requires name { HoldsAt (λ t. t.name ≡ name) self.now.out at }
        requires sequent { IfSome (option_copied obligation) (λ o. IsSequent o.sequent) }
        requires status { IsPresentStatus self.now.durable.proofs name
            (option_map (λ o. o.sequent) (option_copied obligation)) status }
        ensures comes { (ticket : Ticket) → slice_get self.now.out at ≡ Some ticket →
            IfOk result (λ p. ComesAs self.now (EndsTicket (without_at self.now at) ticket
            (option_map (λ o. o.sequent) (option_copied obligation.entry)) (Attempt.Found tree.now)) p) }
        ensures steps { steps.new ≤ steps.old + 2 }
    {
        if let Some(facts) = facts_to_store(self.alloc, status, obligation, tree, steps)? {
            return self.store(at, name, facts, tree);
        }
        if is_good_proof(self.alloc, tree, &self.out[at].sequent, steps)? {
            return Ok(self.take_in(Reply::Stale(name, status), at));
        }
        self.try_in(Reply::Refused(name, status), at)
    }

    // The tree, of which this is known, is stored as the prover's, and the ticket at the place comes in.
    fn store(
        &self,
        at: usize,
        name: PoName,
        facts: Facts,
        tree: &Tree,
    ) -> Result<Prepared, OutOfMemory>
        requires within { at < length self.now.out }
        requires facts { AreFactsOf tree.now facts }
        ensures { IfOk result (λ p.
            ComesAs self.now (λ x. x ≡ entering (without_at self.now at) (Reply.Stored name (Some Status.Discharged))
            (Entry.SetProof name (by_prover tree.now))) p) }
    {
        let held = self.hold_with(&name, facts)?;
        let Ok(tree) = tree.copy(self.alloc) else {
            drop(held);
            return Err(OutOfMemory);
        };
        Ok(self.store_held(at, held, tree))
    }

    // The tree is stored as the prover's with what is held for it, and the ticket at the place comes in.
    fn store_held(&self, at: usize, held: Held, tree: Tree) -> Prepared
        requires within { at < length self.now.out }
        requires held { IsHeldProof self.now.durable.proofs held.name tree held }
        ensures { ComesAs self.now (λ x.
            x ≡ entering (without_at self.now at) (Reply.Stored held.name (Some Status.Discharged))
            (Entry.SetProof held.name (by_prover tree))) result }
    {
        let Held {
            told,
            name,
            facts,
            room,
        } = held;
        let reply = Reply::Stored(told, Some(Status::Discharged));
        let origin = Origin::Prover;
        let proof = Proof { tree, origin };
        let storing = Storing {
            name,
            proof,
            facts,
            room,
        };
        self.keep_in(reply, storing, at)
    }
}
