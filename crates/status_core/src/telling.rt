// What is prepared, with all that its commit wants.
ghost use Rattle.std.specs.Prelude.{◌≡◌, ◌<◌, length, slice_get, IfOk, Some, false};
ghost use Rattle.std.specs.FinMap as map;
ghost use Rattle.sequent_core.specs.declared.Ticket.{Ticket};
ghost use Rattle.core_steps.specs.Outcomes.{told, entering};
ghost use Rattle.core_steps.specs.Stored.{AreFactsOf};
ghost use Rattle.core_steps.specs.Tickets.{tried_with};
ghost use Rattle.proof_entries.specs.declared.Entry.{Entry};
ghost use Rattle.core_steps.specs.declared.events.Reply.{Reply};
ghost use Rattle.status_core.specs.PrivateParts.{without_at, ComesAs};

use crate::core_state::Core;
use core_steps::Reply;
use formula_core::{OutOfMemory, PoName};
use prepared_events::{Prepared, Storing};

impl Core {
    /// The reply is told, and nothing changes.
    pub(crate) fn tell(&self, reply: Reply) -> Prepared
        ensures { ComesAs self.now (λ x. x ≡ told self.now reply) result }
    {
        Prepared::told(self.alloc, reply)
    }

    /// It is told that there is no obligation of the name.
    pub(crate) fn tell_none(&self, name: &PoName) -> Result<Prepared, OutOfMemory>
        ensures { IfOk result (λ p. ComesAs self.now (λ x. x ≡ told self.now (Reply.NoObligation name.now)) p) }
    {
        let name = name.copy(self.alloc)?;
        Ok(self.tell(Reply::NoObligation(name)))
    }

    /// The proof is stored under its name.
    pub(crate) fn keep(&self, reply: Reply, storing: Storing) -> Prepared
        requires facts { AreFactsOf storing.proof.tree storing.facts }
        requires room { map.contains_key self.now.durable.proofs storing.name ≡ false
            → map.len self.now.durable.proofs < storing.room }
        ensures { ComesAs self.now
            (λ x. x ≡ entering self.now reply (Entry.SetProof storing.name storing.proof)) result }
    {
        Prepared::keeping(self.alloc, reply, storing)
    }

    /// The ticket at the place comes in.
    pub(crate) fn take_in(&self, reply: Reply, at: usize) -> Prepared
        requires { at < length self.now.out }
        ensures { ComesAs self.now (λ x. x ≡ told (without_at self.now at) reply) result }
    {
        Prepared::told(self.alloc, reply).taking_in(at)
    }

    /// The ticket at the place comes in, and the proof is stored under its name.
    pub(crate) fn keep_in(&self, reply: Reply, storing: Storing, at: usize) -> Prepared
        requires facts { AreFactsOf storing.proof.tree storing.facts }
        requires room { map.contains_key self.now.durable.proofs storing.name ≡ false
            → map.len self.now.durable.proofs < storing.room }
        requires within { at < length self.now.out }
        ensures { ComesAs self.now
            (λ x. x ≡ entering (without_at self.now at) reply (Entry.SetProof storing.name storing.proof)) result }
    {
        Prepared::keeping(self.alloc, reply, storing).taking_in(at)
    }

    /// The ticket at the place comes in, and its sequent is the last tried one of its name.
    pub(crate) fn try_in(&self, reply: Reply, at: usize) -> Result<Prepared, OutOfMemory>
        requires { at < length self.now.out }
        ensures { (ticket : Ticket) → slice_get self.now.out at ≡ Some ticket →
            IfOk result (λ p. ComesAs self.now (λ x. x ≡ told (tried_with (without_at self.now at) ticket) reply) p) }
    {
        let ticket = &self.out[at];
        let Ok(room) = self.tried.room_for(self.alloc, &ticket.name) else {
            drop(reply);
            return Err(OutOfMemory);
        };
        Ok(Prepared::trying(self.alloc, reply, at, room))
    }
}
