// What is prepared for an event.
ghost use Rattle.std.specs.Prelude.{◌≡◌, IfSome, Some, None};
ghost use Rattle.std.specs.Option.{option_copied, option_map};
ghost use Rattle.std.specs.FinMap as map;
ghost use Rattle.core_steps.specs.Stored.{AreFactsOf};
ghost use Rattle.prepared_events.specs.Kept.{HasFacts};
ghost use Rattle.prepared_events.specs.Making.{telling, putting, dropping, building, keeping, purging, sending, taking_in, trying};

use crate::moves::TicketMove;
use build_core::Builder;
use core_steps::{Facts, Project, Reply, Room, StoredProof};
use formula_core::{List, Name, PoName, Text};
use proof_entries::{Entry, Proof};
use sequent_core::{Sequent, Ticket};
use std::alloc::Global;
use std::marker::Model;

/// The texts that were built, and what they were built to.
#[derive(Drop)]
pub struct Built {
    pub project: Project,
    pub builder: Builder,
}

/// What is prepared for an event: its reply, its entry, and all memory that its commit wants.
#[derive(Drop)]
pub struct Prepared {
    reply: Reply,
    entry: Option<Entry>,
    tickets: TicketMove,
    facts: Option<Facts>,
    built: Option<Built>,
    text_room: Room<(Name, Text)>,
    proof_room: Room<(PoName, StoredProof)>,
    tried_room: Room<(PoName, Sequent)>,
    ticket_room: Room<Ticket>,
}

impl Model for Prepared {
    ghost use Rattle.std.specs.Prelude.{◌≡◌, IfSome};
    ghost use Rattle.std.specs.Option.{option_map};
    ghost use Rattle.std.specs.FinMap.{entries};
    ghost use Rattle.prepared_events.specs.Prepared.{Ready};
    ghost use Rattle.std.specs.FinMap as map;
    ghost use Rattle.std.specs.Coded.{codes, coded_ℕ, coded_list};
    ghost use Rattle.proof_entries.specs.contracts.entry.Entry as entry_of;
    ghost use Rattle.core_steps.specs.contracts.events.Reply as reply_of;
    ghost use Rattle.prepared_events.specs.contracts.moves.TicketMove as moves_of;
    ghost use Rattle.core_steps.specs.Durable.{text_cmp};

    ghost Value = { Ready };

    ghost coded = { Prim.hlevel (
      codes,
      reply_of.the_row.coded,
      entry_of.the_row.coded,
      moves_of.the_row.coded,
      map.code {R = text_cmp} (coded_list coded_ℕ) (coded_list coded_ℕ),
    ) };

    ghost use Rattle.prepared_events.specs.Kept.{HasFacts};

    ghost view = { λ p. record {
      reply = p.reply;
      entry = p.entry;
      tickets = p.tickets;
      built = option_map (λ b. b.project) p.built;
      text_room = p.text_room;
      proof_room = p.proof_room;
      tried_room = p.tried_room;
      ticket_room = p.ticket_room;
    } };

    ghost invariant = { λ p. HasFacts p.entry p.facts × IfSome p.built (λ b. b.builder ≡ entries b.project) };
}

/// What is prepared for an entry, but for what was built.
#[derive(Drop)]
pub struct EntryParts {
    pub entry: Option<Entry>,
    pub facts: Option<Facts>,
    pub text_room: Room<(Name, Text)>,
    pub proof_room: Room<(PoName, StoredProof)>,
}

/// What is prepared for the tickets.
#[derive(Drop)]
pub struct MoveParts {
    pub tickets: TicketMove,
    pub tried_room: Room<(PoName, Sequent)>,
    pub ticket_room: Room<Ticket>,
}

/// A proof that is to be stored: what is known of its tree, and memory for it.
#[derive(Drop)]
pub struct Storing {
    pub name: PoName,
    pub proof: Proof,
    pub facts: Facts,
    pub room: Room<(PoName, StoredProof)>,
}

impl Prepared {
    /// The reply.
    pub fn reply(&self) -> &Reply
        ensures reply { result.now ≡ self.now.reply }
    {
        &self.reply
    }

    /// What is added to the record of the project, if anything.
    pub fn entry(&self) -> Option<&Entry>
        ensures entry { option_copied result ≡ self.now.entry }
    {
        self.entry.as_ref()
    }

    /// Its parts.
    pub fn into_parts(self) -> (Reply, EntryParts, Option<Built>, MoveParts)
        ensures reply { result.0 ≡ self.reply }
        ensures entry { result.1.entry ≡ self.entry }
        ensures facts { HasFacts result.1.entry result.1.facts }
        ensures text_room { result.1.text_room ≡ self.text_room }
        ensures proof_room { result.1.proof_room ≡ self.proof_room }
        ensures project { option_map (λ b. b.project) result.2 ≡ self.built }
        ensures builder { IfSome result.2 (λ b. b.builder ≡ map.entries b.project) }
        ensures tickets { result.3.tickets ≡ self.tickets }
        ensures tried_room { result.3.tried_room ≡ self.tried_room }
        ensures ticket_room { result.3.ticket_room ≡ self.ticket_room }
    {
        let Prepared {
            reply,
            entry,
            tickets,
            facts,
            built,
            text_room,
            proof_room,
            tried_room,
            ticket_room,
        } = self;
        let entry = EntryParts {
            entry,
            facts,
            text_room,
            proof_room,
        };
        let tickets = MoveParts {
            tickets,
            tried_room,
            ticket_room,
        };
        (reply, entry, built, tickets)
    }

    // What is prepared for an entry.
    fn entering(alloc: Global, reply: Reply, parts: EntryParts, built: Option<Built>) -> Prepared
        requires facts { HasFacts parts.entry parts.facts }
        requires builder { IfSome built (λ b. b.builder ≡ map.entries b.project) }
        ensures { result ≡ record (telling reply) {
          entry = parts.entry;
          built = option_map (λ b. b.project) built;
          text_room = parts.text_room;
          proof_room = parts.proof_room;
        } }
    {
        let EntryParts {
            entry,
            facts,
            text_room,
            proof_room,
        } = parts;
        Prepared {
            reply,
            entry,
            tickets: TicketMove::Stay,
            facts,
            built,
            text_room,
            proof_room,
            tried_room: Room::none(alloc),
            ticket_room: Room::none(alloc),
        }
    }

    // What is prepared for the tickets.
    fn moving(alloc: Global, reply: Reply, parts: MoveParts) -> Prepared
        ensures { result ≡ record (telling reply) {
          tickets = parts.tickets;
          tried_room = parts.tried_room;
          ticket_room = parts.ticket_room;
        } }
    {
        let MoveParts {
            tickets,
            tried_room,
            ticket_room,
        } = parts;
        Prepared {
            reply,
            entry: None,
            tickets,
            facts: None,
            built: None,
            text_room: Room::none(alloc),
            proof_room: Room::none(alloc),
            tried_room,
            ticket_room,
        }
    }

    /// An event that is told, and changes nothing.
    pub fn told(alloc: Global, reply: Reply) -> Prepared
        ensures prepared { result ≡ telling reply }
    {
        let parts = MoveParts {
            tickets: TicketMove::Stay,
            tried_room: Room::none(alloc),
            ticket_room: Room::none(alloc),
        };
        Prepared::moving(alloc, reply, parts)
    }

    /// A text is put, in this room.
    pub fn putting(
        alloc: Global,
        reply: Reply,
        name: Name,
        text: Text,
        room: Room<(Name, Text)>,
    ) -> Prepared
        ensures prepared { result ≡ putting reply name text room }
    {
        let parts = EntryParts {
            entry: Some(Entry::Put(name, text)),
            facts: None,
            text_room: room,
            proof_room: Room::none(alloc),
        };
        Prepared::entering(alloc, reply, parts, None)
    }

    /// A component is dropped.
    pub fn dropping(alloc: Global, reply: Reply, name: Name) -> Prepared
        ensures prepared { result ≡ dropping reply name }
    {
        let parts = EntryParts {
            entry: Some(Entry::Drop(name)),
            facts: None,
            text_room: Room::none(alloc),
            proof_room: Room::none(alloc),
        };
        Prepared::entering(alloc, reply, parts, None)
    }

    /// The texts were built.
    pub fn building(alloc: Global, reply: Reply, built: Built) -> Prepared
        requires builder { built.builder ≡ map.entries built.project }
        ensures prepared { result ≡ building reply built.project }
    {
        let parts = EntryParts {
            entry: Some(Entry::Build),
            facts: None,
            text_room: Room::none(alloc),
            proof_room: Room::none(alloc),
        };
        Prepared::entering(alloc, reply, parts, Some(built))
    }

    /// These proofs are removed.
    pub fn purging(alloc: Global, reply: Reply, names: List<PoName>) -> Prepared
        ensures prepared { result ≡ purging reply names }
    {
        let parts = EntryParts {
            entry: Some(Entry::Purge(names)),
            facts: None,
            text_room: Room::none(alloc),
            proof_room: Room::none(alloc),
        };
        Prepared::entering(alloc, reply, parts, None)
    }

    /// A proof is stored.
    pub fn keeping(alloc: Global, reply: Reply, storing: Storing) -> Prepared
        requires facts { AreFactsOf storing.proof.tree storing.facts }
        ensures prepared { result ≡ keeping reply storing.name storing.proof storing.room }
    {
        let Storing {
            name,
            proof,
            facts,
            room,
        } = storing;
        let parts = EntryParts {
            entry: Some(Entry::SetProof(name, proof)),
            facts: Some(facts),
            text_room: Room::none(alloc),
            proof_room: room,
        };
        Prepared::entering(alloc, reply, parts, None)
    }

    /// A ticket goes out, in this room.
    pub fn sending(alloc: Global, reply: Reply, ticket: Ticket, room: Room<Ticket>) -> Prepared
        ensures prepared { result ≡ sending reply ticket room }
    {
        let parts = MoveParts {
            tickets: TicketMove::SendOut(ticket),
            tried_room: Room::none(alloc),
            ticket_room: room,
        };
        Prepared::moving(alloc, reply, parts)
    }

    /// With the ticket at the place taken in.
    pub fn taking_in(self, at: usize) -> Prepared
        ensures prepared { result ≡ taking_in self at }
    {
        let mut prepared = self;
        prepared.tickets = TicketMove::TakeIn(at);
        prepared
    }

    /// The ticket at the place is taken in, and its sequent is the last tried one of its name, in this room.
    pub fn trying(alloc: Global, reply: Reply, at: usize, room: Room<(PoName, Sequent)>) -> Prepared
        ensures prepared { result ≡ trying reply at room }
    {
        let parts = MoveParts {
            tickets: TicketMove::Try(at),
            tried_room: room,
            ticket_room: Room::none(alloc),
        };
        Prepared::moving(alloc, reply, parts)
    }
}
