// What was prepared takes effect on what lasts, and on the tickets. Nothing here takes memory.
ghost use Rattle.std.specs.Prelude.{◌≡◌, ◌↔◌, IfSome, IsTrue, Some};
ghost use Rattle.std.specs.FinMap as map;
ghost use Rattle.std.specs.Option.{option_copied, option_map};
ghost use Rattle.proof_entries.specs.declared.Entry.{Entry};
ghost use Rattle.core_steps.specs.Durable.{ProjectMap};
ghost use Rattle.core_steps.specs.State.{State};
ghost use Rattle.prepared_events.specs.Entered.{built_after, proofs_after, texts_after};
ghost use Rattle.prepared_events.specs.Kept.{HasFacts};
ghost use Rattle.prepared_events.specs.Prepared.{FitsBuilt, FitsEntry, FitsMove, moved};
ghost use Rattle.prepared_events.specs.Private.{
  FitsProof,
  FitsText,
  but_proof,
  but_text,
  with_proof,
  with_text,
  without_proofs,
  without_text,
};

use crate::moves::TicketMove;
use crate::prepared::{Built, EntryParts, MoveParts};
use build_core::Builder;
use core_steps::{Facts, PoMap, Project, Room, StoredProof, Texts, push_in};
use formula_core::{Name, PoName, Text};
use proof_entries::Entry;
use sequent_core::{Sequent, Ticket};

fn is_build(entry: Option<&Entry>) -> bool
    ensures { IsTrue result ↔ (option_copied entry.entry ≡ Some Entry.Build) }
{
    matches!(entry, Some(Entry::Build))
}

/// What was built is taken over, where the entry is a build.
pub fn build_over(
    entry: Option<&Entry>,
    built: Option<Built>,
    project: &mut Project,
    builder: &mut Builder,
)
    requires built { IfSome built (λ b. b.builder ≡ map.entries b.project) }
    requires builder { builder.old ≡ map.entries project.old }
    ensures project { (texts : ProjectMap)
        → FitsBuilt texts (option_map (λ b. b.project) built) (option_copied entry.entry)
        → project.new ≡ built_after texts project.old (option_copied entry.entry) }
    ensures builder { builder.new ≡ map.entries project.new }
{
    if !is_build(entry) {
        drop(built);
        return;
    }
    let Some(built) = built else {
        return;
    };
    let Built {
        project: new,
        builder: of,
    } = built;
    *project = new;
    *builder = of;
}

// A proof that the entry sets is stored. The entry comes back where it sets none.
fn store_proof(
    entry: Option<Entry>,
    facts: Option<Facts>,
    room: Room<(PoName, StoredProof)>,
    proofs: &mut PoMap<StoredProof>,
) -> Option<Entry>
    requires facts { HasFacts entry facts }
    requires room { FitsProof proofs.old room entry }
    ensures proofs { proofs.new ≡ with_proof proofs.old entry }
    ensures rest { result ≡ but_proof entry }
{
    let Some(Entry::SetProof(name, proof)) = entry else {
        return entry;
    };
    let Some(facts) = facts else { unreachable!() };
    let stored = StoredProof::with(proof, facts);
    proofs.put_in(room, name, stored);
    None
}

// A text that the entry puts is put. The entry comes back where it puts none.
fn put_text(entry: Option<Entry>, room: Room<(Name, Text)>, texts: &mut Texts) -> Option<Entry>
    requires { FitsText texts.old room entry }
    ensures texts { texts.new ≡ with_text texts.old entry }
    ensures rest { result ≡ but_text entry }
{
    let Some(Entry::Put(name, text)) = entry else {
        return entry;
    };
    texts.put_in(room, name, text);
    None
}

// A component that the entry drops is dropped, and proofs that it purges are removed.
fn remove(entry: Option<Entry>, texts: &mut Texts, proofs: &mut PoMap<StoredProof>)
    ensures texts { texts.new ≡ without_text texts.old entry }
    ensures proofs { proofs.new ≡ without_proofs proofs.old entry }
{
    match entry {
        Some(Entry::Drop(name)) => texts.remove(&name),
        Some(Entry::Purge(names)) => proofs.remove_all(names.items()),
        _ => {}
    }
}

/// The texts and the proofs after the entry.
pub fn enter(parts: EntryParts, texts: &mut Texts, proofs: &mut PoMap<StoredProof>)
    requires facts { HasFacts parts.entry parts.facts }
    requires room { FitsEntry texts.old proofs.old parts.text_room parts.proof_room parts.entry }
    ensures texts { texts.new ≡ texts_after texts.old parts.entry }
    ensures proofs { proofs.new ≡ proofs_after proofs.old parts.entry }
{
    let EntryParts {
        entry,
        facts,
        text_room,
        proof_room,
    } = parts;
    let entry = store_proof(entry, facts, proof_room, proofs);
    let entry = put_text(entry, text_room, texts);
    remove(entry, texts, proofs);
}

/// What the event does to the tickets.
pub fn move_ticket(
    parts: MoveParts,
    out: &mut Vec<Ticket>,
    tried: &mut PoMap<Sequent>,
    next: &mut u64,
)
    requires room { FitsMove out.old.items tried.old next.old parts.tried_room parts.ticket_room parts.tickets }
    ensures moved { (s : State) → s.out ≡ out.old.items → s.tried ≡ tried.old → s.next ≡ next.old →
        moved parts.tickets s ≡ record s { out = out.new.items; tried = tried.new; next = next.new } }
{
    let MoveParts {
        tickets,
        tried_room,
        ticket_room,
    } = parts;
    match tickets {
        TicketMove::Stay => {}
        TicketMove::SendOut(ticket) => {
            push_in(out, ticket_room, ticket);
            *next += 1;
        }
        TicketMove::TakeIn(at) => {
            let _ticket = out.remove(at);
        }
        TicketMove::Try(at) => {
            let ticket = out.remove(at);
            tried.put_in(tried_room, ticket.name, ticket.sequent);
        }
    }
}
