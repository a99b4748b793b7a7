// Before which place of the table no obligation is open, after what was prepared.
ghost use Rattle.std.specs.Prelude.{◌≡◌, ◌≤◌};
ghost use Rattle.std.specs.FinMap as map;
ghost use Rattle.std.specs.Option.{option_copied};
ghost use Rattle.core_steps.specs.State.{State, entered_if};
ghost use Rattle.prepared_events.specs.Closed.{AreClosedBefore, IsThere};
ghost use Rattle.prepared_events.specs.Private.{AreOthersBefore};
ghost use Rattle.prepared_events.specs.Prepared.{moved};

use crate::moves::TicketMove;
use build_core::Builder;
use formula_core::PoName;
use proof_entries::Entry;
use sequent_core::Ticket;

// A place, at most this one, before which no obligation has the name.
fn closed_for_others(builder: &Builder, name: &PoName, closed: usize) -> usize
    ensures most { result ≤ closed }
    ensures others { AreOthersBefore builder.now name.now result }
{
    match builder.place(name) {
        Some(place) => closed.min(place),
        None => closed,
    }
}

/// A place before which no obligation is open after the entry.
pub fn closed_after(builder: &Builder, entry: Option<&Entry>, closed: usize) -> usize
    ensures closed { (s : State) → builder.now ≡ map.entries s.durable.built → AreClosedBefore s closed →
        AreClosedBefore (record s { durable = entered_if s.durable (option_copied entry.entry) }) result }
{
    match entry {
        None => closed,
        Some(Entry::Put(_, _)) => closed,
        Some(Entry::Drop(_)) => closed,
        Some(Entry::Build) => 0,
        Some(Entry::SetProof(name, _)) => closed_for_others(builder, name, closed),
        Some(Entry::Purge(_)) => 0,
    }
}

/// A place before which no obligation is open after what happens to the tickets.
pub fn closed_beside(
    builder: &Builder,
    out: &[Ticket],
    tickets: &TicketMove,
    closed: usize,
) -> usize
    requires there { IsThere out.now tickets.now }
    ensures closed { (s : State) → builder.now ≡ map.entries s.durable.built → s.out ≡ out.now
        → AreClosedBefore s closed → AreClosedBefore (moved tickets.now s) result }
{
    match tickets {
        TicketMove::Stay => closed,
        TicketMove::SendOut(_) => closed,
        TicketMove::TakeIn(at) => closed_for_others(builder, &out[*at].name, closed),
        TicketMove::Try(at) => closed_for_others(builder, &out[*at].name, closed),
    }
}
