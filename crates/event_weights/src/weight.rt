//! What events weigh.
ghost use Rattle.std.specs.Prelude.{◌≡◌, ◌+◌, ◌-◌, ◌*◌, ◌^◌, ◌<◌, ◌≤◌, min, MatchOption};
ghost use Rattle.event_weights.specs.Weights.{attempt_size, weight_of};

use crate::nodes::nodes_of_hint;
use crate::size::byte_count;
use core_steps::Event;
use sequent_core::Attempt;

/// What the event weighs, if it is no more than the room.
pub fn weight_within(event: &Event, room: u64) -> Option<u64>
    requires { room < 2 ^ 64 - 1 }
    ensures weight { MatchOption result (room < weight_of event.now)
        (λ weight. (weight ≡ weight_of event.now) × (weight ≤ room)) }
{
    let weight = weight_of(event);
    if weight <= room { Some(weight) } else { None }
}

// What the event weighs, or the greatest `u64` where it is more.
fn weight_of(event: &Event) -> u64
    ensures { result ≡ min (weight_of event.now) (2 ^ 64 - 1) }
{
    match event {
        Event::Edit(_, text) => (text.as_text().len() as u64).saturating_add(16),
        Event::Delete(_) => 16,
        Event::Build => 16,
        Event::Step(_, path, _, hint) => {
            nodes_weigh(nodes_of_hint(hint).saturating_add(path.items().len() as u64))
        }
        Event::Prune(_, path) => nodes_weigh(path.items().len() as u64),
        Event::Take(_) => 0,
        Event::Finish(_, attempt) => size_of_attempt(attempt).saturating_add(16),
        Event::Purge => 16,
        Event::Ask(_) => 0,
    }
}

// What an event with so many nodes weighs.
fn nodes_weigh(nodes: u64) -> u64
    ensures { result ≡ min (16 + 16 * nodes) (2 ^ 64 - 1) }
{
    nodes.saturating_mul(16).saturating_add(16)
}

fn size_of_attempt(attempt: &Attempt) -> u64
    ensures { result ≡ min (attempt_size attempt.now) (2 ^ 64 - 1) }
{
    match attempt {
        Attempt::Found(tree) => byte_count(tree),
        Attempt::NoProof => 0,
        Attempt::NoMemory => 0,
    }
}
