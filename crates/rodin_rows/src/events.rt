//! Events told by words that are none of a session.

use crate::trees::attempt_of;
use core_steps::{Event, Question};
use formula_core::{Name, PoName, Text};
use sequent_core::{Sequent, Ticket};
use std::alloc::Global;

// The sequent of the ticket of a number.
fn sequent_of(tickets: &[Ticket], number: u64) -> Option<&Sequent> {
    for ticket in tickets {
        if ticket.number == number {
            return Some(&ticket.sequent);
        }
    }
    None
}

fn finish(alloc: Global, tickets: &[Ticket], words: &str) -> Option<Event> {
    let (number, answer) = words.split_once(' ')?;
    let number = number.parse::<u64>().ok()?;
    let attempt = attempt_of(alloc, answer, sequent_of(tickets, number));
    Some(Event::Finish(number, attempt))
}

// An edit under a name, which may be primed, with a text of so many bytes.
fn put(alloc: Global, words: &str) -> Option<Event> {
    let (name, count) = words.split_once(' ')?;
    let name = Name::read(alloc, name).ok()?;
    let mut text = String::new(alloc);
    for _ in 0..count.parse::<u32>().ok()? {
        text.push('x').ok()?;
    }
    Some(Event::Edit(name, Text::of(alloc, &text).ok()?))
}

/// The event of a line that is none of a session. None where it is none.
pub fn told_event(alloc: Global, tickets: &[Ticket], line: &str) -> Option<Event> {
    match line {
        "take" => Some(Event::Take(None)),
        "idle" => Some(Event::Ask(Question::Idle)),
        _ => match line.split_once(' ')? {
            ("take", name) => Some(Event::Take(Some(PoName::read(alloc, name).ok()?))),
            ("finish", words) => finish(alloc, tickets, words),
            ("put", words) => put(alloc, words),
            _ => None,
        },
    }
}
