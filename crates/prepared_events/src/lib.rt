//! What is prepared for an event: its reply, its entry, what happens to the tickets, and all memory that its commit wants; and
//! what a commit makes of it.
#![tactic(auto)]

mod closing;
mod entering;
mod moves;
mod prepared;

pub use closing::{closed_after, closed_beside};
pub use entering::{build_over, enter, move_ticket};
pub use moves::TicketMove;
pub use prepared::{Built, EntryParts, MoveParts, Prepared, Storing};
