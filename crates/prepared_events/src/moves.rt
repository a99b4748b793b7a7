// What happens to tickets.
use sequent_core::Ticket;

/// What an event does to the tickets that are out.
#[derive(Drop)]
pub enum TicketMove {
    /// Nothing.
    Stay,
    /// The ticket goes out.
    SendOut(Ticket),
    /// The ticket at the place comes in.
    TakeIn(usize),
    /// It comes in, and its sequent is the last tried one of its name.
    Try(usize),
}
