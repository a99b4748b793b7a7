//! What a run answers.
use act_history::History;
use core_steps::{Durable, Event};

/// What a command without a disk answers: the exit status, the events, each with its chair, and what lasts.
#[derive(Drop)]
pub struct Part {
    pub status: u8,
    pub history: History<(u32, Event)>,
    pub last: Durable,
}

/// What the program answers: the exit status, the disk that was handed in, the events, each with its chair, and what
/// lasts.
#[derive(Drop)]
pub struct Run<D> {
    pub status: u8,
    pub disk: D,
    pub history: History<(u32, Event)>,
    pub last: Durable,
}
