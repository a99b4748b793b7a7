//! What a seat at the desk's table knows.
use std::collections::LinkedList;

/// What a chair knows. No value of it is made.
pub(crate) struct View<E, B> {
    /// False once another chair has taken this one in.
    pub seated: bool,
    /// Whether the chair has the turn.
    pub acting: bool,
    pub number: u64,
    /// How many acts the chair has made.
    pub acts: u64,
    /// How many chairs were made. Chair 0 alone knows it.
    pub made: u64,
    /// The chairs that were taken in, each with all its entries.
    pub joined: LinkedList<(u64, LinkedList<E>)>,
    pub seen: LinkedList<E>,
    /// What it had seen before it took another chair in, if it did since its last act.
    pub before: LinkedList<E>,
    /// A beginning of what was seen, which another chair had seen too.
    pub told: LinkedList<E>,
    /// What the value began from. A chair that was taken in has none.
    pub base: Option<B>,
}
