//! What those who work on tickets have at hand.

use crate::notices::Notices;
use std::alloc::Global;
use turn_desk::{Desk, Kept};

/// What each who works on tickets works with.
#[derive_where(Clone, Copy)]
pub struct Tools<'a, R, P, G> {
    pub rt: &'a R,
    pub alloc: Global,
    /// What is asked on a ticket's sequent.
    pub prover: &'a P,
    /// What each finish of a ticket passes.
    pub gate: &'a G,
}

/// Where they work: the desk with the tickets, and the notices that tell of work and of finishes there.
#[derive_where(Clone, Copy)]
pub struct Office<'a, V: Kept> {
    pub desk: &'a Desk<V>,
    pub notices: &'a Notices,
}
