//! What a component must meet to be checked, as definitions, and the abstract events of an event.
#![tactic(auto)]

mod abstraction;

pub use abstraction::{AbstractEvents, is_initialisation, refined};
