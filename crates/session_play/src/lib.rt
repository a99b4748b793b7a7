//! A session at its desk: chair 0 for the user and the workers beside it, over one store, until the user's commands end.
#![tactic(auto)]

mod playing;

pub use playing::play;
