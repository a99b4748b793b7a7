//! Strategies: ways to begin a proof, and to put such ways together.
#![tactic(auto)]

mod combined;
mod ends;
mod growing;
mod one;
mod room;
mod strategy;

pub use combined::{OrElse, Repeat, Then};
pub use one::One;
pub use room::{Room, Times};
pub use strategy::Strategy;
