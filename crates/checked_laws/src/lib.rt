//! Laws of checked components: each of their formulas is typed in the environment of its place.
#![tactic(auto)]

mod laws;

pub use laws::checked_is_sound;
