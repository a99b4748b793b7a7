//! Texts that are written token by token: they are cut into those tokens.
#![tactic(auto)]

mod laws;

pub use laws::spaced_is_cut;
