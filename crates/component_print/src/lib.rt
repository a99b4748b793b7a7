//! Prints components.
#![tactic(auto)]

mod machine;
mod printing;
mod sections;

pub use printing::print;
