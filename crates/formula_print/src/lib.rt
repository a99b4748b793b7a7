//! The printed text of formulas.
#![tactic(auto)]

mod depths;
mod levels;
mod names;
mod printing;
mod signs;
mod types;

pub use printing::text;
