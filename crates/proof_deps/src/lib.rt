//! What a proof tree asks of a sequent, and whether a sequent has it, without the tree.
#![tactic(auto)]

mod deps;
mod found;
mod gather;
mod print;
mod settle;
mod way;

pub use deps::{Deps, fits, fits_by};
pub use gather::of;
pub use print::prints_of;
