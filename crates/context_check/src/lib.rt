//! Checks contexts, and what the checks of contexts and machines share.
#![tactic(auto)]

mod brought;
pub mod context;
pub mod copies;
pub mod declarations;
mod fault;
pub mod typing;
pub mod visible;

pub use context::check_context;
pub use fault::CheckFault;
