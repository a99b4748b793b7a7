//! The order of components, and the checked component or its first fault.
#![tactic(auto)]

mod checking;
mod laws;
pub mod settled;
mod sorting;

pub use checking::check;
pub use context_check::CheckFault;
pub use laws::one_outcome;
pub use sorting::order;
