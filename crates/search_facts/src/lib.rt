//! What the hypotheses of a branch say of a formula, and the steps that bring it.
#![tactic(auto)]

mod closers;
mod facts;
mod fourier;
mod known;
mod plan;
mod rewriting;
mod steps;
mod triggers;
mod witness;

pub use facts::Facts;
pub use fourier::Counts;
pub use plan::{Limits, Next, Plan, Turn, Way};
pub use rewriting::Normals;
pub use triggers::{Trigger, is_in};
