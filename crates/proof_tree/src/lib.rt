//! Whether a proof tree applies to a sequent and derives it.
#![tactic(auto)]

mod applying;
mod fits;
mod hyp;
mod way;

pub use applying::{applies_to, derives, is_good};
pub use hyp::hypothesis;
pub use way::Way;
