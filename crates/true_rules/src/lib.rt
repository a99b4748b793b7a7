//! What a proof tree derives is true in each classical universe. The calls do nothing.
#![tactic(auto)]

mod laws;

pub use laws::{derived_is_true, nothing_derives_false};
