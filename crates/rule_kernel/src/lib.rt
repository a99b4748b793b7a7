//! Whether a rule is one of the table.
#![tactic(auto)]

mod instances;
mod laws;
mod names;
mod parts;
mod read;
mod rewriting;
mod same;
mod sound;
mod table;

pub use instances::instance;
pub use laws::right_side;
pub use table::{is_rule, used_if_sound};
