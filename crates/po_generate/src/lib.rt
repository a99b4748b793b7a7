//! The table of obligations of a checked component.
#![tactic(auto)]

mod laws;
mod table;

pub use laws::{all_are_gathered, each_in_one_list, too_many_are_noticed};
pub use table::{add_obligations, machine_obligations, obligations, refine_obligations};
