//! Checks machines by themselves.
#![tactic(auto)]

mod assignments;
mod environment;
mod event;
mod event_names;
mod machine;
mod machine_names;
mod machine_parts;
mod param_types;
mod parts;
mod refined_machine;

pub use context_check::{CheckFault, check_context};
pub use machine::check_machine;
