//! The obligations by which an event refines the events of its abstraction: one call for each row of the table.
#![tactic(auto)]

mod chains;
mod equality;
mod events;
mod full;
mod merging;
mod simulation;
mod strengthening;
mod targets;
mod witnesses;

pub use equality::add_equality_rows;
pub use merging::add_merging_rows;
pub use simulation::add_simulation_rows;
pub use strengthening::add_strengthening_rows;
pub use witnesses::add_witness_rows;
