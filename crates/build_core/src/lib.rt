//! Builds a project: reads the texts of its components, checks each beside those that it references, and gathers
//! obligations, faults and warnings.
#![tactic(auto)]

mod before;
mod built;
mod checking;
mod components;
mod copies;
mod fault_line;
mod gathering;
mod incremental;
mod index;
mod laws;
mod numbered;
mod outcomes;
mod owns;
mod parts;
mod places;
mod reading;
mod references;
mod same;

pub use built::BuildFault;
pub use fault_line::FaultLine;
pub use incremental::Builder;
pub use laws::{
    distinct_obligations, few_faults, one_list_of_faults, one_list_of_warnings, one_table,
    one_verdict,
};
pub use numbered::Numbered;
