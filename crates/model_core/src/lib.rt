//! Components as they are written and as they are checked, and the faults of components.
#![tactic(auto)]

mod checked;
mod component;
mod fault;
mod shared;

pub use checked::{Checked, CheckedContext, CheckedEvent, CheckedMachine, Labelled};
pub use component::{Convergence, RawComponent, RawEvent, RawLabelled, RawStep, RawVariant};
pub use fault::{Fault, FaultKind, earlier, fault_at};
pub use shared::Shared;
