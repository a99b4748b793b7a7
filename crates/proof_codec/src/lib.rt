//! Entries of a project's record as bytes, and back.
#![tactic(auto)]

mod coded;
mod entry;
mod formula;
mod laws;
mod names;
mod reader;
mod rule;
mod tree;
mod ty;
mod writer;

pub use entry::{CodecFault, read_entries, read_entries_v1, write_entry, write_entry_v1};
pub use laws::entries_are_writable;
pub use proof_entries::{Entry, Origin, Proof};
pub use reader::ReadFault;
