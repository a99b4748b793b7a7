//! Laws of the obligations: each of the table is a sequent.
#![tactic(auto)]

mod laws;

pub use laws::{event_sequents, good_parts, good_table_sequents, table_sequents};
