//! Laws of the names of obligations.
#![tactic(auto)]

mod laws;

pub use laws::{
    distinct_labels, distinct_names, joined_tables, name_kept, plain_identifiers, plain_labels,
    plain_names,
};
