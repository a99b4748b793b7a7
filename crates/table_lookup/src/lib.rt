//! Looking up in a table of obligations: their statuses, the first open one, and the tickets for them.
#![tactic(auto)]

mod lookup;

pub use lookup::{
    facts_to_store, first_open, follows_by, is_free, is_good_proof, present_status,
    status_and_origin, status_of, ticket_at,
};
