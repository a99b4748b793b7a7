//! What a printed formula is to the reader: its text is cut into tokens that spell it, and is typed as the formula again.
#![tactic(auto)]

mod laws;
mod rereading;

pub use laws::{
    read_back, spelled_one_way, text_is_cut, typed_at_other_places, written_is_spelled,
};
pub use rereading::text;
