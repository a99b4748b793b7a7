//! Finite values: their order, their texts, and the reading of texts.
#![tactic(auto)]

mod laws;
mod lists;
mod printing;
mod reading;
mod typing;
mod value;

pub use laws::{ascending_is_the_set, order_is_total, printed_is_read, read_is_of_the_type};
pub use lists::{ascending, ascends};
pub use printing::value_text;
pub use reading::{ReadValueFault, read_value};
pub use typing::is_value_of;
pub use value::{Value, copy_values};
