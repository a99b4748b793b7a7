//! Cuts the input of a check into components.
#![tactic(auto)]

mod cutting;
mod headings;
mod input;
mod laws;
mod parts;
mod telling;

pub use input::{InputError, InputFault};
pub use laws::{good_parts, one_input, whole_input};
pub use parts::parts_of;
pub use telling::input_line;
