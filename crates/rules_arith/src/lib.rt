//! The laws of arithmetic, rewriting at a place, and the linear step.
#![tactic(auto)]

mod checked;
mod form;
mod joining;
mod laws;
mod places;
mod step;
mod values;

pub use laws::{
    equal_integers, less_is_at_most, member_of_interval, member_of_naturals,
    member_of_positive_naturals, member_of_predecessor, member_of_successor, negated_at_most,
    negated_less,
};
pub use places::{at_place, with_at};
pub use step::{linear_step_of, linear_width};
pub use values::{computed, width_at};
