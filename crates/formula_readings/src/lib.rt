//! Readings of formulas: a value for each atom.
#![tactic(auto)]

mod forms;
mod reading;

pub use forms::{
    adds_up, are_integers, compares, is_arithmetic, is_comparison, is_connected, joins_two,
    negates, turns_sign,
};
pub use reading::Reading;
