//! Where formulas are well-defined, what they denote doesn't depend on the choices of a classical universe. The calls do nothing.
#![tactic(auto)]

mod laws;

pub use laws::{
    defined_formulas_denote_one, defined_in_one_is_defined_in_all, defined_sequents_agree,
};
