//! Formulas and actions of tokens: `predicate`, `expression` and `action` give the one tree that the tokens spell, or their first fault;
//! the laws say that there is one of both.
#![tactic(auto)]

pub use formula_parse::{
    ParseFault, expression, formula_or_fault, one_fault, one_formula, predicate,
};
pub use math_action::{action, action_or_fault, one_action, one_action_fault};
