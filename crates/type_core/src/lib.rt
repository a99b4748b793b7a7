//! The one typing of formulas and actions: `type_predicate`, `type_expression` and `type_action` give the formula or action that a tree
//! is in an environment, or their first fault; the laws say that what was typed still is in an environment with more names.
#![tactic(auto)]

pub use type_action::{type_action, typed_actions_stand};
pub use type_formula::{
    TypeFault, type_expression, type_predicate, typed_formulas_stand, typed_predicates_stand,
};
