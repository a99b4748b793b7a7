//! The types of rules and laws. What is a rule is said in specs/.
#![tactic(auto)]

mod copies;
mod kind;
mod law;
mod makers;
mod parts;
mod rule;
mod shapes;

pub use kind::RuleKind;
pub use law::{LAWS, Law};
pub use makers::{
    adds, adds_one, assumes, backward, both, condition_first, forward, forward_one, none_left,
    one_after, one_left, proves, two_after, two_left, wd_of_all,
};
pub use rule::{Antecedent, Body, Main, Rule};
pub use shapes::{
    binary, negation, one, one_bound, operand, operands, predicate, quantified, quantified_one,
    top, two, two_bound, two_operands,
};
