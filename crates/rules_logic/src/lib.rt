//! The rules of logic and its laws: what each needs and leaves, as the table of rules has it.
#![tactic(auto)]

mod chosen;
mod closing;
mod connectives;
mod laws;
mod quantified;

pub use chosen::{cases, cut};
pub use closing::{bot, contr, hyp, review, top};
pub use connectives::{
    and_l, and_r, contra, iff_l, iff_r, imp_l, imp_r, mp, not_l, not_r, or_l, or_r,
};
pub use laws::{
    bool_is_false, bool_is_true, double_negation, equal_turned, negated_and, negated_equivalent,
    negated_exists, negated_for_all, negated_implies, negated_or,
};
pub use quantified::{all_l, all_r, ex_l, ex_r};
