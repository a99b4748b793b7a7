//! Trees that prove by the rules on connectives.
#![tactic(auto)]

mod cases;
mod ends;
mod left;
mod right;
mod rules;

pub use cases::{denied_and_tree, denied_imp_tree, denied_or_tree, differ_tree, same_tree};
pub use ends::{bottom_tree, contr_tree, top_tree};
pub use left::{and_tree, denied_tree, imp_tree, or_tree};
pub use right::contra_tree;
