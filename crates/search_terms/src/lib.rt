//! Branches of a search for proofs, and what it reads off formulas: the laws that open them, matches, linear forms.
#![tactic(auto)]

mod apart;
mod bounds;
mod branch;
mod equations;
mod forms;
mod matching;
mod unfold;

pub use apart::{Spread, assembled, left_whole, take_apart};
pub use bounds::Bounds;
pub use branch::{Branch, Equation, Instance, Note, State};
pub use equations::oriented;
pub use forms::{Comparison, Comparisons, Form, add_atom, form_of};
pub use matching::{bounded, filled, is_full, matches, may_match, misses, unfilled};
pub use unfold::{
    is_arrow, is_of_integers, is_of_partner, is_plain, is_whole, law_for, negation_law,
};
