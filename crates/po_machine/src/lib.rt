//! The obligations of contexts and machines: well-definedness, theorems, feasibility, invariant preservation and variants.
#![tactic(auto)]

mod actions;
mod changes;
mod gathered;
mod hypotheses;
mod invariants;
mod labelled;
mod names;
mod needed;
mod parts;
mod predicates;
mod variant;

pub use actions::add_action_rows;
pub use gathered::Gathered;
pub use invariants::add_invariant_rows;
pub use labelled::{add_axiom_rows, add_guard_rows, add_own_invariant_rows};
pub use names::Names;
pub use needed::{
    TABLE_LIMIT, add_from_base, add_from_choices, add_from_witnesses, add_whole_from_base,
    add_whole_from_choices, label_part, name_part,
};
pub use parts::{SharedParts, refined_by, shared_parts};
pub use predicates::{for_some_of, of_two, top};
pub use variant::{add_decrease_rows, add_variant_rows};
