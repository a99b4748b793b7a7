//! The one typing of a formula.
#![tactic(auto)]

mod build;
mod collect;
mod denote;
mod forms;
mod free;
mod laws;
mod occurring;
mod partition;
mod predicate;
mod reading;
mod rows;
mod scope;
mod terms;
mod tree;
mod unknown;

pub use laws::{typed_formulas_stand, typed_predicates_stand};
pub use predicate::{TypeFault, type_expression, type_predicate, type_tree};
pub use reading::read;
pub use tree::{BoundNames, Tree, Trees, before, form, pair};
pub use unknown::{keep_earlier, keep_unknown};
