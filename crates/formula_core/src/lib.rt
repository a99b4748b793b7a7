//! Names, types, formulas and substitution: the plain data that everything else is written over.
#![tactic(auto)]

mod action;
mod boxed;
mod env;
mod formula;
mod free;
mod identifiers;
mod laws;
mod list;
mod memory;
mod name;
mod op;
mod order;
mod raw;
mod row;
mod scheme;
mod scope;
mod shift;
mod size;
mod steps;
mod text;
mod ty;
mod type_table;
mod well;
mod whole_set;

pub use action::{copy_labelled_actions, copy_values, same_labelled_actions};
pub use boxed::Boxed;
pub use env::{Env, EnvFault};
pub use formula::{Formula, copy_formulas, same_formulas};
pub use identifiers::{copy_identifiers, same_identifiers};
pub use laws::{
    binder_fits_by_schemes, binding_is_undone, fits_by_schemes, free_after_substitution,
    free_identifiers_are_once, identifiers_are_kept, instantiating_keeps_typed,
    quantifying_keeps_typed, shifting_keeps_well, substituting_keeps_typed, substituting_twice,
    typed_in_larger,
};
pub use list::List;
pub use memory::OutOfMemory;
pub use name::{Name, NameFault, is_identifier, is_in_word};
pub use op::{BINDERS, Binder, OPERATORS, Op};
pub use raw::{Action, Raw, RawAction, RawBinder, RawBound, RawOp, Ref};
pub use row::{BinaryRow, NullaryRow, Row, UnaryRow};
pub use scheme::{Letter, Scheme};
pub use size::{MOST_HEIGHT, MOST_NODES, MOST_TYPE_NODES};
pub use steps::Steps;
pub use text::{Label, PoName, Text};
pub use ty::{Ty, copy_types, same_types};
