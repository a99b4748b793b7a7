//! The levels of the formula grammar, the class of each token, and the grammar itself, which stands in the specifications.
#![tactic(auto)]

mod holes;
mod levels;
mod operators;
mod shapes;
mod symbols;
mod words;

pub use holes::{Grade, Hole};
pub use levels::{Binding, Bracket, Call, Level, Prefix};
pub use operators::{
    Form, SPELLINGS, binder_sign_of, op_form, raw_binder_class_of, raw_binder_sign_of,
    raw_class_of, raw_sign_of, sign_of,
};
pub use shapes::Shape;
pub use symbols::{SYMBOLS, Symbol};
pub use words::{WORDS, symbol_of};
