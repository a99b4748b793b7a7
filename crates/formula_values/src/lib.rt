//! What formulas mean over finite values.
#![tactic(auto)]

mod arithmetic;
mod evaluation;
mod forms;
mod giving;
mod laws;
mod names;
mod operand;
mod values;

pub use evaluation::evaluate;
pub use forms::{Binary, Unary};
pub use laws::a_formula_has_one_meaning;
pub use value_sets::ValueFault;
pub use values::Values;
