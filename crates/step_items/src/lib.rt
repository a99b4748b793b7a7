//! The items of a step of a proof: hypotheses, multipliers, names, formulas and laws, as a user writes them.
#![tactic(auto)]

mod bytes;
mod hints;
mod item;
mod items;
mod laws;
mod numbers;
mod paths;
mod terms;

pub use bytes::behind_first;
pub use hints::hint_of;
pub use item::Item;
pub use items::written_items;
pub use laws::one_hint;
pub use paths::path_of;
