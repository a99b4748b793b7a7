//! What is known of names.
use event_values::Value;
use formula_core::{List, Name};

/// The sizes of carrier sets, and the values of other names.
#[derive(Drop)]
pub struct Values {
    pub sizes: List<(Name, u32)>,
    pub known: List<(Name, Value)>,
}
