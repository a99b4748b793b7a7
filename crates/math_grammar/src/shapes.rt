//! What a pattern of λ stands for.

use formula_core::{List, Raw, RawBound};

/// The names that a pattern binds, and the expression that it stands for.
#[derive(Drop)]
pub struct Shape {
    pub names: List<RawBound>,
    pub tree: Raw,
}
