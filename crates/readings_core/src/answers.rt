//! What is said of a tree.
use sequent_core::Path;

/// Whether a sequent follows by a tree.
#[derive(Drop)]
pub enum Follows {
    /// The tree derives it by plain rules alone, so it is true in each reading.
    Yes,
    /// The tree doesn't derive it.
    NotDerived,
    /// The tree derives it. The rule at this path isn't plain, and no earlier one; a parent is earlier than its children.
    NotPlain(Path),
}
