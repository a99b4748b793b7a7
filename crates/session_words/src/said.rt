//! What a line says before its formulas are read.
use crate::line::Line;
use formula_core::{List, PoName};
use sequent_core::Path;
use step_items::Item;

/// What a line says before its formulas are read.
#[derive(Drop)]
pub enum Said {
    /// This, at once.
    AtOnce(Line),
    /// A step: the obligation's name, the path, the number of the rule, and items.
    OfItems(PoName, Path, u8, List<Item>),
}
