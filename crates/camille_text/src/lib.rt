//! Texts of components, both ways: `read` gives the component that a text spells, or its first fault, and `print` the text of a
//! component, which reads back.
#![tactic(auto)]

pub use component_print::print;
pub use component_text::{ReadFault, STRUCTURAL, one_reading, read};
