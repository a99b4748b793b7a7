//! What is read of an input.
use formula_core::List;

/// A command as it stands in the input. What its words mean isn't looked at yet.
#[derive(Drop)]
pub enum Command {
    /// A line of at most 4,096 bytes, without its end.
    Line(List<u8>),
    /// A longer one.
    LineTooLong,
    /// The text of a component, each of its lines with a line feed, and the word in the place of the component's name.
    Edit(List<u8>, List<u8>),
    /// An edit whose text the end of the input cut off.
    CutEdit,
}
