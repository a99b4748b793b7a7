//! Lines of the session language.
use core_steps::Event;
use formula_core::PoName;

/// Why a line is refused.
#[derive(Debug, PartialEq, Eq, Clone, Copy)]
pub enum LineFault {
    /// The line has none of the forms of a command.
    BadCommand,
    /// It has more than 4,096 bytes.
    LineTooLong,
    /// The word in a component's place is no name of one.
    BadName,
    /// The text of an edit has more than 65,536 bytes.
    TextTooLong,
    /// The text of an edit isn't UTF-8.
    NotText,
}

/// A line of the session language.
#[derive(Drop)]
pub enum Line {
    /// An event, whose reply is printed.
    One(Event),
    /// Takes the obligation, asks the prover, and hands in what it answers.
    Auto(PoName),
    /// Takes and finishes until nothing is left and no ticket is out.
    Wait,
    /// No command. It is refused, and the session goes on.
    Refused(LineFault),
    Quit,
    /// An edit whose text the end of the input cut off.
    CutEdit,
}
