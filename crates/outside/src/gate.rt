// A gate that the finishes of tickets pass.

/// A gate before and behind the finish of each ticket, where a test can hold one worker back until another is done.
///
/// No call promises more than that it returns.
pub trait Gate {
    /// The ticket of this number is about to be finished.
    fn before_finish(&self, ticket: u64);

    /// The ticket of this number was finished.
    fn after_finish(&self, ticket: u64);
}

/// A gate that lets every ticket pass at once.
#[derive(Debug, Default, Clone, Copy)]
pub struct OpenGate;

impl Gate for OpenGate {
    fn before_finish(&self, _ticket: u64) {}

    fn after_finish(&self, _ticket: u64) {}
}
