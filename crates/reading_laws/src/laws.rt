//! The law. The call does nothing.
ghost use Rattle.reading_laws.specs.Laws.{ReadIsPlain};

/// In what is read of a text no name and no label has a slash.
pub fn read_is_plain()
    ensures { ReadIsPlain }
{}
