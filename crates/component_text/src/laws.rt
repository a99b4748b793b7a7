//! The law of readings. The call does nothing.

ghost use Rattle.component_text.specs.Spelled.{HasOneReading};

/// A text has at most one reading: what it spells, or its first fault.
pub fn one_reading()
    ensures { HasOneReading }
{}
