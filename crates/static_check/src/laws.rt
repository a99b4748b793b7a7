//! Laws that other crates cite.
ghost use Rattle.static_check.specs.Laws.{HasOneOutcome};

/// A component has one outcome with the same parts.
pub fn one_outcome()
    ensures { HasOneOutcome }
{}
