//! The law of checked components. The call does nothing.
ghost use Rattle.checked_laws.specs.Laws.{CheckedIsSound};

/// Beside sound parts of one project a checked component is sound, and one of that project: each of its formulas is typed in the environment of its place.
/// The events of a machine are so beside those that they refine, with their witnesses, and what they assign are the machine's variables.
pub fn checked_is_sound()
    ensures { CheckedIsSound }
{}
