// The law of sides. The call does nothing.
ghost use Rattle.journal_core.specs.Laws.{HasOneMeaning};

/// The two sides of a disk stand for one thing at most.
pub fn one_meaning()
    ensures { HasOneMeaning }
{}
