//! The law of one answer. The call does nothing.
ghost use Rattle.rule_making.specs.Laws.{AnswersAreOne};

/// Two answers to a kind and a hint for a sequent are the same, where there is memory.
pub fn one_rule()
    ensures { AnswersAreOne }
{}
