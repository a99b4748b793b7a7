//! The law. The call does nothing.
ghost use Rattle.std.specs.Prelude.{ℕ, List};
ghost use Rattle.true_facts.specs.Laws.{FactsAreTrue};

/// Each fact of the list is true in each classical universe, whatever its names stand for.
pub fn facts_are_true()
    ensures { (S : List ℕ) (T : List ℕ) → FactsAreTrue S T }
{}
