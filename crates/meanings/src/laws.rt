//! The law. The call does nothing.
ghost use Rattle.meanings.specs.Laws.{FiniteIsListed};

/// A set is finite exactly where some list has each of its members.
pub fn finite_sets_are_listed()
    ensures { FiniteIsListed }
{}
