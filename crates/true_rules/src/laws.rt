//! The laws, one on each call. The calls do nothing.
ghost use Rattle.sequent_core.specs.declared.sequent.Sequent.{Sequent};
ghost use Rattle.sequent_core.specs.declared.tree.Tree.{Tree};
ghost use Rattle.true_rules.specs.Validity.{DerivedIsTrue, NothingDerivesFalse};

/// A sequent that a tree derives is true in each classical universe, whatever its names stand for.
pub fn derived_is_true()
    ensures { (tree : Tree) (s : Sequent) → DerivedIsTrue tree s }
{}

/// No tree derives ⊥ from nothing, if there is a classical universe.
pub fn nothing_derives_false()
    ensures { (tree : Tree) (s : Sequent) → NothingDerivesFalse tree s }
{}
