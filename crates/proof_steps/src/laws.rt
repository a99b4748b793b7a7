//! Laws of proof trees, one on each call. The calls do nothing.
ghost use Rattle.std.specs.Prelude.{◌≡◌, false, IsTrue};
ghost use Rattle.sequent_core.specs.Trees.{Applies, Derives, is_closed, is_reviewed};
ghost use Rattle.proof_steps.specs.Laws.{introduced, IsLarger};

use sequent_core::{Sequent, Tree};

/// A tree that applies, without a leaf and without a review, derives the sequent.
pub fn closed_trees_derive(tree: &Tree, sequent: &Sequent)
    ensures derives { Applies tree.now sequent.now → IsTrue (is_closed tree.now) → is_reviewed tree.now ≡ false
        → Derives tree.now sequent.now }
{
    let _ = tree;
    let _ = sequent;
}

/// A tree that applies to a sequent applies to a larger one in which the names that the tree introduces are still new.
pub fn larger_sequents_keep_trees(tree: &Tree, sequent: &Sequent, larger: &Sequent)
    ensures applies { IsLarger (introduced tree.now) sequent.now larger.now → Applies tree.now sequent.now
        → Applies tree.now larger.now }
    ensures derives { IsLarger (introduced tree.now) sequent.now larger.now → Derives tree.now sequent.now
        → Derives tree.now larger.now }
{
    let _ = tree;
    let _ = sequent;
    let _ = larger;
}
