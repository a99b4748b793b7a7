//! Whether a proof tree shows that a sequent is true in each reading.
ghost use Rattle.std.specs.Prelude.{◌≡◌, IfOk, Ok};
ghost use Rattle.plain_rules.specs.Derivations.{IsTrueEverywhere};
ghost use Rattle.readings_core.specs.Follows.{IsFollowsAnswer};

use crate::answers::Follows;
use crate::plainness::first_unplain;
use formula_core::OutOfMemory;
use proof_tree::derives;
use sequent_core::{Sequent, Tree};
use std::alloc::Global;

/// Whether the tree derives the sequent by plain rules alone: then each reading that makes the hypotheses true makes the
/// goal true.
pub fn follows(tree: &Tree, alloc: Global, sequent: &Sequent) -> Result<Follows, OutOfMemory>
    ensures answer { IfOk result (IsFollowsAnswer tree.now sequent.now) }
    ensures truth { result ≡ Ok Follows.Yes → IsTrueEverywhere sequent.now }
{
    if !derives(tree, alloc, sequent)? {
        return Ok(Follows::NotDerived);
    }
    match first_unplain(tree, alloc)? {
        Some(path) => Ok(Follows::NotPlain(path)),
        None => Ok(Follows::Yes),
    }
}
