// The sequent at a leaf.
ghost use Rattle.std.specs.Prelude.{◌≡◌, ◌+◌, None, IfOk};
ghost use Rattle.sequent_core.specs.Trees.{Applies, at_end, AreFresh};
ghost use Rattle.proof_tree.specs.Ways.{antecedents_of};
ghost use Rattle.proof_steps.specs.Places.{if_leaf, leaf_at};
ghost use Rattle.proof_steps.specs.Private.{HaveDistinctIdentifiers};

use crate::ends::sequent_at;
use crate::places::child_at;
use formula_core::{OutOfMemory, Steps};
use proof_tree::{Way, applies_to};
use sequent_core::{Path, Sequent, Tree};
use std::alloc::Global;
use std::sync::ledger::Ledger;

/// The sequent at the leaf of the path; none where the tree doesn't apply, or where no leaf stands there. The whole tree
/// is looked through, which is one step of the counter.
pub fn leaf<L: Ledger>(
    tree: &Tree,
    alloc: Global,
    sequent: &Sequent,
    path: &Path,
    steps: &mut Steps<L>,
) -> Result<Option<Sequent>, OutOfMemory>
    ensures there { Applies tree.now sequent.now → IfOk result (λ leaf. leaf ≡ leaf_at path.now tree.now sequent.now) }
    ensures none { (Applies tree.now sequent.now → ⊥) → IfOk result (λ leaf. leaf ≡ None) }
    ensures step { steps.new ≡ steps.old + 1 }
{
    steps.tick();
    if !applies_to(tree, alloc, sequent)? {
        return Ok(None);
    }
    leaf_there(tree, alloc, sequent, path)
}

/// The sequent at the leaf of the path of a tree that applies; none where no leaf stands there. The tree isn't tested.
pub fn leaf_there(
    tree: &Tree,
    alloc: Global,
    sequent: &Sequent,
    path: &Path,
) -> Result<Option<Sequent>, OutOfMemory>
    requires applies { Applies tree.now sequent.now }
    ensures there { IfOk result (λ leaf. leaf ≡ leaf_at path.now tree.now sequent.now) }
{
    leaf_below(tree, alloc, path.items(), &Way::Root, sequent)
}

/// The sequent at the leaf of the path below the end of the way.
fn leaf_below(
    tree: &Tree,
    alloc: Global,
    path: &[u32],
    way: &Way<'_>,
    sequent: &Sequent,
) -> Result<Option<Sequent>, OutOfMemory>
    requires fresh { AreFresh (antecedents_of way.now) sequent.now }
    requires distinct { HaveDistinctIdentifiers (antecedents_of way.now) }
    requires applies { Applies tree.now (at_end (antecedents_of way.now) sequent.now) }
    ensures { IfOk result (λ leaf. leaf ≡ leaf_at path.now tree.now (at_end (antecedents_of way.now) sequent.now)) }
{
    let [at, rest @ ..] = path else {
        return leaf_here(tree, alloc, &*way, sequent);
    };
    match child_at(tree, *at) {
        Some((antecedent, child)) => {
            let below = Way::Below(antecedent, &*way);
            leaf_below(child, alloc, rest, &below, sequent)
        }
        None => Ok(None),
    }
}

/// The sequent at the end of the way, if the tree there is a leaf.
fn leaf_here(
    tree: &Tree,
    alloc: Global,
    way: &Way<'_>,
    sequent: &Sequent,
) -> Result<Option<Sequent>, OutOfMemory>
    requires fresh { AreFresh (antecedents_of way.now) sequent.now }
    requires distinct { HaveDistinctIdentifiers (antecedents_of way.now) }
    ensures { IfOk result (λ leaf. leaf ≡ if_leaf tree.now (at_end (antecedents_of way.now) sequent.now)) }
{
    if !tree.is_leaf() {
        return Ok(None);
    }
    Ok(Some(sequent_at(&*way, alloc, sequent)?))
}
