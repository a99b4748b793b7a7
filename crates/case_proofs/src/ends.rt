//! The end of a branch.
ghost use Rattle.std.specs.Prelude.{◌≡◌, ◌<◌, IfOk, MatchOption, [], false, get_or, length, true};
ghost use Rattle.std.specs.List.{AllByRecursion};
ghost use Rattle.case_proofs.specs.PrivateRows.{EndIsSound, end_tree};
ghost use Rattle.case_proofs.specs.PrivateSearch.{AreHalfSizeSomewhere, IsOutcome};
ghost use Rattle.case_proofs.specs.PrivateWays.{Signed, contradicts, is_contradictory, ways};

use crate::search::Outcome;
use crate::standing::{Said, contradicts, is_absurd};
use case_trees::{bottom_tree, contr_tree, top_tree};
use formula_core::OutOfMemory;
use sequent_core::Tree;
use std::alloc::Global;

/// Of formulas that no connective heads: one of them is contradicted, or a reading makes all of them so.
pub(crate) fn ended(alloc: Global, hyps: &[Said], fuel: u32) -> Result<Outcome, OutOfMemory>
    requires half { AreHalfSizeSomewhere hyps.now }
    requires basic { AllByRecursion (λ x. ways x ≡ []) hyps.now }
    ensures outcome { IfOk result (IsOutcome hyps.now fuel) }
{
    let Some(at) = first_contradicted(hyps) else {
        return Ok(Outcome::Open);
    };
    Ok(Outcome::Closed(end_tree(alloc, &hyps[at])?))
}

fn first_contradicted(hyps: &[Said]) -> Option<usize>
    ensures { MatchOption result (is_contradictory hyps.now ≡ false)
        (λ i. (i < length hyps.now) × ((d : Signed) → contradicts hyps.now (get_or hyps.now i d) ≡ true)) }
{
    for i in 0..hyps.len() {
        if contradicts(hyps, &hyps[i]) {
            return Some(i);
        }
    }
    None
}

fn end_tree(alloc: Global, x: &Said) -> Result<Tree, OutOfMemory>
    requires sound { EndIsSound x.now }
    ensures { IfOk result (λ t. t ≡ end_tree x.now) }
{
    if !is_absurd(x) {
        return contr_tree(alloc, x.formula);
    }
    if x.sign {
        bottom_tree(alloc)
    } else {
        top_tree(alloc)
    }
}
