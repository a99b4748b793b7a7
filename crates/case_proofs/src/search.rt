//! The search.
ghost use Rattle.std.specs.Prelude.{◌≤◌, IfOk};
ghost use Rattle.case_proofs.specs.PrivateSearch.{AreHalfSizeSomewhere, IsOutcome};
ghost use Rattle.case_proofs.specs.PrivateWays.{to_break};

use crate::breaking::ways;
use crate::ends::ended;
use crate::rows::{one_tree, two_tree};
use crate::standing::{Said, first_compound, with_way};
use formula_core::OutOfMemory;
use sequent_core::Tree;
use std::alloc::Global;

/// A tree that refutes all, or a branch that stays open.
#[derive(Drop)]
pub(crate) enum Outcome {
    Closed(Tree),
    Open,
}

/// A tree that refutes them, or that a reading makes all of them so. Each step breaks up the first that a connective heads;
/// `fuel` is at least the number of connectives.
pub(crate) fn refuted(alloc: Global, hyps: &[Said], fuel: u32) -> Result<Outcome, OutOfMemory>
    requires fuel { to_break hyps.now ≤ fuel }
    requires half { AreHalfSizeSomewhere hyps.now }
    ensures outcome { IfOk result (IsOutcome hyps.now fuel) }
{
    let Some(at) = first_compound(hyps) else {
        return ended(alloc, hyps, fuel);
    };
    let x = &hyps[at];
    let ways = ways(alloc, x)?;
    match ways.items() {
        [way] => {
            let below = with_way(alloc, hyps, at, way.items())?;
            match refuted(alloc, below.items(), fuel - 1)? {
                Outcome::Closed(tree) => Ok(Outcome::Closed(one_tree(alloc, x, tree)?)),
                open => Ok(open),
            }
        }
        [way, other] => {
            let below = with_way(alloc, hyps, at, way.items())?;
            let first = match refuted(alloc, below.items(), fuel - 1)? {
                Outcome::Closed(tree) => tree,
                open => return Ok(open),
            };
            let beside = with_way(alloc, hyps, at, other.items())?;
            match refuted(alloc, beside.items(), fuel - 1)? {
                Outcome::Closed(second) => {
                    Ok(Outcome::Closed(two_tree(alloc, x, first, second)?))
                }
                open => Ok(open),
            }
        }
        // A formula that a connective heads has one way or two.
        _ => Ok(Outcome::Open),
    }
}
