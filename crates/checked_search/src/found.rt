//! A proof of at most so many rules, if the search finds one.
ghost use Rattle.std.specs.Prelude.{◌≤◌, ◌↔◌, IsTrue, IfOk, IfSome};
ghost use Rattle.sequent_core.specs.Trees.{Derives, rule_count};

use proof_search::searched;
pub use proof_search::{Effort, Passes};
use proof_tree::applies_to;
use sequent_core::{Sequent, Tree};
use std::alloc::Global;
pub use term_bank::Stop;

/// A proof of the sequent that has at most `budget` rules, if the search finds one. It is counted and tested here. It ends
/// with `Stop::Spent` where more fuel might change what is found.
pub fn proof_within(
    alloc: Global,
    sequent: &Sequent,
    budget: u32,
    passes: Passes,
    effort: Effort,
) -> Result<Option<Tree>, Stop>
    ensures rules { IfOk result (λ o. IfSome o (λ tree. rule_count tree ≤ budget)) }
    ensures derives { IfOk result (λ o. IfSome o (λ tree. Derives tree sequent.now)) }
{
    let Some(tree) = searched(alloc, sequent, budget, passes, effort)? else {
        return Ok(None);
    };
    let tally = tree.tally();
    if tally.rules > budget as u64 || !tally.closed || tally.reviewed {
        return Ok(None);
    }
    if !applies_to(&tree, alloc, sequent)? {
        return Ok(None);
    }
    Ok(Some(tree))
}
