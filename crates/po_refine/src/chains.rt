//! Formulas that are joined.
ghost use Rattle.std.specs.Prelude.{◌≡◌, IfOk};
ghost use Rattle.po_rules.specs.Rows.{chain};
ghost use Rattle.po_refine.specs.Private.{join, chained_with};

use formula_core::{Formula, Op, OutOfMemory};
use po_machine::{of_two, top};
use std::alloc::Global;

fn joined_with(
    alloc: Global,
    op: Op,
    front: Option<Formula>,
    more: Formula,
) -> Result<Formula, OutOfMemory>
    ensures { IfOk result (λ f. f ≡ chained_with op front more) }
{
    match front {
        None => Ok(more),
        Some(front) => of_two(alloc, op, front, more),
    }
}

/// All of them, joined from left to right, or ⊤ where there is none.
pub(crate) fn chain(alloc: Global, op: Op, formulas: Vec<Formula>) -> Result<Formula, OutOfMemory>
    ensures { IfOk result (λ f. f ≡ chain (join op) formulas.items) }
{
    let mut front = None;
    for formula in formulas {
        front = Some(joined_with(alloc, op, front, formula)?);
    }
    match front {
        None => Ok(top(alloc)),
        Some(all) => Ok(all),
    }
}
