//! Memberships in the natural numbers, read as comparisons.
ghost use Rattle.std.specs.Prelude.{◌≡◌, IfOk};
ghost use Rattle.std.specs.Option.{option_copied};
ghost use Rattle.short_proofs.specs.Private.{law_of_reading};
ghost use Rattle.short_proofs.specs.Sure.{as_comparison, natural_in, number_set};

use formula_core::{Boxed, Formula, List, Op, OutOfMemory, Ty};
use rule_table::{binary, predicate, two_operands};
use std::alloc::Global;

/// `ℕ` or `ℕ1`
fn naturals(alloc: Global, op: Op) -> Result<Formula, OutOfMemory>
    ensures { IfOk result (λ f. f ≡ number_set op) }
{
    let ty = Ty::Pow(Boxed::new(alloc, Ty::Int)?);
    Ok(Formula::Node(op, List::of(Vec::new(alloc)), ty))
}

/// E, where a formula is `E ∈ ℕ`, or `E ∈ ℕ1`.
pub(crate) fn natural_in(alloc: Global, op: Op, f: &Formula) -> Result<Option<Formula>, OutOfMemory>
    ensures { IfOk result (λ o. o ≡ natural_in op f.now) }
{
    let Some((element, _)) = two_operands(Op::Member, f) else {
        return Ok(None);
    };
    let set = naturals(alloc, op)?;
    let member = predicate(alloc, Op::Member, element, &set)?;
    if !f.same(&member) {
        return Ok(None);
    }
    Ok(Some(element.copy(alloc)?))
}

/// A formula read as a comparison, and the number of the law that reads it, or 0.
#[derive(Drop)]
pub(crate) struct Reading {
    pub formula: Formula,
    pub law: u8,
}

/// `E ∈ ℕ` read as `0 ≤ E`, `E ∈ ℕ1` as `1 ≤ E`, and every other formula as itself.
pub(crate) fn read(alloc: Global, f: &Formula) -> Result<Reading, OutOfMemory>
    ensures formula { IfOk result (λ r. r.formula ≡ as_comparison f.now) }
    ensures law { IfOk result (λ r. r.law ≡ law_of_reading f.now) }
{
    if let Some(element) = natural_in(alloc, Op::Naturals, f)? {
        let formula = binary(alloc, Op::LessOrEqual, Formula::Int(0), element)?;
        return Ok(Reading { formula, law: 61 });
    }
    if let Some(element) = natural_in(alloc, Op::PositiveNaturals, f)? {
        let formula = binary(alloc, Op::LessOrEqual, Formula::Int(1), element)?;
        return Ok(Reading { formula, law: 62 });
    }
    let formula = f.copy(alloc)?;
    Ok(Reading { formula, law: 0 })
}
