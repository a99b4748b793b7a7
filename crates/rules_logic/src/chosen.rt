//! Rules of a chosen predicate.
ghost use Rattle.std.specs.Prelude.{◌≡◌, IfOk, [], ◌∷◌};
ghost use Rattle.formula_core.specs.Types.{is_truth};
ghost use Rattle.formula_core.specs.Wellness.{type_of};
ghost use Rattle.rule_table.specs.Rows.{adds, cases, cut};
ghost use Rattle.rule_table.specs.Shapes.{negation};

use crate::closing::instead_of;
use formula_core::{Formula, List, OutOfMemory, Ty};
use rule_table::{
    Antecedent, Body, adds_one, condition_first, forward, negation, proves, two_after,
};
use std::alloc::Global;
use well_defined::wd;

/// Whether a formula is a predicate.
fn is_predicate(p: &Formula) -> bool
    ensures { result ≡ is_truth (type_of p.now) }
{
    let integer = Ty::Int;
    p.type_of(&integer).is_truth()
}

/// Cut, or added hypothesis: P is well defined, P is proved, and then P is there.
pub fn cut(alloc: Global, p: &Formula) -> Result<Option<Body>, OutOfMemory>
    ensures row { IfOk result (λ o. o ≡ cut p.now) }
{
    if !is_predicate(p) {
        return Ok(None);
    }
    let added = adds_one(alloc, p.copy(alloc)?)?;
    let Ok(again) = p.copy(alloc) else {
        return instead_of(added, Err(OutOfMemory));
    };
    let proved = proves(alloc, again);
    let Ok(condition) = wd(alloc, p) else {
        return instead_of(added, instead_of(proved, Err(OutOfMemory)));
    };
    let left = two_after(alloc, condition, proved, added)?;
    Ok(Some(forward(List::of(Vec::new(alloc)), left)))
}

/// Adds `¬P`.
fn denies(alloc: Global, p: &Formula) -> Result<Antecedent, OutOfMemory>
    ensures { IfOk result (λ a. a ≡ adds (negation p.now ∷ [])) }
{
    adds_one(alloc, negation(alloc, p.copy(alloc)?)?)
}

/// Do case: P is well defined, and there is the case of P and that of `¬P`.
#[tactic(auto, using(rule_table::proofs::Conditions::two_more))]
pub fn cases(alloc: Global, p: &Formula) -> Result<Option<Body>, OutOfMemory>
    ensures row { IfOk result (λ o. o ≡ cases p.now) }
{
    if !is_predicate(p) {
        return Ok(None);
    }
    let mut left = condition_first(alloc, wd(alloc, p)?)?;
    left.push(adds_one(alloc, p.copy(alloc)?)?)?;
    left.push(denies(alloc, p)?)?;
    Ok(Some(forward(List::of(Vec::new(alloc)), List::of(left))))
}
