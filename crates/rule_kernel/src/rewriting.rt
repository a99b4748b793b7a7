//! A formula rewritten by a law at a place, and the rules that do so.
ghost use Rattle.std.specs.Prelude.{◌≡◌, IfOk};
ghost use Rattle.rule_table.specs.Rewriting.{rewritten};
ghost use Rattle.rule_table.specs.Rows.{rw_goal, rw_hyp};

use crate::laws::right_side;
use formula_core::{Formula, OutOfMemory};
use rule_table::{Body, Law, adds_one, backward, forward_one, one_left, proves};
use rules_arith::{at_place, with_at};
use std::alloc::Global;

/// The formula with the right side of a law at a place, if it has that place and a left side of the law stands there.
#[tactic(auto, using(rules_arith::proofs::Rewriting::rewritten_by_parts))]
pub(crate) fn rewritten(
    alloc: Global,
    law: Law,
    place: &[u32],
    f: &Formula,
) -> Result<Option<Formula>, OutOfMemory>
    ensures formula { IfOk result (λ o. o ≡ rewritten law place.now f.now) }
{
    let Some(part) = at_place(place, f) else {
        return Ok(None);
    };
    let Some(new) = right_side(alloc, law, part)? else {
        return Ok(None);
    };
    with_at(alloc, place, f, new)
}

/// A rewritten goal: the goal with the right side of the law with this number at this place is proved.
pub(crate) fn rw_goal(
    alloc: Global,
    number: u8,
    place: &[u32],
    g: &Formula,
) -> Result<Option<Body>, OutOfMemory>
    ensures row { IfOk result (λ o. o ≡ rw_goal number place.now g.now) }
{
    let Some(law) = Law::of_number(number) else {
        return Ok(None);
    };
    let Some(new) = rewritten(alloc, law, place, g)? else {
        return Ok(None);
    };
    let left = one_left(alloc, proves(alloc, new))?;
    Ok(Some(backward(alloc, g, left)?))
}

/// A rewritten hypothesis: the hypothesis with the right side of the law with this number at this place is there.
pub(crate) fn rw_hyp(
    alloc: Global,
    number: u8,
    place: &[u32],
    h: &Formula,
) -> Result<Option<Body>, OutOfMemory>
    ensures row { IfOk result (λ o. o ≡ rw_hyp number place.now h.now) }
{
    let Some(law) = Law::of_number(number) else {
        return Ok(None);
    };
    let Some(new) = rewritten(alloc, law, place, h)? else {
        return Ok(None);
    };
    let left = one_left(alloc, adds_one(alloc, new)?)?;
    Ok(Some(forward_one(alloc, h, left)?))
}
