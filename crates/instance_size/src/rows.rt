//! The rows whose instances can grow, one by one: whether one leaves a formula for which there is no room.
ghost use Rattle.std.specs.Prelude.{◌≡◌, IfOk, IsTrue, [], None, take};
ghost use Rattle.std.specs.Option.{option_and_then};
ghost use Rattle.rule_table.specs.Rows.{all_l, bool_cases, card_nat, cases, cut, eq_goal, eq_hyp, ex_r, first, fun_in, rw_goal, rw_hyp, with_two};
ghost use Rattle.instance_size.specs.Growth.{LeavesTooLarge};

use crate::extent::{Extent, exceeds, is_excessive};
use crate::instantiated::instantiated_extent;
use crate::members::grows_at;
use crate::replaced::replaced_extent;
use crate::shapes::{
    first, first_two, function_in, has_type, have_types, is_boolean, is_predicate, member_type,
    relation_types,
};
use condition_size::{wd_size, wd_size_of_all};
use formula_core::{Binder, Formula, Op, OutOfMemory};
use rule_table::{one_bound, two_operands};
use std::alloc::Global;

pub(crate) fn cut_grows(chosen: &Option<Formula>, room: Extent) -> bool
    ensures { IsTrue result → LeavesTooLarge room (option_and_then cut chosen.now) None [] }
{
    let Some(p) = chosen else {
        return false;
    };
    if !is_predicate(p) {
        return false;
    }
    is_excessive(room, wd_size(p))
}

pub(crate) fn cases_grow(chosen: &Option<Formula>, room: Extent) -> bool
    ensures { IsTrue result → LeavesTooLarge room (option_and_then cases chosen.now) None [] }
{
    let Some(p) = chosen else {
        return false;
    };
    if !is_predicate(p) {
        return false;
    }
    is_excessive(room, wd_size(p))
}

pub(crate) fn bool_cases_grow(chosen: &Option<Formula>, room: Extent) -> bool
    ensures { IsTrue result → LeavesTooLarge room (option_and_then bool_cases chosen.now) None [] }
{
    let Some(e) = chosen else {
        return false;
    };
    if !is_boolean(e) {
        return false;
    }
    is_excessive(room, wd_size(e))
}

pub(crate) fn card_nat_grows(chosen: &Option<Formula>, room: Extent) -> bool
    ensures { IsTrue result → LeavesTooLarge room (option_and_then card_nat chosen.now) None [] }
{
    let Some(s) = chosen else {
        return false;
    };
    let Some(_) = member_type(s) else {
        return false;
    };
    is_excessive(room, wd_size(s))
}

pub(crate) fn fun_in_grows(hyps: &[Formula], chosen: &Option<Formula>, room: Extent) -> bool
    ensures { IsTrue result → LeavesTooLarge room
        (option_and_then (λ h. option_and_then (fun_in h) chosen.now) (first hyps.now)) None (take 1 hyps.now) }
{
    let Some(h) = first(hyps) else {
        return false;
    };
    let Some(e) = chosen else {
        return false;
    };
    let Some((f, _)) = function_in(h) else {
        return false;
    };
    let Some((from, _)) = relation_types(f) else {
        return false;
    };
    if !has_type(e, from) {
        return false;
    }
    is_excessive(room, wd_size(e))
}

pub(crate) fn all_l_grows(
    alloc: Global,
    terms: &[Formula],
    hyps: &[Formula],
    room: Extent,
) -> Result<bool, OutOfMemory>
    ensures { IfOk result (λ large. IsTrue large
        → LeavesTooLarge room (option_and_then (all_l terms.now) (first hyps.now)) None (take 1 hyps.now)) }
{
    let Some(h) = first(hyps) else {
        return Ok(false);
    };
    let Some((types, p)) = one_bound(Binder::ForAll, h) else {
        return Ok(false);
    };
    if !have_types(terms, types) {
        return Ok(false);
    }
    if is_excessive(room, wd_size_of_all(terms)) {
        return Ok(true);
    }
    let extent = instantiated_extent(alloc, p, terms)?;
    Ok(exceeds(room, extent))
}

pub(crate) fn ex_r_grows(
    alloc: Global,
    terms: &[Formula],
    goal: &Option<Formula>,
    room: Extent,
) -> Result<bool, OutOfMemory>
    ensures { IfOk result (λ large. IsTrue large
        → LeavesTooLarge room (option_and_then (ex_r terms.now) goal.now) goal.now []) }
{
    let Some(g) = goal else {
        return Ok(false);
    };
    let Some((types, p)) = one_bound(Binder::Exists, g) else {
        return Ok(false);
    };
    if !have_types(terms, types) {
        return Ok(false);
    }
    if is_excessive(room, wd_size_of_all(terms)) {
        return Ok(true);
    }
    let extent = instantiated_extent(alloc, p, terms)?;
    Ok(exceeds(room, extent))
}

pub(crate) fn eq_goal_grows(goal: &Option<Formula>, hyps: &[Formula], room: Extent) -> bool
    ensures { IsTrue result → LeavesTooLarge room
        (option_and_then (λ g. option_and_then (eq_goal g) (first hyps.now)) goal.now) goal.now (take 1 hyps.now) }
{
    let Some(g) = goal else {
        return false;
    };
    let Some(h) = first(hyps) else {
        return false;
    };
    let Some((e, f)) = two_operands(Op::Equal, h) else {
        return false;
    };
    exceeds(room, replaced_extent(e, f, g))
}

pub(crate) fn eq_hyp_grows(hyps: &[Formula], room: Extent) -> bool
    ensures { IsTrue result → LeavesTooLarge room (with_two hyps.now eq_hyp) None (take 2 hyps.now) }
{
    let Some((h, k)) = first_two(hyps) else {
        return false;
    };
    let Some((e, f)) = two_operands(Op::Equal, h) else {
        return false;
    };
    exceeds(room, replaced_extent(e, f, k))
}

pub(crate) fn rw_goal_grows(number: u8, place: &[u32], goal: &Option<Formula>, room: Extent) -> bool
    ensures { IsTrue result → LeavesTooLarge room (option_and_then (rw_goal number place.now) goal.now) goal.now [] }
{
    let Some(g) = goal else {
        return false;
    };
    grows_at(number, place, g, room)
}

pub(crate) fn rw_hyp_grows(number: u8, place: &[u32], hyps: &[Formula], room: Extent) -> bool
    ensures { IsTrue result
        → LeavesTooLarge room (option_and_then (rw_hyp number place.now) (first hyps.now)) None (take 1 hyps.now) }
{
    let Some(h) = first(hyps) else {
        return false;
    };
    grows_at(number, place, h, room)
}
