//! Whether an instance leaves a formula for which there is no room.
ghost use Rattle.std.specs.Prelude.{◌≡◌, IfOk, IsTrue, take};
ghost use Rattle.instance_size.specs.Growth.{Outgrows, hyp_count, needs_goal};

use crate::extent::Extent;
use crate::rows::{
    all_l_grows, bool_cases_grow, card_nat_grows, cases_grow, cut_grows, eq_goal_grows,
    eq_hyp_grows, ex_r_grows, fun_in_grows, rw_goal_grows, rw_hyp_grows,
};
use formula_core::{Formula, OutOfMemory};
use rule_table::{Main, RuleKind};
use std::alloc::Global;

/// Whether a kind has an instance for its main formulas that leaves a formula for which there is no room. What is counted
/// is a condition of well-definedness, an instantiation, a replacement, or what the law of listed members makes. All else is
/// a few copies and isn't counted, so an instance for which the answer is false can be too large by these.
pub fn outgrows(
    alloc: Global,
    kind: &RuleKind,
    main: &Main,
    room: Extent,
) -> Result<bool, OutOfMemory>
    ensures large { IfOk result (λ large. IsTrue large → Outgrows room kind.now main.now) }
{
    let goal = &main.goal;
    let hyps = main.hyps.items();
    let chosen = &main.chosen;
    match kind {
        RuleKind::AllL(terms) => all_l_grows(alloc, terms.items(), hyps, room),
        RuleKind::ExR(terms) => ex_r_grows(alloc, terms.items(), goal, room),
        RuleKind::Cut => Ok(cut_grows(chosen, room)),
        RuleKind::Cases => Ok(cases_grow(chosen, room)),
        RuleKind::BoolCases => Ok(bool_cases_grow(chosen, room)),
        RuleKind::CardNat => Ok(card_nat_grows(chosen, room)),
        RuleKind::FunIn => Ok(fun_in_grows(hyps, chosen, room)),
        RuleKind::EqGoal => Ok(eq_goal_grows(goal, hyps, room)),
        RuleKind::EqHyp => Ok(eq_hyp_grows(hyps, room)),
        RuleKind::RwGoal(law, at) => Ok(rw_goal_grows(*law, at.items(), goal, room)),
        RuleKind::RwHyp(law, at) => Ok(rw_hyp_grows(*law, at.items(), hyps, room)),
        _ => Ok(false),
    }
}

/// Whether a kind whose instances can grow needs a goal.
pub fn needs_goal(kind: &RuleKind) -> bool
    ensures goal { result ≡ needs_goal kind.now }
{
    match kind {
        RuleKind::ExR(_) => true,
        RuleKind::EqGoal => true,
        RuleKind::RwGoal(_, _) => true,
        _ => false,
    }
}

/// The hypotheses that a kind needs whose instances can grow, as far as they are there.
pub fn needed_hyps<'a>(kind: &RuleKind, hyps: &'a [Formula]) -> &'a [Formula]
    ensures hyps { result.now ≡ take (hyp_count kind.now) hyps.now }
{
    let count = hyp_count(kind).min(hyps.len());
    &hyps[..count]
}

fn hyp_count(kind: &RuleKind) -> usize
    ensures { result ≡ hyp_count kind.now }
{
    match kind {
        RuleKind::AllL(_) => 1,
        RuleKind::EqGoal => 1,
        RuleKind::EqHyp => 2,
        RuleKind::FunIn => 1,
        RuleKind::RwHyp(_, _) => 1,
        _ => 0,
    }
}
