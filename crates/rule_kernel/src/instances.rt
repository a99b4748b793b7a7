//! The instance of each kind of rule for its main formulas.
ghost use Rattle.std.specs.Prelude.{◌≡◌, IfOk};
ghost use Rattle.std.specs.Option.{option_copied};
ghost use Rattle.rule_table.specs.Rows.{instance, first};

use crate::rewriting::{rw_goal, rw_hyp};
use formula_core::{Formula, OutOfMemory};
use rule_table::{Body, Main, RuleKind};
use std::alloc::Global;

/// What is made of a formula, if there is one.
macro_rules! of {
    ($found:expr, $f:ident => $made:expr) => {
        match $found {
            Some($f) => $made,
            None => Ok(None),
        }
    };
}

/// What is made of the first two hypotheses, if there are so many.
macro_rules! of_two {
    ($hyps:expr, $h:ident, $k:ident => $made:expr) => {
        match $hyps {
            [$h, $k, ..] => $made,
            _ => Ok(None),
        }
    };
}

/// The first hypothesis.
pub(crate) fn first(hyps: &[Formula]) -> Option<&Formula>
    ensures { option_copied result ≡ first hyps.now }
{
    match hyps {
        [h, ..] => Some(h),
        [] => None,
    }
}

/// What a rule of a kind needs and leaves, made from its main formulas, if they have the form that the kind asks.
pub fn instance(alloc: Global, kind: &RuleKind, main: &Main) -> Result<Option<Body>, OutOfMemory>
    ensures instance { IfOk result (λ o. o ≡ instance kind.now main.now) }
{
    let goal = &main.goal;
    let hyps = main.hyps.items();
    let names = main.names.items();
    match kind {
        RuleKind::Hyp => of!(goal, g => rules_logic::hyp(alloc, g)),
        RuleKind::Top => rules_logic::top(alloc),
        RuleKind::Bot => rules_logic::bot(alloc),
        RuleKind::Contr => of!(first(hyps), h => rules_logic::contr(alloc, h)),
        RuleKind::AndR => of!(goal, g => rules_logic::and_r(alloc, g)),
        RuleKind::AndL => of!(first(hyps), h => rules_logic::and_l(alloc, h)),
        RuleKind::OrR => of!(goal, g => rules_logic::or_r(alloc, g)),
        RuleKind::OrL => of!(first(hyps), h => rules_logic::or_l(alloc, h)),
        RuleKind::ImpR => of!(goal, g => rules_logic::imp_r(alloc, g)),
        RuleKind::ImpL => of!(first(hyps), h => rules_logic::imp_l(alloc, h)),
        RuleKind::Mp => of!(first(hyps), h => rules_logic::mp(alloc, h)),
        RuleKind::IffR => of!(goal, g => rules_logic::iff_r(alloc, g)),
        RuleKind::IffL => of!(first(hyps), h => rules_logic::iff_l(alloc, h)),
        RuleKind::NotR => of!(goal, g => rules_logic::not_r(alloc, g)),
        RuleKind::NotL => of!(first(hyps), h => rules_logic::not_l(alloc, h)),
        RuleKind::Contra => of!(goal, g => rules_logic::contra(alloc, g)),
        RuleKind::AllR => of!(goal, g => rules_logic::all_r(alloc, names, g)),
        RuleKind::AllL(terms) => of!(first(hyps), h => rules_logic::all_l(alloc, terms.items(), h)),
        RuleKind::ExR(terms) => of!(goal, g => rules_logic::ex_r(alloc, terms.items(), g)),
        RuleKind::ExL => of!(first(hyps), h => rules_logic::ex_l(alloc, names, h)),
        RuleKind::Cut => of!(&main.chosen, p => rules_logic::cut(alloc, p)),
        RuleKind::Cases => of!(&main.chosen, p => rules_logic::cases(alloc, p)),
        RuleKind::Review => of!(goal, g => rules_logic::review(alloc, g, hyps)),
        RuleKind::EqRefl => of!(goal, g => rules_sets::eq_refl(alloc, g)),
        RuleKind::EqGoal => of!(goal, g => of!(first(hyps), h => rules_sets::eq_goal(alloc, g, h))),
        RuleKind::EqHyp => of_two!(hyps, h, k => rules_sets::eq_hyp(alloc, h, k)),
        RuleKind::BoolCases => of!(&main.chosen, e => rules_sets::bool_cases(alloc, e)),
        RuleKind::BoolDiff => rules_sets::bool_diff(alloc),
        RuleKind::RwGoal(law, at) => of!(goal, g => rw_goal(alloc, *law, at.items(), g)),
        RuleKind::RwHyp(law, at) => of!(first(hyps), h => rw_hyp(alloc, *law, at.items(), h)),
        RuleKind::Linear(by) =>
            of!(goal, g => rules_arith::linear_step_of(alloc, by.items(), hyps, g)),
        RuleKind::CardNat => of!(&main.chosen, s => rules_sets::card_nat(alloc, s)),
        RuleKind::FunIn =>
            of!(first(hyps), h => of!(&main.chosen, e => rules_sets::fun_in(alloc, h, e))),
        RuleKind::FunEq => of_two!(hyps, h, k => rules_sets::fun_eq(alloc, h, k)),
        RuleKind::OverOther =>
            of!(goal, g => of!(first(hyps), h => rules_sets::over_other(alloc, g, h))),
    }
}
