//! The strategies that can be asked.
ghost use Rattle.std.specs.Prelude.{◌≤◌};

use formula_core::List;
use proof_strategies::{One, OrElse, Repeat, Strategy, Then};
use sequent_core::{Attempt, Hint, RuleKind, Sequent};
use std::alloc::Global;

/// What a strategy answers on a sequent. None where there is no such strategy, or none with this budget.
pub fn asked_strategy(
    alloc: Global,
    name: &str,
    sequent: &Sequent,
    budget: u32,
) -> Option<Attempt> {
    if budget < 1 || budget > 2000 {
        return None;
    }
    match name {
        "andR" => Some(run(&and_r(alloc), alloc, sequent, budget)),
        "andR then hyp" => Some(run(&and_r_then_hyp(alloc)?, alloc, sequent, budget)),
        "andR then impR then hyp" => Some(run(&three_in_turn(alloc)?, alloc, sequent, budget)),
        "hyp or andR" => Some(run(&hyp_or_and_r(alloc)?, alloc, sequent, budget)),
        "repeat andR" => Some(run(&repeat_and_r(alloc), alloc, sequent, budget)),
        "repeat andL" => Some(run(&repeat_and_l(alloc)?, alloc, sequent, budget)),
        "repeat hyp or andR" => Some(run(&repeat_either(alloc)?, alloc, sequent, budget)),
        _ => None,
    }
}

fn run<S: Strategy>(strategy: &S, alloc: Global, sequent: &Sequent, budget: u32) -> Attempt
    requires least { 1 ≤ budget }
    requires most { budget ≤ 2000 }
{
    strategy.run(alloc, sequent, budget)
}

fn one(alloc: Global, kind: &RuleKind, hyps: List<u32>) -> One {
    let hint = Hint {
        hyps,
        multipliers: List::of(Vec::new(alloc)),
        names: List::of(Vec::new(alloc)),
        terms: List::of(Vec::new(alloc)),
        law: 0,
        place: List::of(Vec::new(alloc)),
    };
    One {
        kind: kind.number(),
        hint,
    }
}

fn without_hyps(alloc: Global, kind: &RuleKind) -> One {
    one(alloc, kind, List::of(Vec::new(alloc)))
}

fn with_first_hyp(alloc: Global, kind: &RuleKind) -> Option<One> {
    let mut hyps = Vec::new(alloc);
    hyps.push(1).ok()?;
    Some(one(alloc, kind, List::of(hyps)))
}

fn hyp(alloc: Global) -> Option<One> {
    with_first_hyp(alloc, &RuleKind::Hyp)
}

fn and_r(alloc: Global) -> One {
    without_hyps(alloc, &RuleKind::AndR)
}

fn imp_r(alloc: Global) -> One {
    without_hyps(alloc, &RuleKind::ImpR)
}

fn and_r_then_hyp(alloc: Global) -> Option<Then<One, One>> {
    let second = hyp(alloc)?;
    Some(Then {
        first: and_r(alloc),
        second,
    })
}

fn and_r_then_imp_r(alloc: Global) -> Then<One, One> {
    Then {
        first: and_r(alloc),
        second: imp_r(alloc),
    }
}

fn three_in_turn(alloc: Global) -> Option<Then<Then<One, One>, One>> {
    let second = hyp(alloc)?;
    Some(Then {
        first: and_r_then_imp_r(alloc),
        second,
    })
}

fn hyp_or_and_r(alloc: Global) -> Option<OrElse<One, One>> {
    let first = hyp(alloc)?;
    Some(OrElse {
        first,
        second: and_r(alloc),
    })
}

fn repeat_and_r(alloc: Global) -> Repeat<One> {
    Repeat { body: and_r(alloc) }
}

fn repeat_and_l(alloc: Global) -> Option<Repeat<One>> {
    let body = with_first_hyp(alloc, &RuleKind::AndL)?;
    Some(Repeat { body })
}

fn repeat_either(alloc: Global) -> Option<Repeat<OrElse<One, One>>> {
    let body = hyp_or_and_r(alloc)?;
    Some(Repeat { body })
}
