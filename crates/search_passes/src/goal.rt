//! The goal is opened as a goal as far as it goes; then its negation is assumed.
use crate::computing::goal_computed;
use crate::finite::goal_finite;
use crate::over::goal_override;
use formula_core::{Binder, Op};
use rule_table::Law;
use search_facts::{Facts, Limits, Next, Plan, Turn, Way};
use search_steps::{Head, Id, Kind, Link, NONE, Search, Span, Step, Stop};
use search_terms::Branch;

const STILL: Next = Next::Turn(Turn::Still);

/// One step on the goal.
pub fn goal_step(
    facts: &mut Facts,
    b: &mut Branch,
    chain: &mut Vec<Link>,
    limits: Limits,
) -> Result<Next, Stop> {
    let goal = b.goal;
    if goal == facts.search.bottom {
        return Ok(STILL);
    }
    if let Some(proof) = goal_closed(facts, b, goal)? {
        return Ok(Next::Turn(Turn::Closed(proof)));
    }
    if goal_rewritten(facts, b, chain, goal)? || goal_computed(facts, b, chain, goal)? {
        return Ok(Next::Turn(Turn::Moved));
    }
    match facts.search.bank.term(goal).head {
        Head::Bind(Binder::ForAll) => goal_for_all(facts, b, chain, goal),
        Head::Bind(Binder::Exists) => goal_exists(facts, b, chain, goal),
        Head::Node(op) => goal_node(facts, b, chain, goal, op, limits),
        _ => goal_refuted(facts, b, chain, goal),
    }
}

/// A proof of the goal by one rule.
fn goal_closed(facts: &mut Facts, b: &Branch, goal: Id) -> Result<Option<u32>, Stop> {
    if b.has(goal) {
        return facts.ended(Search::on_goal(Kind::Hyp, goal));
    }
    if goal == facts.search.top {
        return facts.ended(Search::on_goal(Kind::Top, goal));
    }
    if !facts.search.bank.is(goal, Op::Equal) {
        return Ok(None);
    }
    let (left, right) = facts.search.bank.two(goal);
    if left == right {
        return facts.ended(Search::on_goal(Kind::EqRefl, goal));
    }
    let turned = facts.search.bank.turned(goal)?;
    if b.has(turned) {
        let inner = facts.ended(Search::on_goal(Kind::Hyp, turned))?;
        let step = facts.search.rewriting_goal(goal, Law::EqualTurned, &[])?;
        return facts.topped(step, inner);
    }
    Ok(None)
}

fn goal_rewritten(
    facts: &mut Facts,
    b: &mut Branch,
    chain: &mut Vec<Link>,
    goal: Id,
) -> Result<bool, Stop> {
    if b.at_once != NONE {
        let by = b.at_once;
        b.at_once = NONE;
        let mut step = facts.on(Kind::EqGoal, by)?;
        step.goal = goal;
        return facts.forward(b, chain, step);
    }
    let Some(equation) = facts.equation_for(b, goal) else {
        return Ok(false);
    };
    let by = facts.use_equation(b, chain, equation)?;
    let mut step = facts.on(Kind::EqGoal, by)?;
    step.goal = goal;
    facts.forward(b, chain, step)
}

/// A step on the goal that leaves one sequent.
fn goal_by(
    facts: &mut Facts,
    b: &mut Branch,
    chain: &mut Vec<Link>,
    step: Step,
) -> Result<Next, Stop> {
    if facts.forward(b, chain, step)? {
        return Ok(Next::Turn(Turn::Moved));
    }
    Ok(Next::Turn(Turn::Failed))
}

fn goal_refuted(
    facts: &mut Facts,
    b: &mut Branch,
    chain: &mut Vec<Link>,
    goal: Id,
) -> Result<Next, Stop> {
    goal_by(facts, b, chain, Search::on_goal(Kind::Contra, goal))
}

fn goal_for_all(
    facts: &mut Facts,
    b: &mut Branch,
    chain: &mut Vec<Link>,
    goal: Id,
) -> Result<Next, Stop> {
    let mut step = Search::on_goal(Kind::AllR, goal);
    step.names = names_for_goal(facts, goal)?;
    goal_by(facts, b, chain, step)
}

fn goal_exists(
    facts: &mut Facts,
    b: &mut Branch,
    chain: &mut Vec<Link>,
    goal: Id,
) -> Result<Next, Stop> {
    let Some(terms) = facts.witness(b, goal, 11)? else {
        return goal_refuted(facts, b, chain, goal);
    };
    let mut step = Search::on_goal(Kind::ExR, goal);
    step.terms = facts.search.list(&terms)?;
    match facts.search.made(step)? {
        Some(number) if facts.search.left_count(number) == 2 => Ok(Next::Plan(Plan {
            step: number,
            ways: [Way::ASIDE, Way::Here, Way::Here],
            must: true,
        })),
        _ => goal_by(facts, b, chain, step),
    }
}

fn goal_node(
    facts: &mut Facts,
    b: &mut Branch,
    chain: &mut Vec<Link>,
    goal: Id,
    op: Op,
    limits: Limits,
) -> Result<Next, Stop> {
    match op {
        Op::And => goal_apart(facts, Kind::AndR, goal, limits),
        Op::Equivalent => goal_apart(facts, Kind::IffR, goal, limits),
        _ => {
            if let Some(next) = goal_override(facts, b, chain, goal, limits)? {
                return Ok(next);
            }
            goal_other(facts, b, chain, goal, op)
        }
    }
}

fn goal_other(
    facts: &mut Facts,
    b: &mut Branch,
    chain: &mut Vec<Link>,
    goal: Id,
    op: Op,
) -> Result<Next, Stop> {
    match op {
        Op::Or => goal_by(facts, b, chain, Search::on_goal(Kind::OrR, goal)),
        Op::Implies => goal_by(facts, b, chain, Search::on_goal(Kind::ImpR, goal)),
        Op::Not => goal_by(facts, b, chain, Search::on_goal(Kind::NotR, goal)),
        _ => goal_atom(facts, b, chain, goal),
    }
}

fn goal_apart(facts: &mut Facts, kind: Kind, goal: Id, limits: Limits) -> Result<Next, Stop> {
    match facts.search.made(Search::on_goal(kind, goal))? {
        Some(step) => Ok(Next::Plan(Plan {
            step,
            ways: [Way::Apart(limits), Way::Apart(limits), Way::Apart(limits)],
            must: true,
        })),
        None => Ok(Next::Turn(Turn::Failed)),
    }
}

fn goal_atom(
    facts: &mut Facts,
    b: &mut Branch,
    chain: &mut Vec<Link>,
    goal: Id,
) -> Result<Next, Stop> {
    if let Some(law) = facts.law_to_open(goal)? {
        let step = facts.search.rewriting_goal(goal, law, &[])?;
        return goal_by(facts, b, chain, step);
    }
    if facts.unfolds && facts.search.bank.is(goal, Op::Finite) {
        if let Some(next) = goal_finite(facts, b, chain, goal)? {
            return Ok(next);
        }
    }
    let (left, _) = facts.search.bank.two(goal);
    if facts.reckons && facts.search.bank.is(goal, Op::Equal) && facts.is_number(left) {
        let step = facts.search.rewriting_goal(goal, Law::EqualIntegers, &[])?;
        return goal_by(facts, b, chain, step);
    }
    goal_refuted(facts, b, chain, goal)
}

fn names_for_goal(facts: &mut Facts, goal: Id) -> Result<Span, Stop> {
    let count = facts.search.bank.term(goal).types.count;
    let mut names: Vec<u32> = Vec::new(facts.search.alloc());
    for _ in 0..count {
        let name = facts.search.new_name(0)?;
        names.push(name)?;
    }
    facts.search.list(&names)
}
