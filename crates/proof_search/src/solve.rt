//! The loop of the search over a branch, and its recursion where a step leaves several sequents.
use crate::finder::Finder;
use formula_core::Op;
use search_facts::{Limits, Next, Plan, Turn, Way};
use search_instances::{Others, best_instance, other_instance, pair_of_value};
use search_passes::{
    application, bounds_of_values, cardinality, equal_arguments, equal_bounds, goal_step,
    nearest_clause, propagate, saturate, split, truth_value,
};
use search_steps::{Id, Kind, LOOKS, Link, Stop};
use search_terms::Branch;

/// The most turns of a branch.
const MOST_TURNS: u32 = 20000;

/// The distance up to which a clause is near the goal.
const NEAR: u32 = 120;

const FAR: u32 = 4294967295;

const STILL: Next = Next::Turn(Turn::Still);

impl Finder {
    /// A proof of the branch's goal, if one is found.
    #[cycle(solve)]
    pub fn solve(
        &mut self,
        b: &mut Branch,
        limits: Limits,
        levels: u32,
    ) -> Result<Option<u32>, Stop> {
        let mut chain = Vec::new(self.facts.search.alloc());
        let mut limits = limits;
        if levels == 0 {
            return Ok(None);
        }
        for _ in 0..MOST_TURNS {
            match self.turn(b, &mut chain, &mut limits, levels - 1)? {
                Turn::Closed(proof) => return Ok(Some(self.facts.search.folded(&chain, proof)?)),
                Turn::Failed | Turn::Still => return Ok(None),
                Turn::Moved => {}
            }
        }
        Ok(None)
    }

    /// One turn: the first pass that does something.
    #[cycle(solve)]
    fn turn(
        &mut self,
        b: &mut Branch,
        chain: &mut Vec<Link>,
        limits: &mut Limits,
        levels: u32,
    ) -> Result<Turn, Stop> {
        if levels == 0 {
            return Ok(Turn::Failed);
        }
        match self.next(b, chain, limits)? {
            Next::Turn(turn) => Ok(turn),
            Next::Plan(plan) => self.carry_out(b, chain, plan, levels - 1),
        }
    }

    fn next(
        &mut self,
        b: &mut Branch,
        chain: &mut Vec<Link>,
        limits: &mut Limits,
    ) -> Result<Next, Stop> {
        if let Some(proof) = saturate(&mut self.facts, b, chain)? {
            return Ok(Next::Turn(Turn::Closed(proof)));
        }
        let next = goal_step(&mut self.facts, b, chain, *limits)?;
        if !is_still(next) {
            return Ok(next);
        }
        if let Some(proof) = self.facts.linear(b)? {
            return Ok(Next::Turn(Turn::Closed(proof)));
        }
        let next = propagate(&mut self.facts, b)?;
        if !is_still(next) {
            return Ok(next);
        }
        let next = truth_value(&mut self.facts, b)?;
        if !is_still(next) {
            return Ok(next);
        }
        let next = self.next_of_types(b)?;
        if !is_still(next) {
            return Ok(next);
        }
        self.next_instance(b, limits)
    }

    /// What the types of values say, looked for where hypotheses have come.
    fn next_of_types(&mut self, b: &mut Branch) -> Result<Next, Stop> {
        if b.seen == b.order.len() {
            return Ok(STILL);
        }
        let next = pair_of_value(&mut self.facts, b)?;
        if !is_still(next) {
            return Ok(next);
        }
        let next = cardinality(&mut self.facts, b)?;
        if is_still(next) {
            b.seen = b.order.len();
        }
        Ok(next)
    }

    fn next_instance(&mut self, b: &mut Branch, limits: &mut Limits) -> Result<Next, Stop> {
        let may_turn = b.turns <= self.rounds.saturating_mul(32);
        let mut others = Others::new(self.facts.search.alloc());
        if limits.rounds > 0 && may_turn {
            let next = best_instance(&mut self.facts, b, &mut others)?;
            if !is_still(next) {
                b.turns = b.turns.saturating_add(1);
                return Ok(next);
            }
        }
        let next = equal_bounds(&mut self.facts, b)?;
        if !is_still(next) {
            return Ok(next);
        }
        let next = equal_arguments(&mut self.facts, b)?;
        if !is_still(next) {
            return Ok(next);
        }
        if limits.rounds > 0 {
            let next = application(&mut self.facts, b)?;
            if !is_still(next) {
                return Ok(next);
            }
        }
        self.next_split(b, limits, may_turn, others)
    }

    fn next_split(
        &mut self,
        b: &mut Branch,
        limits: &mut Limits,
        may_turn: bool,
        others: Others,
    ) -> Result<Next, Stop> {
        if limits.splits > 0 {
            let next = bounds_of_values(&mut self.facts, b)?;
            if !is_still(next) {
                return Ok(next);
            }
            if let Some(clause) = nearest_clause(&mut self.facts, b, NEAR)? {
                return split(&mut self.facts, b, clause, *limits);
            }
        }
        if limits.rounds > 0 && may_turn {
            let next = other_instance(&mut self.facts, b, others)?;
            if !is_still(next) {
                limits.rounds = limits.rounds.saturating_sub(1);
                return Ok(next);
            }
        }
        if limits.splits > 0 {
            if let Some(clause) = nearest_clause(&mut self.facts, b, FAR)? {
                return split(&mut self.facts, b, clause, *limits);
            }
        }
        let is_aside = !self.active.is_empty();
        if !may_turn || !is_aside && (limits.splits == 0 || limits.rounds == 0) {
            self.held_back = true;
        }
        Ok(Next::Turn(Turn::Failed))
    }

    /// Proves the sequents of a step in their ways.
    #[cycle(solve)]
    fn carry_out(
        &mut self,
        b: &mut Branch,
        chain: &mut Vec<Link>,
        plan: Plan,
        levels: u32,
    ) -> Result<Turn, Stop> {
        if levels == 0 {
            return Ok(Turn::Failed);
        }
        let mut before: Vec<u32> = Vec::new(self.facts.search.alloc());
        let mut after: Vec<u32> = Vec::new(self.facts.search.alloc());
        let mut here: Option<u32> = None;
        let count = self.facts.search.left_count(plan.step).min(3);
        for i in 0..count {
            match self.way_of(plan, i) {
                Way::Here => here = Some(i),
                way => {
                    let proof = self.prove_left(b, plan, i, way, levels - 1)?;
                    let Some(proof) = proof else {
                        return Ok(if plan.must { Turn::Failed } else { Turn::Moved });
                    };
                    if self
                        .facts
                        .search
                        .is_unneeded(self.facts.search.left(plan.step, i), proof)
                    {
                        return Ok(Turn::Closed(proof));
                    }
                    if here.is_some() {
                        after.push(proof)?;
                    } else {
                        before.push(proof)?;
                    }
                }
            }
        }
        self.went_on(b, chain, plan.step, here, &before, &after)
    }

    fn way_of(&self, plan: Plan, i: u32) -> Way {
        match i {
            0 => plan.ways[0],
            1 => plan.ways[1],
            _ => plan.ways[2],
        }
    }

    fn went_on(
        &mut self,
        b: &mut Branch,
        chain: &mut Vec<Link>,
        step: u32,
        here: Option<u32>,
        before: &[u32],
        after: &[u32],
    ) -> Result<Turn, Stop> {
        let Some(at) = here else {
            let whole = self.facts.search.proved(step, before)?;
            return Ok(Turn::Closed(whole));
        };
        if self.facts.enter(b, step, at)? {
            let before = self.facts.search.list(before)?;
            let after = self.facts.search.list(after)?;
            chain.push(Link {
                step,
                before,
                after,
            })?;
        }
        Ok(Turn::Moved)
    }

    /// A proof of one sequent of a step, in a branch of its own.
    #[cycle(solve)]
    fn prove_left(
        &mut self,
        b: &mut Branch,
        plan: Plan,
        i: u32,
        way: Way,
        levels: u32,
    ) -> Result<Option<u32>, Stop> {
        if levels == 0 {
            return Ok(None);
        }
        match way {
            Way::Here => Ok(None),
            Way::Done(proof) => Ok(Some(proof)),
            Way::Apart(limits) => {
                let mut inner = self.branch_of(&*b, plan.step, i)?;
                self.solve(&mut inner, limits, levels - 1)
            }
            Way::Aside(fuel, limits) => {
                let mut inner = self.branch_of(&*b, plan.step, i)?;
                let goal = inner.goal;
                let is_other = goal != b.goal;
                if is_other && self.is_refused(&*b, goal) {
                    return Ok(None);
                }
                self.active.push(goal)?;
                let before = self.facts.search.lower(fuel, fuel.saturating_mul(LOOKS));
                let found = self.solve(&mut inner, limits, levels - 1);
                let is_left = self.facts.search.raise(before);
                let _ = self.active.pop();
                let found = match found {
                    Err(Stop::Spent) if is_left => Ok(None),
                    other => other,
                };
                if let Ok(None) = found {
                    b.note_failure(goal)?;
                }
                found
            }
        }
    }

    fn is_refused(&self, b: &Branch, goal: Id) -> bool {
        if b.has_failed(goal) {
            return true;
        }
        for other in &self.active {
            if *other == goal {
                return true;
            }
        }
        false
    }

    /// A copy of the branch with what a sequent of a step adds.
    fn branch_of(&mut self, b: &Branch, step: u32, at: u32) -> Result<Branch, Stop> {
        let mut inner = b.copy(self.facts.search.alloc())?;
        let _ = self.facts.enter(&mut inner, step, at)?;
        let left = self.facts.search.left(step, at);
        if self.facts.search.step(step).kind == Kind::Cases && left.hyps.count == 1 {
            let hyp = self.facts.search.at(left.hyps, 0);
            if self.facts.search.bank.is(hyp, Op::Equal) {
                inner.at_once = hyp;
            }
        }
        Ok(inner)
    }
}

fn is_still(next: Next) -> bool {
    match next {
        Next::Turn(Turn::Still) => true,
        _ => false,
    }
}
