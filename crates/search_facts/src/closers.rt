//! Hypotheses that close a branch.
use crate::facts::Facts;
use formula_core::Op;
use rule_table::Law;
use search_steps::{Id, Kind, Search, Stop};
use search_terms::Branch;

impl Facts {
    /// A proof of `⊥` by a hypothesis alone or with its opposite.
    pub fn contradiction(&mut self, b: &Branch, h: Id) -> Result<Option<u32>, Stop> {
        if h == self.search.bottom {
            let step = self.on(Kind::Bot, h)?;
            return self.ended(step);
        }
        if self.search.bank.is(h, Op::Not) {
            return self.contradiction_of_negation(b, h);
        }
        let negated = self.search.bank.not(h)?;
        if b.has(negated) {
            return self.opposites(h, negated);
        }
        if self.search.bank.is(h, Op::Equal) {
            return self.contradiction_of_equation(b, h);
        }
        self.contradiction_of_bound(h)
    }

    fn opposites(&mut self, h: Id, negated: Id) -> Result<Option<u32>, Stop> {
        let step = self.search.on_hyps(Kind::Contr, &[h, negated])?;
        self.ended(step)
    }

    fn contradiction_of_negation(&mut self, b: &Branch, h: Id) -> Result<Option<u32>, Stop> {
        let f = self.search.bank.part(h, 0);
        if b.has(f) {
            return self.opposites(f, h);
        }
        if f == self.search.top {
            let inner = self.ended(Search::on_goal(Kind::Top, f))?;
            let step = self.on(Kind::NotL, h)?;
            return self.topped(step, inner);
        }
        if self.search.bank.is(f, Op::Equal) {
            let (left, right) = self.search.bank.two(f);
            if left == right {
                let inner = self.ended(Search::on_goal(Kind::EqRefl, f))?;
                let step = self.on(Kind::NotL, h)?;
                return self.topped(step, inner);
            }
            let turned = self.search.bank.turned(f)?;
            if b.has(turned) {
                let inner = self.opposites(f, h)?;
                let step = self.search.rewriting(turned, Law::EqualTurned, &[])?;
                return self.topped(step, inner);
            }
        }
        let set = self.search.bank.part(f, 1);
        if self.search.bank.is(f, Op::Member) && self.is_whole(set)? {
            let top = self.search.top;
            let inner = self.ended(Search::on_goal(Kind::Top, top))?;
            let law = self.search.rewriting_goal(f, Law::MemberOfWhole, &[])?;
            let inner = self.topped(law, inner)?;
            let step = self.on(Kind::NotL, h)?;
            return self.topped(step, inner);
        }
        Ok(None)
    }

    fn contradiction_of_equation(&mut self, b: &Branch, h: Id) -> Result<Option<u32>, Stop> {
        let turned = self.search.bank.turned(h)?;
        let negated = self.search.bank.not(turned)?;
        let (left, right) = self.search.bank.two(h);
        if b.has(negated) {
            let inner = self.opposites(turned, negated)?;
            let step = self.search.rewriting(h, Law::EqualTurned, &[])?;
            return self.topped(step, inner);
        }
        if left == self.search.yes && right == self.search.no {
            let step = self.on(Kind::BoolDiff, h)?;
            return self.ended(step);
        }
        if left == self.search.no && right == self.search.yes {
            let step = self.on(Kind::BoolDiff, turned)?;
            let inner = self.ended(step)?;
            let law = self.search.rewriting(h, Law::EqualTurned, &[])?;
            return self.topped(law, inner);
        }
        self.contradiction_of_bound(h)
    }

    fn contradiction_of_bound(&mut self, h: Id) -> Result<Option<u32>, Stop> {
        if !self.reckons {
            return Ok(None);
        }
        let Some(read) = self.comparison(h)? else {
            return Ok(None);
        };
        if read.has_atoms {
            return Ok(None);
        }
        if read.constant >= 1 {
            return self.ended_by_sum(&[(h, 1)]);
        }
        if read.is_equation && read.constant < 0 {
            return self.ended_by_sum(&[(h, -1)]);
        }
        Ok(None)
    }

    /// The linear step of hypotheses with their multipliers, at the goal `⊥`.
    pub fn ended_by_sum(&mut self, by: &[(Id, i128)]) -> Result<Option<u32>, Stop> {
        let mut hyps = Vec::new(self.search.alloc());
        let mut numbers = Vec::new(self.search.alloc());
        for pair in by {
            hyps.push(pair.0)?;
            numbers.push(pair.1)?;
        }
        let mut step = self.search.on_hyps(Kind::Linear, &hyps)?;
        step.goal = self.search.bottom;
        step.multipliers = self.search.number_list(&numbers)?;
        self.ended(step)
    }
}
