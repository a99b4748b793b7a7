//! What the rules of the connectives leave, made of a formula's parts: nothing is written out.
use crate::kind::Kind;
use crate::search::{Left, Search, Step};
use formula_core::Op;
use rule_table::Law;
use term_bank::{Id, NONE, Span, Stop};

impl Search {
    /// What a step leaves, where its rule needs no more than the one formula that it takes apart.
    pub(crate) fn taken_apart(&mut self, step: Step) -> Result<Option<Span>, Stop> {
        if step.goal != NONE && step.hyps.count == 0 {
            return self.goal_apart(step.kind, step.goal);
        }
        if step.goal != NONE || step.hyps.count != 1 {
            return Ok(None);
        }
        let h = self.at(step.hyps, 0);
        match step.law {
            Some(law) if step.kind == Kind::RwHyp && step.place.count == 0 => self.negated(law, h),
            _ => self.hyp_apart(step.kind, h),
        }
    }

    fn goal_apart(&mut self, kind: Kind, goal: Id) -> Result<Option<Span>, Stop> {
        let (p, q) = self.bank.two(goal);
        match (kind, self.bank.operator(goal)) {
            (Kind::AndR, Some(Op::And)) => {
                let first = self.leaving(&[], p)?;
                let second = self.leaving(&[], q)?;
                self.leave_some(&[first, second])
            }
            (Kind::OrR, Some(Op::Or)) => {
                let negated = self.bank.not(p)?;
                self.leave_one(&[negated], q)
            }
            (Kind::ImpR, Some(Op::Implies)) => self.leave_one(&[p], q),
            (Kind::NotR, Some(Op::Not)) => self.leave_one(&[p], self.bottom),
            (Kind::Contra, _) => {
                let negated = self.bank.not(goal)?;
                self.leave_one(&[negated], self.bottom)
            }
            _ => Ok(None),
        }
    }

    fn hyp_apart(&mut self, kind: Kind, h: Id) -> Result<Option<Span>, Stop> {
        let (p, q) = self.bank.two(h);
        match (kind, self.bank.operator(h)) {
            (Kind::AndL, Some(Op::And)) => self.leave_one(&[p, q], NONE),
            (Kind::NotL, Some(Op::Not)) => self.leave_one(&[], p),
            (Kind::OrL, Some(Op::Or)) => {
                let first = self.leaving(&[p], NONE)?;
                let second = self.leaving(&[q], NONE)?;
                self.leave_some(&[first, second])
            }
            (Kind::ImpL, Some(Op::Implies)) => {
                let first = self.leaving(&[], p)?;
                let second = self.leaving(&[q], NONE)?;
                self.leave_some(&[first, second])
            }
            _ => Ok(None),
        }
    }

    /// What a law on the negation of a connective leaves in the place of a hypothesis.
    fn negated(&mut self, law: Law, h: Id) -> Result<Option<Span>, Stop> {
        let f = self.bank.part(h, 0);
        let (p, q) = self.bank.two(f);
        let is_negation = self.bank.is(h, Op::Not);
        let made = match (law, self.bank.operator(f)) {
            (Law::DoubleNegation, Some(Op::Not)) if is_negation => p,
            (Law::NegatedAnd, Some(Op::And)) if is_negation => {
                let p = self.bank.not(p)?;
                let q = self.bank.not(q)?;
                self.bank.both(Op::Or, p, q)?
            }
            (Law::NegatedOr, Some(Op::Or)) if is_negation => {
                let p = self.bank.not(p)?;
                let q = self.bank.not(q)?;
                self.bank.both(Op::And, p, q)?
            }
            (Law::NegatedImplies, Some(Op::Implies)) if is_negation => {
                let q = self.bank.not(q)?;
                self.bank.both(Op::And, p, q)?
            }
            _ => return Ok(None),
        };
        self.leave_one(&[made], NONE)
    }

    /// A sequent with new hypotheses and a new goal, or `NONE`.
    fn leaving(&mut self, hyps: &[Id], goal: Id) -> Result<Left, Stop> {
        let hyps = self.list(hyps)?;
        Ok(Left {
            names: Span::EMPTY,
            hyps,
            goal,
        })
    }

    fn leave_one(&mut self, hyps: &[Id], goal: Id) -> Result<Option<Span>, Stop> {
        let left = self.leaving(hyps, goal)?;
        self.leave_some(&[left])
    }

    fn leave_some(&mut self, sequents: &[Left]) -> Result<Option<Span>, Stop> {
        let left = self.leave(sequents)?;
        Ok(Some(left))
    }
}
