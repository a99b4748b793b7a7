//! Steps with what they leave, by the table of rules.
use crate::kind::Kind;
use crate::search::{Left, Search, Step};
use formula_core::{Formula, List, Name};
use rule_kernel::instance;
use rule_table::{Antecedent, Body, Law, Main, RuleKind};
use term_bank::{Id, NONE, Span, Stop};

impl Search {
    /// A step that needs nothing yet.
    pub fn of_kind(kind: Kind) -> Step {
        Step {
            kind,
            goal: NONE,
            hyps: Span::EMPTY,
            names: Span::EMPTY,
            terms: Span::EMPTY,
            chosen: NONE,
            law: None,
            place: Span::EMPTY,
            multipliers: Span::EMPTY,
            left: Span::EMPTY,
        }
    }

    /// A step on a goal.
    pub fn on_goal(kind: Kind, goal: Id) -> Step {
        let mut step = Search::of_kind(kind);
        step.goal = goal;
        step
    }

    /// A step on hypotheses.
    pub fn on_hyps(&mut self, kind: Kind, hyps: &[Id]) -> Result<Step, Stop> {
        let mut step = Search::of_kind(kind);
        step.hyps = self.list(hyps)?;
        Ok(step)
    }

    /// A law on a hypothesis, at a place.
    pub fn rewriting(&mut self, hyp: Id, law: Law, place: &[u32]) -> Result<Step, Stop> {
        let mut step = self.on_hyps(Kind::RwHyp, &[hyp])?;
        step.law = Some(law);
        step.place = self.list(place)?;
        Ok(step)
    }

    /// A law on a goal, at a place.
    pub fn rewriting_goal(&mut self, goal: Id, law: Law, place: &[u32]) -> Result<Step, Stop> {
        let mut step = Search::on_goal(Kind::RwGoal, goal);
        step.law = Some(law);
        step.place = self.list(place)?;
        Ok(step)
    }

    /// The step's number, where it has its kind's form.
    pub fn made(&mut self, step: Step) -> Result<Option<u32>, Stop> {
        self.tick()?;
        let mut step = step;
        match self.taken_apart(step)? {
            Some(left) => step.left = left,
            None => {
                let Some(body) = self.body(step)? else {
                    return Ok(None);
                };
                step.goal = self.goal_of(&body.goal)?;
                step.hyps = self.formula_list(body.hyps.items())?;
                step.left = self.keep_left(body.antecedents.items())?;
            }
        }
        let number = self.keep(step)?;
        Ok(Some(number))
    }

    fn keep(&mut self, step: Step) -> Result<u32, Stop> {
        if self.steps.len() >= 1073741824 {
            return Err(Stop::Spent);
        }
        let number = self.steps.len() as u32;
        self.steps.push(step)?;
        Ok(number)
    }

    fn goal_of(&mut self, goal: &Option<Formula>) -> Result<Id, Stop> {
        match goal {
            Some(f) => self.bank.add_formula(f),
            None => Ok(NONE),
        }
    }

    fn formula_list(&mut self, formulas: &[Formula]) -> Result<Span, Stop> {
        let mut ids = Vec::new(self.alloc);
        for f in formulas {
            let id = self.bank.add_formula(f)?;
            ids.push(id)?;
        }
        self.list(&ids)
    }

    fn keep_left(&mut self, antecedents: &[Antecedent]) -> Result<Span, Stop> {
        let mut sequents = Vec::new(self.alloc);
        for antecedent in antecedents {
            let left = self.left_of(antecedent)?;
            sequents.push(left)?;
        }
        self.leave(&sequents)
    }

    /// A new part of the list of sequents that are left.
    pub(crate) fn leave(&mut self, sequents: &[Left]) -> Result<Span, Stop> {
        if self.left.len() >= 1073741824 || sequents.len() >= 1048576 {
            return Err(Stop::Spent);
        }
        let start = self.left.len() as u32;
        for left in sequents {
            self.left.push(*left)?;
        }
        Ok(Span {
            start,
            count: sequents.len() as u32,
        })
    }

    fn left_of(&mut self, antecedent: &Antecedent) -> Result<Left, Stop> {
        let mut names = Vec::new(self.alloc);
        for ident in antecedent.idents.items() {
            let name = self.bank.name(&ident.0)?;
            names.push(name)?;
        }
        let names = self.list(&names)?;
        let hyps = self.formula_list(antecedent.hyps.items())?;
        let goal = self.goal_of(&antecedent.goal)?;
        Ok(Left { names, hyps, goal })
    }

    /// What the step's rule needs and leaves.
    pub(crate) fn body(&self, step: Step) -> Result<Option<Body>, Stop> {
        let kind = self.rule_kind(step)?;
        let main = self.main(step)?;
        Ok(instance(self.alloc, &kind, &main)?)
    }

    fn main(&self, step: Step) -> Result<Main, Stop> {
        Ok(Main {
            goal: self.optional(step.goal)?,
            hyps: self.formulas(step.hyps)?,
            names: self.names(step.names)?,
            chosen: self.optional(step.chosen)?,
        })
    }

    fn optional(&self, id: Id) -> Result<Option<Formula>, Stop> {
        if id == NONE {
            return Ok(None);
        }
        Ok(Some(self.formula(id)?))
    }

    fn formulas(&self, ids: Span) -> Result<List<Formula>, Stop> {
        let mut copies = Vec::new(self.alloc);
        for i in 0..ids.count {
            let f = self.formula(self.at(ids, i))?;
            copies.push(f)?;
        }
        Ok(List::of(copies))
    }

    fn names(&self, names: Span) -> Result<List<Name>, Stop> {
        let mut copies = Vec::new(self.alloc);
        for i in 0..names.count {
            let name = self.bank.copy_name(self.at(names, i))?;
            copies.push(name)?;
        }
        Ok(List::of(copies))
    }

    fn places(&self, place: Span) -> Result<List<u32>, Stop> {
        let mut copies = Vec::new(self.alloc);
        for i in 0..place.count {
            copies.push(self.at(place, i))?;
        }
        Ok(List::of(copies))
    }

    fn multipliers(&self, numbers: Span) -> Result<List<i128>, Stop> {
        let mut copies = Vec::new(self.alloc);
        for i in 0..numbers.count {
            if let Some(n) = self.numbers.get(numbers.start.saturating_add(i) as usize) {
                copies.push(*n)?;
            }
        }
        Ok(List::of(copies))
    }

    /// The kind of rule that a step is.
    pub(crate) fn rule_kind(&self, step: Step) -> Result<RuleKind, Stop> {
        match step.kind {
            Kind::AllL => Ok(RuleKind::AllL(self.formulas(step.terms)?)),
            Kind::ExR => Ok(RuleKind::ExR(self.formulas(step.terms)?)),
            Kind::RwGoal => Ok(RuleKind::RwGoal(number_of(step)?, self.places(step.place)?)),
            Kind::RwHyp => Ok(RuleKind::RwHyp(number_of(step)?, self.places(step.place)?)),
            Kind::Linear => Ok(RuleKind::Linear(self.multipliers(step.multipliers)?)),
            Kind::Hyp => Ok(RuleKind::Hyp),
            Kind::Top => Ok(RuleKind::Top),
            Kind::Bot => Ok(RuleKind::Bot),
            Kind::Contr => Ok(RuleKind::Contr),
            Kind::AndR => Ok(RuleKind::AndR),
            Kind::AndL => Ok(RuleKind::AndL),
            Kind::OrR => Ok(RuleKind::OrR),
            Kind::OrL => Ok(RuleKind::OrL),
            Kind::ImpR => Ok(RuleKind::ImpR),
            Kind::ImpL => Ok(RuleKind::ImpL),
            Kind::Mp => Ok(RuleKind::Mp),
            Kind::IffR => Ok(RuleKind::IffR),
            Kind::IffL => Ok(RuleKind::IffL),
            Kind::NotR => Ok(RuleKind::NotR),
            Kind::NotL => Ok(RuleKind::NotL),
            Kind::Contra => Ok(RuleKind::Contra),
            Kind::AllR => Ok(RuleKind::AllR),
            Kind::ExL => Ok(RuleKind::ExL),
            Kind::Cut => Ok(RuleKind::Cut),
            Kind::Cases => Ok(RuleKind::Cases),
            Kind::EqRefl => Ok(RuleKind::EqRefl),
            Kind::EqGoal => Ok(RuleKind::EqGoal),
            Kind::EqHyp => Ok(RuleKind::EqHyp),
            Kind::BoolCases => Ok(RuleKind::BoolCases),
            Kind::BoolDiff => Ok(RuleKind::BoolDiff),
            Kind::CardNat => Ok(RuleKind::CardNat),
            Kind::FunIn => Ok(RuleKind::FunIn),
            Kind::FunEq => Ok(RuleKind::FunEq),
            Kind::OverOther => Ok(RuleKind::OverOther),
        }
    }
}

/// The number of a step's law.
fn number_of(step: Step) -> Result<u8, Stop> {
    match step.law {
        Some(law) => Ok(law.number()),
        None => Err(Stop::Spent),
    }
}
