//! What a search keeps.
use crate::kind::Kind;
use formula_core::{Env, Formula};
use rule_table::Law;
use sequent_core::Sequent;
use std::alloc::Global;
use term_bank::{Bank, Id, NONE, Span, Stop};

/// A rule by the numbers of its formulas. Lists are parts of the search's list.
#[derive(Clone, Copy)]
pub struct Step {
    pub kind: Kind,
    pub goal: Id,
    pub hyps: Span,
    pub names: Span,
    pub terms: Span,
    pub chosen: Id,
    pub law: Option<Law>,
    pub place: Span,
    pub multipliers: Span,
    pub left: Span,
}

/// What a step leaves to prove: new names, new hypotheses and a new goal, or `NONE`.
#[derive(Clone, Copy)]
pub struct Left {
    pub names: Span,
    pub hyps: Span,
    pub goal: Id,
}

/// A step with a proof of each sequent that it leaves, and which hypotheses and names the whole needs.
#[derive(Clone, Copy)]
pub struct Proof {
    pub step: u32,
    pub kids: Span,
    pub needs: Span,
    pub names: Span,
    pub needs_goal: bool,
    pub size: u32,
}

/// A step of a branch that goes on: proofs of what it leaves before that and after it.
#[derive(Clone, Copy)]
pub struct Link {
    pub step: u32,
    pub before: Span,
    pub after: Span,
}

/// Formulas, steps and proofs of a search, and its fuel.
#[derive(Drop)]
pub struct Search {
    pub bank: Bank,
    pub(crate) alloc: Global,
    pub(crate) steps: Vec<Step>,
    pub(crate) left: Vec<Left>,
    pub(crate) proofs: Vec<Proof>,
    pub(crate) pool: Vec<u32>,
    pub(crate) numbers: Vec<i128>,
    pub(crate) laws: Vec<Option<(Law, Id)>>,
    pub(crate) steps_made: u32,
    pub(crate) looks: u32,
    pub(crate) most_steps: u32,
    pub(crate) most_looks: u32,
    pub(crate) first_new: u32,
    pub(crate) fresh: u32,
    pub(crate) generations: Vec<u32>,
    pub bottom: Id,
    pub top: Id,
    pub yes: Id,
    pub no: Id,
}

impl Search {
    /// A search over a sequent's names.
    pub fn new(alloc: Global, env: &Env) -> Result<Search, Stop> {
        let mut bank = Bank::new(alloc)?;
        for entry in env.entries() {
            let _ = bank.name(&entry.0)?;
        }
        let bottom = bank.constant(formula_core::Op::Bottom)?;
        let top = bank.constant(formula_core::Op::Top)?;
        let yes = bank.truth_value(formula_core::Op::TrueValue)?;
        let no = bank.truth_value(formula_core::Op::FalseValue)?;
        let first_new = bank.name_count();
        Ok(Search {
            bank,
            alloc,
            steps: Vec::new(alloc),
            left: Vec::new(alloc),
            proofs: Vec::new(alloc),
            pool: Vec::new(alloc),
            numbers: Vec::new(alloc),
            laws: Vec::new(alloc),
            steps_made: 0,
            looks: 0,
            most_steps: 0,
            most_looks: 0,
            first_new,
            fresh: 0,
            generations: Vec::new(alloc),
            bottom,
            top,
            yes,
            no,
        })
    }

    /// The allocator of its lists.
    pub fn alloc(&self) -> Global {
        self.alloc
    }

    /// The step of a number.
    pub fn step(&self, step: u32) -> Step {
        match self.steps.get(step as usize) {
            Some(found) => *found,
            None => Step {
                kind: Kind::Top,
                goal: NONE,
                hyps: Span::EMPTY,
                names: Span::EMPTY,
                terms: Span::EMPTY,
                chosen: NONE,
                law: None,
                place: Span::EMPTY,
                multipliers: Span::EMPTY,
                left: Span::EMPTY,
            },
        }
    }

    /// What a step leaves at a place.
    pub fn left(&self, step: u32, i: u32) -> Left {
        let left = self.step(step).left;
        if i < left.count {
            if let Some(found) = self.left.get(left.start.saturating_add(i) as usize) {
                return *found;
            }
        }
        Left {
            names: Span::EMPTY,
            hyps: Span::EMPTY,
            goal: NONE,
        }
    }

    /// How many sequents a step leaves.
    pub fn left_count(&self, step: u32) -> u32 {
        self.step(step).left.count
    }

    /// The proof of a number.
    pub fn proof(&self, proof: u32) -> Proof {
        match self.proofs.get(proof as usize) {
            Some(found) => *found,
            None => Proof {
                step: NONE,
                kids: Span::EMPTY,
                needs: Span::EMPTY,
                names: Span::EMPTY,
                needs_goal: true,
                size: 1,
            },
        }
    }

    /// A member of a part of the list.
    pub fn at(&self, span: Span, i: u32) -> u32 {
        if i < span.count {
            match self.pool.get(span.start.saturating_add(i) as usize) {
                Some(member) => *member,
                None => NONE,
            }
        } else {
            NONE
        }
    }

    /// A new part of the list.
    pub fn list(&mut self, members: &[u32]) -> Result<Span, Stop> {
        if self.pool.len() >= 1073741824 || members.len() >= 1048576 {
            return Err(Stop::Spent);
        }
        let start = self.pool.len() as u32;
        for member in members {
            self.pool.push(*member)?;
        }
        Ok(Span {
            start,
            count: members.len() as u32,
        })
    }

    /// A new list of numbers.
    pub fn number_list(&mut self, members: &[i128]) -> Result<Span, Stop> {
        if self.numbers.len() >= 1073741824 || members.len() >= 1048576 {
            return Err(Stop::Spent);
        }
        let start = self.numbers.len() as u32;
        for member in members {
            self.numbers.push(*member)?;
        }
        Ok(Span {
            start,
            count: members.len() as u32,
        })
    }

    /// The formulas of a sequent's hypotheses, without those that are too large.
    pub fn hypotheses(&mut self, sequent: &Sequent) -> Result<Vec<Id>, Stop> {
        let mut ids = Vec::new(self.alloc);
        for hyp in sequent.hyps.items() {
            match self.bank.add_formula(hyp) {
                Ok(id) => ids.push(id)?,
                Err(Stop::Spent) => {}
                Err(Stop::NoMemory) => return Err(Stop::NoMemory),
            }
        }
        Ok(ids)
    }

    pub fn formula_of(&mut self, f: &Formula) -> Result<Id, Stop> {
        self.bank.add_formula(f)
    }
}
