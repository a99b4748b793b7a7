//! Steps taken in a branch.
use crate::facts::Facts;
use formula_core::Op;
use search_steps::{Id, Kind, Link, NONE, Span, Step, Stop};
use search_terms::Branch;

impl Facts {
    /// A step whose last sequent goes on in the branch. Whether it told anything.
    pub fn forward(
        &mut self,
        b: &mut Branch,
        chain: &mut Vec<Link>,
        step: Step,
    ) -> Result<bool, Stop> {
        match self.search.made(step)? {
            Some(number) => self.advance(b, chain, number, Span::EMPTY),
            None => Ok(false),
        }
    }

    /// The last sequent of a step goes on; those before it are proved.
    pub fn advance(
        &mut self,
        b: &mut Branch,
        chain: &mut Vec<Link>,
        step: u32,
        before: Span,
    ) -> Result<bool, Stop> {
        let count = self.search.left_count(step);
        if count == 0 || before.count.saturating_add(1) != count {
            return Ok(false);
        }
        if !self.enter(b, step, count - 1)? {
            return Ok(false);
        }
        chain.push(Link {
            step,
            before,
            after: Span::EMPTY,
        })?;
        Ok(true)
    }

    /// Adds what a sequent of a step adds. Whether any of it is new.
    pub fn enter(&mut self, b: &mut Branch, step: u32, at: u32) -> Result<bool, Stop> {
        let left = self.search.left(step, at);
        let of_goal = self.is_of_goal(b, step);
        let mut is_new = false;
        for i in 0..left.hyps.count {
            let hyp = self.search.at(left.hyps, i);
            if b.add(hyp)? {
                is_new = true;
            }
            if of_goal {
                let mut note = b.note(hyp);
                note.from_goal = true;
                b.set(hyp, note)?;
            }
        }
        if left.goal != NONE {
            b.goal = left.goal;
            is_new = true;
        }
        Ok(is_new)
    }

    /// Whether a step is on the goal, or on what came from it.
    fn is_of_goal(&self, b: &Branch, step: u32) -> bool {
        let step = self.search.step(step);
        if step.goal != NONE {
            return true;
        }
        for i in 0..step.hyps.count {
            if b.note(self.search.at(step.hyps, i)).from_goal {
                return true;
            }
        }
        false
    }

    /// A step whose new hypotheses aren't opened.
    pub fn quiet(&mut self, b: &mut Branch, chain: &mut Vec<Link>, step: Step) -> Result<(), Stop> {
        let Some(number) = self.search.made(step)? else {
            return Ok(());
        };
        let left = self.search.left(number, 0);
        for i in 0..left.hyps.count {
            b.add_opened(self.search.at(left.hyps, i))?;
        }
        chain.push(Link {
            step: number,
            before: Span::EMPTY,
            after: Span::EMPTY,
        })?;
        Ok(())
    }

    /// A step that leaves nothing, as a proof.
    pub fn ended(&mut self, step: Step) -> Result<Option<u32>, Stop> {
        match self.search.made(step)? {
            Some(number) => Ok(Some(self.search.closed(number)?)),
            None => Ok(None),
        }
    }

    /// A step of one hypothesis.
    pub fn on(&mut self, kind: Kind, hyp: Id) -> Result<Step, Stop> {
        self.search.on_hyps(kind, &[hyp])
    }

    /// A proof by a step above another proof.
    pub fn topped(&mut self, step: Step, proof: Option<u32>) -> Result<Option<u32>, Stop> {
        let Some(proof) = proof else {
            return Ok(None);
        };
        match self.search.made(step)? {
            Some(number) => Ok(Some(self.search.proved(number, &[proof])?)),
            None => Ok(None),
        }
    }

    /// Whether it is `∃..·x = E ↦ F`.
    fn is_pair_alone(&self, id: Id) -> bool {
        let body = self.search.bank.part(id, 0);
        self.search.bank.is(body, Op::Equal)
            && self
                .search
                .bank
                .is(self.search.bank.part(body, 1), Op::Maplet)
    }

    /// New names for the identifiers of a binder.
    pub fn names_for(&mut self, id: Id) -> Result<Span, Stop> {
        let above = self.search.generation(id);
        let generation = if self.is_pair_alone(id) {
            above
        } else {
            above.saturating_add(1)
        };
        let count = self.search.bank.term(id).types.count;
        let mut names: Vec<u32> = Vec::new(self.search.alloc());
        for _ in 0..count {
            let name = self.search.new_name(generation)?;
            names.push(name)?;
        }
        self.search.list(&names)
    }
}
