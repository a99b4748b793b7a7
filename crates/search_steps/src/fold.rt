//! Proofs put together: a step that its proofs do without falls away.
use crate::kind::Kind;
use crate::search::{Left, Link, Proof, Search};
use term_bank::{Id, NONE, Span, Stop};

impl Search {
    /// The proof by a step, or one of its kids that does without it.
    pub fn proved(&mut self, step: u32, kids: &[u32]) -> Result<u32, Stop> {
        let mut at: u32 = 0;
        for kid in kids {
            if self.is_unneeded(self.left(step, at), *kid) {
                return Ok(*kid);
            }
            at = at.saturating_add(1);
        }
        self.add_proof(step, kids)
    }

    /// The proof by a step that leaves nothing.
    pub fn closed(&mut self, step: u32) -> Result<u32, Stop> {
        self.add_proof(step, &[])
    }

    /// Whether a proof needs nothing of what stands before it.
    pub fn is_unneeded(&self, left: Left, proof: u32) -> bool {
        let proof = self.proof(proof);
        if left.goal != NONE && proof.needs_goal {
            return false;
        }
        !self.meet(left.hyps, proof.needs) && !self.meet(left.names, proof.names)
    }

    fn meet(&self, some: Span, others: Span) -> bool {
        for i in 0..some.count {
            if self.has(others, self.at(some, i)) {
                return true;
            }
        }
        false
    }

    /// Whether a member stands in a part of the list.
    pub fn has(&self, span: Span, member: u32) -> bool {
        for i in 0..span.count {
            if self.at(span, i) == member {
                return true;
            }
        }
        false
    }

    fn add_proof(&mut self, step: u32, kids: &[u32]) -> Result<u32, Stop> {
        let mut needs: Vec<u32> = Vec::new(self.alloc);
        let mut names: Vec<u32> = Vec::new(self.alloc);
        self.add_all(self.step(step).hyps, &mut needs)?;
        self.add_term_names(step, &mut names)?;
        self.add_needs_of_kids(step, kids, &mut needs)?;
        self.add_names_of_kids(kids, &mut names)?;
        let proof = Proof {
            step,
            kids: self.list(kids)?,
            needs: self.list(&needs)?,
            names: self.list(&names)?,
            needs_goal: self.needs_goal(step, kids),
            size: self.size_of(kids),
        };
        if self.proofs.len() >= 1073741824 {
            return Err(Stop::Spent);
        }
        let number = self.proofs.len() as u32;
        self.proofs.push(proof)?;
        Ok(number)
    }

    fn add_all(&self, span: Span, out: &mut Vec<u32>) -> Result<(), Stop> {
        for i in 0..span.count {
            let member = self.at(span, i);
            if !is_in(out, member) {
                out.push(member)?;
            }
        }
        Ok(())
    }

    fn add_term_names(&self, step: u32, out: &mut Vec<u32>) -> Result<(), Stop> {
        let step = self.step(step);
        for i in 0..step.terms.count {
            self.add_names(self.at(step.terms, i), out)?;
        }
        if step.chosen != NONE {
            self.add_names(step.chosen, out)?;
        }
        Ok(())
    }

    fn add_names(&self, id: Id, out: &mut Vec<u32>) -> Result<(), Stop> {
        let names = self.bank.term(id).names;
        for i in 0..names.count {
            let name = self.bank.at(names, i);
            if !is_in(out, name) {
                out.push(name)?;
            }
        }
        Ok(())
    }

    fn add_needs_of_kids(&self, step: u32, kids: &[u32], out: &mut Vec<u32>) -> Result<(), Stop> {
        let mut at: u32 = 0;
        for kid in kids {
            let added = self.left(step, at).hyps;
            let needs = self.proof(*kid).needs;
            for i in 0..needs.count {
                let hyp = self.at(needs, i);
                if !self.has(added, hyp) && !is_in(out, hyp) {
                    out.push(hyp)?;
                }
            }
            at = at.saturating_add(1);
        }
        Ok(())
    }

    fn add_names_of_kids(&self, kids: &[u32], out: &mut Vec<u32>) -> Result<(), Stop> {
        for kid in kids {
            self.add_all(self.proof(*kid).names, out)?;
        }
        Ok(())
    }

    fn needs_goal(&self, step: u32, kids: &[u32]) -> bool {
        if self.step(step).goal != NONE {
            return true;
        }
        let mut at: u32 = 0;
        for kid in kids {
            if self.left(step, at).goal == NONE && self.proof(*kid).needs_goal {
                return true;
            }
            at = at.saturating_add(1);
        }
        false
    }

    fn size_of(&self, kids: &[u32]) -> u32 {
        let mut size: u32 = 1;
        for kid in kids {
            size = size.saturating_add(self.proof(*kid).size);
        }
        size
    }

    /// A proof below the steps of a branch.
    pub fn folded(&mut self, chain: &[Link], proof: u32) -> Result<u32, Stop> {
        let mut made = proof;
        for i in 0..chain.len() {
            made = self.linked(chain[chain.len() - 1 - i], made)?;
        }
        Ok(made)
    }

    fn linked(&mut self, link: Link, proof: u32) -> Result<u32, Stop> {
        let mut kids = Vec::new(self.alloc);
        for i in 0..link.before.count {
            kids.push(self.at(link.before, i))?;
        }
        kids.push(proof)?;
        for i in 0..link.after.count {
            kids.push(self.at(link.after, i))?;
        }
        self.proved(link.step, &kids)
    }

    /// A proof of `⊥` as a proof of a goal.
    pub fn by_contradiction(&mut self, goal: Id, proof: u32) -> Result<u32, Stop> {
        if goal == self.bottom || !self.proof(proof).needs_goal {
            return Ok(proof);
        }
        match self.made(Search::on_goal(Kind::Contra, goal))? {
            Some(step) => self.proved(step, &[proof]),
            None => Err(Stop::Spent),
        }
    }
}

fn is_in(members: &[u32], member: u32) -> bool {
    for other in members {
        if *other == member {
            return true;
        }
    }
    false
}
