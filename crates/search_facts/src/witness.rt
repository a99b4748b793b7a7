//! Terms for an `∃`, from the memberships and equations of its body.
use crate::facts::Facts;
use formula_core::Op;
use rule_table::Law;
use search_steps::{Id, NONE, Stop};
use search_terms::{
    Branch, bounded, filled, is_full, is_of_integers, is_plain, matches, misses, unfilled,
};

/// The most candidates.
const MOST: usize = 12;

impl Facts {
    /// Terms that fit the memberships of the body.
    pub fn witnesses(&mut self, b: &Branch, f: Id) -> Result<Vec<Vec<Id>>, Stop> {
        let mut atoms = Vec::new(self.search.alloc());
        let body = self.search.bank.part(f, 0);
        self.add_conjuncts(body, &mut atoms, 32)?;
        let count = self.search.bank.term(f).types.count;
        let terms = unfilled(self.search.alloc(), count)?;
        let mut found = Vec::new(self.search.alloc());
        self.join_witness(b, &atoms, terms, &mut found, 16)?;
        Ok(found)
    }

    /// The parts of a conjunction, opened as far as no quantifier comes.
    fn add_conjuncts(&mut self, f: Id, out: &mut Vec<Id>, levels: u32) -> Result<(), Stop> {
        if levels == 0 {
            return Ok(());
        }
        if self.search.bank.is(f, Op::And) {
            let (left, right) = self.search.bank.two(f);
            self.add_conjuncts(left, out, levels - 1)?;
            return self.add_conjuncts(right, out, levels - 1);
        }
        if let Some(law) = self.law_for(f)? {
            if is_plain(law) && law != Law::MemberOfWhole && !is_of_integers(law) {
                let opened = self.search.by_law(law, f)?;
                if opened != NONE {
                    return self.add_conjuncts(opened, out, levels - 1);
                }
            }
        }
        out.push(f)?;
        Ok(())
    }

    /// Goes on with the first atom that has a missing identifier.
    #[cycle(joining)]
    fn join_witness(
        &mut self,
        b: &Branch,
        atoms: &[Id],
        terms: Vec<Id>,
        found: &mut Vec<Vec<Id>>,
        levels: u32,
    ) -> Result<(), Stop> {
        if found.len() >= MOST || levels == 0 {
            return Ok(());
        }
        if is_full(&terms) {
            found.push(terms)?;
            return Ok(());
        }
        for atom in atoms {
            if misses(&self.search.bank, *atom, 0, &terms, 64) {
                let mut more = Vec::from_slice(self.search.alloc(), &terms)?;
                if filled(&mut self.search.bank, *atom, &mut more)? {
                    return self.join_witness(b, atoms, more, found, levels - 1);
                }
                if self.search.bank.is(*atom, Op::Member) {
                    self.join_members(b, atoms, *atom, &terms, found, levels - 1)?;
                    break;
                }
            }
        }
        self.join_bounds(b, atoms, &terms, found, levels - 1)
    }

    /// Fills a missing identifier by a bound, for each comparison that gives one.
    #[cycle(joining)]
    fn join_bounds(
        &mut self,
        b: &Branch,
        atoms: &[Id],
        terms: &[Id],
        found: &mut Vec<Vec<Id>>,
        levels: u32,
    ) -> Result<(), Stop> {
        if levels == 0 {
            return Ok(());
        }
        for atom in atoms {
            let mut more = Vec::from_slice(self.search.alloc(), terms)?;
            if bounded(&mut self.search.bank, *atom, &mut more)? {
                self.join_witness(b, atoms, more, found, levels - 1)?;
            }
        }
        Ok(())
    }

    /// Matches a membership against those of the branch.
    #[cycle(joining)]
    fn join_members(
        &mut self,
        b: &Branch,
        atoms: &[Id],
        atom: Id,
        terms: &[Id],
        found: &mut Vec<Vec<Id>>,
        levels: u32,
    ) -> Result<(), Stop> {
        if levels == 0 {
            return Ok(());
        }
        self.search.look_over(b.order.len())?;
        let set = self.search.bank.part(atom, 1);
        let is_closed = self.search.bank.is_closed(set);
        for i in 0..b.order.len() {
            let h = b.at(i);
            if self.search.bank.is(h, Op::Member)
                && (!is_closed || self.search.bank.part(h, 1) == set)
            {
                self.search.look()?;
                let mut more = Vec::from_slice(self.search.alloc(), terms)?;
                if matches(&self.search.bank, atom, h, 0, &mut more, 32) {
                    self.join_witness(b, atoms, more, found, levels - 1)?;
                }
            }
        }
        Ok(())
    }
}
