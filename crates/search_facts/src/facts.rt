//! What a search for a proof keeps, and which passes it makes.
use crate::fourier::Counts;
use crate::rewriting::Normals;
use formula_core::Op;
use rule_table::Law;
use search_steps::{Bank, Id, Search, Span, Stop};
use search_terms::{
    Branch, Comparison, Comparisons, is_arrow, is_of_integers, is_whole, law_for, oriented,
};

/// How many formulas below one another are looked into.
pub(crate) const LEVELS: u32 = 64;

/// A search with what is known of its formulas. The near names are those of the goal of the whole.
#[derive(Drop)]
pub struct Facts {
    pub search: Search,
    pub comparisons: Comparisons,
    pub counts: Counts,
    pub normals: Normals,
    pub near: Span,
    pub unfolds: bool,
    pub reckons: bool,
}

impl Facts {
    /// Whether a set is that of all values of its members' type.
    pub fn is_whole(&mut self, set: Id) -> Result<bool, Stop> {
        is_whole(&mut self.search.bank, set)
    }

    /// The law that opens a formula at its root.
    pub fn law_for(&mut self, f: Id) -> Result<Option<Law>, Stop> {
        law_for(&mut self.search.bank, f)
    }

    /// The sides of an equation as it rewrites, if it does.
    pub fn oriented(&mut self, equation: Id) -> Result<Option<(Id, Id)>, Stop> {
        let first_new = self.search.first_new();
        oriented(&mut self.search.bank, equation, first_new)
    }

    /// The body of a quantifier with terms in the place of its identifiers.
    pub fn put(&mut self, f: Id, terms: &[Id]) -> Result<Id, Stop> {
        let body = self.search.bank.part(f, 0);
        self.search.bank.instantiated(body, terms, 0, 4096)
    }

    /// What a comparison of integers says, if the formula is one.
    pub fn comparison(&mut self, id: Id) -> Result<Option<Comparison>, Stop> {
        self.comparisons.of(&mut self.search.bank, id)
    }

    /// Whether a name stands in the goal of the whole.
    pub fn is_near(&self, name: u32) -> bool {
        self.search.has(self.near, name)
    }

    /// Whether an expression has the type of integers.
    pub fn is_number(&self, id: Id) -> bool {
        self.search.bank.ty(id) == Bank::INT
    }

    /// The law that opens a formula, as far as the search unfolds sets.
    pub fn law_to_open(&mut self, f: Id) -> Result<Option<Law>, Stop> {
        let found = self.law_for(f)?;
        let Some(law) = found else {
            return Ok(None);
        };
        let is_open = match law {
            Law::BoolIsTrue | Law::BoolIsFalse | Law::EqualTurned | Law::MemberOfWhole => true,
            _ => self.unfolds || self.reckons && is_of_integers(law),
        };
        Ok(if is_open { found } else { None })
    }

    /// Notes the bounds that a hypothesis gives.
    pub fn note_bounds(&mut self, b: &mut Branch, id: Id) -> Result<(), Stop> {
        match self.comparison(id)? {
            Some(read) => {
                b.has_new_bounds = true;
                b.bounds.note(read)
            }
            None => Ok(()),
        }
    }

    /// Whether a comparison holds by one bound, or doesn't.
    pub fn known_by_bounds(&mut self, b: &Branch, id: Id) -> Result<Option<bool>, Stop> {
        match self.comparison(id)? {
            Some(read) => Ok(b.bounds.judge(read)),
            None => Ok(None),
        }
    }

    /// Whether it is a set of functions.
    pub fn is_function_set(&self, set: Id) -> bool {
        match self.search.bank.operator(set) {
            Some(op) => is_arrow(op),
            None => false,
        }
    }

    /// The hypothesis by which a set is a function.
    pub fn function_for(&self, b: &Branch, function: Id) -> Option<Id> {
        for h in &b.order {
            if self.search.bank.is(*h, Op::Member) {
                let (element, set) = self.search.bank.two(*h);
                if element == function && self.is_function_set(set) {
                    return Some(*h);
                }
            }
        }
        None
    }

    /// Whether a hypothesis says that a function has a pair.
    pub fn is_pair_in(&self, h: Id, function: Id) -> bool {
        if !self.search.bank.is(h, Op::Member) {
            return false;
        }
        let (element, set) = self.search.bank.two(h);
        set == function && self.search.bank.is(element, Op::Maplet)
    }

    /// How far a formula is from the goal: the names that the goal lacks, and its size.
    pub fn distance(&self, f: Id) -> u32 {
        let term = self.search.bank.term(f);
        let mut far: u32 = 0;
        for i in 0..term.names.count {
            let name = self.search.bank.at(term.names, i);
            if !self.is_near(name) && !self.search.is_new_name(name) {
                far = far.saturating_add(1);
            }
        }
        far.saturating_mul(40).saturating_add(term.size.min(40))
    }
}
