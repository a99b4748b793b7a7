//! The atoms and terms of a `∀` that are matched against what the branch has.
use crate::facts::Facts;
use formula_core::{Binder, Op};
use rule_table::Law;
use search_steps::{Bank, Head, Id, Stop};
use search_terms::{is_of_integers, is_of_partner, is_plain};

/// An atom or a term with bound identifiers, below so many inner ones.
#[derive(Clone, Copy)]
pub struct Trigger {
    pub formula: Id,
    pub depth: u32,
}

/// The most triggers of a formula.
const MOST: usize = 24;

impl Facts {
    /// The triggers of a body: atoms first, then values of functions and integers that no linear step speaks of.
    pub fn triggers(&mut self, body: Id) -> Result<Vec<Trigger>, Stop> {
        let mut out = Vec::new(self.search.alloc());
        self.add_atoms(body, 0, &mut out, 32)?;
        self.add_values(body, 0, &mut out, 32)?;
        Ok(out)
    }

    fn add_atoms(
        &mut self,
        f: Id,
        depth: u32,
        out: &mut Vec<Trigger>,
        levels: u32,
    ) -> Result<(), Stop> {
        if levels == 0 || out.len() >= MOST {
            return Ok(());
        }
        let term = self.search.bank.term(f);
        let first = self.search.bank.part(f, 0);
        match term.head {
            Head::Bind(Binder::ForAll) | Head::Bind(Binder::Exists) => {
                let inner = depth.saturating_add(term.types.count);
                self.add_atoms(first, inner, out, levels - 1)
            }
            Head::Node(Op::Not) => self.add_atoms(first, depth, out, levels - 1),
            Head::Node(op) if is_connective(op) => {
                let (left, right) = self.search.bank.two(f);
                self.add_atoms(left, depth, out, levels - 1)?;
                self.add_atoms(right, depth, out, levels - 1)
            }
            Head::Node(_) => {
                let law = self.law_for(f)?;
                if is_atom_by(law) {
                    out.push(Trigger { formula: f, depth })?;
                }
                match law {
                    Some(law) if has_atoms(law) => {
                        let opened = self.search.by_law(law, f)?;
                        self.add_atoms(opened, depth, out, levels - 1)
                    }
                    _ => Ok(()),
                }
            }
            _ => Ok(()),
        }
    }

    fn add_values(
        &self,
        f: Id,
        depth: u32,
        out: &mut Vec<Trigger>,
        levels: u32,
    ) -> Result<(), Stop> {
        let term = self.search.bank.term(f);
        if levels == 0 || term.loose <= depth || out.len() >= MOST {
            return Ok(());
        }
        if self.is_value(f) {
            out.push(Trigger { formula: f, depth })?;
        }
        let inner = depth.saturating_add(term.types.count);
        for i in 0..term.parts.count {
            self.add_values(self.search.bank.at(term.parts, i), inner, out, levels - 1)?;
        }
        Ok(())
    }

    /// Closed applications inside a formula, each once.
    pub fn add_closed_applications(
        &self,
        f: Id,
        out: &mut Vec<Id>,
        levels: u32,
    ) -> Result<(), Stop> {
        let term = self.search.bank.term(f);
        if levels == 0 {
            return Ok(());
        }
        for i in 0..term.parts.count {
            self.add_closed_applications(self.search.bank.at(term.parts, i), out, levels - 1)?;
        }
        if term.loose == 0 && self.search.bank.is(f, Op::Apply) && !is_in(out, f) {
            out.push(f)?;
        }
        Ok(())
    }

    /// Closed values inside a formula, each once.
    pub fn add_closed_values(&self, f: Id, out: &mut Vec<Id>, levels: u32) -> Result<(), Stop> {
        let term = self.search.bank.term(f);
        if levels == 0 {
            return Ok(());
        }
        for i in 0..term.parts.count {
            self.add_closed_values(self.search.bank.at(term.parts, i), out, levels - 1)?;
        }
        if term.loose == 0 && self.is_value(f) && !is_in(out, f) {
            out.push(f)?;
        }
        Ok(())
    }

    /// Whether it is the value of a function, or an integer that no linear step speaks of.
    fn is_value(&self, f: Id) -> bool {
        self.search.bank.is(f, Op::Apply) || self.is_nonlinear(f)
    }

    /// Whether it is an integer that no linear step speaks of: a size, a least or greatest member, a quotient, a remainder
    /// or a power.
    pub fn is_nonlinear(&self, f: Id) -> bool {
        match self.search.bank.operator(f) {
            Some(op) => match op {
                Op::Cardinality | Op::Minimum | Op::Maximum => true,
                Op::Divide | Op::Modulo | Op::Power => true,
                _ => false,
            },
            None => false,
        }
    }

    /// Small closed terms of a type inside a formula, each once.
    pub fn add_terms_of(&self, f: Id, ty: Id, out: &mut Vec<Id>, levels: u32) -> Result<(), Stop> {
        let term = self.search.bank.term(f);
        if levels == 0 {
            return Ok(());
        }
        if term.loose == 0 && term.ty == ty && term.size <= 3 && !is_in(out, f) {
            out.push(f)?;
        }
        for i in 0..term.parts.count {
            self.add_terms_of(self.search.bank.at(term.parts, i), ty, out, levels - 1)?;
        }
        Ok(())
    }

    pub fn is_predicate(&self, f: Id) -> bool {
        self.search.bank.ty(f) == Bank::TRUTH
    }
}

/// Whether what a law opens, if one does, is matched itself.
fn is_atom_by(law: Option<Law>) -> bool {
    match law {
        Some(law) => !is_plain(law) || is_of_integers(law),
        None => true,
    }
}

/// Whether what a law brings has atoms that are matched.
fn has_atoms(law: Law) -> bool {
    match law {
        Law::Inclusion | Law::MemberOfComprehension => true,
        _ => is_plain(law) && !is_of_integers(law) || is_of_partner(law),
    }
}

fn is_connective(op: Op) -> bool {
    match op {
        Op::And | Op::Or | Op::Implies | Op::Equivalent => true,
        _ => false,
    }
}

pub fn is_in(members: &[Id], member: Id) -> bool {
    for other in members {
        if *other == member {
            return true;
        }
    }
    false
}
