//! Forms of formulas in a bank.
use crate::bank::Bank;
use crate::term::{Head, Id, NONE};
use formula_core::{Binder, Op};

impl Bank {
    /// A part of a formula.
    pub fn part(&self, id: Id, i: u32) -> Id {
        self.at(self.term(id).parts, i)
    }

    /// The first two parts.
    pub fn two(&self, id: Id) -> (Id, Id) {
        let parts = self.term(id).parts;
        (self.at(parts, 0), self.at(parts, 1))
    }

    pub fn ty(&self, id: Id) -> Id {
        self.term(id).ty
    }

    pub fn size(&self, id: Id) -> u32 {
        self.term(id).size
    }

    /// Whether no index of it points outside.
    pub fn is_closed(&self, id: Id) -> bool {
        self.term(id).loose == 0
    }

    pub fn is(&self, id: Id, op: Op) -> bool {
        match self.term(id).head {
            Head::Node(other) => other == op,
            _ => false,
        }
    }

    pub fn binds(&self, id: Id, binder: Binder) -> bool {
        match self.term(id).head {
            Head::Bind(other) => other == binder,
            _ => false,
        }
    }

    pub fn is_free(&self, id: Id) -> bool {
        match self.term(id).head {
            Head::Free(_) => true,
            _ => false,
        }
    }

    /// The number of the name that a formula is.
    pub fn name_in(&self, id: Id) -> u32 {
        match self.term(id).head {
            Head::Free(name) => name,
            _ => NONE,
        }
    }

    pub fn operator(&self, id: Id) -> Option<Op> {
        match self.term(id).head {
            Head::Node(op) => Some(op),
            _ => None,
        }
    }

    /// The value of a literal or a negated literal.
    pub fn value(&self, id: Id) -> Option<i128> {
        match self.term(id).head {
            Head::Int(n) => Some(n),
            Head::Node(Op::Negate) => match self.term(self.part(id, 0)).head {
                Head::Int(n) => n.checked_neg(),
                _ => None,
            },
            _ => None,
        }
    }

    /// Whether two formulas may have the one inside the other, by size and names.
    pub fn may_contain(&self, id: Id, inner: Id) -> bool {
        let outer = self.term(id);
        let part = self.term(inner);
        part.size <= outer.size && part.mask & outer.mask == part.mask
    }

    /// Whether a formula has another inside.
    pub fn contains(&self, id: Id, inner: Id, levels: u32) -> bool {
        if id == inner {
            return true;
        }
        if levels == 0 || !self.may_contain(id, inner) {
            return false;
        }
        let parts = self.term(id).parts;
        for i in 0..parts.count {
            if self.contains(self.at(parts, i), inner, levels - 1) {
                return true;
            }
        }
        false
    }
}
