//! Formulas of a bank changed inside.
use crate::bank::Bank;
use crate::stop::Stop;
use crate::term::{Head, Id, Span};

impl Bank {
    /// A formula with other parts.
    pub fn with_parts(&mut self, id: Id, parts: &[Id]) -> Result<Id, Stop> {
        let term = self.term(id);
        let mut types = Vec::new(self.alloc);
        for i in 0..term.types.count {
            types.push(self.at(term.types, i))?;
        }
        self.add(term.head, parts, &types, term.ty)
    }

    /// A formula with closed terms in the place of the identifiers of the binder whose body it is.
    #[cycle(putting)]
    pub fn instantiated(
        &mut self,
        id: Id,
        terms: &[Id],
        depth: u32,
        levels: u32,
    ) -> Result<Id, Stop> {
        let term = self.term(id);
        if term.loose <= depth {
            return Ok(id);
        }
        if levels == 0 {
            return Err(Stop::Spent);
        }
        if let Head::Bound(at) = term.head {
            return Ok(term_for(terms, at.saturating_sub(depth), id));
        }
        let inner = depth.saturating_add(term.types.count);
        if term.parts.count == 2 {
            let (left, right) = self.two(id);
            let left = self.instantiated(left, terms, inner, levels - 1)?;
            let right = self.instantiated(right, terms, inner, levels - 1)?;
            return self.with_parts(id, &[left, right]);
        }
        let parts = self.instantiated_parts(term.parts, terms, inner, levels - 1)?;
        self.with_parts(id, &parts)
    }

    #[cycle(putting)]
    fn instantiated_parts(
        &mut self,
        parts: Span,
        terms: &[Id],
        depth: u32,
        levels: u32,
    ) -> Result<Vec<Id>, Stop> {
        let mut new = Vec::new(self.alloc);
        if levels > 0 {
            for i in 0..parts.count {
                let part = self.at(parts, i);
                let made = self.instantiated(part, terms, depth, levels - 1)?;
                new.push(made)?;
            }
        }
        Ok(new)
    }

    /// A formula with `new` in the place of each outermost `old`.
    #[cycle(replacing)]
    pub fn replaced(&mut self, id: Id, old: Id, new: Id, levels: u32) -> Result<Id, Stop> {
        if id == old {
            return Ok(new);
        }
        if !self.may_contain(id, old) || self.size(id) <= self.size(old) {
            return Ok(id);
        }
        if levels == 0 {
            return Err(Stop::Spent);
        }
        let parts = self.term(id).parts;
        for i in 0..parts.count {
            let part = self.at(parts, i);
            let changed = self.replaced(part, old, new, levels - 1)?;
            if changed != part {
                let made = self.replaced_after(parts, i, changed, old, new, levels - 1)?;
                return self.with_parts(id, &made);
            }
        }
        Ok(id)
    }

    /// Parts of which those before a place stay and the one there is known; those after it have `new` in the place of
    /// each outermost `old`.
    #[cycle(replacing)]
    fn replaced_after(
        &mut self,
        parts: Span,
        at: u32,
        changed: Id,
        old: Id,
        new: Id,
        levels: u32,
    ) -> Result<Vec<Id>, Stop> {
        let mut made = Vec::new(self.alloc);
        if levels > 0 {
            for i in 0..parts.count {
                let mut part = self.at(parts, i);
                if i == at {
                    part = changed;
                } else if i > at {
                    part = self.replaced(part, old, new, levels - 1)?;
                }
                made.push(part)?;
            }
        }
        Ok(made)
    }
}

/// The term for an index, counted from the last.
fn term_for(terms: &[Id], from_last: u32, id: Id) -> Id {
    if (from_last as usize) < terms.len() {
        terms[terms.len() - 1 - from_last as usize]
    } else {
        id
    }
}
