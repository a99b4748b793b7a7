//! Formulas into a bank and out of it.
use crate::bank::Bank;
use crate::stop::Stop;
use crate::term::{Head, Id, Span};
use formula_core::{Formula, List, Ty};

impl Bank {
    /// The number of a formula.
    #[cycle(adding)]
    pub fn add_formula(&mut self, f: &Formula) -> Result<Id, Stop> {
        match f {
            Formula::Int(n) => self.add(Head::Int(*n), &[], &[], Bank::INT),
            Formula::Free(name, ty) => {
                let name = self.name(name)?;
                let ty = self.add_type(ty)?;
                self.add(Head::Free(name), &[], &[], ty)
            }
            Formula::Bound(at, ty) => {
                let ty = self.add_type(ty)?;
                self.add(Head::Bound(*at), &[], &[], ty)
            }
            Formula::Node(op, parts, ty) => {
                let parts = self.add_formulas(parts.items())?;
                let ty = self.add_type(ty)?;
                self.add(Head::Node(*op), &parts, &[], ty)
            }
            Formula::Bind(binder, types, parts, ty) => {
                let parts = self.add_formulas(parts.items())?;
                let types = self.add_types(types.items())?;
                let ty = self.add_type(ty)?;
                self.add(Head::Bind(*binder), &parts, &types, ty)
            }
        }
    }

    #[cycle(adding)]
    fn add_formulas(&mut self, formulas: &[Formula]) -> Result<Vec<Id>, Stop> {
        let mut ids = Vec::new(self.alloc);
        for formula in formulas {
            let id = self.add_formula(formula)?;
            ids.push(id)?;
        }
        Ok(ids)
    }

    fn add_types(&mut self, types: &[Ty]) -> Result<Vec<Id>, Stop> {
        let mut ids = Vec::new(self.alloc);
        for ty in types {
            let id = self.add_type(ty)?;
            ids.push(id)?;
        }
        Ok(ids)
    }

    /// The formula of a number.
    #[cycle(copying)]
    pub fn formula(&self, id: Id, levels: u32) -> Result<Formula, Stop> {
        if levels == 0 {
            return Err(Stop::Spent);
        }
        let term = self.term(id);
        let ty = self.copy_type(term.ty, 64)?;
        match term.head {
            Head::Int(n) => Ok(Formula::Int(n)),
            Head::Free(name) => Ok(Formula::Free(self.copy_name(name)?, ty)),
            Head::Bound(at) => Ok(Formula::Bound(at, ty)),
            Head::Node(op) => {
                let parts = self.copy_parts(term.parts, levels - 1)?;
                Ok(Formula::Node(op, parts, ty))
            }
            Head::Bind(binder) => {
                let parts = self.copy_parts(term.parts, levels - 1)?;
                let types = self.copy_types(term.types)?;
                Ok(Formula::Bind(binder, types, parts, ty))
            }
        }
    }

    #[cycle(copying)]
    fn copy_parts(&self, parts: Span, levels: u32) -> Result<List<Formula>, Stop> {
        let mut copies = Vec::new(self.alloc);
        if levels > 0 {
            for i in 0..parts.count {
                let copy = self.formula(self.at(parts, i), levels - 1)?;
                copies.push(copy)?;
            }
        }
        Ok(List::of(copies))
    }

    fn copy_types(&self, types: Span) -> Result<List<Ty>, Stop> {
        let mut copies = Vec::new(self.alloc);
        for i in 0..types.count {
            let copy = self.copy_type(self.at(types, i), 64)?;
            copies.push(copy)?;
        }
        Ok(List::of(copies))
    }
}
