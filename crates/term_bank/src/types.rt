//! Types and names of a bank.
use crate::bank::Bank;
use crate::stop::Stop;
use crate::term::{Head, Id, NONE, TypeHead};
use formula_core::{Boxed, Name, Op, Ty};

impl Bank {
    pub const INT: Id = 0;

    pub const BOOL: Id = 1;

    pub const TRUTH: Id = 2;

    /// The type of a number.
    pub fn type_head(&self, ty: Id) -> TypeHead {
        match self.types.get(ty as usize) {
            Some(head) => *head,
            None => TypeHead::Truth,
        }
    }

    pub fn add_type_head(&mut self, head: TypeHead) -> Result<Id, Stop> {
        let mut at: u32 = 0;
        for other in &self.types {
            if *other == head {
                return Ok(at);
            }
            at = at.saturating_add(1);
        }
        self.types.push(head)?;
        Ok(at)
    }

    pub fn power(&mut self, ty: Id) -> Result<Id, Stop> {
        self.add_type_head(TypeHead::Pow(ty))
    }

    pub fn pair_type(&mut self, left: Id, right: Id) -> Result<Id, Stop> {
        self.add_type_head(TypeHead::Pair(left, right))
    }

    /// The type of the members of a set.
    pub fn members(&self, ty: Id) -> Id {
        match self.type_head(ty) {
            TypeHead::Pow(part) => part,
            _ => NONE,
        }
    }

    /// The types of the two parts of a pair.
    pub fn components(&self, ty: Id) -> Option<(Id, Id)> {
        match self.type_head(ty) {
            TypeHead::Pair(left, right) => Some((left, right)),
            _ => None,
        }
    }

    /// The number of a name.
    pub fn name(&mut self, name: &Name) -> Result<u32, Stop> {
        let mark = mark_of(name);
        let mut at: u32 = 0;
        for other in &self.marks {
            if *other == mark && self.is_name(at, name) {
                return Ok(at);
            }
            at = at.saturating_add(1);
        }
        let copy = name.copy(self.alloc)?;
        self.names.push(copy)?;
        self.marks.push(mark)?;
        Ok(at)
    }

    fn is_name(&self, at: u32, name: &Name) -> bool {
        match self.names.get(at as usize) {
            Some(other) => other.same(name),
            None => false,
        }
    }

    /// How many names there are.
    pub fn name_count(&self) -> u32 {
        if self.names.len() < 4294967295 {
            self.names.len() as u32
        } else {
            NONE
        }
    }

    pub fn copy_name(&self, name: u32) -> Result<Name, Stop> {
        match self.names.get(name as usize) {
            Some(found) => Ok(found.copy(self.alloc)?),
            None => Err(Stop::Spent),
        }
    }

    /// The number of a type.
    pub fn add_type(&mut self, ty: &Ty) -> Result<Id, Stop> {
        match ty {
            Ty::Int => Ok(Bank::INT),
            Ty::Bool => Ok(Bank::BOOL),
            Ty::Truth => Ok(Bank::TRUTH),
            Ty::Given(name) => {
                let name = self.name(name)?;
                self.add_type_head(TypeHead::Given(name))
            }
            Ty::Pow(part) => {
                let part = self.add_type(part.get())?;
                self.power(part)
            }
            Ty::Pair(left, right) => {
                let left = self.add_type(left.get())?;
                let right = self.add_type(right.get())?;
                self.pair_type(left, right)
            }
        }
    }

    /// The type of a number, as a type.
    pub fn copy_type(&self, ty: Id, levels: u32) -> Result<Ty, Stop> {
        if levels == 0 {
            return Err(Stop::Spent);
        }
        match self.type_head(ty) {
            TypeHead::Int => Ok(Ty::Int),
            TypeHead::Bool => Ok(Ty::Bool),
            TypeHead::Truth => Ok(Ty::Truth),
            TypeHead::Given(name) => Ok(Ty::Given(self.copy_name(name)?)),
            TypeHead::Pow(part) => {
                let part = self.copy_type(part, levels - 1)?;
                Ok(Ty::Pow(Boxed::new(self.alloc, part)?))
            }
            TypeHead::Pair(left, right) => {
                let left = self.copy_type(left, levels - 1)?;
                let right = self.copy_type(right, levels - 1)?;
                let left = Boxed::new(self.alloc, left)?;
                let right = Boxed::new(self.alloc, right)?;
                Ok(Ty::Pair(left, right))
            }
        }
    }

    /// The set of all values of a type.
    pub fn whole(&mut self, ty: Id, levels: u32) -> Result<Id, Stop> {
        if levels == 0 {
            return Err(Stop::Spent);
        }
        let set = self.power(ty)?;
        match self.type_head(ty) {
            TypeHead::Int => self.add(Head::Node(Op::Integers), &[], &[], set),
            TypeHead::Bool => self.add(Head::Node(Op::Booleans), &[], &[], set),
            TypeHead::Truth => self.add(Head::Node(Op::EmptySet), &[], &[], set),
            TypeHead::Given(name) => self.add(Head::Free(name), &[], &[], set),
            TypeHead::Pow(part) => {
                let part = self.whole(part, levels - 1)?;
                self.add(Head::Node(Op::PowerSet), &[part], &[], set)
            }
            TypeHead::Pair(left, right) => {
                let left = self.whole(left, levels - 1)?;
                let right = self.whole(right, levels - 1)?;
                self.add(Head::Node(Op::Product), &[left, right], &[], set)
            }
        }
    }
}

/// A number of a name, the same for the same names.
fn mark_of(name: &Name) -> u32 {
    let mut mark: u32 = 2166136261;
    for byte in name.as_text().as_bytes() {
        mark = (mark ^ *byte as u32).wrapping_mul(16777619);
    }
    mark
}
