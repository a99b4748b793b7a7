ghost use Rattle.std.specs.Prelude.{◌≡◌, ◌↔◌, IsTrue, IfOk};
ghost use Rattle.formula_core.specs.Types.{same_type, is_truth, is_integer, is_boolean, is_value_type, members, components, relation, if_set, is_set_of, is_pair_of, is_relation_of};
ghost use Rattle.std.specs.Option.{option_copied, option_map};

use crate::boxed::Boxed;
use crate::list::List;
use crate::memory::OutOfMemory;
use crate::name::Name;
use std::alloc::Global;

/// `Truth` is the sort of predicates and part of no other type.
#[derive(Debug)]
pub enum Ty {
    Int,
    Bool,
    Given(Name),
    Pow(Boxed<Ty>),
    Pair(Boxed<Ty>, Boxed<Ty>),
    Truth,
}

// One call drops a type, where a derive would take each variant apart in every function that owns one.
impl Drop for Ty {
    fn drop(self) {
        match self {
            Ty::Int | Ty::Bool | Ty::Truth => {}
            Ty::Given(_) => {}
            Ty::Pow(_) => {}
            Ty::Pair(_, _) => {}
        }
    }
}

impl Ty {
    pub fn same(&self, other: &Ty) -> bool
        ensures exact { IsTrue result ↔ (self.now ≡ other.now) }
        ensures test { result ≡ same_type self.now other.now }
    {
        match self {
            Ty::Int => match other {
                Ty::Int => true,
                _ => false,
            },
            Ty::Bool => match other {
                Ty::Bool => true,
                _ => false,
            },
            Ty::Given(a) => match other {
                Ty::Given(b) => a.same(b),
                _ => false,
            },
            Ty::Pow(a) => match other {
                Ty::Pow(b) => a.get().same(b.get()),
                _ => false,
            },
            Ty::Pair(a, b) => match other {
                Ty::Pair(c, d) => a.get().same(c.get()) && b.get().same(d.get()),
                _ => false,
            },
            Ty::Truth => match other {
                Ty::Truth => true,
                _ => false,
            },
        }
    }

    pub fn copy(&self, alloc: Global) -> Result<Ty, OutOfMemory>
        ensures { IfOk result (λ ty. ty ≡ self.now) }
    {
        match self {
            Ty::Int => Ok(Ty::Int),
            Ty::Bool => Ok(Ty::Bool),
            Ty::Given(name) => Ok(Ty::Given(name.copy(alloc)?)),
            Ty::Pow(part) => Ok(Ty::Pow(Boxed::new(alloc, part.get().copy(alloc)?)?)),
            Ty::Pair(left, right) => {
                let left = Boxed::new(alloc, left.get().copy(alloc)?)?;
                let right = Boxed::new(alloc, right.get().copy(alloc)?)?;
                Ok(Ty::Pair(left, right))
            }
            Ty::Truth => Ok(Ty::Truth),
        }
    }
}

pub fn same_types(xs: &[Ty], ys: &[Ty]) -> bool
    ensures { IsTrue result ↔ (xs.now ≡ ys.now) }
{
    if xs.len() != ys.len() {
        return false;
    }
    for i in 0..xs.len() {
        if !xs[i].same(&ys[i]) {
            return false;
        }
    }
    true
}

pub fn copy_types(alloc: Global, items: &[Ty]) -> Result<List<Ty>, OutOfMemory>
    ensures { IfOk result (λ xs. xs ≡ items.now) }
{
    let mut copies = Vec::with_capacity(alloc, items.len())?;
    for item in items {
        copies.push(item.copy(alloc)?)?;
    }
    Ok(List::of(copies))
}

impl Ty {
    pub fn is_truth(&self) -> bool
        ensures { result ≡ is_truth self.now }
    {
        match self {
            Ty::Truth => true,
            _ => false,
        }
    }

    pub fn is_integer(&self) -> bool
        ensures { result ≡ is_integer self.now }
    {
        match self {
            Ty::Int => true,
            _ => false,
        }
    }

    pub fn is_boolean(&self) -> bool
        ensures { result ≡ is_boolean self.now }
    {
        match self {
            Ty::Bool => true,
            _ => false,
        }
    }

    /// Whether `Truth` is no part of it.
    pub fn is_value_type(&self) -> bool
        ensures { result ≡ is_value_type self.now }
    {
        match self {
            Ty::Int | Ty::Bool | Ty::Given(_) => true,
            Ty::Pow(part) => part.get().is_value_type(),
            Ty::Pair(left, right) => left.get().is_value_type() && right.get().is_value_type(),
            Ty::Truth => false,
        }
    }

    /// The type of the members of a set.
    pub fn members(&self) -> Option<&Ty>
        ensures { option_copied result ≡ members self.now }
    {
        match self {
            Ty::Pow(part) => Some(part.get()),
            _ => None,
        }
    }

    /// The types of the two components of a pair.
    pub fn components(&self) -> Option<(&Ty, &Ty)>
        ensures { option_map (λ p. (p.0.now, p.1.now)) result ≡ components self.now }
    {
        match self {
            Ty::Pair(left, right) => Some((left.get(), right.get())),
            _ => None,
        }
    }

    /// The types of the two components of the members of a relation.
    pub fn relation(&self) -> Option<(&Ty, &Ty)>
        ensures { option_map (λ p. (p.0.now, p.1.now)) result ≡ relation self.now }
    {
        match self.members() {
            Some(part) => part.components(),
            None => None,
        }
    }

    pub fn is_set_of_booleans(&self) -> bool
        ensures { result ≡ if_set self.now is_boolean }
    {
        match self.members() {
            Some(part) => part.is_boolean(),
            None => false,
        }
    }

    pub fn is_set_of_integers(&self) -> bool
        ensures { result ≡ if_set self.now is_integer }
    {
        match self.members() {
            Some(part) => part.is_integer(),
            None => false,
        }
    }

    pub fn is_set_of_values(&self) -> bool
        ensures { result ≡ if_set self.now is_value_type }
    {
        match self.members() {
            Some(part) => part.is_value_type(),
            None => false,
        }
    }

    pub fn is_set_of(&self, a: &Ty) -> bool
        ensures { result ≡ is_set_of self.now a.now }
    {
        match self.members() {
            Some(part) => part.same(a),
            None => false,
        }
    }

    pub fn is_pair_of(&self, a: &Ty, b: &Ty) -> bool
        ensures { result ≡ is_pair_of self.now a.now b.now }
    {
        match self.components() {
            Some((left, right)) => left.same(a) && right.same(b),
            None => false,
        }
    }

    pub fn is_relation_of(&self, a: &Ty, b: &Ty) -> bool
        ensures { result ≡ is_relation_of self.now a.now b.now }
    {
        match self.members() {
            Some(part) => part.is_pair_of(a, b),
            None => false,
        }
    }
}
