//! Lists of names with their types, and the identifiers of a formula.
ghost use Rattle.std.specs.Prelude.{◌≡◌, ◌↔◌, ◌++◌, IsTrue, IfOk, OnOk, map};
ghost use Rattle.formula_core.specs.Formulas.{joined};
ghost use Rattle.formula_core.specs.Identifiers.{carriers, identifiers};

use crate::boxed::Boxed;
use crate::formula::Formula;
use crate::list::List;
use crate::memory::OutOfMemory;
use crate::name::Name;
use crate::ty::Ty;
use std::alloc::Global;

pub fn same_identifiers(xs: &[(Name, Ty)], ys: &[(Name, Ty)]) -> bool
    ensures { IsTrue result ↔ (xs.now ≡ ys.now) }
{
    if xs.len() != ys.len() {
        return false;
    }
    for i in 0..xs.len() {
        if !same_identifier(&xs[i], &ys[i]) {
            return false;
        }
    }
    true
}

fn same_identifier(x: &(Name, Ty), y: &(Name, Ty)) -> bool
    ensures { IsTrue result ↔ (x.now ≡ y.now) }
{
    x.0.same(&y.0) && x.1.same(&y.1)
}

pub fn copy_identifiers(
    alloc: Global,
    items: &[(Name, Ty)],
) -> Result<List<(Name, Ty)>, OutOfMemory>
    ensures { IfOk result (λ xs. xs ≡ items.now) }
{
    let mut copies = Vec::with_capacity(alloc, items.len())?;
    for item in items {
        copies.push((item.0.copy(alloc)?, item.1.copy(alloc)?))?;
    }
    Ok(List::of(copies))
}

impl Ty {
    /// Adds each carrier set that stands in the type, at each of its places.
    pub fn add_carriers(
        &self,
        alloc: Global,
        found: &mut Vec<(Name, Ty)>,
    ) -> Result<(), OutOfMemory>
        ensures { OnOk result (found.new.items ≡ found.old.items ++ carriers self.now) }
    {
        match self {
            Ty::Int | Ty::Bool | Ty::Truth => Ok(()),
            Ty::Given(name) => {
                let set = Boxed::new(alloc, Ty::Given(name.copy(alloc)?))?;
                found.push((name.copy(alloc)?, Ty::Pow(set)))?;
                Ok(())
            }
            Ty::Pow(part) => part.get().add_carriers(alloc, found),
            Ty::Pair(left, right) => {
                left.get().add_carriers(alloc, found)?;
                right.get().add_carriers(alloc, found)?;
                Ok(())
            }
        }
    }
}

impl Formula {
    /// Adds each free identifier, and each carrier set of each type, at each of their places.
    #[cycle(identifiers)]
    pub fn add_identifiers(
        &self,
        alloc: Global,
        found: &mut Vec<(Name, Ty)>,
    ) -> Result<(), OutOfMemory>
        ensures { OnOk result (found.new.items ≡ found.old.items ++ identifiers self.now) }
    {
        match self {
            Formula::Int(_) => Ok(()),
            Formula::Free(name, ty) => {
                found.push((name.copy(alloc)?, ty.copy(alloc)?))?;
                ty.add_carriers(alloc, found)
            }
            Formula::Bound(_, ty) => ty.add_carriers(alloc, found),
            Formula::Node(_, parts, ty) => {
                add_identifiers_of_all(parts.items(), alloc, found)?;
                ty.add_carriers(alloc, found)
            }
            Formula::Bind(_, types, parts, ty) => {
                add_carriers_of_all(types.items(), alloc, found)?;
                add_identifiers_of_all(parts.items(), alloc, found)?;
                ty.add_carriers(alloc, found)
            }
        }
    }
}

#[cycle(identifiers)]
fn add_identifiers_of_all(
    items: &[Formula],
    alloc: Global,
    found: &mut Vec<(Name, Ty)>,
) -> Result<(), OutOfMemory>
    ensures { OnOk result (found.new.items ≡ found.old.items ++ joined (map identifiers items.now)) }
{
    for item in items {
        item.add_identifiers(alloc, found)?;
    }
    Ok(())
}

fn add_carriers_of_all(
    types: &[Ty],
    alloc: Global,
    found: &mut Vec<(Name, Ty)>,
) -> Result<(), OutOfMemory>
    ensures { OnOk result (found.new.items ≡ found.old.items ++ joined (map carriers types.now)) }
{
    for ty in types {
        ty.add_carriers(alloc, found)?;
    }
    Ok(())
}
