//! Moving formulas below binders, and binding their free identifiers.
ghost use Rattle.std.specs.Prelude.{◌≡◌, IsTrue, ◌+◌, ◌^◌, ℕ, min, map, length, IfOk, OnOk, Some, None, ◌++◌, ◌∷◌, [], ◌<◌, if◌then◌else◌};
ghost use Rattle.formula_core.specs.declared.formula.Formula.TheOpen.{Free as FreeStep};
ghost use Rattle.formula_core.specs.Formulas.{same_identifier};
ghost use Rattle.formula_core.specs.Wellness.{type_of, is_well, is_well_in};
ghost use Rattle.formula_core.specs.Shifting.{scope_types, raised, shifted, place_from_last, abstracted, abstracted_step};

use crate::formula::{
    Formula, add_binder, add_identifier, add_index, add_node, add_number, deeper, only_of,
};
use crate::memory::OutOfMemory;
use crate::name::Name;
use crate::ty::Ty;
use std::alloc::Global;

impl Formula {
    /// The formula below `by` further bound identifiers: each index from `depth` on is greater by as many.
    /// Also an index that would pass 2^32 - 1 is answered by `OutOfMemory`.
    #[tactic(auto, using(crate::proofs::KeptTypes::shifted_type))]
    pub fn shift(&self, alloc: Global, by: u32, depth: u32) -> Result<Formula, OutOfMemory>
        ensures value { IfOk result (λ f. f ≡ shifted by depth self.now) }
        ensures typed { IfOk result (λ f. type_of f ≡ type_of self.now) }
    {
        self.shift_any(alloc, by, depth)
    }

    fn shift_any(&self, alloc: Global, by: u32, depth: u32) -> Result<Formula, OutOfMemory>
        ensures { IfOk result (λ f. f ≡ shifted by depth self.now) }
    {
        let mut out = Vec::new(alloc);
        self.shift_onto(alloc, by, depth as u64, &mut out)?;
        Ok(only_of(out))
    }

    #[cycle(shift)]
    fn shift_onto(
        &self,
        alloc: Global,
        by: u32,
        depth: u64,
        out: &mut Vec<Formula>,
    ) -> Result<(), OutOfMemory>
        ensures { (d : ℕ) → depth ≡ min d (2 ^ 32)
            → OnOk result (out.new.items ≡ out.old.items ++ shifted by d self.now ∷ []) }
    {
        match self {
            Formula::Int(n) => add_number(*n, out),
            Formula::Free(name, ty) => add_identifier(alloc, name, ty, out),
            Formula::Bound(at, ty) => {
                let raised = raise(*at, by as u64, depth)?;
                add_index(alloc, raised, ty, out)?;
                Ok(())
            }
            Formula::Node(op, parts, ty) => {
                let mut made = Vec::new(alloc);
                shift_all(parts.items(), alloc, by, depth, &mut made)?;
                add_node(alloc, *op, made, ty, out)?;
                Ok(())
            }
            Formula::Bind(binder, types, parts, ty) => {
                let mut made = Vec::new(alloc);
                let depth = deeper(depth, types.items());
                shift_all(parts.items(), alloc, by, depth, &mut made)?;
                add_binder(alloc, *binder, types.items(), made, ty, out)?;
                Ok(())
            }
        }
    }
}

#[cycle(shift)]
fn shift_all(
    items: &[Formula],
    alloc: Global,
    by: u32,
    depth: u64,
    out: &mut Vec<Formula>,
) -> Result<(), OutOfMemory>
    ensures { (d : ℕ) → depth ≡ min d (2 ^ 32)
        → OnOk result (out.new.items ≡ out.old.items ++ map (shifted by d) items.now) }
{
    for item in items {
        item.shift_onto(alloc, by, depth, out)?;
    }
    Ok(())
}

/// An index below `by` further identifiers, or `OutOfMemory` where it would pass 2^32 - 1.
fn raise(at: u32, by: u64, depth: u64) -> Result<u32, OutOfMemory>
    ensures { (d : ℕ) → depth ≡ min d (2 ^ 32) → IfOk result (λ i. i ≡ raised by d at) }
{
    if (at as u64) < depth {
        return Ok(at);
    }
    as_index((at as u64).saturating_add(by))
}

/// A number as an index, or `OutOfMemory` where it passes 2^32 - 1.
fn as_index(at: u64) -> Result<u32, OutOfMemory>
    ensures same { IfOk result (λ i. i ≡ at) }
    ensures small { IfOk result (λ i. i < 2 ^ 32) }
{
    if at < 1 << 32 {
        Ok(at as u32)
    } else {
        Err(OutOfMemory)
    }
}

impl Formula {
    /// The formula as the body of a binder of these identifiers: each free place of one becomes its index.
    /// Also an index that would pass 2^32 - 1 is answered by `OutOfMemory`.
    #[tactic(auto, using(crate::proofs::KeptTypes::kept_by_binding))]
    pub fn bind_free(
        &self,
        alloc: Global,
        identifiers: &[(Name, Ty)],
    ) -> Result<Formula, OutOfMemory>
        ensures value { IfOk result (λ f. f ≡ abstracted identifiers.now 0 self.now) }
        ensures well { IsTrue (is_well self.now)
            → IfOk result (λ f. IsTrue (is_well_in f (scope_types identifiers.now))) }
        ensures typed { IfOk result (λ f. type_of f ≡ type_of self.now) }
    {
        self.bind_any(alloc, identifiers)
    }

    fn bind_any(&self, alloc: Global, identifiers: &[(Name, Ty)]) -> Result<Formula, OutOfMemory>
        ensures { IfOk result (λ f. f ≡ abstracted identifiers.now 0 self.now) }
    {
        let mut out = Vec::new(alloc);
        self.bind_onto(alloc, identifiers, 0, &mut out)?;
        Ok(only_of(out))
    }

    #[cycle(bind)]
    fn bind_onto(
        &self,
        alloc: Global,
        identifiers: &[(Name, Ty)],
        depth: u64,
        out: &mut Vec<Formula>,
    ) -> Result<(), OutOfMemory>
        ensures { (d : ℕ) → depth ≡ min d (2 ^ 32)
            → OnOk result (out.new.items ≡ out.old.items ++ abstracted identifiers.now d self.now ∷ []) }
    {
        match self {
            Formula::Int(n) => add_number(*n, out),
            Formula::Free(name, ty) => {
                bind_identifier(alloc, name, ty, identifiers, depth, out)?;
                Ok(())
            }
            Formula::Bound(at, ty) => {
                let raised = raise(*at, identifiers.len() as u64, depth)?;
                add_index(alloc, raised, ty, out)?;
                Ok(())
            }
            Formula::Node(op, parts, ty) => {
                let mut made = Vec::new(alloc);
                bind_all(parts.items(), alloc, identifiers, depth, &mut made)?;
                add_node(alloc, *op, made, ty, out)?;
                Ok(())
            }
            Formula::Bind(binder, types, parts, ty) => {
                let mut made = Vec::new(alloc);
                let depth = deeper(depth, types.items());
                bind_all(parts.items(), alloc, identifiers, depth, &mut made)?;
                add_binder(alloc, *binder, types.items(), made, ty, out)?;
                Ok(())
            }
        }
    }
}

#[cycle(bind)]
fn bind_all(
    items: &[Formula],
    alloc: Global,
    identifiers: &[(Name, Ty)],
    depth: u64,
    out: &mut Vec<Formula>,
) -> Result<(), OutOfMemory>
    ensures { (d : ℕ) → depth ≡ min d (2 ^ 32)
        → OnOk result (out.new.items ≡ out.old.items ++ map (abstracted identifiers.now d) items.now) }
{
    for item in items {
        item.bind_onto(alloc, identifiers, depth, out)?;
    }
    Ok(())
}

fn bind_identifier(
    alloc: Global,
    name: &Name,
    ty: &Ty,
    identifiers: &[(Name, Ty)],
    depth: u64,
    out: &mut Vec<Formula>,
) -> Result<(), OutOfMemory>
    ensures { (d : ℕ) → depth ≡ min d (2 ^ 32) → OnOk result (out.new.items
        ≡ out.old.items ++ abstracted_step identifiers.now (FreeStep name.now ty.now) d ∷ []) }
{
    match place_from_last(identifiers, name, ty) {
        Some(place) => {
            let at = as_index(depth.saturating_add(place as u64))?;
            add_index(alloc, at, ty, out)?;
            Ok(())
        }
        None => {
            add_identifier(alloc, name, ty, out)?;
            Ok(())
        }
    }
}

/// How many identifiers stand after this one.
fn place_from_last(identifiers: &[(Name, Ty)], name: &Name, ty: &Ty) -> Option<usize>
    ensures { result ≡ place_from_last identifiers.now (name.now, ty.now) }
{
    match identifiers.split_first() {
        Some((first, rest)) => match place_from_last(rest, name, ty) {
            Some(place) => Some(place),
            None => place_at(first, name, ty, rest.len()),
        },
        None => None,
    }
}

fn place_at(identifier: &(Name, Ty), name: &Name, ty: &Ty, place: usize) -> Option<usize>
    ensures { result ≡ (if same_identifier identifier.now (name.now, ty.now) then Some place else None) }
{
    if identifier.0.same(name) && identifier.1.same(ty) {
        Some(place)
    } else {
        None
    }
}
