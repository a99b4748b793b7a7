//! How large an instantiation is, without building it.
ghost use Rattle.std.specs.Prelude.{◌≡◌, ◌+◌, ◌^◌, ℕ, IfOk, length, map, min};
ghost use Rattle.formula_core.specs.Formulas.{instantiated, instantiated_step};
ghost use Rattle.formula_core.specs.declared.Formula.TheOpen.{Bound as IndexStep};
ghost use Rattle.instance_size.specs.Extents.{extent_of};
ghost use Rattle.instance_size.specs.Private.{extent_of_parts, extents_of};

use crate::extent::{Extent, above, extent_of, leaf, no_parts, side_by_side};
use formula_core::{Formula, OutOfMemory, Ty};
use std::alloc::Global;

/// How large a formula is with terms in the place of the identifiers of the binder whose body it is.
pub fn instantiated_extent(
    alloc: Global,
    body: &Formula,
    terms: &[Formula],
) -> Result<Extent, OutOfMemory>
    ensures extent { IfOk result (λ e. e ≡ extent_of (instantiated terms.now 0 body.now)) }
{
    let extents = extents_of(alloc, terms)?;
    Ok(extent_with(body, terms, &extents, 0))
}

fn extents_of(alloc: Global, terms: &[Formula]) -> Result<Vec<Extent>, OutOfMemory>
    ensures { IfOk result (λ extents. extents.items ≡ extents_of terms.now) }
{
    let mut extents = Vec::new(alloc);
    for term in terms {
        extents.push(extent_of(term))?;
    }
    Ok(extents)
}

#[cycle(count)]
fn extent_with(body: &Formula, terms: &[Formula], extents: &[Extent], depth: u64) -> Extent
    requires { extents.now ≡ extents_of terms.now }
    ensures { (d : ℕ) → depth ≡ min d (2 ^ 32) → result ≡ extent_of (instantiated terms.now d body.now) }
{
    match body {
        Formula::Int(_) | Formula::Free(_, _) => leaf(),
        Formula::Bound(at, ty) => extent_at_index(*at, ty, terms, extents, depth),
        Formula::Node(_, parts, _) => above(extent_of_all(parts.items(), terms, extents, depth)),
        Formula::Bind(_, types, parts, _) => {
            let depth = deeper(depth, types.items());
            above(extent_of_all(parts.items(), terms, extents, depth))
        }
    }
}

/// The nodes of parts together, and the greatest of their heights.
#[cycle(count)]
fn extent_of_all(items: &[Formula], terms: &[Formula], extents: &[Extent], depth: u64) -> Extent
    requires { extents.now ≡ extents_of terms.now }
    ensures { (d : ℕ) → depth ≡ min d (2 ^ 32) → result ≡ extent_of_parts (map (instantiated terms.now d) items.now) }
{
    let mut all = no_parts();
    for item in items {
        all = side_by_side(all, extent_with(item, terms, extents, depth));
    }
    all
}

fn extent_at_index(at: u32, ty: &Ty, terms: &[Formula], extents: &[Extent], depth: u64) -> Extent
    requires { extents.now ≡ extents_of terms.now }
    ensures { result ≡ extent_of (instantiated_step terms.now (IndexStep at ty.now) depth) }
{
    if (at as u64) < depth {
        return leaf();
    }
    let from_last = (at as u64 - depth) as usize;
    if from_last < extents.len() {
        extents[extents.len() - 1 - from_last]
    } else {
        leaf()
    }
}

/// The depth below a binder, or 2^32 where it is greater.
fn deeper(depth: u64, types: &[Ty]) -> u64
    ensures { (d : ℕ) → depth ≡ min d (2 ^ 32) → result ≡ min (d + length types.now) (2 ^ 32) }
{
    depth.saturating_add(types.len() as u64).min(1 << 32)
}
