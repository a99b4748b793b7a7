//! How large a formula is after a replacement, without building it.
ghost use Rattle.std.specs.Prelude.{◌≡◌, map};
ghost use Rattle.formula_core.specs.declared.Formula.{Formula};
ghost use Rattle.rule_table.specs.Rewriting.{replaced};
ghost use Rattle.instance_size.specs.Extents.{extent_of};
ghost use Rattle.instance_size.specs.Private.{extent_of_parts};

use crate::extent::{Extent, above, extent_of, leaf, no_parts, side_by_side};
use formula_core::Formula;

/// How large a formula is with `new` in the place of each outermost occurrence of `old`.
pub fn replaced_extent(old: &Formula, new: &Formula, f: &Formula) -> Extent
    ensures extent { result ≡ extent_of (replaced old.now new.now f.now) }
{
    extent_with(f, old, extent_of(new))
}

#[cycle(replace)]
fn extent_with(f: &Formula, old: &Formula, new: Extent) -> Extent
    ensures { (g : Formula) → new ≡ extent_of g → result ≡ extent_of (replaced old.now g f.now) }
{
    if f.same(old) {
        return new;
    }
    match f {
        Formula::Int(_) | Formula::Free(_, _) | Formula::Bound(_, _) => leaf(),
        Formula::Node(_, parts, _) => above(extent_of_all(parts.items(), old, new)),
        Formula::Bind(_, _, parts, _) => above(extent_of_all(parts.items(), old, new)),
    }
}

/// The nodes of parts together, and the greatest of their heights.
#[cycle(replace)]
fn extent_of_all(items: &[Formula], old: &Formula, new: Extent) -> Extent
    ensures { (g : Formula) → new ≡ extent_of g → result ≡ extent_of_parts (map (replaced old.now g) items.now) }
{
    let mut all = no_parts();
    for item in items {
        all = side_by_side(all, extent_with(item, old, new));
    }
    all
}
