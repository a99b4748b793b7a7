// The nodes of hints.
ghost use Rattle.std.specs.Prelude.{◌≡◌, ◌+◌, ◌-◌, ◌^◌, length, map, min, sum};
ghost use Rattle.event_weights.specs.Weights.{raw_nodes, hint_nodes};
ghost use Rattle.event_weights.specs.Private.{bound_nodes};

use formula_core::{Raw, RawBound};
use sequent_core::Hint;

/// The nodes of a hint, or the greatest `u64` where there are more.
pub(crate) fn nodes_of_hint(hint: &Hint) -> u64
    ensures { result ≡ min (hint_nodes hint.now) (2 ^ 64 - 1) }
{
    nodes_of_all(hint.terms.items())
        .saturating_add(hint.hyps.items().len() as u64)
        .saturating_add(hint.multipliers.items().len() as u64)
        .saturating_add(hint.names.items().len() as u64)
        .saturating_add(hint.place.items().len() as u64)
}

#[cycle(nodes)]
fn nodes_of(raw: &Raw) -> u64
    ensures { result ≡ min (raw_nodes raw.now) (2 ^ 64 - 1) }
{
    match raw {
        Raw::Int(_, _) => 1,
        Raw::Name(_, _) => 1,
        Raw::Node(_, parts, _) => nodes_of_all(parts.items()).saturating_add(1),
        Raw::Bind(_, bound, parts, _) => nodes_of_bound(bound.items())
            .saturating_add(nodes_of_all(parts.items()))
            .saturating_add(1),
    }
}

#[cycle(nodes)]
fn nodes_of_all(parts: &[Raw]) -> u64
    ensures { result ≡ min (sum (map raw_nodes parts.now)) (2 ^ 64 - 1) }
{
    let mut total: u64 = 0;
    for part in parts {
        total = total.saturating_add(nodes_of(part));
    }
    total
}

#[cycle(nodes)]
fn nodes_of_bound(bound: &[RawBound]) -> u64
    ensures { result ≡ min (sum (map bound_nodes bound.now)) (2 ^ 64 - 1) }
{
    let mut total: u64 = 0;
    for name in bound {
        total = total.saturating_add(nodes_of_name(name));
    }
    total
}

#[cycle(nodes)]
fn nodes_of_name(bound: &RawBound) -> u64
    ensures { result ≡ min (bound_nodes bound.now) (2 ^ 64 - 1) }
{
    match &bound.ty {
        Some(ty) => nodes_of(ty.get()).saturating_add(1),
        None => 1,
    }
}
