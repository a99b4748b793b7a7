//! How many identifiers are bound around a place.
ghost use Rattle.std.specs.Prelude.{◌≡◌, ◌-◌, ◌^◌, min, map};
ghost use Rattle.formula_core.specs.Sizes.{greatest};
ghost use Rattle.std.specs.List.{AllByRecursion};
ghost use Rattle.formula_print.specs.Depths.{deepest};
ghost use Rattle.formula_print.specs.Held.{HasNarrowNumbers};

use formula_core::Formula;

/// The most identifiers that a formula binds around a place, or 2^64 - 1 where there are more.
#[cycle(deepest)]
#[tactic(auto, using(crate::proofs::Equations::depths))]
pub(crate) fn deepest(formula: &Formula) -> u64
    ensures depth { result ≡ min (deepest formula.now) (2 ^ 64 - 1) }
    ensures narrow { HasNarrowNumbers formula.now }
{
    match formula {
        Formula::Int(number) => {
            let _number = *number;
            0
        }
        Formula::Free(_, _) | Formula::Bound(_, _) => 0,
        Formula::Node(_, parts, _) => deepest_of_all(parts.items()),
        Formula::Bind(_, types, parts, _) => {
            deepest_of_all(parts.items()).saturating_add(types.items().len() as u64)
        }
    }
}

#[cycle(deepest)]
fn deepest_of_all(items: &[Formula]) -> u64
    ensures depth { result ≡ min (greatest (map deepest items.now)) (2 ^ 64 - 1) }
    ensures narrow { AllByRecursion HasNarrowNumbers items.now }
{
    let mut most: u64 = 0;
    for item in items {
        most = most.max(deepest(item));
    }
    most
}
