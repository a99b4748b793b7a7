//! The least and the greatest number of a set.
ghost use Rattle.std.specs.Prelude.{◌≡◌, MatchOption, []};
ghost use Rattle.value_sets.specs.Sets.{set_members, IsLeast, IsGreatest};
ghost use Rattle.value_sets.specs.Private.{least_from, greatest_from, least_of, greatest_of};

use crate::lists::{members, number};
use event_values::Value;

/// The least number of a set, and None of the empty one.
#[tactic(auto, using(crate::proofs::Ends::ends))]
pub fn least(set: &Value) -> Option<i128>
    ensures { MatchOption result (set_members set.now ≡ []) (IsLeast set.now) }
{
    least_of(members(set))
}

fn least_of(values: &[Value]) -> Option<i128>
    ensures { result ≡ least_of values.now }
{
    match values {
        [] => None,
        [first, others @ ..] => Some(least_from(number(first), others)),
    }
}

/// The greatest number of a set, and None of the empty one.
#[tactic(auto, using(crate::proofs::Ends::ends))]
pub fn greatest(set: &Value) -> Option<i128>
    ensures { MatchOption result (set_members set.now ≡ []) (IsGreatest set.now) }
{
    greatest_of(members(set))
}

fn greatest_of(values: &[Value]) -> Option<i128>
    ensures { result ≡ greatest_of values.now }
{
    match values {
        [] => None,
        [first, others @ ..] => Some(greatest_from(number(first), others)),
    }
}

/// The least of a number and those of these values.
fn least_from(n: i128, values: &[Value]) -> i128
    ensures { result ≡ least_from n values.now }
{
    let mut least = n;
    for value in values {
        least = least.min(number(value));
    }
    least
}

/// The greatest of a number and those of these values.
fn greatest_from(n: i128, values: &[Value]) -> i128
    ensures { result ≡ greatest_from n values.now }
{
    let mut greatest = n;
    for value in values {
        greatest = greatest.max(number(value));
    }
    greatest
}
