//! Sets that are counted before they are made.
ghost use Rattle.std.specs.Prelude.{◌≡◌, ◌+ℤ◌, ◌≤ℤ◌, ◌^◌, IfOk, IfSome, MatchOption, pos};
ghost use Rattle.value_sets.specs.Sets.{InInterval, InCarrier, IsCollected, IsTold};
ghost use Rattle.value_sets.specs.Private.{IsCount, numbers_from, elements_from};

use crate::fault::ValueFault;
use crate::lists::add;
use event_values::Value;
use formula_core::{List, Name, OutOfMemory};
use std::alloc::Global;

/// How many numbers there are from m to n, and None where they are too many for a set.
#[tactic(auto, using(crate::proofs::Counted::counts))]
fn count(m: i128, n: i128) -> Option<u32>
    ensures exact { MatchOption result ((m +ℤ pos 65535) ≤ℤ n) (IsCount m n) }
    ensures room { IfSome result (λ k. (m +ℤ pos k) ≤ℤ pos (2 ^ 127)) }
{
    if n < m {
        return Some(0);
    }
    match n.checked_sub(m) {
        Some(d) => { if d < 65_535 { Some(d as u32 + 1) } else { None } }
        None => None,
    }
}

#[tactic(auto, using(crate::proofs::Counted::longer))]
fn numbers(alloc: Global, m: i128, k: u32) -> Result<List<Value>, OutOfMemory>
    requires { (m +ℤ pos k) ≤ℤ pos (2 ^ 127) }
    ensures { IfOk result (λ vs. vs ≡ numbers_from m k) }
{
    let mut out = Vec::new(alloc);
    for i in 0..k {
        add(Value::Int(m + i as i128), &mut out)?;
    }
    Ok(List::of(out))
}

/// m ‥ n
#[tactic(auto, using(crate::proofs::Counted::intervals))]
pub fn interval(alloc: Global, m: i128, n: i128) -> Result<Value, ValueFault>
    ensures { IsTold (IsCollected (InInterval m n)) result }
{
    match count(m, n) {
        Some(k) => {
            let found = numbers(alloc, m, k)?;
            Ok(Value::Set(found))
        }
        None => Err(ValueFault::TooLarge),
    }
}

#[tactic(auto, using(crate::proofs::Counted::longer))]
fn elements_of(alloc: Global, set: &Name, size: u32) -> Result<List<Value>, OutOfMemory>
    ensures { IfOk result (λ vs. vs ≡ elements_from set.now 0 size) }
{
    let mut out = Vec::new(alloc);
    for i in 0..size {
        let name = set.copy(alloc)?;
        add(Value::Elem(name, i), &mut out)?;
    }
    Ok(List::of(out))
}

/// All elements of a carrier set of this size.
#[tactic(auto, using(crate::proofs::Counted::carriers))]
pub fn elements(alloc: Global, set: &Name, size: u32) -> Result<Value, ValueFault>
    ensures { IsTold (IsCollected (InCarrier set.now size)) result }
{
    if size < 65_536 {
        let found = elements_of(alloc, set, size)?;
        Ok(Value::Set(found))
    } else {
        Err(ValueFault::TooLarge)
    }
}
