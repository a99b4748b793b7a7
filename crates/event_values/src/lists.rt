//! Sets as ascending lists.
ghost use Rattle.std.specs.Prelude.{◌≡◌, ◌≤◌, IfOk, OnOk, MatchOption, length};
ghost use Rattle.std.specs.List.{insert};
ghost use Rattle.event_values.specs.Order.{ascends_behind, ascends, insert_value, ascending};

use crate::value::Value;
use formula_core::{List, OutOfMemory};
use std::alloc::Global;
use std::cmp::Ordering;

/// Where a value belongs in an ascending list, and none where it is there.
#[tactic(auto, using(crate::proofs::Insertion::places))]
fn place_of(v: &Value, set: &[Value]) -> Option<usize>
    ensures { MatchOption result (insert_value v.now set.now ≡ set.now)
        (λ at. (at ≤ length set.now) × (insert_value v.now set.now ≡ insert set.now at v.now)) }
{
    for i in 0..set.len() {
        match v.order(&set[i]) {
            Ordering::Less => return Some(i),
            Ordering::Equal => return None,
            Ordering::Greater => {}
        }
    }
    Some(set.len())
}

/// Puts a value into an ascending list, unless it is there.
fn insert_value(v: Value, set: &mut Vec<Value>) -> Result<(), OutOfMemory>
    ensures { OnOk result (set.new.items ≡ insert_value v set.old.items) }
{
    match place_of(&v, set.as_slice()) {
        Some(at) => {
            set.insert(at, v)?;
            Ok(())
        }
        None => Ok(()),
    }
}

/// Whether each value is below the next one.
pub fn ascends(values: &[Value]) -> bool
    ensures { result ≡ ascends values.now }
{
    match values {
        [] => true,
        [first, others @ ..] => ascends_behind(first, others),
    }
}

fn ascends_behind(first: &Value, others: &[Value]) -> bool
    ensures { result ≡ ascends_behind first.now others.now }
{
    let mut last = first;
    for other in others {
        match last.order(other) {
            Ordering::Less => last = other,
            _ => return false,
        }
    }
    true
}

/// The values in ascending order, each once: the members of the set of them.
#[tactic(auto, using(crate::proofs::Insertion::insertions))]
pub fn ascending(alloc: Global, values: Vec<Value>) -> Result<List<Value>, OutOfMemory>
    ensures { IfOk result (λ set. set ≡ ascending values.items) }
{
    if ascends(values.as_slice()) {
        return Ok(List::of(values));
    }
    let mut left = values;
    let mut set = Vec::new(alloc);
    while let Some(v) = left.pop() {
        insert_value(v, &mut set)?;
    }
    Ok(List::of(set))
}
