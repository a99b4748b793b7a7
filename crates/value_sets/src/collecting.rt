//! Lists of values as sets.
ghost use Rattle.std.specs.Prelude.{Contains, IfOk, ◌≡◌};
ghost use Rattle.event_values.specs.Order.{ascending};
ghost use Rattle.value_sets.specs.Sets.{IsMade, IsCollected, IsTold, set_members};

use crate::fault::ValueFault;
use crate::lists::{copies, members};
use event_values::{Value, ascending};
use formula_core::{List, OutOfMemory};
use std::alloc::Global;

/// The value, where it isn't too large.
pub fn made(v: Value) -> Result<Value, ValueFault>
    ensures { IsMade v result }
{
    if v.nodes() <= 65_536 {
        Ok(v)
    } else {
        Err(ValueFault::TooLarge)
    }
}

/// The set of these values.
#[tactic(auto, using(crate::proofs::Collected::collections))]
pub(crate) fn collected(alloc: Global, values: Vec<Value>) -> Result<Value, ValueFault>
    ensures { IsTold (IsCollected (Contains values.items)) result }
{
    let set = ascending(alloc, values)?;
    made(Value::Set(set))
}

/// The set of these values, in any order.
pub fn extension(alloc: Global, values: &[Value]) -> Result<Value, ValueFault>
    ensures { IsTold (IsCollected (Contains values.now)) result }
{
    let found = copies(alloc, values)?;
    collected(alloc, found)
}

/// The members of a set, each once and in ascending order.
pub(crate) fn in_order(alloc: Global, set: &Value) -> Result<List<Value>, OutOfMemory>
    ensures { IfOk result (λ vs. vs ≡ ascending (set_members set.now)) }
{
    let found = copies(alloc, members(set))?;
    ascending(alloc, found)
}
