//! Union, intersection and difference.
ghost use Rattle.value_sets.specs.Sets.{InUnion, InIntersection, InDifference, IsCollected, IsTold};

use crate::collecting::collected;
use crate::fault::ValueFault;
use crate::lists::{Side, add_copies, copies, kept, members};
use event_values::Value;
use std::alloc::Global;

/// s ∪ t
#[tactic(auto, using(crate::proofs::Operators::unions))]
pub fn union(alloc: Global, s: &Value, t: &Value) -> Result<Value, ValueFault>
    ensures { IsTold (IsCollected (InUnion s.now t.now)) result }
{
    let mut found = copies(alloc, members(s))?;
    add_copies(alloc, members(t), &mut found)?;
    collected(alloc, found)
}

/// s ∩ t
#[tactic(auto, using(crate::proofs::Operators::intersections))]
pub fn intersection(alloc: Global, s: &Value, t: &Value) -> Result<Value, ValueFault>
    ensures { IsTold (IsCollected (InIntersection s.now t.now)) result }
{
    let found = kept(alloc, Side::Whole, true, members(s), members(t))?;
    collected(alloc, found)
}

/// s ∖ t
#[tactic(auto, using(crate::proofs::Operators::differences))]
pub fn difference(alloc: Global, s: &Value, t: &Value) -> Result<Value, ValueFault>
    ensures { IsTold (IsCollected (InDifference s.now t.now)) result }
{
    let found = kept(alloc, Side::Whole, false, members(s), members(t))?;
    collected(alloc, found)
}
