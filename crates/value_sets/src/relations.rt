//! Relations: sets of pairs.
ghost use Rattle.value_sets.specs.Sets.{InDomain, InRange, InConverse, InDomainRestriction, InDomainSubtraction, InRangeRestriction, InRangeSubtraction, InOverriding, InImage, IsCollected, IsTold};

use crate::collecting::collected;
use crate::fault::ValueFault;
use crate::lists::{Side, add_copies, converses, kept, members, parts};
use event_values::Value;
use std::alloc::Global;

/// dom(r)
#[tactic(auto, using(crate::proofs::Operators::domains))]
pub fn domain(alloc: Global, r: &Value) -> Result<Value, ValueFault>
    ensures { IsTold (IsCollected (InDomain r.now)) result }
{
    let found = parts(alloc, Side::Left, members(r))?;
    collected(alloc, found)
}

/// ran(r)
#[tactic(auto, using(crate::proofs::Operators::ranges))]
pub fn range(alloc: Global, r: &Value) -> Result<Value, ValueFault>
    ensures { IsTold (IsCollected (InRange r.now)) result }
{
    let found = parts(alloc, Side::Right, members(r))?;
    collected(alloc, found)
}

/// r∼
#[tactic(auto, using(crate::proofs::Operators::converses))]
pub fn converse(alloc: Global, r: &Value) -> Result<Value, ValueFault>
    ensures { IsTold (IsCollected (InConverse r.now)) result }
{
    let found = converses(alloc, members(r))?;
    collected(alloc, found)
}

/// s ◁ r
#[tactic(auto, using(crate::proofs::Operators::domain_restrictions))]
pub fn domain_restriction(alloc: Global, s: &Value, r: &Value) -> Result<Value, ValueFault>
    ensures { IsTold (IsCollected (InDomainRestriction s.now r.now)) result }
{
    let found = kept(alloc, Side::Left, true, members(r), members(s))?;
    collected(alloc, found)
}

/// s ⩤ r
#[tactic(auto, using(crate::proofs::Operators::domain_subtractions))]
pub fn domain_subtraction(alloc: Global, s: &Value, r: &Value) -> Result<Value, ValueFault>
    ensures { IsTold (IsCollected (InDomainSubtraction s.now r.now)) result }
{
    let found = kept(alloc, Side::Left, false, members(r), members(s))?;
    collected(alloc, found)
}

/// r ▷ s
#[tactic(auto, using(crate::proofs::Operators::range_restrictions))]
pub fn range_restriction(alloc: Global, r: &Value, s: &Value) -> Result<Value, ValueFault>
    ensures { IsTold (IsCollected (InRangeRestriction r.now s.now)) result }
{
    let found = kept(alloc, Side::Right, true, members(r), members(s))?;
    collected(alloc, found)
}

/// r ⩥ s
#[tactic(auto, using(crate::proofs::Operators::range_subtractions))]
pub fn range_subtraction(alloc: Global, r: &Value, s: &Value) -> Result<Value, ValueFault>
    ensures { IsTold (IsCollected (InRangeSubtraction r.now s.now)) result }
{
    let found = kept(alloc, Side::Right, false, members(r), members(s))?;
    collected(alloc, found)
}

/// r <+ s
#[tactic(auto, using(crate::proofs::Operators::overridings))]
pub fn overriding(alloc: Global, r: &Value, s: &Value) -> Result<Value, ValueFault>
    ensures { IsTold (IsCollected (InOverriding r.now s.now)) result }
{
    let lefts = parts(alloc, Side::Left, members(s))?;
    let mut found = kept(alloc, Side::Left, false, members(r), lefts.as_slice())?;
    add_copies(alloc, members(s), &mut found)?;
    collected(alloc, found)
}

/// r[s]
#[tactic(auto, using(crate::proofs::Operators::image_rules))]
pub fn image(alloc: Global, r: &Value, s: &Value) -> Result<Value, ValueFault>
    ensures { IsTold (IsCollected (InImage r.now s.now)) result }
{
    let pairs = kept(alloc, Side::Left, true, members(r), members(s))?;
    let found = parts(alloc, Side::Right, pairs.as_slice())?;
    collected(alloc, found)
}
