//! Sets of pairs that are made row by row: product and composition.
ghost use Rattle.std.specs.Prelude.{◌≡◌, ◌++◌, ◌∷◌, [], IfOk, OnOk, map, true};
ghost use Rattle.event_values.specs.Order.{ascends};
ghost use Rattle.value_sets.specs.Sets.{InProduct, InComposition, IsCollected, IsTold};
ghost use Rattle.value_sets.specs.Private.{InRows, reached};

use crate::collecting::{in_order, made};
use crate::fault::ValueFault;
use crate::lists::{Side, add, add_copy, kept, members, pair_of, parts};
use event_values::{Value, ascending};
use formula_core::{List, OutOfMemory};
use std::alloc::Global;

/// One pair with each of these right sides.
fn add_row(alloc: Global, a: &Value, bs: &[Value], out: &mut Vec<Value>) -> Result<(), OutOfMemory>
    ensures { OnOk result (out.new.items ≡ out.old.items ++ map (Value.Pair a.now) bs.now) }
{
    for b in bs {
        let pair = pair_of(alloc, a, b)?;
        add(pair, out)?;
    }
    Ok(())
}

/// A row for each left side. The rows end where they are too many for a set.
#[tactic(auto, using(crate::proofs::Products::product_rows))]
fn product_rows(alloc: Global, lefts: &[Value], rights: &[Value]) -> Result<Value, ValueFault>
    requires lefts { ascends lefts.now ≡ true }
    requires rights { ascends rights.now ≡ true }
    ensures { IsTold (IsCollected (InRows (λ a. rights.now) lefts.now)) result }
{
    let mut found = Vec::new(alloc);
    for a in lefts {
        add_row(alloc, a, rights, &mut found)?;
        if 65_536 < found.len() {
            return Err(ValueFault::TooLarge);
        }
    }
    made(Value::Set(List::of(found)))
}

/// s × t
#[tactic(auto, using(crate::proofs::Products::products))]
pub fn product(alloc: Global, s: &Value, t: &Value) -> Result<Value, ValueFault>
    ensures { IsTold (IsCollected (InProduct s.now t.now)) result }
{
    let lefts = in_order(alloc, s)?;
    let rights = in_order(alloc, t)?;
    product_rows(alloc, lefts.items(), rights.items())
}

/// What is reached from a value by the one relation and then by the other.
fn reached(alloc: Global, p: &[Value], q: &[Value], a: &Value) -> Result<List<Value>, OutOfMemory>
    ensures { IfOk result (λ cs. cs ≡ reached p.now q.now a.now) }
{
    let mut point = Vec::new(alloc);
    add_copy(alloc, a, &mut point)?;
    let near = kept(alloc, Side::Left, true, p, point.as_slice())?;
    let middle = parts(alloc, Side::Right, near.as_slice())?;
    let far = kept(alloc, Side::Left, true, q, middle.as_slice())?;
    let found = parts(alloc, Side::Right, far.as_slice())?;
    ascending(alloc, found)
}

/// A row for each left side. The rows end where they are too many for a set.
#[tactic(auto, using(crate::proofs::Products::composition_rows))]
fn composition_rows(
    alloc: Global,
    lefts: &[Value],
    p: &[Value],
    q: &[Value],
) -> Result<Value, ValueFault>
    requires { ascends lefts.now ≡ true }
    ensures { IsTold (IsCollected (InRows (reached p.now q.now) lefts.now)) result }
{
    let mut found = Vec::new(alloc);
    for a in lefts {
        let rights = reached(alloc, p, q, a)?;
        add_row(alloc, a, rights.items(), &mut found)?;
        if 65_536 < found.len() {
            return Err(ValueFault::TooLarge);
        }
    }
    made(Value::Set(List::of(found)))
}

/// p ; q
#[tactic(auto, using(crate::proofs::Products::compositions))]
pub fn composition(alloc: Global, p: &Value, q: &Value) -> Result<Value, ValueFault>
    ensures { IsTold (IsCollected (InComposition p.now q.now)) result }
{
    let found = parts(alloc, Side::Left, members(p))?;
    let lefts = ascending(alloc, found)?;
    composition_rows(alloc, lefts.items(), members(p), members(q))
}
