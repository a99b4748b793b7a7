//! Members of sets: parts of them, and lists of those that a test keeps.
ghost use Rattle.std.specs.Prelude.{◌≡◌, ◌↔◌, ◌++◌, ◌∷◌, [], IfOk, OnOk, IsTrue};
ghost use Rattle.std.specs.Option.{option_copied};
ghost use Rattle.std.specs.List.{filter, filter_map};
ghost use Rattle.value_sets.specs.Sets.{set_members, integer_of, In, Within};
ghost use Rattle.value_sets.specs.Private.{part_of, converse_of, among, is_chosen, all_among};

use event_values::Value;
use formula_core::{Boxed, OutOfMemory};
use std::alloc::Global;
use std::cmp::Ordering;

/// A value itself, or one side of a pair.
#[derive(Clone, Copy, Debug, PartialEq, Eq)]
pub(crate) enum Side {
    Whole,
    Left,
    Right,
}

/// The members of a set, and none of another value.
pub fn members(set: &Value) -> &[Value]
    ensures { result.now ≡ set_members set.now }
{
    match set {
        Value::Set(members) => members.items(),
        _ => &[],
    }
}

/// The number that a value is, and 0 of another value.
pub fn number(v: &Value) -> i128
    ensures { result ≡ integer_of v.now }
{
    match v {
        Value::Int(n) => *n,
        _ => 0,
    }
}

fn part_of<'a>(side: Side, v: &'a Value) -> Option<&'a Value>
    ensures { option_copied result ≡ part_of side v.now }
{
    match side {
        Side::Whole => Some(v),
        Side::Left => match v {
            Value::Pair(a, _) => Some(a.get()),
            _ => None,
        },
        Side::Right => match v {
            Value::Pair(_, b) => Some(b.get()),
            _ => None,
        },
    }
}

/// Whether the value is one of these.
pub(crate) fn among(values: &[Value], x: &Value) -> bool
    ensures { result ≡ among values.now x.now }
{
    for value in values {
        match value.order(x) {
            Ordering::Equal => return true,
            _ => {}
        }
    }
    false
}

/// Whether the value is a member of the set.
#[tactic(auto, using(crate::proofs::Keeping::tests))]
pub fn is_in(x: &Value, set: &Value) -> bool
    ensures { IsTrue result ↔ In x.now set.now }
{
    among(members(set), x)
}

fn all_among(values: &[Value], xs: &[Value]) -> bool
    ensures { result ≡ all_among values.now xs.now }
{
    for x in xs {
        if !among(values, x) {
            return false;
        }
    }
    true
}

/// Whether each member of the one set is a member of the other.
#[tactic(auto, using(crate::proofs::Keeping::tests))]
pub fn is_within(s: &Value, t: &Value) -> bool
    ensures { IsTrue result ↔ Within s.now t.now }
{
    all_among(members(t), members(s))
}

fn is_chosen(side: Side, wanted: bool, others: &[Value], x: &Value) -> bool
    ensures { result ≡ is_chosen side wanted others.now x.now }
{
    match part_of(side, x) {
        Some(part) => {
            if wanted {
                among(others, part)
            } else {
                !among(others, part)
            }
        }
        None => false,
    }
}

pub(crate) fn add(v: Value, out: &mut Vec<Value>) -> Result<(), OutOfMemory>
    ensures { OnOk result (out.new.items ≡ out.old.items ++ v ∷ []) }
{
    out.push(v)?;
    Ok(())
}

pub(crate) fn add_copy(alloc: Global, v: &Value, out: &mut Vec<Value>) -> Result<(), OutOfMemory>
    ensures { OnOk result (out.new.items ≡ out.old.items ++ v.now ∷ []) }
{
    let copy = v.copy(alloc)?;
    add(copy, out)
}

pub(crate) fn add_copies(
    alloc: Global,
    values: &[Value],
    out: &mut Vec<Value>,
) -> Result<(), OutOfMemory>
    ensures { OnOk result (out.new.items ≡ out.old.items ++ values.now) }
{
    for value in values {
        add_copy(alloc, value, out)?;
    }
    Ok(())
}

pub(crate) fn copies(alloc: Global, values: &[Value]) -> Result<Vec<Value>, OutOfMemory>
    ensures { IfOk result (λ found. found.items ≡ values.now) }
{
    let mut found = Vec::new(alloc);
    add_copies(alloc, values, &mut found)?;
    Ok(found)
}

#[tactic(auto, using(crate::proofs::Keeping::steps))]
/// The members of the one list whose part is one of the others, or is none of them.
pub(crate) fn kept(
    alloc: Global,
    side: Side,
    wanted: bool,
    xs: &[Value],
    others: &[Value],
) -> Result<Vec<Value>, OutOfMemory>
    ensures { IfOk result (λ found. found.items ≡ filter (is_chosen side wanted others.now) xs.now) }
{
    let mut found = Vec::new(alloc);
    for x in xs {
        if is_chosen(side, wanted, others, x) {
            add_copy(alloc, x, &mut found)?;
        }
    }
    Ok(found)
}

/// The parts of the members that have such a part.
pub(crate) fn parts(alloc: Global, side: Side, xs: &[Value]) -> Result<Vec<Value>, OutOfMemory>
    ensures { IfOk result (λ found. found.items ≡ filter_map (part_of side) xs.now) }
{
    let mut found = Vec::new(alloc);
    for x in xs {
        if let Some(part) = part_of(side, x) {
            add_copy(alloc, part, &mut found)?;
        }
    }
    Ok(found)
}

pub(crate) fn pair_of(alloc: Global, a: &Value, b: &Value) -> Result<Value, OutOfMemory>
    ensures { IfOk result (λ v. v ≡ Value.Pair a.now b.now) }
{
    let left = Boxed::new(alloc, a.copy(alloc)?)?;
    let right = Boxed::new(alloc, b.copy(alloc)?)?;
    Ok(Value::Pair(left, right))
}

/// The pairs the other way round.
pub(crate) fn converses(alloc: Global, xs: &[Value]) -> Result<Vec<Value>, OutOfMemory>
    ensures { IfOk result (λ found. found.items ≡ filter_map converse_of xs.now) }
{
    let mut found = Vec::new(alloc);
    for x in xs {
        if let Value::Pair(a, b) = x {
            let pair = pair_of(alloc, b.get(), a.get())?;
            add(pair, &mut found)?;
        }
    }
    Ok(found)
}
