//! The core form of `partition(S, A1, .., An)`.
ghost use Rattle.std.specs.Prelude.{◌≡◌, ◌++◌, ◌∷◌, [], map, IfOk, OnOk};
ghost use Rattle.formula_core.specs.Wellness.{type_of};
ghost use Rattle.type_formula.specs.Partition.{left_nested, union_of, set_equality, disjoint, all_disjoint, partition_of};

use formula_core::{Formula, List, Op, OutOfMemory, Ty, copy_formulas};
use std::alloc::Global;

pub(crate) fn make_partition(alloc: Global, parts: Vec<Formula>) -> Result<Formula, OutOfMemory>
    ensures { IfOk result (λ f. f ≡ partition_of parts.items) }
{
    match parts.split_first() {
        Some((set, parts)) => partition_into(alloc, set, parts),
        None => Ok(Formula::Node(Op::Top, List::of(Vec::new(alloc)), Ty::Truth)),
    }
}

fn partition_into(alloc: Global, set: &Formula, parts: &[Formula]) -> Result<Formula, OutOfMemory>
    ensures { IfOk result (λ f. f ≡ partition_of (set.now ∷ parts.now)) }
{
    let integer = Ty::Int;
    let ty = set.type_of(&integer);
    let union = make_union(alloc, ty, parts)?;
    let first = make_equal(alloc, set.copy(alloc)?, union)?;
    let mut rest = Vec::new(alloc);
    add_disjoint(alloc, ty, parts, &mut rest)?;
    make_chain(alloc, Op::And, &Ty::Truth, first, rest)
}

fn make_union(alloc: Global, ty: &Ty, parts: &[Formula]) -> Result<Formula, OutOfMemory>
    ensures { IfOk result (λ f. f ≡ union_of ty.now parts.now) }
{
    match parts.split_first() {
        Some((first, rest)) => {
            let rest = copy_formulas(alloc, rest)?;
            make_chain(alloc, Op::Union, ty, first.copy(alloc)?, rest.into_vec())
        }
        None => make_empty(alloc, ty),
    }
}

fn make_empty(alloc: Global, ty: &Ty) -> Result<Formula, OutOfMemory>
    ensures { IfOk result (λ f. f ≡ union_of ty.now []) }
{
    let ty = ty.copy(alloc)?;
    Ok(Formula::Node(Op::EmptySet, List::of(Vec::new(alloc)), ty))
}

fn make_two(
    alloc: Global,
    op: Op,
    left: Formula,
    right: Formula,
    ty: &Ty,
) -> Result<Formula, OutOfMemory>
    ensures { IfOk result (λ f. f ≡ Formula.Node op (left ∷ right ∷ []) ty.now) }
{
    let mut parts = Vec::new(alloc);
    parts.push(left)?;
    parts.push(right)?;
    Ok(Formula::Node(op, List::of(parts), ty.copy(alloc)?))
}

fn make_equal(alloc: Global, left: Formula, right: Formula) -> Result<Formula, OutOfMemory>
    ensures { IfOk result (λ f. f ≡ set_equality left right) }
{
    make_two(alloc, Op::Equal, left, right, &Ty::Truth)
}

/// The formulas joined by an operator, from left to right.
fn make_chain(
    alloc: Global,
    op: Op,
    ty: &Ty,
    first: Formula,
    rest: Vec<Formula>,
) -> Result<Formula, OutOfMemory>
    ensures { IfOk result (λ f. f ≡ left_nested op ty.now first rest.items) }
{
    let mut joined = first;
    for part in rest {
        joined = make_two(alloc, op, joined, part, ty)?;
    }
    Ok(joined)
}

/// Adds that no two of the sets have a member in common.
fn add_disjoint(
    alloc: Global,
    ty: &Ty,
    parts: &[Formula],
    out: &mut Vec<Formula>,
) -> Result<(), OutOfMemory>
    ensures { OnOk result (out.new.items ≡ out.old.items ++ all_disjoint ty.now parts.now) }
{
    match parts.split_first() {
        Some((first, rest)) => {
            add_disjoint_from(alloc, ty, first, rest, out)?;
            add_disjoint(alloc, ty, rest, out)
        }
        None => Ok(()),
    }
}

fn add_disjoint_from(
    alloc: Global,
    ty: &Ty,
    set: &Formula,
    others: &[Formula],
    out: &mut Vec<Formula>,
) -> Result<(), OutOfMemory>
    ensures { OnOk result (out.new.items ≡ out.old.items ++ map (disjoint ty.now set.now) others.now) }
{
    for other in others {
        out.push(make_disjoint(alloc, ty, set, other)?)?;
    }
    Ok(())
}

fn make_disjoint(
    alloc: Global,
    ty: &Ty,
    left: &Formula,
    right: &Formula,
) -> Result<Formula, OutOfMemory>
    ensures { IfOk result (λ f. f ≡ disjoint ty.now left.now right.now) }
{
    let left = left.copy(alloc)?;
    let both = make_two(alloc, Op::Intersection, left, right.copy(alloc)?, ty)?;
    make_equal(alloc, both, make_empty(alloc, ty)?)
}
