//! The core forms of the operators of the grammar.
ghost use Rattle.std.specs.Prelude.{◌≡◌, IfOk};
ghost use Rattle.type_formula.specs.Bare.{more};
ghost use Rattle.type_formula.specs.CoreForms.{core_of_form, core_of_lambda, turned, ascribed, two};
ghost use Rattle.type_formula.specs.Views.{bare_of, bares_of, bounds_of};

use crate::tree::{
    BoundNames, Tree, Trees, before, binding, broken, form, negation, pair, partition,
};
use formula_core::{Binder, Op, OutOfMemory, RawOp};
use std::alloc::Global;

pub(crate) fn make_form(alloc: Global, op: RawOp, parts: Trees) -> Result<Tree, OutOfMemory>
    ensures { IfOk result (λ t. bare_of t ≡ core_of_form op (bares_of parts)) }
{
    match op {
        RawOp::Plain(op) => form(alloc, op, parts),
        RawOp::NotEqual => negation(alloc, Op::Equal, parts),
        RawOp::NotMember => negation(alloc, Op::Member, parts),
        RawOp::NotProperSubset => negation(alloc, Op::ProperSubset, parts),
        RawOp::NotSubset => negation(alloc, Op::Subset, parts),
        RawOp::Greater => form(alloc, Op::Less, turn(alloc, parts)?),
        RawOp::GreaterOrEqual => form(alloc, Op::LessOrEqual, turn(alloc, parts)?),
        RawOp::BackwardComposition => form(alloc, Op::Composition, turn(alloc, parts)?),
        RawOp::Partition => partition(alloc, parts),
        RawOp::OfType => ascribe(alloc, parts),
    }
}

/// Two parts, turned, as the sides of a comparison are.
pub(crate) fn turn(alloc: Global, parts: Trees) -> Result<Trees, OutOfMemory>
    ensures { IfOk result (λ ts. bares_of ts ≡ turned (bares_of parts)) }
{
    match parts {
        Trees::End => Ok(Trees::End),
        Trees::More(first, rest) => {
            turn_two(alloc, Box::into_inner(first), Box::into_inner(rest))
        }
    }
}

fn turn_two(alloc: Global, first: Tree, rest: Trees) -> Result<Trees, OutOfMemory>
    ensures { IfOk result (λ ts. bares_of ts ≡ turned (more (bare_of first) (bares_of rest))) }
{
    match rest {
        Trees::End => before(alloc, first, Trees::End),
        Trees::More(second, last) => match Box::into_inner(last) {
            Trees::End => {
                let last = before(alloc, first, Trees::End)?;
                before(alloc, Box::into_inner(second), last)
            }
            Trees::More(third, others) => {
                let others = before(alloc, Box::into_inner(third), Box::into_inner(others))?;
                let others = before(alloc, Box::into_inner(second), others)?;
                before(alloc, first, others)
            }
        },
    }
}

/// `E ⦂ T`.
fn ascribe(alloc: Global, parts: Trees) -> Result<Tree, OutOfMemory>
    ensures { IfOk result (λ t. bare_of t ≡ ascribed (bares_of parts)) }
{
    match parts {
        Trees::End => broken(alloc, Trees::End),
        Trees::More(first, rest) => {
            ascribe_rest(alloc, Box::into_inner(first), Box::into_inner(rest))
        }
    }
}

fn ascribe_rest(alloc: Global, first: Tree, rest: Trees) -> Result<Tree, OutOfMemory>
    ensures { IfOk result (λ t. bare_of t ≡ ascribed (more (bare_of first) (bares_of rest))) }
{
    match rest {
        Trees::End => broken(alloc, before(alloc, first, Trees::End)?),
        Trees::More(second, last) => match Box::into_inner(last) {
            Trees::End => Ok(Tree::Ascribed(Box::new(alloc, first)?, second)),
            Trees::More(third, others) => {
                let others = before(alloc, Box::into_inner(third), Box::into_inner(others))?;
                let others = before(alloc, Box::into_inner(second), others)?;
                broken(alloc, before(alloc, first, others)?)
            }
        },
    }
}

/// `λp·P∣E` as `{names·P∣p ↦ E}`.
pub(crate) fn lambda(alloc: Global, names: BoundNames, parts: Trees) -> Result<Tree, OutOfMemory>
    ensures { IfOk result (λ t. bare_of t ≡ core_of_lambda (bounds_of names) (bares_of parts)) }
{
    match parts {
        Trees::End => broken(alloc, Trees::End),
        Trees::More(first, rest) => {
            lambda_from(alloc, names, Box::into_inner(first), Box::into_inner(rest))
        }
    }
}

fn lambda_from(
    alloc: Global,
    names: BoundNames,
    pattern: Tree,
    rest: Trees,
) -> Result<Tree, OutOfMemory>
    ensures { IfOk result (λ t. bare_of t ≡ core_of_lambda (bounds_of names) (more (bare_of pattern) (bares_of rest))) }
{
    match rest {
        Trees::End => broken(alloc, before(alloc, pattern, Trees::End)?),
        Trees::More(second, last) => lambda_of(
            alloc,
            names,
            pattern,
            Box::into_inner(second),
            Box::into_inner(last),
        ),
    }
}

fn lambda_of(
    alloc: Global,
    names: BoundNames,
    pattern: Tree,
    condition: Tree,
    rest: Trees,
) -> Result<Tree, OutOfMemory>
    ensures { IfOk result (λ t. bare_of t
        ≡ core_of_lambda (bounds_of names) (more (bare_of pattern) (more (bare_of condition) (bares_of rest)))) }
{
    match rest {
        Trees::End => {
            let rest = before(alloc, condition, Trees::End)?;
            broken(alloc, before(alloc, pattern, rest)?)
        }
        Trees::More(value, last) => match Box::into_inner(last) {
            Trees::End => { make_lambda(alloc, names, pattern, condition, Box::into_inner(value)) }
            Trees::More(fourth, others) => {
                let rest = before(alloc, Box::into_inner(fourth), Box::into_inner(others))?;
                let rest = before(alloc, Box::into_inner(value), rest)?;
                let rest = before(alloc, condition, rest)?;
                broken(alloc, before(alloc, pattern, rest)?)
            }
        },
    }
}

fn make_lambda(
    alloc: Global,
    names: BoundNames,
    pattern: Tree,
    condition: Tree,
    value: Tree,
) -> Result<Tree, OutOfMemory>
    ensures { IfOk result (λ t. bare_of t
        ≡ core_of_lambda (bounds_of names) (more (bare_of pattern) (two (bare_of condition) (bare_of value)))) }
{
    let member = form(alloc, Op::Maplet, pair(alloc, pattern, value)?)?;
    binding(
        alloc,
        Binder::Comprehension,
        names,
        pair(alloc, condition, member)?,
    )
}
