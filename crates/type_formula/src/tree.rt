//! Written formulas in core form.
ghost use Rattle.std.specs.Prelude.{◌≡◌, IfOk};
ghost use Rattle.type_formula.specs.Bare.{Form, Partition, Binding, Broken, more, plain, typed, has_names};
ghost use Rattle.type_formula.specs.CoreForms.{negated_operation, two};
ghost use Rattle.type_formula.specs.Views.{bare_of, bares_of, bounds_of};

use formula_core::{Binder, Name, Op, OutOfMemory};
use std::alloc::Global;

/// A formula in core form, without types.
#[cycle(tree)]
#[derive(Drop)]
pub enum Tree {
    Number(i128),
    Identifier(Name, u32),
    Form(Op, Box<Trees>),
    Partition(Box<Trees>),
    Binding(Binder, Box<BoundNames>, Box<Trees>),
    Ascribed(Box<Tree>, Box<Tree>),
    Broken(Box<Trees>),
}

/// Formulas in a row.
#[cycle(tree)]
#[derive(Drop)]
pub enum Trees {
    End,
    More(Box<Tree>, Box<Trees>),
}

/// The names of a binder, some of them with their types.
#[cycle(tree)]
#[derive(Drop)]
pub enum BoundNames {
    End,
    Plain(Name, Box<BoundNames>),
    Typed(Name, Box<Tree>, Box<BoundNames>),
}

pub fn form(alloc: Global, op: Op, parts: Trees) -> Result<Tree, OutOfMemory>
    ensures { IfOk result (λ t. bare_of t ≡ Form op (bares_of parts)) }
{
    Ok(Tree::Form(op, Box::new(alloc, parts)?))
}

pub fn before(alloc: Global, first: Tree, rest: Trees) -> Result<Trees, OutOfMemory>
    ensures { IfOk result (λ ts. bares_of ts ≡ more (bare_of first) (bares_of rest)) }
{
    let first = Box::new(alloc, first)?;
    Ok(Trees::More(first, Box::new(alloc, rest)?))
}

pub(crate) fn broken(alloc: Global, parts: Trees) -> Result<Tree, OutOfMemory>
    ensures { IfOk result (λ t. bare_of t ≡ Broken (bares_of parts)) }
{
    Ok(Tree::Broken(Box::new(alloc, parts)?))
}

pub(crate) fn negation(alloc: Global, op: Op, parts: Trees) -> Result<Tree, OutOfMemory>
    ensures { IfOk result (λ t. bare_of t ≡ negated_operation op (bares_of parts)) }
{
    let inner = form(alloc, op, parts)?;
    form(alloc, Op::Not, before(alloc, inner, Trees::End)?)
}

pub(crate) fn partition(alloc: Global, parts: Trees) -> Result<Tree, OutOfMemory>
    ensures { IfOk result (λ t. bare_of t ≡ Partition (bares_of parts)) }
{
    Ok(Tree::Partition(Box::new(alloc, parts)?))
}

pub fn pair(alloc: Global, left: Tree, right: Tree) -> Result<Trees, OutOfMemory>
    ensures { IfOk result (λ ts. bares_of ts ≡ two (bare_of left) (bare_of right)) }
{
    let last = before(alloc, right, Trees::End)?;
    before(alloc, left, last)
}

pub(crate) fn binding(
    alloc: Global,
    binder: Binder,
    names: BoundNames,
    parts: Trees,
) -> Result<Tree, OutOfMemory>
    ensures { IfOk result (λ t. bare_of t ≡ Binding binder (bounds_of names) (bares_of parts)) }
{
    let names = Box::new(alloc, names)?;
    Ok(Tree::Binding(binder, names, Box::new(alloc, parts)?))
}

pub(crate) fn typed_name(
    alloc: Global,
    name: Name,
    ty: Tree,
    rest: BoundNames,
) -> Result<BoundNames, OutOfMemory>
    ensures { IfOk result (λ names. bounds_of names ≡ typed name (bare_of ty) (bounds_of rest)) }
{
    let ty = Box::new(alloc, ty)?;
    Ok(BoundNames::Typed(name, ty, Box::new(alloc, rest)?))
}

pub(crate) fn plain_name(
    alloc: Global,
    name: Name,
    rest: BoundNames,
) -> Result<BoundNames, OutOfMemory>
    ensures { IfOk result (λ names. bounds_of names ≡ plain name (bounds_of rest)) }
{
    Ok(BoundNames::Plain(name, Box::new(alloc, rest)?))
}

pub(crate) fn has_names(names: &BoundNames) -> bool
    ensures { result ≡ has_names (bounds_of names.now) }
{
    match names {
        BoundNames::End => false,
        BoundNames::Plain(_, _) => true,
        BoundNames::Typed(_, _, _) => true,
    }
}
