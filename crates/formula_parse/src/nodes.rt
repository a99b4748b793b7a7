//! Nodes of formulas.

ghost use Rattle.std.specs.Prelude.{◌≡◌, ◌∷◌, ◌++◌, [], IfOk};
ghost use Rattle.formula_core.specs.declared.raw.Raw.TheVariants as raw;
ghost use Rattle.math_grammar.specs.Grammar.{place_of, between, type_with};

use formula_core::{List, Raw, RawBinder, RawBound, RawOp};
use std::alloc::{AllocError, Global};

/// The place of a node.
pub fn place_of(formula: &Raw) -> u32
    ensures { result ≡ place_of formula.now }
{
    match formula {
        Raw::Int(_, place) => *place,
        Raw::Name(_, place) => *place,
        Raw::Node(_, _, place) => *place,
        Raw::Bind(_, _, _, place) => *place,
    }
}

/// A list with one more at its end.
pub fn with<T: Drop>(items: List<T>, item: T) -> Result<List<T>, AllocError>
    ensures { IfOk result (λ all. all ≡ items ++ item ∷ []) }
{
    let mut items = items.into_vec();
    items.push(item)?;
    Ok(List::of(items))
}

pub fn alone<T: Drop>(alloc: Global, item: T) -> Result<List<T>, AllocError>
    ensures { IfOk result (λ all. all ≡ item ∷ []) }
{
    let mut items = Vec::new(alloc);
    items.push(item)?;
    Ok(List::of(items))
}

pub fn node(op: RawOp, parts: List<Raw>, place: u32) -> Raw
    ensures { result ≡ raw.Node op parts place }
{
    Raw::Node(op, parts, place)
}

pub fn bind(binder: RawBinder, names: List<RawBound>, parts: List<Raw>, place: u32) -> Raw
    ensures { result ≡ raw.Bind binder names parts place }
{
    Raw::Bind(binder, names, parts, place)
}

/// Two operands with an operator between them.
pub fn between(alloc: Global, op: RawOp, left: Raw, right: Raw) -> Result<Raw, AllocError>
    ensures { IfOk result (λ r. r ≡ between op left right) }
{
    let place = place_of(&left);
    let left = alone(alloc, left)?;
    let both = with(left, right)?;
    Ok(node(op, both, place))
}

/// A type, or the two sides of one.
pub fn type_with(alloc: Global, side: Option<Raw>, ty: Raw) -> Result<Raw, AllocError>
    ensures { IfOk result (λ r. r ≡ type_with side ty) }
{
    match side {
        Some(left) => between(alloc, RawOp::OfType, left, ty),
        None => Ok(ty),
    }
}
