//! Names that are bound.

ghost use Rattle.std.specs.Prelude.{◌≡◌, ◌∷◌, ◌++◌, [], IfOk, Some, None};
ghost use Rattle.math_grammar.specs.Grammar.{bound, lone, joined_shape};
ghost use Rattle.formula_parse.specs.Machine.{plain_name_of, with_type, typed_name_of, bound_from, with_declared, bounds_from};
ghost use Rattle.formula_parse.specs.PrivateView.{MatchesName, MatchesTypedName, Two, ref_of};

use crate::nodes::{alone, between, with};
use formula_core::{Boxed, List, Name, Op, OutOfMemory, Raw, RawBound, RawOp, Ref};
use math_grammar::Shape;
use std::alloc::{AllocError, Global};

/// A name with its place and its type.
#[derive(Drop)]
pub struct TypedName {
    pub name: Name,
    pub place: u32,
    pub ty: Raw,
}

/// The name that a formula is.
pub fn name_of(formula: Raw) -> Option<Ref>
    ensures { MatchesName result (plain_name_of formula) }
{
    match formula {
        Raw::Name(name, place) => Some(Ref { name, place }),
        _ => None,
    }
}

/// The two parts of a node that has two.
fn two(parts: List<Raw>) -> Option<(Raw, Raw)>
    ensures { Two result parts }
{
    let mut parts = parts.into_vec();
    if parts.len() != 2 {
        return None;
    }
    match (parts.pop(), parts.pop()) {
        (Some(second), Some(first)) => Some((first, second)),
        _ => None,
    }
}

fn with_type(name: Option<Ref>, ty: Raw) -> Option<TypedName>
    ensures { MatchesTypedName result (with_type (ref_of name) ty) }
{
    match name {
        Some(Ref { name, place }) => Some(TypedName { name, place, ty }),
        None => None,
    }
}

/// The name with a type that a formula is.
pub fn typed_name_of(formula: Raw) -> Option<TypedName>
    ensures { MatchesTypedName result (typed_name_of formula) }
{
    match formula {
        Raw::Node(_, parts, _) => match two(parts) {
            Some((first, second)) => with_type(name_of(first), second),
            None => None,
        },
        _ => None,
    }
}

pub fn untyped(name: Name, place: u32) -> RawBound
    ensures { result ≡ bound name place None }
{
    RawBound {
        name,
        ty: None,
        place,
    }
}

pub fn typed(alloc: Global, name: Name, place: u32, ty: Raw) -> Result<RawBound, AllocError>
    ensures { IfOk result (λ b. b ≡ bound name place (Some ty)) }
{
    let ty = Boxed::new(alloc, ty)?;
    Ok(RawBound {
        name,
        ty: Some(ty),
        place,
    })
}

/// What a formula declares.
pub fn bound_of(alloc: Global, formula: Raw) -> Result<Option<RawBound>, AllocError>
    ensures { IfOk result (λ b. b ≡ bound_from formula) }
{
    match formula {
        Raw::Name(name, place) => Ok(Some(untyped(name, place))),
        other => match typed_name_of(other) {
            Some(TypedName { name, place, ty }) => Ok(Some(typed(alloc, name, place, ty)?)),
            None => Ok(None),
        },
    }
}

fn with_declared(
    alloc: Global,
    bounds: Option<List<RawBound>>,
    formula: Raw,
) -> Result<Option<List<RawBound>>, AllocError>
    ensures { IfOk result (λ bs. bs ≡ with_declared bounds formula) }
{
    match (bounds, bound_of(alloc, formula)?) {
        (Some(bounds), Some(bound)) => Ok(Some(with(bounds, bound)?)),
        _ => Ok(None),
    }
}

/// What the formulas of a list declare.
pub fn bounds_of(alloc: Global, formulas: List<Raw>) -> Result<Option<List<RawBound>>, AllocError>
    ensures { IfOk result (λ bs. bs ≡ bounds_from formulas) }
{
    let mut bounds = Some(List::of(Vec::new(alloc)));
    for formula in formulas.into_vec() {
        bounds = with_declared(alloc, bounds, formula)?;
    }
    Ok(bounds)
}

/// The shape of a name in a pattern.
pub fn lone(alloc: Global, name: Name, place: u32, ty: Option<Raw>) -> Result<Shape, OutOfMemory>
    ensures { IfOk result (λ a. a ≡ lone name place ty) }
{
    let again = name.copy(alloc)?;
    let bound = match ty {
        Some(ty) => typed(alloc, again, place, ty)?,
        None => untyped(again, place),
    };
    Ok(Shape {
        names: alone(alloc, bound)?,
        tree: Raw::Name(name, place),
    })
}

/// A pattern behind what stands before it.
pub fn joined(alloc: Global, before: Option<Shape>, shape: Shape) -> Result<Shape, AllocError>
    ensures { IfOk result (λ a. a ≡ joined_shape before shape) }
{
    match before {
        None => Ok(shape),
        Some(before) => {
            let names = appended(before.names, shape.names)?;
            let tree = between(alloc, RawOp::Plain(Op::Maplet), before.tree, shape.tree)?;
            Ok(Shape { names, tree })
        }
    }
}

fn appended(first: List<RawBound>, second: List<RawBound>) -> Result<List<RawBound>, AllocError>
    ensures { IfOk result (λ all. all ≡ first ++ second) }
{
    let mut all = first.into_vec();
    let mut second = second.into_vec();
    all.append(&mut second)?;
    Ok(List::of(all))
}
