ghost use Rattle.std.specs.Prelude.{◌≡◌, ℕ, ◌<◌, ◌≤◌, IfOk, Some, length};
ghost use Rattle.std.specs.Option.{option_copied};
ghost use Rattle.unification.specs.Terms.{term_of};
ghost use Rattle.unification.specs.Known.{type_at, closed_type};
ghost use Rattle.unification.specs.PrivateOrder.{IsOrder, TypeFits};

use crate::graph::Node;
use crate::term::Term;
use formula_core::{Boxed, OutOfMemory, Ty};
use std::alloc::Global;

/// The type of a variable.
pub fn type_of(types: &[Option<Ty>], i: u32) -> Option<&Ty>
    ensures { option_copied result ≡ type_at types.now i }
{
    match types.get(i as usize) {
        Some(found) => found.as_ref(),
        None => None,
    }
}

/// The type that a term stands for, where all its variables have one.
pub fn close(alloc: Global, types: &[Option<Ty>], term: &Term) -> Result<Option<Ty>, OutOfMemory>
    ensures { IfOk result (λ t. t ≡ closed_type types.now (term_of term.now)) }
{
    match term {
        Term::Int => Ok(Some(Ty::Int)),
        Term::Bool => Ok(Some(Ty::Bool)),
        Term::Truth => Ok(Some(Ty::Truth)),
        Term::Given(name) => Ok(Some(Ty::Given(name.copy(alloc)?))),
        Term::Var(i) => match type_of(types, *i) {
            Some(ty) => Ok(Some(ty.copy(alloc)?)),
            None => Ok(None),
        },
        Term::Pow(part) => match close(alloc, types, part)? {
            Some(part) => Ok(Some(Ty::Pow(Boxed::new(alloc, part)?))),
            None => Ok(None),
        },
        Term::Pair(left, right) => match close(alloc, types, left)? {
            Some(left) => match close(alloc, types, right)? {
                Some(right) => pair_type(alloc, left, right),
                None => Ok(None),
            },
            None => Ok(None),
        },
    }
}

fn pair_type(alloc: Global, left: Ty, right: Ty) -> Result<Option<Ty>, OutOfMemory>
    ensures { IfOk result (λ t. t ≡ Some (Ty.Pair left right)) }
{
    let left = Boxed::new(alloc, left)?;
    Ok(Some(Ty::Pair(left, Boxed::new(alloc, right)?)))
}

/// The type that a place has in all solutions, if there is one. It is found, since each place comes after its parts in the order.
fn type_at_place(
    alloc: Global,
    nodes: &[Node],
    order: &[usize],
    place: usize,
) -> Result<Option<Ty>, OutOfMemory>
    requires order { IsOrder nodes.now order.now }
    requires inside { place < length nodes.now }
    ensures { IfOk result (λ t. TypeFits nodes.now place t) }
{
    match &nodes[place] {
        Node::Free => Ok(None),
        Node::Int => Ok(Some(Ty::Int)),
        Node::Bool => Ok(Some(Ty::Bool)),
        Node::Truth => Ok(Some(Ty::Truth)),
        Node::Given(name) => Ok(Some(Ty::Given(name.copy(alloc)?))),
        Node::Pow(part) => match type_at_place(alloc, nodes, order, *part)? {
            Some(part) => Ok(Some(Ty::Pow(Boxed::new(alloc, part)?))),
            None => Ok(None),
        },
        Node::Pair(left, right) => match type_at_place(alloc, nodes, order, *left)? {
            Some(left) => match type_at_place(alloc, nodes, order, *right)? {
                Some(right) => pair_type(alloc, left, right),
                None => Ok(None),
            },
            None => Ok(None),
        },
        Node::Same(other) => type_at_place(alloc, nodes, order, *other),
    }
}

/// The type of each of the first places that has one in all solutions.
pub(crate) fn write_types(
    alloc: Global,
    nodes: &[Node],
    order: &[usize],
    count: usize,
) -> Result<Vec<Option<Ty>>, OutOfMemory>
    requires order { IsOrder nodes.now order.now }
    requires count { count ≤ length nodes.now }
    ensures long { IfOk result (λ types. length types.items ≡ count) }
    ensures types { IfOk result (λ types. (k : ℕ) → k < count → TypeFits nodes.now k (type_at types.items k)) }
{
    let mut types = Vec::new(alloc);
    for place in 0..count {
        types.push(type_at_place(alloc, nodes, order, place)?)?;
    }
    Ok(types)
}
