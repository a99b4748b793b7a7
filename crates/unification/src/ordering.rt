ghost use Rattle.std.specs.Prelude.{◌≡◌, ◌≤◌, ◌<◌, ℕ, [], ◌∷◌, ◌++◌, IfOk, OnOk, IsErrOf, length, slice_set, vec_len};
ghost use Rattle.unification.specs.PrivateGraph.{node_parts, AllParts, IsGraph};
ghost use Rattle.unification.specs.PrivateOrder.{mark_at, sort_of, IsWalk, Advances, AreAbove, HasNoModel, IsOrder, HasModels, HasSorts, HasWrongSort};

use crate::equations::SolveFault;
use crate::graph::{Node, Parts, places_in};
use std::alloc::Global;

/// How far the walk has come at a place.
#[derive(Clone, Copy)]
enum Mark {
    New,
    Open,
    Done,
}

/// All places, each after those of its parts.
pub(crate) fn order_places(alloc: Global, nodes: &[Node]) -> Result<Vec<usize>, SolveFault>
    requires { IsGraph nodes.now }
    ensures ordered { IfOk result (λ order. IsOrder nodes.now order.items) }
    ensures models { OnOk result (HasModels nodes.now) }
    ensures cycle { IsErrOf result SolveFault.NoSolution → HasNoModel nodes.now }
{
    let mut marks = unmarked(alloc, nodes.len())?;
    let mut order = Vec::new(alloc);
    for at in 0..nodes.len() {
        visit(nodes, &mut marks, &mut order, at)?;
    }
    Ok(order)
}

fn unmarked(alloc: Global, count: usize) -> Result<Vec<Mark>, SolveFault>
    ensures long { IfOk result (λ marks. vec_len marks ≡ count) }
    ensures unmarked { IfOk result (λ marks. (k : ℕ) → mark_at marks.items k ≡ Mark.New) }
    ensures full { IsErrOf result SolveFault.NoSolution → ⊥ }
{
    let mut marks = Vec::new(alloc);
    for _ in 0..count {
        marks.push(Mark::New)?;
    }
    Ok(marks)
}

/// Adds the places that a place needs, and then it, to the order.
fn visit(
    nodes: &[Node],
    marks: &mut Vec<Mark>,
    order: &mut Vec<usize>,
    at: usize,
) -> Result<(), SolveFault>
    requires graph { IsGraph nodes.now }
    requires inside { at < length nodes.now }
    requires marked { vec_len marks.old ≡ length nodes.now }
    requires walk { IsWalk nodes.now marks.old.items order.old.items }
    requires above { AreAbove nodes.now marks.old.items at }
    ensures walked { OnOk result (IsWalk nodes.now marks.new.items order.new.items) }
    ensures done { OnOk result (mark_at marks.new.items at ≡ Mark.Done) }
    ensures advanced { OnOk result (Advances marks.old.items marks.new.items) }
    ensures cycle { IsErrOf result SolveFault.NoSolution → HasNoModel nodes.now }
{
    match marks[at] {
        Mark::Done => Ok(()),
        Mark::Open => Err(SolveFault::NoSolution),
        Mark::New => {
            marks[at] = Mark::Open;
            match places_in(&nodes[at]) {
                Parts::Zero => finish(marks, order, at),
                Parts::One(part) => {
                    visit(nodes, marks, order, part)?;
                    finish(marks, order, at)
                }
                Parts::Two(left, right) => {
                    visit(nodes, marks, order, left)?;
                    visit(nodes, marks, order, right)?;
                    finish(marks, order, at)
                }
            }
        }
    }
}

fn finish(marks: &mut Vec<Mark>, order: &mut Vec<usize>, at: usize) -> Result<(), SolveFault>
    requires { at < vec_len marks.old }
    ensures marked { OnOk result (marks.new.items ≡ slice_set marks.old.items at Mark.Done) }
    ensures listed { OnOk result (order.new.items ≡ order.old.items ++ at ∷ []) }
    ensures full { IsErrOf result SolveFault.NoSolution → ⊥ }
{
    order.push(at)?;
    marks[at] = Mark::Done;
    Ok(())
}

/// Refuses places below `count` whose type has the sort of predicates in it.
pub(crate) fn check_sorts(
    alloc: Global,
    nodes: &[Node],
    order: &[usize],
    count: usize,
) -> Result<(), SolveFault>
    requires graph { IsGraph nodes.now }
    requires order { IsOrder nodes.now order.now }
    requires count { count ≤ length nodes.now }
    ensures sorts { OnOk result (HasSorts nodes.now count) }
    ensures refused { IsErrOf result SolveFault.NoSolution → HasWrongSort nodes.now count }
{
    let mut sorts = all_true(alloc, nodes.len())?;
    for at in order {
        let sort = is_proper(&sorts, &nodes[*at]);
        if *at < count && !sort {
            return Err(SolveFault::NoSolution);
        }
        sorts[*at] = sort;
    }
    Ok(())
}

fn all_true(alloc: Global, count: usize) -> Result<Vec<bool>, SolveFault>
    ensures long { IfOk result (λ sorts. vec_len sorts ≡ count) }
    ensures full { IsErrOf result SolveFault.NoSolution → ⊥ }
{
    let mut sorts = Vec::new(alloc);
    for _ in 0..count {
        sorts.push(true)?;
    }
    Ok(sorts)
}

/// Whether a form is that of a type of values, where this is known of its parts.
fn is_proper(sorts: &[bool], node: &Node) -> bool
    requires { AllParts (λ a. a < length sorts.now) (node_parts node.now) }
    ensures { result ≡ sort_of sorts.now node.now }
{
    match node {
        Node::Free => true,
        Node::Int => true,
        Node::Bool => true,
        Node::Truth => false,
        Node::Given(_) => true,
        Node::Pow(part) => sorts[*part],
        Node::Pair(left, right) => sorts[*left] && sorts[*right],
        Node::Same(place) => sorts[*place],
    }
}
