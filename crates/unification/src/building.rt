ghost use Rattle.std.specs.Prelude.{◌≡◌, ◌≤◌, [], ◌∷◌, ◌++◌, IfOk, OnOk, vec_len, replicate};
ghost use Rattle.unification.specs.Terms.{term_of};
ghost use Rattle.unification.specs.Solutions.{equations_of};
ghost use Rattle.unification.specs.PrivateGraph.{variables_in, variable_count, IsGraph, ExtendsGraph, StandsForTerm, BuildsGraph};

use crate::equations::Equation;
use crate::graph::Node;
use crate::term::Term;
use formula_core::OutOfMemory;
use std::alloc::Global;

/// How many places the variables of the equations take.
pub(crate) fn count_variables(equations: &[Equation]) -> usize
    ensures { result ≡ variables_in (equations_of equations.now) }
{
    let mut count = 0;
    for equation in equations {
        count = count
            .max(equation.left.variables())
            .max(equation.right.variables());
    }
    count
}

pub(crate) fn free_places(alloc: Global, count: usize) -> Result<Vec<Node>, OutOfMemory>
    ensures { IfOk result (λ nodes. nodes.items ≡ replicate count Node.Free) }
{
    let mut nodes = Vec::new(alloc);
    for _ in 0..count {
        nodes.push(Node::Free)?;
    }
    Ok(nodes)
}

fn push(nodes: &mut Vec<Node>, node: Node) -> Result<usize, OutOfMemory>
    ensures place { IfOk result (λ place. place ≡ vec_len nodes.old) }
    ensures pushed { OnOk result (nodes.new.items ≡ nodes.old.items ++ node ∷ []) }
{
    let place = nodes.len();
    nodes.push(node)?;
    Ok(place)
}

/// A place that has the type that the term stands for.
fn place_term(nodes: &mut Vec<Node>, term: Term) -> Result<usize, OutOfMemory>
    requires graph { IsGraph nodes.old.items }
    requires room { variable_count (term_of term) ≤ vec_len nodes.old }
    ensures grown { OnOk result (ExtendsGraph nodes.old.items nodes.new.items) }
    ensures stands { IfOk result (λ place. StandsForTerm nodes.new.items place (term_of term)) }
{
    match term {
        Term::Var(i) => Ok(i as usize),
        Term::Int => push(nodes, Node::Int),
        Term::Bool => push(nodes, Node::Bool),
        Term::Truth => push(nodes, Node::Truth),
        Term::Given(name) => push(nodes, Node::Given(name)),
        Term::Pow(part) => {
            let part = place_term(nodes, Box::into_inner(part))?;
            push(nodes, Node::Pow(part))
        }
        Term::Pair(left, right) => {
            let left = place_term(nodes, Box::into_inner(left))?;
            let right = place_term(nodes, Box::into_inner(right))?;
            push(nodes, Node::Pair(left, right))
        }
    }
}

/// Places both sides of each equation, and gives the pairs of places that are to be of one type.
pub(crate) fn place_equations(
    alloc: Global,
    nodes: &mut Vec<Node>,
    equations: Vec<Equation>,
) -> Result<Vec<(usize, usize)>, OutOfMemory>
    requires graph { IsGraph nodes.old.items }
    requires room { variables_in (equations_of equations.items) ≤ vec_len nodes.old }
    ensures { IfOk result (λ pairs.
        BuildsGraph (equations_of equations.items) nodes.old.items nodes.new.items pairs.items) }
{
    let mut pending = equations;
    let mut pairs = Vec::new(alloc);
    while let Some(equation) = pending.pop() {
        let Equation { left, right } = equation;
        let left = place_term(nodes, left)?;
        let right = place_term(nodes, right)?;
        pairs.push((left, right))?;
    }
    Ok(pairs)
}
