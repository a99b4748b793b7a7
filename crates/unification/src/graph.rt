ghost use Rattle.std.specs.Prelude.{◌≡◌, ◌<◌, ℕ, None, Some, slice_set, vec_len};
ghost use Rattle.formula_core.specs.declared.ty.Ty.{Ty};
ghost use Rattle.unification.specs.PrivateGraph.{node_at, link_of, node_parts, IsGraph, Holds, Alike};

use formula_core::Name;
use std::mem;

/// The outermost form of a type, whose parts are places in a list of such forms.
#[derive(Drop)]
pub(crate) enum Node {
    Free,
    Int,
    Bool,
    Truth,
    Given(Name),
    Pow(usize),
    Pair(usize, usize),
    Same(usize),
}

/// The places that a form has in it.
#[derive(Clone, Copy)]
pub(crate) enum Parts {
    Zero,
    One(usize),
    Two(usize, usize),
}

pub(crate) fn places_in(node: &Node) -> Parts
    ensures { result ≡ node_parts node.now }
{
    match node {
        Node::Free => Parts::Zero,
        Node::Int => Parts::Zero,
        Node::Bool => Parts::Zero,
        Node::Truth => Parts::Zero,
        Node::Given(_) => Parts::Zero,
        Node::Pow(part) => Parts::One(*part),
        Node::Pair(left, right) => Parts::Two(*left, *right),
        Node::Same(place) => Parts::One(*place),
    }
}

/// The place whose type a form is said to be.
fn link(node: &Node) -> Option<usize>
    ensures { result ≡ link_of node.now }
{
    match node {
        Node::Same(place) => Some(*place),
        _ => None,
    }
}

pub(crate) fn put(nodes: &mut Vec<Node>, at: usize, node: Node)
    requires { at < vec_len nodes.old }
    ensures { nodes.new.items ≡ slice_set nodes.old.items at node }
{
    nodes[at] = node;
}

/// Says that a place has the type of another one, and gives the form that stood there.
pub(crate) fn replace_by_link(nodes: &mut Vec<Node>, at: usize, to: usize) -> Node
    requires { at < vec_len nodes.old }
    ensures form { result ≡ node_at nodes.old.items at }
    ensures rest { nodes.new.items ≡ slice_set nodes.old.items at (Node.Same to) }
{
    mem::replace(&mut nodes[at], Node::Same(to))
}

/// The place at the end of the links from this one, all of which become shorter.
pub(crate) fn root(nodes: &mut Vec<Node>, from: usize) -> usize
    requires graph { IsGraph nodes.old.items }
    requires inside { from < vec_len nodes.old }
    ensures alike { Alike nodes.old.items nodes.new.items }
    ensures inside { result < vec_len nodes.new }
    ensures last { link_of (node_at nodes.new.items result) ≡ None }
    ensures same { (u : ℕ → Ty) → Holds u nodes.old.items → u from ≡ u result }
{
    let mut at = from;
    while let Some(next) = link(&nodes[at]) {
        shorten(nodes, at, next);
        at = next;
    }
    at
}

/// Where the place linked to is a link itself, links the first to what that one leads to.
fn shorten(nodes: &mut Vec<Node>, at: usize, next: usize)
    requires graph { IsGraph nodes.old.items }
    requires inside { at < vec_len nodes.old }
    requires linked { link_of (node_at nodes.old.items at) ≡ Some next }
    ensures { Alike nodes.old.items nodes.new.items }
{
    if let Some(further) = link(&nodes[next]) {
        put(nodes, at, Node::Same(further));
    }
}
