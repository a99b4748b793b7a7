ghost use Rattle.std.specs.Prelude.{◌≡◌, ◌≢◌, ◌<◌, ℕ, None, IsErrOf, OnOk, vec_len};
ghost use Rattle.formula_core.specs.declared.ty.Ty.{Ty};
ghost use Rattle.unification.specs.PrivateGraph.{node_at, link_of, is_free, meeting_of, AddsPairs, AllSame, AreInside, IsGraph, Holds, Joins, Merges};

use crate::equations::SolveFault;
use crate::graph::{Node, put, replace_by_link, root};

/// What it comes to that two forms are of one type.
#[derive(Clone, Copy)]
pub(crate) enum Meeting {
    Agree,
    Never,
    One(usize, usize),
    Two(usize, usize, usize, usize),
}

fn is_free(node: &Node) -> bool
    ensures { result ≡ is_free node.now }
{
    match node {
        Node::Free => true,
        _ => false,
    }
}

fn meet(known: &Node, other: &Node) -> Meeting
    ensures { result ≡ meeting_of known.now other.now }
{
    match other {
        Node::Free => Meeting::Agree,
        Node::Int => match known {
            Node::Int => Meeting::Agree,
            _ => Meeting::Never,
        },
        Node::Bool => match known {
            Node::Bool => Meeting::Agree,
            _ => Meeting::Never,
        },
        Node::Truth => match known {
            Node::Truth => Meeting::Agree,
            _ => Meeting::Never,
        },
        Node::Given(b) => match known {
            Node::Given(a) => {
                if a.same(b) {
                    Meeting::Agree
                } else {
                    Meeting::Never
                }
            }
            _ => Meeting::Never,
        },
        Node::Pow(b) => match known {
            Node::Pow(a) => Meeting::One(*a, *b),
            _ => Meeting::Never,
        },
        Node::Pair(c, d) => match known {
            Node::Pair(a, b) => Meeting::Two(*a, *c, *b, *d),
            _ => Meeting::Never,
        },
        Node::Same(_) => Meeting::Never,
    }
}

/// Adds the pairs of parts that are to be of one type.
fn add_pairs(pairs: &mut Vec<(usize, usize)>, meeting: Meeting) -> Result<(), SolveFault>
    ensures added { OnOk result (AddsPairs meeting pairs.old.items pairs.new.items) }
    ensures refused { IsErrOf result SolveFault.NoSolution → meeting ≡ Meeting.Never }
{
    match meeting {
        Meeting::Agree => Ok(()),
        Meeting::Never => Err(SolveFault::NoSolution),
        Meeting::One(a, b) => {
            pairs.push((a, b))?;
            Ok(())
        }
        Meeting::Two(a, b, c, d) => {
            pairs.push((a, b))?;
            pairs.push((c, d))?;
            Ok(())
        }
    }
}

/// Makes two places one, and adds what that asks of their parts.
fn join(
    nodes: &mut Vec<Node>,
    pairs: &mut Vec<(usize, usize)>,
    low: usize,
    high: usize,
) -> Result<(), SolveFault>
    requires graph { IsGraph nodes.old.items }
    requires below { low < high }
    requires inside { high < vec_len nodes.old }
    requires low_last { link_of (node_at nodes.old.items low) ≡ None }
    requires high_last { link_of (node_at nodes.old.items high) ≡ None }
    requires pairs_inside { AreInside (vec_len nodes.old) pairs.old.items }
    ensures joined { OnOk result (Joins low high nodes.old.items pairs.old.items nodes.new.items pairs.new.items) }
    ensures refused { IsErrOf result SolveFault.NoSolution → (u : ℕ → Ty) → Holds u nodes.old.items → u low ≢ u high }
{
    let form = replace_by_link(nodes, high, low);
    if is_free(&nodes[low]) {
        put(nodes, low, form);
        return Ok(());
    }
    add_pairs(pairs, meet(&nodes[low], &form))
}

/// Makes the two places of each pair one, and so on with their parts.
pub(crate) fn merge(
    nodes: &mut Vec<Node>,
    pairs: &mut Vec<(usize, usize)>,
) -> Result<(), SolveFault>
    requires graph { IsGraph nodes.old.items }
    requires inside { AreInside (vec_len nodes.old) pairs.old.items }
    ensures merged { OnOk result (Merges nodes.old.items pairs.old.items nodes.new.items) }
    ensures refused { IsErrOf result SolveFault.NoSolution → (u : ℕ → Ty) → Holds u nodes.old.items
        → AllSame u pairs.old.items → ⊥ }
{
    while let Some(pair) = pairs.pop() {
        let left = root(nodes, pair.0);
        let right = root(nodes, pair.1);
        if left < right {
            join(nodes, pairs, left, right)?;
        } else if right < left {
            join(nodes, pairs, right, left)?;
        }
    }
    Ok(())
}
