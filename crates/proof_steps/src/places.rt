// Places in trees: a child, and a part that gives way to another one.
ghost use Rattle.std.specs.Prelude.{◌≡◌, ◌↔◌, IsTrue, OnOk, OnErr, IsErr, IsSome, None};
ghost use Rattle.std.specs.Option.{option_map};
ghost use Rattle.sequent_core.specs.declared.sequent.Sequent.{Sequent};
ghost use Rattle.sequent_core.specs.Trees.{Applies};
ghost use Rattle.proof_steps.specs.Places.{change_at, child_after, child_of, put, rule_at};

use formula_core::List;
use sequent_core::{Antecedent, Path, Tree};
use std::mem;

/// No rule stands at the path.
#[derive(Clone, Copy, Debug, PartialEq, Eq)]
pub struct NoNode;

/// Puts a leaf in the place of the rule at the path, with all that stands below it.
pub fn prune(tree: &mut Tree, path: &Path) -> Result<(), NoNode>
    ensures put { OnOk result (tree.new ≡ put path.now Tree.Leaf tree.old) }
    ensures applies { (s : Sequent) → Applies tree.old s → Applies tree.new s }
    ensures unchanged { OnErr result (tree.new ≡ tree.old) }
    ensures no_node { IsErr result ↔ (rule_at path.now tree.old ≡ None) }
{
    if !has_rule(&*tree, path.items()) {
        return Err(NoNode);
    }
    put(tree, path.items(), &mut Tree::Leaf);
    Ok(())
}

/// Whether a rule stands at the path.
fn has_rule(tree: &Tree, path: &[u32]) -> bool
    ensures { IsTrue result ↔ IsSome (rule_at path.now tree.now) }
{
    match tree {
        Tree::Leaf => false,
        Tree::Node(_, children) => match path {
            [] => true,
            [at, rest @ ..] => match children.items().get(*at as usize) {
                Some(child) => has_rule(child, rest),
                None => false,
            },
        },
    }
}

/// Puts a part at the path; where there is no such place, the tree stays.
// The part is swapped in: handed on by value, it would stand in each frame of 2,047 steps down.
#[cycle(put)]
pub(crate) fn put(tree: &mut Tree, path: &[u32], part: &mut Tree)
    ensures { tree.new ≡ put path.now part.old tree.old }
{
    let [at, rest @ ..] = path else {
        mem::swap(tree, part);
        return;
    };
    match mem::replace(tree, Tree::Leaf) {
        Tree::Leaf => {}
        Tree::Node(rule, children) => {
            *tree = Tree::Node(rule, put_below(children, *at as usize, rest, part));
        }
    }
}

/// The trees with a part at the path below the one at a place.
#[cycle(put)]
fn put_below(trees: List<Tree>, at: usize, path: &[u32], part: &mut Tree) -> List<Tree>
    ensures { result ≡ change_at at (put path.now part.old) trees }
{
    let mut trees = trees.into_vec();
    if at >= trees.len() {
        return List::of(trees);
    }
    put(&mut trees[at], path, part);
    List::of(trees)
}

/// A child of the root, after its antecedent.
pub(crate) fn child_at(tree: &Tree, at: u32) -> Option<(&Antecedent, &Tree)>
    ensures { option_map (λ x. (x.0.now, x.1.now)) result ≡ child_of at tree.now }
{
    match tree {
        Tree::Leaf => None,
        Tree::Node(rule, children) => {
            child_after(rule.antecedents.items(), children.items(), at as usize)
        }
    }
}

fn child_after<'a>(
    antecedents: &'a [Antecedent],
    children: &'a [Tree],
    at: usize,
) -> Option<(&'a Antecedent, &'a Tree)>
    ensures { option_map (λ x. (x.0.now, x.1.now)) result ≡ child_after antecedents.now children.now at }
{
    let antecedent = antecedents.get(at)?;
    let child = children.get(at)?;
    Some((antecedent, child))
}
