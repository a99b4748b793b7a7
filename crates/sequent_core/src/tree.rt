// Proof trees.
ghost use Rattle.std.specs.Prelude.{◌≡◌, ◌↔◌, ◌-◌, ◌^◌, IsTrue, IfOk, min, sum, map};
ghost use Rattle.std.specs.List.{list_all, list_any};
ghost use Rattle.sequent_core.specs.Trees.{IsTallyOf, is_closed, is_reviewed, node_count, rule_count};

use crate::tally::{LEAF, NONE, Tally};
use formula_core::{List, OutOfMemory};
use rule_table::Rule;
use std::alloc::Global;

/// A proof tree. A leaf is still to be proved.
#[derive(Drop)]
pub enum Tree {
    Leaf,
    Node(Rule, List<Tree>),
}

impl Tree {
    #[cycle(copy)]
    pub fn copy(&self, alloc: Global) -> Result<Tree, OutOfMemory>
        ensures { IfOk result (λ copy. copy ≡ self.now) }
    {
        match self {
            Tree::Leaf => Ok(Tree::Leaf),
            Tree::Node(rule, children) => {
                let rule = rule.copy(alloc)?;
                let children = copy_trees(alloc, children.items())?;
                Ok(Tree::Node(rule, children))
            }
        }
    }

    #[cycle(same)]
    pub fn same(&self, other: &Tree) -> bool
        ensures { IsTrue result ↔ (self.now ≡ other.now) }
    {
        match self {
            Tree::Leaf => match other {
                Tree::Leaf => true,
                _ => false,
            },
            Tree::Node(rule, children) => match other {
                Tree::Node(other_rule, others) => {
                    rule.same(other_rule) && same_trees(children.items(), others.items())
                }
                _ => false,
            },
        }
    }

    pub fn is_leaf(&self) -> bool
        ensures { IsTrue result ↔ (self.now ≡ Tree.Leaf) }
    {
        match self {
            Tree::Leaf => true,
            Tree::Node(_, _) => false,
        }
    }

    /// What one walk through it tells.
    #[cycle(tally)]
    pub fn tally(&self) -> Tally
        ensures { IsTallyOf self.now result }
    {
        match self {
            Tree::Leaf => LEAF,
            Tree::Node(rule, children) => {
                tally_of_all(children.items()).under(rule.kind.is_review())
            }
        }
    }

    /// Whether no leaf is left.
    pub fn is_closed(&self) -> bool
        ensures { result ≡ is_closed self.now }
    {
        self.tally().closed
    }

    /// Whether a review stands in it.
    pub fn is_reviewed(&self) -> bool
        ensures { result ≡ is_reviewed self.now }
    {
        self.tally().reviewed
    }

    /// How many nodes it has, leaves counted, or the greatest `u64` where there are more.
    pub fn node_count(&self) -> u64
        ensures { result ≡ min (node_count self.now) (2 ^ 64 - 1) }
    {
        self.tally().nodes
    }
}

#[cycle(copy)]
fn copy_trees(alloc: Global, items: &[Tree]) -> Result<List<Tree>, OutOfMemory>
    ensures { IfOk result (λ copies. copies ≡ items.now) }
{
    let mut copies = Vec::new(alloc);
    for item in items {
        copies.push(item.copy(alloc)?)?;
    }
    Ok(List::of(copies))
}

#[cycle(same)]
fn same_trees(xs: &[Tree], ys: &[Tree]) -> bool
    ensures { IsTrue result ↔ (xs.now ≡ ys.now) }
{
    if xs.len() != ys.len() {
        return false;
    }
    for i in 0..xs.len() {
        if !xs[i].same(&ys[i]) {
            return false;
        }
    }
    true
}

#[cycle(tally)]
fn tally_of_all(trees: &[Tree]) -> Tally
    ensures nodes { result.nodes ≡ min (sum (map node_count trees.now)) (2 ^ 64 - 1) }
    ensures rules { result.rules ≡ min (sum (map rule_count trees.now)) (2 ^ 64 - 1) }
    ensures closed { result.closed ≡ list_all (λ closed. closed) (map is_closed trees.now) }
    ensures reviewed { result.reviewed ≡ list_any (λ reviewed. reviewed) (map is_reviewed trees.now) }
{
    let mut all = NONE;
    for tree in trees {
        all = all.and(tree.tally());
    }
    all
}
