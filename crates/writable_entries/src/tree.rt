// Proof trees that may be written.
ghost use Rattle.std.specs.Prelude.{◌↔◌, IsTrue, length};
ghost use Rattle.std.specs.List.{AllByRecursion};
ghost use Rattle.proof_codec.specs.Rules.{IsFitRule};
ghost use Rattle.proof_codec.specs.ProofTrees.{HasChildren, IsFitTree};
ghost use Rattle.proof_codec.specs.Private.{HasFitRules};

use crate::rule::is_fit_rule;
use rule_table::Rule;
use sequent_core::Tree;

/// The most nodes of a tree.
const MOST_NODES: u64 = 2_048;

pub(crate) fn is_fit_tree(tree: &Tree) -> bool
    ensures { IsTrue result ↔ IsFitTree tree.now }
{
    tree.node_count() <= MOST_NODES && has_fit_rules(tree)
}

#[cycle(rules)]
#[tactic(auto, using(crate::proofs::Nodes::root_decides, crate::proofs::Nodes::leaf_fits))]
fn has_fit_rules(tree: &Tree) -> bool
    ensures { IsTrue result ↔ HasFitRules tree.now }
{
    match tree {
        Tree::Leaf => true,
        Tree::Node(rule, children) => {
            let parts = children.items();
            is_fit_node(rule, parts) && have_fit_rules(parts)
        }
    }
}

#[cycle(rules)]
fn have_fit_rules(trees: &[Tree]) -> bool
    ensures { IsTrue result ↔ AllByRecursion HasFitRules trees.now }
{
    for tree in trees {
        if !has_fit_rules(tree) {
            return false;
        }
    }
    true
}

/// Whether the rule may be written and has a child for each antecedent.
fn is_fit_node(rule: &Rule, children: &[Tree]) -> bool
    ensures { IsTrue result ↔ HasChildren IsFitRule (rule.now, length children.now) }
{
    children.len() == rule.antecedents.items().len() && is_fit_rule(rule)
}
