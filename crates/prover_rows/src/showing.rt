//! Attempts, as they are printed.

use proof_tree::{applies_to, derives};
use rule_words::rule_word;
use sequent_core::{Attempt, RuleKind, Sequent, Tree};
use std::alloc::{AllocError, Global};

/// The most rules of a short proof.
const MOST_RULES_OF_A_SHORT_PROOF: u64 = 8;

/// The most nodes of a tree that is written out.
const MOST_NODES_WRITTEN: u64 = 50;

// allL, exR, cut and cases take a formula that the sequent doesn't give
fn takes_no_formula(kind: &RuleKind) -> bool {
    match kind {
        RuleKind::AllL(_) | RuleKind::ExR(_) | RuleKind::Cut | RuleKind::Cases => false,
        _ => true,
    }
}

#[cycle(plain)]
fn is_plain(tree: &Tree) -> bool {
    match tree {
        Tree::Leaf => true,
        Tree::Node(rule, children) => takes_no_formula(&rule.kind) && are_plain(children.items()),
    }
}

#[cycle(plain)]
fn are_plain(trees: &[Tree]) -> bool {
    for tree in trees {
        if !is_plain(tree) {
            return false;
        }
    }
    true
}

// What a prover's tree is. Each node of a tree that derives is a rule.
fn proof_word(alloc: Global, tree: &Tree, sequent: &Sequent, budget: u32) -> Option<&'static str> {
    if !derives(tree, alloc, sequent).ok()? {
        return Some("no proof");
    }
    let rules = tree.node_count();
    if rules > budget as u64 {
        return Some("over budget");
    }
    if rules <= MOST_RULES_OF_A_SHORT_PROOF && is_plain(tree) {
        return Some("short");
    }
    Some("proved")
}

/// Writes what a prover answered.
pub fn add_proof(
    alloc: Global,
    attempt: &Attempt,
    sequent: &Sequent,
    budget: u32,
    out: &mut String,
) -> Result<(), AllocError> {
    match attempt {
        Attempt::Found(tree) => {
            out.push_str(proof_word(alloc, tree, sequent, budget).unwrap_or("not known"))
        }
        Attempt::NoProof => out.push_str("none"),
        Attempt::NoMemory => out.push_str("no memory"),
    }
}

#[cycle(tree)]
fn add_tree(tree: &Tree, out: &mut String) -> Result<(), AllocError> {
    match tree {
        Tree::Leaf => out.push_str("-"),
        Tree::Node(rule, children) => {
            out.push_str(rule_word(rule.kind.number()))?;
            add_children(children.items(), out)
        }
    }
}

#[cycle(tree)]
fn add_children(trees: &[Tree], out: &mut String) -> Result<(), AllocError> {
    if trees.is_empty() {
        return Ok(());
    }
    out.push_str("(")?;
    for (at, tree) in trees.iter().enumerate() {
        if at > 0 {
            out.push_str(" ")?;
        }
        add_tree(tree, out)?;
    }
    out.push_str(")")
}

// The tree, or how many nodes it has.
fn add_shape(tree: &Tree, out: &mut String) -> Result<(), AllocError> {
    let nodes = tree.node_count();
    if nodes > MOST_NODES_WRITTEN {
        write!(out, "{nodes} nodes")
    } else {
        add_tree(tree, out)
    }
}

// What the checker says of a tree.
fn verdict(alloc: Global, tree: &Tree, sequent: &Sequent) -> Option<&'static str> {
    if !applies_to(tree, alloc, sequent).ok()? {
        return Some(" fails");
    }
    if derives(tree, alloc, sequent).ok()? {
        return Some(" derives");
    }
    Some(" applies")
}

/// Writes what a strategy answered.
pub fn add_outcome(
    alloc: Global,
    attempt: &Attempt,
    sequent: &Sequent,
    out: &mut String,
) -> Result<(), AllocError> {
    match attempt {
        Attempt::Found(tree) => {
            add_shape(tree, out)?;
            out.push_str(verdict(alloc, tree, sequent).unwrap_or(" not known"))
        }
        Attempt::NoProof => out.push_str("none"),
        Attempt::NoMemory => out.push_str("no memory"),
    }
}
