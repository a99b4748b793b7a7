//! Trees that are put together from their leaves up, and what they are.
ghost use Rattle.std.specs.Prelude.{◌≡◌, ◌<◌};

use crate::making::times_found;
use crate::reading::{path_of, put};
use formula_core::{List, PoName, Steps};
use proof_steps::{StepFault, leaf, prune, step};
use proof_tree::{applies_to, derives, is_good};
use sequent_core::{Obligation, Path, Rule, Sequent, Tree, meets};
use std::alloc::Global;
use std::marker::Brand;
use std::sync::ledger::{Blank, Ledger};

/// Puts the rule over so many of the last trees.
pub fn put_over(trees: &mut Vec<Tree>, rule: Rule, count: usize) -> Option<()> {
    let left = trees.len().checked_sub(count)?;
    let children = List::of(trees.split_off(left).ok()?);
    put(trees, Tree::Node(rule, children)).ok()
}

fn root_rule(tree: &Tree) -> Option<&Rule> {
    match tree {
        Tree::Leaf => None,
        Tree::Node(rule, _) => Some(rule),
    }
}

// Puts the rule of the last tree over this tree, so often.
fn put_again(alloc: Global, trees: &mut Vec<Tree>, times: u32) -> Option<()> {
    for _ in 0..times {
        let rule = root_rule(trees.last()?)?.copy(alloc).ok()?;
        put_over(trees, rule, 1)?;
    }
    Some(())
}

fn put_copy(alloc: Global, trees: &mut Vec<Tree>) -> Option<()> {
    let copy = trees.last()?.copy(alloc).ok()?;
    put(trees, copy).ok()
}

fn drop_last(trees: &mut Vec<Tree>) -> Option<()> {
    trees.pop()?;
    Some(())
}

/// Changes the trees by a word.
pub fn change(alloc: Global, trees: &mut Vec<Tree>, word: &str, parts: &str) -> Option<()> {
    match word {
        "leaf" => put(trees, Tree::Leaf).ok(),
        "copy" => put_copy(alloc, trees),
        "drop" => drop_last(trees),
        "again" => put_again(alloc, trees, parts.parse::<u32>().ok()?),
        _ => None,
    }
}

/// Writes what a tree is: a leaf, closed, reviewed, and how many nodes it has.
pub fn add_marks(tree: &Tree, out: &mut String) -> Option<()> {
    let tally = tree.tally();
    let marks = [
        (tree.is_leaf(), "leaf, "),
        (tally.closed, "closed, "),
        (tally.reviewed, "reviewed, "),
    ];
    for (is_so, word) in marks {
        if is_so {
            out.push_str(word).ok()?;
        }
    }
    write!(out, "{} nodes", tally.nodes).ok()
}

pub fn add_answer(is_so: bool, out: &mut String) -> Option<()> {
    out.push_str(if is_so { "yes" } else { "no" }).ok()
}

/// Writes whether the last two trees are the same.
pub fn add_same(trees: &[Tree], out: &mut String) -> Option<()> {
    match trees {
        [.., one, other] => add_answer(one.same(other), out),
        _ => None,
    }
}

/// Writes how often of so many times the rule of the tree is found to be one.
pub fn add_found(alloc: Global, tree: &Tree, times: u32, out: &mut String) -> Option<()> {
    let found = times_found(alloc, root_rule(tree)?, times)?;
    write!(out, "{found} of {times}").ok()
}

/// Writes whether a leaf is put at the path.
pub fn add_prune(alloc: Global, tree: &mut Tree, path: &str, out: &mut String) -> Option<()> {
    let path = path_of(alloc, path)?;
    let told = match prune(tree, &path) {
        Ok(()) => "done",
        Err(_) => "NoNode",
    };
    write!(out, "{told}, {} nodes", tree.node_count()).ok()
}

// Takes a step of a tree that applies.
fn taken(
    alloc: Global,
    tree: &mut Tree,
    sequent: &Sequent,
    path: &Path,
    rule: Rule,
) -> Option<&'static str> {
    let Ok(true) = applies_to(&*tree, alloc, sequent) else {
        return None;
    };
    Some(match step(tree, alloc, sequent, path, rule) {
        Ok(()) => "done",
        Err(StepFault::NoLeaf) => "NoLeaf",
        Err(StepFault::NoFit) => "NoFit",
        Err(StepFault::TreeFull) => "TreeFull",
        Err(StepFault::OutOfMemory) => "OutOfMemory",
    })
}

/// Takes the last tree away, and writes whether its rule is put at the path of the tree before it.
pub fn add_step(
    alloc: Global,
    trees: &mut Vec<Tree>,
    sequent: &Sequent,
    path: &str,
    out: &mut String,
) -> Option<()> {
    let path = path_of(alloc, path)?;
    let Some(Tree::Node(rule, _)) = trees.pop() else {
        return None;
    };
    let tree = trees.last_mut()?;
    let told = taken(alloc, tree, sequent, &path, rule)?;
    write!(out, "{told}, {} nodes", tree.node_count()).ok()
}

// The sequent at the leaf of the path, with a counter of steps that nobody reads.
fn leaf_counted<L: Ledger>(
    alloc: Global,
    tree: &Tree,
    sequent: &Sequent,
    path: &Path,
    blank: Blank,
) -> Option<Option<Sequent>>
    requires name { blank.name ≡ L.name }
    requires parts { blank.parts ≡ L.parts }
    requires some { 0 < blank.parts }
{
    let mut steps = Steps::<L>::open(blank);
    leaf(tree, alloc, sequent, path, &mut steps).ok()
}

/// Writes how many hypotheses there are at the leaf of the path.
pub fn add_at(
    alloc: Global,
    tree: &Tree,
    sequent: &Sequent,
    path: &str,
    out: &mut String,
) -> Option<()> {
    let path = path_of(alloc, path)?;
    match leaf_counted::<Brand>(alloc, tree, sequent, &path, Blank::new(1))? {
        Some(at) => write!(out, "{}", at.hyps.items().len()).ok(),
        None => out.push_str("no leaf").ok(),
    }
}

/// Writes whether the tree applies to the sequent, derives it, and is good.
pub fn add_told(alloc: Global, tree: &Tree, sequent: &Sequent, out: &mut String) -> Option<()> {
    add_answer(applies_to(tree, alloc, sequent).ok()?, out)?;
    out.push_str(" ").ok()?;
    add_answer(derives(tree, alloc, sequent).ok()?, out)?;
    out.push_str(" ").ok()?;
    add_answer(is_good(tree, alloc, sequent).ok()?, out)
}

/// Writes whether the sequent has what the rule of the tree needs.
pub fn add_met(tree: &Tree, sequent: &Sequent, out: &mut String) -> Option<()> {
    add_answer(meets(root_rule(tree)?, sequent), out)
}

fn obligation(alloc: Global, name: &str, sequent: &Sequent) -> Option<Obligation> {
    let name = PoName::read(alloc, name).ok()?;
    let sequent = sequent.copy(alloc).ok()?;
    Some(Obligation { name, sequent })
}

/// Writes the name of the copy of an obligation.
pub fn add_obligation(
    alloc: Global,
    name: &str,
    sequent: &Sequent,
    out: &mut String,
) -> Option<()> {
    let copy = obligation(alloc, name, sequent)?.copy(alloc).ok()?;
    out.push_str(copy.name.as_text()).ok()
}
