//! Trees that are made step by step.

use crate::items::hint_of;
use crate::reading::path_of;
use formula_core::List;
use proof_steps::{leaf_there, step};
use proof_tree::applies_to;
use rule_making::make;
use sequent_core::{Rule, Sequent, Tree};
use std::alloc::Global;

fn rule_at(
    alloc: Global,
    tree: &Tree,
    sequent: &Sequent,
    path: &List<u32>,
    words: &str,
) -> Option<Rule> {
    let (kind, items) = match words.split_once(' ') {
        Some((kind, items)) => (kind, Some(items)),
        None => (words, None),
    };
    let hint = hint_of(alloc, items)?;
    let Ok(true) = applies_to(tree, alloc, sequent) else {
        return None;
    };
    let at = leaf_there(tree, alloc, sequent, path).ok()??;
    make(alloc, kind.parse::<u8>().ok()?, &hint, &at).ok()
}

// Takes a step of a tree that applies.
fn take_step(alloc: Global, tree: &mut Tree, sequent: &Sequent, text: &str) -> Option<()> {
    let (path, words) = text.split_once(' ')?;
    let path = path_of(alloc, path)?;
    let rule = rule_at(alloc, &*tree, sequent, &path, words)?;
    let Ok(true) = applies_to(&*tree, alloc, sequent) else {
        return None;
    };
    step(tree, alloc, sequent, &path, rule).ok()
}

/// The tree of the steps.
pub fn tree_of(alloc: Global, sequent: &Sequent, steps: &str) -> Option<Tree> {
    let mut tree = Tree::Leaf;
    if steps != "-" {
        for text in steps.split(" ;; ") {
            take_step(alloc, &mut tree, sequent, text)?;
        }
    }
    Some(tree)
}
