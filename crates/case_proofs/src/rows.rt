//! The tree of a formula over those of its ways.
ghost use Rattle.std.specs.Prelude.{◌≡◌, IfOk};
ghost use Rattle.case_proofs.specs.PrivateRows.{AreSound, OneIsSound, TwoIsSound, one_of_one, one_of_two, one_tree, two_of_two, two_tree};
ghost use Rattle.case_trees.specs.Trees.{ContraIsSound, ImpIsSound, contra_tree, imp_tree};

use crate::standing::Said;
use case_trees::{
    and_tree, contra_tree, denied_and_tree, denied_imp_tree, denied_or_tree, denied_tree,
    differ_tree, imp_tree, or_tree, same_tree,
};
use formula_core::{Formula, Op, OutOfMemory};
use sequent_core::Tree;
use std::alloc::Global;

/// Over the tree of its only way.
pub(crate) fn one_tree(alloc: Global, x: &Said, tree: Tree) -> Result<Tree, OutOfMemory>
    requires sound { AreSound x.now }
    ensures { IfOk result (λ t. t ≡ one_tree x.now tree) }
{
    match x.formula {
        Formula::Node(op, parts, _) => match parts.items() {
            [p] => one_of_one(alloc, *op, x.sign, x.formula, p, tree),
            [p, q] => one_of_two(alloc, *op, x.sign, x.formula, p, q, tree),
            _ => Ok(tree),
        },
        _ => Ok(tree),
    }
}

fn one_of_one(
    alloc: Global,
    op: Op,
    sign: bool,
    f: &Formula,
    p: &Formula,
    tree: Tree,
) -> Result<Tree, OutOfMemory>
    requires sound { OneIsSound op sign f.now p.now }
    ensures { IfOk result (λ t. t ≡ one_of_one op sign f.now p.now tree) }
{
    match op {
        Op::Not => {
            if sign {
                Ok(tree)
            } else {
                denied_tree(alloc, 1, f, p, tree)
            }
        }
        _ => Ok(tree),
    }
}

fn one_of_two(
    alloc: Global,
    op: Op,
    sign: bool,
    f: &Formula,
    p: &Formula,
    q: &Formula,
    tree: Tree,
) -> Result<Tree, OutOfMemory>
    requires sound { TwoIsSound op sign f.now p.now q.now }
    ensures { IfOk result (λ t. t ≡ one_of_two op sign f.now p.now q.now tree) }
{
    match op {
        Op::And => {
            if sign {
                and_tree(alloc, f, p, q, tree)
            } else {
                Ok(tree)
            }
        }
        Op::Or => {
            if sign {
                Ok(tree)
            } else {
                denied_or_tree(alloc, f, p, q, tree)
            }
        }
        Op::Implies => {
            if sign {
                Ok(tree)
            } else {
                denied_imp_tree(alloc, f, p, q, tree)
            }
        }
        _ => Ok(tree),
    }
}

/// Over the trees of its two ways.
pub(crate) fn two_tree(
    alloc: Global,
    x: &Said,
    first: Tree,
    second: Tree,
) -> Result<Tree, OutOfMemory>
    requires sound { AreSound x.now }
    ensures { IfOk result (λ t. t ≡ two_tree x.now first second) }
{
    match x.formula {
        Formula::Node(op, parts, _) => match parts.items() {
            [p, q] => two_of_two(alloc, *op, x.sign, x.formula, p, q, first, second),
            _ => Ok(first),
        },
        _ => Ok(first),
    }
}

fn two_of_two(
    alloc: Global,
    op: Op,
    sign: bool,
    f: &Formula,
    p: &Formula,
    q: &Formula,
    first: Tree,
    second: Tree,
) -> Result<Tree, OutOfMemory>
    requires sound { TwoIsSound op sign f.now p.now q.now }
    ensures { IfOk result (λ t. t ≡ two_of_two op sign f.now p.now q.now first second) }
{
    match op {
        Op::And => {
            if sign {
                Ok(first)
            } else {
                denied_and_tree(alloc, f, p, q, first, second)
            }
        }
        Op::Or => {
            if sign {
                or_tree(alloc, f, p, q, first, second)
            } else {
                Ok(first)
            }
        }
        Op::Implies => {
            if sign {
                refuted_imp_tree(alloc, f, p, q, first, second)
            } else {
                Ok(first)
            }
        }
        Op::Equivalent => {
            if sign {
                same_tree(alloc, f, p, q, first, second)
            } else {
                differ_tree(alloc, f, p, q, first, second)
            }
        }
        _ => Ok(first),
    }
}

/// `P ⇒ Q`, over trees that refute `¬P` and Q.
fn refuted_imp_tree(
    alloc: Global,
    f: &Formula,
    p: &Formula,
    q: &Formula,
    first: Tree,
    second: Tree,
) -> Result<Tree, OutOfMemory>
    requires imp { ImpIsSound f.now p.now q.now }
    requires contra { ContraIsSound p.now }
    ensures { IfOk result (λ t. t ≡ imp_tree f.now p.now q.now (contra_tree p.now first) second) }
{
    let shown = contra_tree(alloc, p, first)?;
    imp_tree(alloc, f, p, q, shown, second)
}
