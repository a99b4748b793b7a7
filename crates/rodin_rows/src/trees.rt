//! What provers answer, told by words.
ghost use Rattle.std.specs.Prelude.{◌<◌, ◌^◌};
ghost use Rattle.sequent_core.specs.Members.{members_of};

use formula_core::{Formula, List, Op, Raw, RawOp, Ty};
use rule_making::make;
use sequent_core::{Attempt, Hint, Rule, Sequent, Tree};
use std::alloc::Global;

/// The number of the rule whose goal is a hypothesis.
const HYP: u8 = 1;

/// The number of the rule whose goal is ⊤.
const TOP: u8 = 2;

/// The number of the rule that proves a predicate, and adds it.
const CUT: u8 = 21;

/// The number of the rule that takes a goal for proved.
const REVIEW: u8 = 23;

// A list of what there is.
fn listed<T: Drop>(alloc: Global, item: Option<T>) -> Option<List<T>> {
    let mut items = Vec::new(alloc);
    match item {
        Some(item) => {
            items.push(item).ok()?;
            Some(List::of(items))
        }
        None => Some(List::of(items)),
    }
}

// The rule of a kind, made of the hypothesis of a number and of a predicate if they are given.
fn rule(
    alloc: Global,
    kind: u8,
    hyp: Option<u32>,
    term: Option<Raw>,
    sequent: &Sequent,
) -> Option<Rule> {
    let terms = listed(alloc, term)?;
    let hint = Hint {
        hyps: listed(alloc, hyp)?,
        multipliers: List::of(Vec::new(alloc)),
        names: List::of(Vec::new(alloc)),
        terms,
        law: 0,
        place: List::of(Vec::new(alloc)),
    };
    make(alloc, kind, &hint, sequent).ok()
}

// A tree of one rule, which has no antecedents.
fn lone(alloc: Global, rule: Rule) -> Tree {
    Tree::Node(rule, List::of(Vec::new(alloc)))
}

// The rule whose goal is ⊤.
fn top(alloc: Global, sequent: &Sequent) -> Option<Rule> {
    let mut other = sequent.copy(alloc).ok()?;
    other.goal = Formula::Node(Op::Top, List::of(Vec::new(alloc)), Ty::Truth);
    rule(alloc, TOP, None, None, &other)
}

// A tree of cuts so deep, each of whose goals is proved by a rule: that of ⊤, and this one.
fn cuts(alloc: Global, depth: u32, cut: &Rule, top: &Rule, last: &Rule) -> Option<Tree> {
    if depth == 0 {
        return Some(lone(alloc, last.copy(alloc).ok()?));
    }
    let mut children = Vec::new(alloc);
    children.push(cuts(alloc, depth - 1, cut, top, top)?).ok()?;
    children.push(cuts(alloc, depth - 1, cut, top, last)?).ok()?;
    Some(Tree::Node(cut.copy(alloc).ok()?, List::of(children)))
}

// Cuts of ⊤ so deep, on a sequent whose goal is the hypothesis of a number.
fn cuts_of(alloc: Global, words: &str, sequent: &Sequent) -> Option<Tree> {
    let (depth, hyp) = words.split_once(' ')?;
    let depth = depth.parse::<u32>().ok()?;
    let hyp = hyp.parse::<u32>().ok()?;
    let truth = Raw::Node(RawOp::Plain(Op::Top), List::of(Vec::new(alloc)), 0);
    let cut = rule(alloc, CUT, None, Some(truth), sequent)?;
    let top = top(alloc, sequent)?;
    let last = rule(alloc, HYP, Some(hyp), None, sequent)?;
    cuts(alloc, depth, &cut, &top, &last)
}

fn tree_of(alloc: Global, answer: &str, sequent: Option<&Sequent>) -> Option<Tree> {
    let sequent = sequent?;
    match answer {
        "review" => Some(lone(alloc, rule(alloc, REVIEW, None, None, sequent)?)),
        _ => match answer.split_once(' ')? {
            ("hyp", hyp) => {
                let hyp = hyp.parse::<u32>().ok()?;
                Some(lone(alloc, rule(alloc, HYP, Some(hyp), None, sequent)?))
            }
            ("cuts", words) => cuts_of(alloc, words, sequent),
            _ => None,
        },
    }
}

// The tree, if there is one.
fn found(tree: Option<Tree>) -> Attempt
    ensures { members_of result < 2 ^ 32 }
{
    match tree {
        Some(tree) => Attempt::found(tree),
        None => Attempt::NoMemory,
    }
}

/// What a prover answers to a sequent by these words. Where no tree can be made, it lacks memory.
pub fn attempt_of(alloc: Global, answer: &str, sequent: Option<&Sequent>) -> Attempt
    ensures { members_of result < 2 ^ 32 }
{
    match answer {
        "none" => Attempt::NoProof,
        "memory" => Attempt::NoMemory,
        "leaf" => Attempt::found(Tree::Leaf),
        _ => found(tree_of(alloc, answer, sequent)),
    }
}
