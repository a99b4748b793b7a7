//! Trees that grow at their leaves, from left to right.
ghost use Rattle.std.specs.Prelude.{◌≡◌, ◌≤◌, IfOk};
ghost use Rattle.formula_core.specs.Env.{HasDistinctNames};
ghost use Rattle.proof_steps.specs.Private.{HaveDistinctIdentifiers};
ghost use Rattle.sequent_core.specs.PrivateChildren.{EachApplies};
ghost use Rattle.sequent_core.specs.Trees.{Applies, IsFresh, extended, node_count, rule_count};
ghost use Rattle.proof_strategies.specs.Private.{HasGrown, HaveGrown, IsPlacedWithin, WasTried};

use crate::ends::extended;
use crate::room::{Room, Times};
use crate::strategy::Strategy;
use formula_core::{List, OutOfMemory};
use sequent_core::{Antecedent, Attempt, Sequent, Tree};
use std::alloc::Global;

/// What makes a tree grow: a strategy that is run at its leaves, and how often.
#[derive_where(Clone, Copy)]
pub(crate) struct Grower<'a, S> {
    pub strategy: &'a S,
    pub times: Times,
}

/// The tree with what the strategy gives at its leaves. The room is what is left of it afterwards.
#[cycle(grow)]
pub(crate) fn grow<S: Strategy>(
    tree: &Tree,
    alloc: Global,
    sequent: &Sequent,
    grower: &Grower<'_, S>,
    room: &mut Room,
) -> Result<Tree, OutOfMemory>
    requires applies { Applies tree.now sequent.now }
    requires most { room.old.rules ≤ 2000 }
    ensures { IfOk result (λ new.
        HasGrown (S.gives grower.now.strategy.now) grower.now.times tree.now sequent.now room.old new room.new) }
{
    match tree {
        Tree::Leaf => grow_leaf(alloc, sequent, grower, room),
        Tree::Node(rule, children) => {
            let antecedents = rule.antecedents.items();
            let grown = grow_each(children.items(), antecedents, alloc, sequent, grower, room)?;
            let rule = rule.copy(alloc)?;
            Ok(Tree::Node(rule, grown))
        }
    }
}

/// The trees below antecedents with what the strategy gives at their leaves.
#[cycle(grow)]
fn grow_each<S: Strategy>(
    trees: &[Tree],
    antecedents: &[Antecedent],
    alloc: Global,
    sequent: &Sequent,
    grower: &Grower<'_, S>,
    room: &mut Room,
) -> Result<List<Tree>, OutOfMemory>
    requires apply { EachApplies trees.now antecedents.now sequent.now }
    requires distinct { HaveDistinctIdentifiers antecedents.now }
    requires most { room.old.rules ≤ 2000 }
    ensures { IfOk result (λ new. HaveGrown (S.gives grower.now.strategy.now) grower.now.times
        trees.now antecedents.now sequent.now room.old new room.new) }
{
    let mut grown = Vec::new(alloc);
    for i in 0..trees.len() {
        let tree = grow_below(&trees[i], &antecedents[i], alloc, sequent, grower, room)?;
        grown.push(tree)?;
    }
    Ok(List::of(grown))
}

/// The tree below an antecedent with what the strategy gives at its leaves.
#[cycle(grow)]
fn grow_below<S: Strategy>(
    tree: &Tree,
    antecedent: &Antecedent,
    alloc: Global,
    sequent: &Sequent,
    grower: &Grower<'_, S>,
    room: &mut Room,
) -> Result<Tree, OutOfMemory>
    requires fresh { IsFresh sequent.now antecedent.now }
    requires distinct { HasDistinctNames antecedent.now.idents }
    requires applies { Applies tree.now (extended sequent.now antecedent.now) }
    requires most { room.old.rules ≤ 2000 }
    ensures { IfOk result (λ new. HasGrown (S.gives grower.now.strategy.now) grower.now.times
        tree.now (extended sequent.now antecedent.now) room.old new room.new) }
{
    let below = extended(alloc, sequent, antecedent)?;
    grow(tree, alloc, &below, grower, room)
}

/// What comes of a leaf.
#[cycle(grow)]
fn grow_leaf<S: Strategy>(
    alloc: Global,
    sequent: &Sequent,
    grower: &Grower<'_, S>,
    room: &mut Room,
) -> Result<Tree, OutOfMemory>
    requires most { room.old.rules ≤ 2000 }
    ensures { IfOk result (λ new.
        HasGrown (S.gives grower.now.strategy.now) grower.now.times Tree.Leaf sequent.now room.old new room.new) }
{
    let Some(tree) = tried(alloc, sequent, grower.strategy, room)? else {
        return Ok(Tree::Leaf);
    };
    match grower.times {
        Times::Once => Ok(tree),
        Times::Again => grow(&tree, alloc, sequent, grower, room),
    }
}

/// What the strategy gives at a leaf, where there is room for it.
fn tried<S: Strategy>(
    alloc: Global,
    sequent: &Sequent,
    strategy: &S,
    room: &mut Room,
) -> Result<Option<Tree>, OutOfMemory>
    requires most { room.old.rules ≤ 2000 }
    ensures { IfOk result (λ o. WasTried (S.gives strategy.now) sequent.now room.old o room.new) }
{
    if room.rules == 0 {
        return Ok(None);
    }
    match strategy.run(alloc, sequent, room.rules) {
        Attempt::Found(tree) => Ok(placed(tree, room)),
        Attempt::NoProof => Ok(None),
        Attempt::NoMemory => Err(OutOfMemory),
    }
}

/// The tree, where it has a rule and there is room for its nodes; where it has too many, nothing has room any more.
fn placed(tree: Tree, room: &mut Room) -> Option<Tree>
    requires rules { rule_count tree ≤ room.old.rules }
    ensures { IsPlacedWithin tree room.old result room.new }
{
    if tree.is_leaf() {
        return None;
    }
    let tally = tree.tally();
    if tally.nodes > room.nodes as u64 + 1 {
        room.rules = 0;
        return None;
    }
    room.rules -= tally.rules as u32;
    room.nodes = (room.nodes as u64 + 1 - tally.nodes) as u32;
    Some(tree)
}
