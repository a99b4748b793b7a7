// A rule is put at a leaf.
ghost use Rattle.std.specs.Prelude.{◌≡◌, ◌≤◌, ◌<◌, IfOk, OnOk, OnErr, IsErrOf, None, map};
ghost use Rattle.sequent_core.specs.Trees.{Applies, node_count, at_end, AreFresh};
ghost use Rattle.proof_tree.specs.Ways.{antecedents_of};
ghost use Rattle.proof_steps.specs.Places.{AppliesTo, HasLeaf, grown, if_leaf, leaf_at};
ghost use Rattle.proof_steps.specs.Private.{TellsFit};

use crate::ends::applies_at;
use crate::places::{child_at, put};
use formula_core::{List, OutOfMemory};
use proof_tree::Way;
use sequent_core::{Antecedent, Path, Rule, Sequent, Tree};
use std::alloc::Global;

/// The most nodes of a tree that steps make, leaves counted.
const MOST_NODES: u64 = 2048;

/// Why a step isn't taken.
#[derive(Clone, Copy, Debug, PartialEq, Eq)]
pub enum StepFault {
    /// No leaf stands at the path.
    NoLeaf,
    /// The rule doesn't apply to the sequent at the leaf.
    NoFit,
    /// The tree would have more than 2,048 nodes.
    TreeFull,
    OutOfMemory,
}

impl From<OutOfMemory> for StepFault {
    ghost use Rattle.proof_steps.specs.declared.steps.StepFault.TheVariants.{OutOfMemory};

    ghost from_gives = { λ _ e. e ≡ OutOfMemory };

    fn from(_: OutOfMemory) -> StepFault {
        StepFault::OutOfMemory
    }
}

/// Puts the rule at the leaf of the path, with a leaf for each of its antecedents.
pub fn step(
    tree: &mut Tree,
    alloc: Global,
    sequent: &Sequent,
    path: &Path,
    rule: Rule,
) -> Result<(), StepFault>
    requires applies { Applies tree.old sequent.now }
    ensures grown { OnOk result (tree.new ≡ grown rule path.now tree.old) }
    ensures fits { OnOk result (HasLeaf path.now tree.old sequent.now (AppliesTo rule)) }
    ensures small { OnOk result (node_count tree.new ≤ 2048) }
    ensures applies { OnOk result (Applies tree.new sequent.now) }
    ensures unchanged { OnErr result (tree.new ≡ tree.old) }
    ensures no_leaf { IsErrOf result StepFault.NoLeaf → leaf_at path.now tree.old sequent.now ≡ None }
    ensures leafless { leaf_at path.now tree.old sequent.now ≡ None → IsErrOf result StepFault.NoLeaf }
    ensures no_fit { IsErrOf result StepFault.NoFit → HasLeaf path.now tree.old sequent.now (λ s. ¬ AppliesTo rule s) }
    ensures full { IsErrOf result StepFault.TreeFull → HasLeaf path.now tree.old sequent.now (AppliesTo rule) }
    ensures too_many { IsErrOf result StepFault.TreeFull → 2048 < node_count (grown rule path.now tree.old) }
{
    let leaves = leaves_at(&*tree, alloc, sequent, path, &rule)?;
    put(tree, path.items(), &mut Tree::Node(rule, leaves));
    Ok(())
}

/// The leaves below the rule, where it may be put at the leaf of the path.
fn leaves_at(
    tree: &Tree,
    alloc: Global,
    sequent: &Sequent,
    path: &Path,
    rule: &Rule,
) -> Result<List<Tree>, StepFault>
    requires applies { Applies tree.now sequent.now }
    ensures leaves { IfOk result (λ leaves. leaves ≡ map (λ a. Tree.Leaf) rule.now.antecedents) }
    ensures fits { OnOk result (HasLeaf path.now tree.now sequent.now (AppliesTo rule.now)) }
    ensures small { OnOk result (node_count (grown rule.now path.now tree.now) ≤ 2048) }
    ensures no_leaf { IsErrOf result StepFault.NoLeaf → leaf_at path.now tree.now sequent.now ≡ None }
    ensures leafless { leaf_at path.now tree.now sequent.now ≡ None → IsErrOf result StepFault.NoLeaf }
    ensures no_fit { IsErrOf result StepFault.NoFit
        → HasLeaf path.now tree.now sequent.now (λ s. ¬ AppliesTo rule.now s) }
    ensures full { IsErrOf result StepFault.TreeFull → HasLeaf path.now tree.now sequent.now (AppliesTo rule.now) }
    ensures too_many { IsErrOf result StepFault.TreeFull → 2048 < node_count (grown rule.now path.now tree.now) }
{
    fits_at(tree, alloc, path.items(), &Way::Root, sequent, rule)?;
    let left = rule.antecedents.items().len() as u64;
    if tree.node_count().saturating_add(left) > MOST_NODES {
        return Err(StepFault::TreeFull);
    }
    Ok(leaves_for(alloc, rule.antecedents.items())?)
}

/// Whether a leaf stands at the path below the end of the way, and the rule applies to the sequent there.
fn fits_at(
    tree: &Tree,
    alloc: Global,
    path: &[u32],
    way: &Way<'_>,
    sequent: &Sequent,
    rule: &Rule,
) -> Result<(), StepFault>
    requires fresh { AreFresh (antecedents_of way.now) sequent.now }
    requires applies { Applies tree.now (at_end (antecedents_of way.now) sequent.now) }
    ensures { TellsFit (leaf_at path.now tree.now (at_end (antecedents_of way.now) sequent.now)) rule.now result }
{
    let [at, rest @ ..] = path else {
        return fits_here(tree, alloc, &*way, sequent, rule);
    };
    match child_at(tree, *at) {
        Some((antecedent, child)) => {
            let below = Way::Below(antecedent, &*way);
            fits_at(child, alloc, rest, &below, sequent, rule)
        }
        None => Err(StepFault::NoLeaf),
    }
}

/// Whether the tree at the end of the way is a leaf, and the rule applies to the sequent there.
fn fits_here(
    tree: &Tree,
    alloc: Global,
    way: &Way<'_>,
    sequent: &Sequent,
    rule: &Rule,
) -> Result<(), StepFault>
    requires fresh { AreFresh (antecedents_of way.now) sequent.now }
    ensures { TellsFit (if_leaf tree.now (at_end (antecedents_of way.now) sequent.now)) rule.now result }
{
    if !tree.is_leaf() {
        return Err(StepFault::NoLeaf);
    }
    if !applies_at(&*way, alloc, rule, sequent)? {
        return Err(StepFault::NoFit);
    }
    Ok(())
}

fn leaves_for(alloc: Global, antecedents: &[Antecedent]) -> Result<List<Tree>, OutOfMemory>
    ensures { IfOk result (λ leaves. leaves ≡ map (λ a. Tree.Leaf) antecedents.now) }
{
    let mut leaves = Vec::new(alloc);
    for _ in antecedents {
        leaves.push(Tree::Leaf)?;
    }
    Ok(List::of(leaves))
}
