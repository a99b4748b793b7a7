// What a proof tree asks of a sequent, gathered from the root down.
ghost use Rattle.std.specs.Prelude.{◌≡◌, ◌↔◌, None, IfOk, OnOk, IfSome};
ghost use Rattle.sequent_core.specs.declared.sequent.Sequent.{Sequent};
ghost use Rattle.sequent_core.specs.PrivateChildren.{EachApplies};
ghost use Rattle.sequent_core.specs.Sequents.{IsSequent};
ghost use Rattle.sequent_core.specs.Trees.{Applies, IsFresh, extended};
ghost use Rattle.proof_deps.specs.Deps.{AreDepsOf};
ghost use Rattle.proof_deps.specs.Private.{antecedents_on, Narrows};

use crate::deps::Deps;
use crate::found::Found;
use crate::settle::settled;
use crate::way::Way;
use formula_core::OutOfMemory;
use rule_kernel::is_rule;
use sequent_core::{Antecedent, Tree};
use std::alloc::Global;

/// What the tree asks of a sequent, or `None` where it applies to no sequent.
pub fn of(alloc: Global, tree: &Tree) -> Result<Option<Deps>, OutOfMemory>
    ensures deps { IfOk result (λ found. IfSome found (AreDepsOf tree.now)) }
    ensures none { IfOk result (λ found. (found ≡ None) ↔ ((s : Sequent) → IsSequent s → Applies tree.now s → ⊥)) }
{
    let mut found = Found::new(alloc);
    gather(alloc, tree, &Way::Root, &mut found)?;
    settled(alloc, found)
}

#[cycle(gather)]
fn gather(alloc: Global, tree: &Tree, way: &Way<'_>, found: &mut Found) -> Result<(), OutOfMemory>
    ensures { OnOk result (Narrows (antecedents_on way.now) (Applies tree.now) found.old found.new) }
{
    match tree {
        Tree::Leaf => Ok(()),
        Tree::Node(rule, children) => {
            if !is_rule(alloc, rule)? {
                found.possible = false;
                return Ok(());
            }
            found.need_rule(alloc, rule, &*way)?;
            gather_each(
                alloc,
                children.items(),
                rule.antecedents.items(),
                &*way,
                found,
            )?;
            Ok(())
        }
    }
}

#[cycle(gather)]
fn gather_each(
    alloc: Global,
    trees: &[Tree],
    antecedents: &[Antecedent],
    way: &Way<'_>,
    found: &mut Found,
) -> Result<(), OutOfMemory>
    ensures { OnOk result (Narrows (antecedents_on way.now)
        (EachApplies trees.now antecedents.now) found.old found.new) }
{
    if trees.len() != antecedents.len() {
        found.possible = false;
        return Ok(());
    }
    for i in 0..trees.len() {
        gather_below(alloc, &trees[i], &antecedents[i], &*way, found)?;
    }
    Ok(())
}

#[cycle(gather)]
fn gather_below(
    alloc: Global,
    tree: &Tree,
    antecedent: &Antecedent,
    way: &Way<'_>,
    found: &mut Found,
) -> Result<(), OutOfMemory>
    ensures { OnOk result (Narrows (antecedents_on way.now)
        (λ s. IsFresh s antecedent.now × Applies tree.now (extended s antecedent.now)) found.old found.new) }
{
    found.need_fresh(alloc, antecedent.idents.items(), &*way)?;
    let below = Way::Below(&*antecedent, &*way);
    gather(alloc, tree, &below, found)?;
    Ok(())
}
