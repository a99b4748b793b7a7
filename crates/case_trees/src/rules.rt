//! Rules that are known to be right, and trees of one rule above others.
ghost use Rattle.std.specs.Prelude.{◌≡◌, IfOk, [], ◌∷◌};
ghost use Rattle.rule_table.specs.Rules.{IsSound, rule_of};

use formula_core::{List, OutOfMemory};
use rule_kernel::used_if_sound;
use rule_table::{Body, Rule, RuleKind};
use sequent_core::Tree;
use std::alloc::Global;

/// The rule of a kind that needs and leaves this.
pub(crate) fn rule_of(alloc: Global, kind: RuleKind, body: Body) -> Result<Rule, OutOfMemory>
    requires sound { IsSound kind body }
    ensures rule { IfOk result (λ r. r ≡ rule_of kind body) }
{
    let Body {
        goal,
        hyps,
        antecedents,
    } = body;
    let mut rule = Rule {
        kind,
        needed_goal: goal,
        needed_hyps: hyps,
        used: List::of(Vec::new(alloc)),
        antecedents,
    };
    match used_if_sound(alloc, &rule)? {
        Some(used) => {
            rule.used = used;
            Ok(rule)
        }
        None => unreachable!(),
    }
}

/// The tree of one rule.
pub(crate) fn alone(alloc: Global, rule: Rule) -> Tree
    ensures tree { result ≡ Tree.Node rule [] }
{
    Tree::Node(rule, List::of(Vec::new(alloc)))
}

/// The tree of a rule above another tree.
pub(crate) fn above(alloc: Global, rule: Rule, tree: Tree) -> Result<Tree, OutOfMemory>
    ensures tree { IfOk result (λ t. t ≡ Tree.Node rule (tree ∷ [])) }
{
    let mut children = Vec::new(alloc);
    children.push(tree)?;
    Ok(Tree::Node(rule, List::of(children)))
}

/// The tree of a rule above two other trees.
pub(crate) fn above_two(
    alloc: Global,
    rule: Rule,
    first: Tree,
    second: Tree,
) -> Result<Tree, OutOfMemory>
    ensures tree { IfOk result (λ t. t ≡ Tree.Node rule (first ∷ second ∷ [])) }
{
    let mut children = Vec::new(alloc);
    children.push(first)?;
    children.push(second)?;
    Ok(Tree::Node(rule, List::of(children)))
}
