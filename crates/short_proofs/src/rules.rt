//! Rules that are known to be right, and trees of one rule.
ghost use Rattle.std.specs.Prelude.{◌≡◌, IfOk, [], ◌∷◌};
ghost use Rattle.rule_table.specs.Rows.{adds, backward, forward, proves};
ghost use Rattle.rule_table.specs.Rules.{IsSound, rule_of};

use formula_core::{Formula, List, OutOfMemory};
use rule_kernel::used_if_sound;
use rule_table::{Body, Rule, RuleKind, adds_one, backward, forward_one, one_left, proves};
use sequent_core::Tree;
use std::alloc::Global;

/// The rule of a kind that needs and leaves this.
pub(crate) fn rule_of(alloc: Global, kind: RuleKind, body: Body) -> Result<Rule, OutOfMemory>
    requires sound { IsSound kind body }
    ensures rule { IfOk result (λ r. r ≡ rule_of kind body) }
{
    let Body {
        goal,
        hyps,
        antecedents,
    } = body;
    let mut rule = Rule {
        kind,
        needed_goal: goal,
        needed_hyps: hyps,
        used: List::of(Vec::new(alloc)),
        antecedents,
    };
    match used_if_sound(alloc, &rule)? {
        Some(used) => {
            rule.used = used;
            Ok(rule)
        }
        None => unreachable!(),
    }
}

/// The rule that rewrites a goal by a law.
pub(crate) fn goal_by_law(
    alloc: Global,
    law: u8,
    goal: &Formula,
    new: Formula,
) -> Result<Rule, OutOfMemory>
    requires sound { IsSound (RuleKind.RwGoal law []) (backward goal.now (proves new ∷ [])) }
    ensures rule { IfOk result (λ r. r ≡ rule_of (RuleKind.RwGoal law []) (backward goal.now (proves new ∷ []))) }
{
    let left = one_left(alloc, proves(alloc, new))?;
    let body = backward(alloc, goal, left)?;
    let place = List::of(Vec::new(alloc));
    rule_of(alloc, RuleKind::RwGoal(law, place), body)
}

/// The rule that rewrites a hypothesis by a law.
pub(crate) fn hyp_by_law(
    alloc: Global,
    law: u8,
    hyp: &Formula,
    new: Formula,
) -> Result<Rule, OutOfMemory>
    requires sound { IsSound (RuleKind.RwHyp law []) (forward (hyp.now ∷ []) (adds (new ∷ []) ∷ [])) }
    ensures rule { IfOk result (λ r.
        r ≡ rule_of (RuleKind.RwHyp law []) (forward (hyp.now ∷ []) (adds (new ∷ []) ∷ []))) }
{
    let left = one_left(alloc, adds_one(alloc, new)?)?;
    let body = forward_one(alloc, hyp, left)?;
    let place = List::of(Vec::new(alloc));
    rule_of(alloc, RuleKind::RwHyp(law, place), body)
}

/// The tree of one rule.
pub(crate) fn alone(alloc: Global, rule: Rule) -> Tree
    ensures tree { result ≡ Tree.Node rule [] }
{
    Tree::Node(rule, List::of(Vec::new(alloc)))
}

/// The tree of a rule above another tree.
pub(crate) fn above(alloc: Global, rule: Rule, tree: Tree) -> Result<Tree, OutOfMemory>
    ensures tree { IfOk result (λ t. t ≡ Tree.Node rule (tree ∷ [])) }
{
    let mut children = Vec::new(alloc);
    children.push(tree)?;
    Ok(Tree::Node(rule, List::of(children)))
}
