// The rule `hyp` for a goal.
ghost use Rattle.std.specs.Prelude.{◌≡◌, ◌++◌, [], ◌∷◌, Some, Contains, IfOk, OnOk};
ghost use Rattle.formula_core.specs.Sizes.{IsWithinLimits};
ghost use Rattle.rule_table.specs.declared.kind.RuleKind.TheVariants as kind;
ghost use Rattle.rule_table.specs.Rules.{body_of, sorted_by_name, names_in, used_of};
ghost use Rattle.sequent_core.specs.declared.sequent.Sequent.{Sequent};
ghost use Rattle.sequent_core.specs.declared.tree.Tree.TheVariants as tree;
ghost use Rattle.sequent_core.specs.Sequents.{IsSequent};
ghost use Rattle.sequent_core.specs.Trees.{Derives};

use formula_core::{Formula, List, Name, OutOfMemory, Ty};
use sequent_core::{Rule, RuleKind};
use std::alloc::Global;
use std::collections::BTreeMap;

/// The rule `hyp` for a goal. Alone it derives each sequent with this goal, within the limits, that has it as a hypothesis.
pub fn hypothesis(alloc: Global, goal: &Formula) -> Result<Rule, OutOfMemory>
    ensures kind { IfOk result (λ rule. rule.kind ≡ kind.Hyp) }
    ensures goal { IfOk result (λ rule. rule.needed_goal ≡ Some goal.now) }
    ensures hyps { IfOk result (λ rule. rule.needed_hyps ≡ goal.now ∷ []) }
    ensures antecedents { IfOk result (λ rule. rule.antecedents ≡ []) }
    ensures used { IfOk result (λ rule. rule.used ≡ used_of rule.kind (body_of rule)) }
    ensures derives { (s : Sequent) → IsSequent s → IsWithinLimits s.goal → s.goal ≡ goal.now → Contains s.hyps s.goal
        → IfOk result (λ rule. Derives (tree.Node rule []) s) }
{
    let used = used_by(alloc, goal)?;
    let mut hyps = Vec::new(alloc);
    hyps.push(goal.copy(alloc)?)?;
    Ok(Rule {
        kind: RuleKind::Hyp,
        needed_goal: Some(goal.copy(alloc)?),
        needed_hyps: List::of(hyps),
        used,
        antecedents: List::of(Vec::new(alloc)),
    })
}

/// The names of a goal that is a hypothesis too, each once in byte order.
#[tactic(auto, using(crate::proofs::HypRule::names_twice))]
fn used_by(alloc: Global, goal: &Formula) -> Result<List<(Name, Ty)>, OutOfMemory>
    ensures { IfOk result (λ used. used ≡ sorted_by_name (names_in (goal.now ∷ goal.now ∷ []))) }
{
    let mut names = Vec::new(alloc);
    goal.add_identifiers(alloc, &mut names)?;
    goal.add_identifiers(alloc, &mut names)?;
    let sorted = in_order(alloc, &names)?;
    let used: Vec<(Name, Ty)> = sorted.into_iter().collect(alloc)?;
    Ok(List::of(used))
}

fn in_order(alloc: Global, names: &[(Name, Ty)]) -> Result<BTreeMap<Name, Ty>, OutOfMemory>
    ensures { IfOk result (λ sorted. sorted.entries ≡ sorted_by_name names.now) }
{
    let mut sorted = BTreeMap::new(alloc);
    for identifier in names {
        sorted.insert(identifier.0.copy(alloc)?, identifier.1.copy(alloc)?)?;
    }
    Ok(sorted)
}
