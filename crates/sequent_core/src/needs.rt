// Whether a sequent has what a rule needs.
ghost use Rattle.std.specs.Prelude.{◌≡◌, ◌↔◌, IsTrue, IfSome, Contains};
ghost use Rattle.std.specs.List.{AllByRecursion};
ghost use Rattle.formula_core.specs.Typed.{Stands};
ghost use Rattle.sequent_core.specs.Trees.{Meets};

use crate::sequent::Sequent;
use formula_core::{Env, Formula, Name, Ty};
use rule_table::Rule;

/// Whether the sequent has the goal, the hypotheses and the names that the rule needs.
pub fn meets(rule: &Rule, sequent: &Sequent) -> bool
    ensures meets { IsTrue result ↔ Meets rule.now sequent.now }
{
    has_goal(sequent, &rule.needed_goal)
        && has_hypotheses(sequent, rule.needed_hyps.items())
        && has_identifiers(&sequent.env, rule.used.items())
}

fn has_goal(sequent: &Sequent, wanted: &Option<Formula>) -> bool
    ensures { IsTrue result ↔ IfSome wanted.now (λ g. g ≡ sequent.now.goal) }
{
    match wanted {
        Some(goal) => goal.same(&sequent.goal),
        None => true,
    }
}

fn has_hypotheses(sequent: &Sequent, wanted: &[Formula]) -> bool
    ensures { IsTrue result ↔ AllByRecursion (Contains sequent.now.hyps) wanted.now }
{
    for formula in wanted {
        if !sequent.has_hypothesis(formula) {
            return false;
        }
    }
    true
}

fn has_identifiers(env: &Env, wanted: &[(Name, Ty)]) -> bool
    ensures { IsTrue result ↔ AllByRecursion (Stands env.now) wanted.now }
{
    for identifier in wanted {
        if !has_identifier(env, &identifier.0, &identifier.1) {
            return false;
        }
    }
    true
}

fn has_identifier(env: &Env, name: &Name, ty: &Ty) -> bool
    ensures { IsTrue result ↔ Stands env.now (name.now, ty.now) }
{
    match env.get(name) {
        Some(found) => found.same(ty),
        None => false,
    }
}
