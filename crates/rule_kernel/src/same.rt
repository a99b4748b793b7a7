//! Whether a rule needs and leaves what an instance does.
ghost use Rattle.std.specs.Prelude.{◌≡◌, ◌↔◌, IsTrue};
ghost use Rattle.rule_table.specs.Rules.{body_of};

use formula_core::{Formula, same_formulas, same_identifiers};
use rule_table::{Antecedent, Body, Rule};

/// Whether a rule needs and leaves just this.
pub(crate) fn same_body(body: &Body, rule: &Rule) -> bool
    ensures { IsTrue result ↔ (body.now ≡ body_of rule.now) }
{
    same_goals(&body.goal, &rule.needed_goal)
        && same_formulas(body.hyps.items(), rule.needed_hyps.items())
        && same_antecedents(body.antecedents.items(), rule.antecedents.items())
}

fn same_goals(a: &Option<Formula>, b: &Option<Formula>) -> bool
    ensures { IsTrue result ↔ (a.now ≡ b.now) }
{
    match a {
        Some(formula) => match b {
            Some(other) => formula.same(other),
            None => false,
        },
        None => match b {
            Some(_) => false,
            None => true,
        },
    }
}

fn same_antecedent(a: &Antecedent, b: &Antecedent) -> bool
    ensures { IsTrue result ↔ (a.now ≡ b.now) }
{
    same_identifiers(a.idents.items(), b.idents.items())
        && same_formulas(a.hyps.items(), b.hyps.items())
        && same_goals(&a.goal, &b.goal)
}

fn same_antecedents(xs: &[Antecedent], ys: &[Antecedent]) -> bool
    ensures { IsTrue result ↔ (xs.now ≡ ys.now) }
{
    if xs.len() != ys.len() {
        return false;
    }
    for i in 0..xs.len() {
        if !same_antecedent(&xs[i], &ys[i]) {
            return false;
        }
    }
    true
}
