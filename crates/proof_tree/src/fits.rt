// What a rule asks of the sequent at a place in a tree.
ghost use Rattle.std.specs.Prelude.{◌≡◌, ◌↔◌, IsTrue, None, Contains, IfSome};
ghost use Rattle.std.specs.List.{AllByRecursion};
ghost use Rattle.formula_core.specs.Env.{type_in};
ghost use Rattle.formula_core.specs.Typed.{Stands};
ghost use Rattle.sequent_core.specs.Trees.{IsFresh, Meets, at_end, AreFresh};
ghost use Rattle.proof_tree.specs.Ways.{antecedents_of};

use crate::way::Way;
use formula_core::{Formula, Name, Ty};
use sequent_core::{Antecedent, Rule, Sequent};

impl Way<'_> {
    /// Whether the sequent to which it leads has what the rule needs.
    pub fn meets(&self, rule: &Rule, sequent: &Sequent) -> bool
        requires fresh { AreFresh (antecedents_of self.now) sequent.now }
        ensures meets { IsTrue result ↔ Meets rule.now (at_end (antecedents_of self.now) sequent.now) }
    {
        self.has_goal(&rule.needed_goal, sequent)
            && self.has_hypotheses(rule.needed_hyps.items(), sequent)
            && self.has_identifiers(rule.used.items(), sequent)
    }

    /// Whether what the antecedent adds is new in the sequent to which it leads.
    pub fn is_fresh(&self, antecedent: &Antecedent, sequent: &Sequent) -> bool
        requires fresh { AreFresh (antecedents_of self.now) sequent.now }
        ensures fresh { IsTrue result ↔ IsFresh (at_end (antecedents_of self.now) sequent.now) antecedent.now }
    {
        self.lacks_names(antecedent.idents.items(), sequent)
    }

    fn has_goal(&self, wanted: &Option<Formula>, sequent: &Sequent) -> bool
        ensures { IsTrue result ↔ IfSome wanted.now (λ g. g ≡ (at_end (antecedents_of self.now) sequent.now).goal) }
    {
        match wanted {
            Some(goal) => match self.goal() {
                Some(present) => goal.same(present),
                None => goal.same(&sequent.goal),
            },
            None => true,
        }
    }

    fn has_hypotheses(&self, wanted: &[Formula], sequent: &Sequent) -> bool
        ensures { IsTrue result
            ↔ AllByRecursion (Contains (at_end (antecedents_of self.now) sequent.now).hyps) wanted.now }
    {
        for formula in wanted {
            if !self.has_hypothesis(formula, sequent) {
                return false;
            }
        }
        true
    }

    fn has_hypothesis(&self, formula: &Formula, sequent: &Sequent) -> bool
        ensures { IsTrue result ↔ Contains (at_end (antecedents_of self.now) sequent.now).hyps formula.now }
    {
        sequent.has_hypothesis(formula) || self.adds(formula)
    }

    fn has_identifiers(&self, wanted: &[(Name, Ty)], sequent: &Sequent) -> bool
        requires fresh { AreFresh (antecedents_of self.now) sequent.now }
        ensures { IsTrue result
            ↔ AllByRecursion (Stands (at_end (antecedents_of self.now) sequent.now).env) wanted.now }
    {
        for identifier in wanted {
            if !self.has_identifier(&identifier.0, &identifier.1, sequent) {
                return false;
            }
        }
        true
    }

    fn has_identifier(&self, name: &Name, ty: &Ty, sequent: &Sequent) -> bool
        requires fresh { AreFresh (antecedents_of self.now) sequent.now }
        ensures { IsTrue result ↔ Stands (at_end (antecedents_of self.now) sequent.now).env (name.now, ty.now) }
    {
        match sequent.env.get(name) {
            Some(found) => found.same(ty),
            None => match self.type_of(name) {
                Some(found) => found.same(ty),
                None => false,
            },
        }
    }

    fn lacks_names(&self, identifiers: &[(Name, Ty)], sequent: &Sequent) -> bool
        requires fresh { AreFresh (antecedents_of self.now) sequent.now }
        ensures { IsTrue result ↔ AllByRecursion (λ x. type_in (at_end (antecedents_of self.now) sequent.now).env x.0
            ≡ None) identifiers.now }
    {
        for identifier in identifiers {
            if !self.lacks(&identifier.0, sequent) {
                return false;
            }
        }
        true
    }

    fn lacks(&self, name: &Name, sequent: &Sequent) -> bool
        requires fresh { AreFresh (antecedents_of self.now) sequent.now }
        ensures { IsTrue result ↔ (type_in (at_end (antecedents_of self.now) sequent.now).env name.now ≡ None) }
    {
        match sequent.env.get(name) {
            Some(_) => false,
            None => self.type_of(name).is_none(),
        }
    }
}
