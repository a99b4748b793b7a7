// The way from the root of a tree to a place in it.
ghost use Rattle.std.specs.Prelude.{◌≡◌, ◌⊎◌, ◌↔◌, IsTrue, Contains};
ghost use Rattle.std.specs.Option.{option_copied, option_or};
ghost use Rattle.formula_core.specs.Env.{type_in};
ghost use Rattle.sequent_core.specs.declared.sequent.Sequent.{Sequent};
ghost use Rattle.sequent_core.specs.Trees.{goal_or, at_end, AreFresh};
ghost use Rattle.proof_deps.specs.Private.{antecedents_on};

use formula_core::{Formula, Name, Ty};
use sequent_core::Antecedent;

/// The antecedents on the way to a place in a tree, the nearest first.
#[derive(Clone, Copy)]
pub enum Way<'a> {
    Root,
    Below(&'a Antecedent, &'a Way<'a>),
}

impl Way<'_> {
    /// The goal at its end, if an antecedent on it has one.
    pub fn goal(&self) -> Option<&Formula>
        ensures { (s : Sequent) → (at_end (antecedents_on self.now) s).goal ≡ goal_or (option_copied result) s.goal }
    {
        match self {
            Way::Root => None,
            Way::Below(antecedent, above) => match &antecedent.goal {
                Some(goal) => Some(goal),
                None => above.goal(),
            },
        }
    }

    /// Whether an antecedent on it adds the hypothesis.
    pub fn adds(&self, formula: &Formula) -> bool
        ensures { (s : Sequent) → Contains (at_end (antecedents_on self.now) s).hyps formula.now
            ↔ (IsTrue result ⊎ Contains s.hyps formula.now) }
    {
        match self {
            Way::Root => false,
            Way::Below(antecedent, above) => {
                is_among(antecedent.hyps.items(), formula) || above.adds(formula)
            }
        }
    }

    /// The type with which an antecedent on it adds the name.
    pub fn type_of(&self, name: &Name) -> Option<&Ty>
        ensures { (s : Sequent) → AreFresh (antecedents_on self.now) s
            → type_in (at_end (antecedents_on self.now) s).env name.now
            ≡ option_or (option_copied result) (type_in s.env name.now) }
    {
        match self {
            Way::Root => None,
            Way::Below(antecedent, above) => match above.type_of(name) {
                Some(ty) => Some(ty),
                None => type_among(antecedent.idents.items(), name),
            },
        }
    }
}

fn type_among<'a>(identifiers: &'a [(Name, Ty)], name: &Name) -> Option<&'a Ty>
    ensures { option_copied result ≡ type_in identifiers.now name.now }
{
    for identifier in identifiers {
        if name.same(&identifier.0) {
            return Some(&identifier.1);
        }
    }
    None
}

/// Whether the formula is one of these.
pub fn is_among(formulas: &[Formula], formula: &Formula) -> bool
    ensures { IsTrue result ↔ Contains formulas.now formula.now }
{
    for other in formulas {
        if other.same(formula) {
            return true;
        }
    }
    false
}
