//! Copies of rules, and whether two rules are the same.
ghost use Rattle.std.specs.Prelude.{◌≡◌, ◌↔◌, IsTrue, IfOk};

use crate::kind::RuleKind;
use crate::rule::{Antecedent, Rule};
use formula_core::{
    Formula, List, OutOfMemory, copy_formulas, copy_identifiers, same_formulas, same_identifiers,
};
use std::alloc::Global;

impl RuleKind {
    pub fn copy(&self, alloc: Global) -> Result<RuleKind, OutOfMemory>
        ensures copy { IfOk result (λ copy. copy ≡ self.now) }
    {
        Ok(match self {
            RuleKind::Hyp => RuleKind::Hyp,
            RuleKind::Top => RuleKind::Top,
            RuleKind::Bot => RuleKind::Bot,
            RuleKind::Contr => RuleKind::Contr,
            RuleKind::AndR => RuleKind::AndR,
            RuleKind::AndL => RuleKind::AndL,
            RuleKind::OrR => RuleKind::OrR,
            RuleKind::OrL => RuleKind::OrL,
            RuleKind::ImpR => RuleKind::ImpR,
            RuleKind::ImpL => RuleKind::ImpL,
            RuleKind::Mp => RuleKind::Mp,
            RuleKind::IffR => RuleKind::IffR,
            RuleKind::IffL => RuleKind::IffL,
            RuleKind::NotR => RuleKind::NotR,
            RuleKind::NotL => RuleKind::NotL,
            RuleKind::Contra => RuleKind::Contra,
            RuleKind::AllR => RuleKind::AllR,
            RuleKind::AllL(terms) => RuleKind::AllL(copy_formulas(alloc, terms.items())?),
            RuleKind::ExR(terms) => RuleKind::ExR(copy_formulas(alloc, terms.items())?),
            RuleKind::ExL => RuleKind::ExL,
            RuleKind::Cut => RuleKind::Cut,
            RuleKind::Cases => RuleKind::Cases,
            RuleKind::Review => RuleKind::Review,
            RuleKind::EqRefl => RuleKind::EqRefl,
            RuleKind::EqGoal => RuleKind::EqGoal,
            RuleKind::EqHyp => RuleKind::EqHyp,
            RuleKind::BoolCases => RuleKind::BoolCases,
            RuleKind::BoolDiff => RuleKind::BoolDiff,
            RuleKind::RwGoal(law, place) => RuleKind::RwGoal(*law, copied(alloc, place.items())?),
            RuleKind::RwHyp(law, place) => RuleKind::RwHyp(*law, copied(alloc, place.items())?),
            RuleKind::Linear(multipliers) => RuleKind::Linear(copied(alloc, multipliers.items())?),
            RuleKind::CardNat => RuleKind::CardNat,
            RuleKind::FunIn => RuleKind::FunIn,
            RuleKind::FunEq => RuleKind::FunEq,
            RuleKind::OverOther => RuleKind::OverOther,
        })
    }

    pub fn same(&self, other: &RuleKind) -> bool
        ensures same { IsTrue result ↔ (self.now ≡ other.now) }
    {
        if self.number() != other.number() {
            return false;
        }
        if self.law() != other.law() {
            return false;
        }
        if self.place() != other.place() {
            return false;
        }
        if self.multipliers() != other.multipliers() {
            return false;
        }
        same_formulas(self.terms(), other.terms())
    }
}

fn copied<T: Copy>(alloc: Global, items: &[T]) -> Result<List<T>, OutOfMemory>
    ensures { IfOk result (λ copies. copies ≡ items.now) }
{
    Ok(List::of(Vec::from_slice(alloc, items)?))
}

impl Antecedent {
    pub fn copy(&self, alloc: Global) -> Result<Antecedent, OutOfMemory>
        ensures copy { IfOk result (λ copy. copy ≡ self.now) }
    {
        let idents = copy_identifiers(alloc, self.idents.items())?;
        let hyps = copy_formulas(alloc, self.hyps.items())?;
        let goal = copy_goal(alloc, &self.goal)?;
        Ok(Antecedent { idents, hyps, goal })
    }

    pub fn same(&self, other: &Antecedent) -> bool
        ensures same { IsTrue result ↔ (self.now ≡ other.now) }
    {
        same_identifiers(self.idents.items(), other.idents.items())
            && same_formulas(self.hyps.items(), other.hyps.items())
            && same_goals(&self.goal, &other.goal)
    }
}

impl Rule {
    pub fn copy(&self, alloc: Global) -> Result<Rule, OutOfMemory>
        ensures copy { IfOk result (λ copy. copy ≡ self.now) }
    {
        let kind = self.kind.copy(alloc)?;
        let needed_goal = copy_goal(alloc, &self.needed_goal)?;
        let needed_hyps = copy_formulas(alloc, self.needed_hyps.items())?;
        let used = copy_identifiers(alloc, self.used.items())?;
        let antecedents = copy_antecedents(alloc, self.antecedents.items())?;
        Ok(Rule {
            kind,
            needed_goal,
            needed_hyps,
            used,
            antecedents,
        })
    }

    pub fn same(&self, other: &Rule) -> bool
        ensures same { IsTrue result ↔ (self.now ≡ other.now) }
    {
        self.kind.same(&other.kind)
            && same_goals(&self.needed_goal, &other.needed_goal)
            && same_formulas(self.needed_hyps.items(), other.needed_hyps.items())
            && same_identifiers(self.used.items(), other.used.items())
            && same_antecedents(self.antecedents.items(), other.antecedents.items())
    }
}

fn copy_goal(alloc: Global, goal: &Option<Formula>) -> Result<Option<Formula>, OutOfMemory>
    ensures { IfOk result (λ copy. copy ≡ goal.now) }
{
    match goal {
        Some(formula) => Ok(Some(formula.copy(alloc)?)),
        None => Ok(None),
    }
}

fn same_goals(a: &Option<Formula>, b: &Option<Formula>) -> bool
    ensures { IsTrue result ↔ (a.now ≡ b.now) }
{
    match a {
        Some(formula) => match b {
            Some(other) => formula.same(other),
            None => false,
        },
        None => match b {
            Some(_) => false,
            None => true,
        },
    }
}

fn copy_antecedents(alloc: Global, items: &[Antecedent]) -> Result<List<Antecedent>, OutOfMemory>
    ensures { IfOk result (λ copies. copies ≡ items.now) }
{
    let mut copies = Vec::new(alloc);
    for item in items {
        copies.push(item.copy(alloc)?)?;
    }
    Ok(List::of(copies))
}

fn same_antecedents(xs: &[Antecedent], ys: &[Antecedent]) -> bool
    ensures { IsTrue result ↔ (xs.now ≡ ys.now) }
{
    if xs.len() != ys.len() {
        return false;
    }
    for i in 0..xs.len() {
        if !xs[i].same(&ys[i]) {
            return false;
        }
    }
    true
}
