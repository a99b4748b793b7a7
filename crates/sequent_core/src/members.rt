// How many members the lists of a proof have together.
ghost use Rattle.std.specs.Prelude.{◌≡◌, ◌+◌, ◌-◌, ◌^◌, length, map, min};
ghost use Rattle.sequent_core.specs.Members.{antecedent_members, counted, formula_members, goal_members, identifier_members, kind_members, rule_members, tree_members, type_members};

use crate::tree::Tree;
use formula_core::{Formula, Name, Ty};
use rule_table::{Antecedent, Rule, RuleKind};

impl Tree {
    /// How many members its lists have together, the bytes of its names among them, or the greatest `u64` where there
    /// are more.
    #[cycle(members)]
    pub fn member_count(&self) -> u64
        ensures { result ≡ min (tree_members self.now) (2 ^ 64 - 1) }
    {
        match self {
            Tree::Leaf => 0,
            Tree::Node(rule, children) => {
                members_of_rule(rule).saturating_add(members_of_trees(children.items()))
            }
        }
    }
}

#[cycle(members)]
fn members_of_trees(trees: &[Tree]) -> u64
    ensures { result ≡ min (counted (map tree_members trees.now)) (2 ^ 64 - 1) }
{
    let mut total: u64 = 0;
    for tree in trees {
        total = counting(total, tree.member_count());
    }
    total
}

/// One more member of a list, and what it has.
fn counting(total: u64, members: u64) -> u64
    ensures { result ≡ min (total + members + 1) (2 ^ 64 - 1) }
{
    total.saturating_add(members).saturating_add(1)
}

fn members_of_rule(rule: &Rule) -> u64
    ensures { result ≡ min (rule_members rule.now) (2 ^ 64 - 1) }
{
    members_of_kind(&rule.kind)
        .saturating_add(members_of_goal(&rule.needed_goal))
        .saturating_add(members_of_formulas(rule.needed_hyps.items()))
        .saturating_add(members_of_identifiers(rule.used.items()))
        .saturating_add(members_of_antecedents(rule.antecedents.items()))
}

fn members_of_kind(kind: &RuleKind) -> u64
    ensures { result ≡ min (kind_members kind.now) (2 ^ 64 - 1) }
{
    members_of_formulas(kind.terms())
        .saturating_add(kind.place().len() as u64)
        .saturating_add(kind.multipliers().len() as u64)
}

fn members_of_antecedents(antecedents: &[Antecedent]) -> u64
    ensures { result ≡ min (counted (map antecedent_members antecedents.now)) (2 ^ 64 - 1) }
{
    let mut total: u64 = 0;
    for antecedent in antecedents {
        total = counting(total, members_of_antecedent(antecedent));
    }
    total
}

fn members_of_antecedent(antecedent: &Antecedent) -> u64
    ensures { result ≡ min (antecedent_members antecedent.now) (2 ^ 64 - 1) }
{
    members_of_identifiers(antecedent.idents.items())
        .saturating_add(members_of_formulas(antecedent.hyps.items()))
        .saturating_add(members_of_goal(&antecedent.goal))
}

fn members_of_goal(goal: &Option<Formula>) -> u64
    ensures { result ≡ min (goal_members goal.now) (2 ^ 64 - 1) }
{
    match goal {
        Some(formula) => members_of_formula(formula),
        None => 0,
    }
}

fn members_of_identifiers(identifiers: &[(Name, Ty)]) -> u64
    ensures { result ≡ min (counted (map identifier_members identifiers.now)) (2 ^ 64 - 1) }
{
    let mut total: u64 = 0;
    for identifier in identifiers {
        total = counting(total, members_of_identifier(&identifier.0, &identifier.1));
    }
    total
}

fn members_of_identifier(name: &Name, ty: &Ty) -> u64
    ensures { result ≡ min (identifier_members (name.now, ty.now)) (2 ^ 64 - 1) }
{
    bytes_of(name).saturating_add(members_of_type(ty))
}

fn bytes_of(name: &Name) -> u64
    ensures { result ≡ length name.now }
{
    name.as_text().len() as u64
}

#[cycle(formulas)]
fn members_of_formula(formula: &Formula) -> u64
    ensures { result ≡ min (formula_members formula.now) (2 ^ 64 - 1) }
{
    match formula {
        Formula::Int(_) => 0,
        Formula::Free(name, ty) => members_of_identifier(name, ty),
        Formula::Bound(_, ty) => members_of_type(ty),
        Formula::Node(_, parts, ty) => {
            members_of_formulas(parts.items()).saturating_add(members_of_type(ty))
        }
        Formula::Bind(_, types, parts, ty) => members_of_types(types.items())
            .saturating_add(members_of_formulas(parts.items()))
            .saturating_add(members_of_type(ty)),
    }
}

#[cycle(formulas)]
fn members_of_formulas(formulas: &[Formula]) -> u64
    ensures { result ≡ min (counted (map formula_members formulas.now)) (2 ^ 64 - 1) }
{
    let mut total: u64 = 0;
    for formula in formulas {
        total = counting(total, members_of_formula(formula));
    }
    total
}

fn members_of_types(types: &[Ty]) -> u64
    ensures { result ≡ min (counted (map type_members types.now)) (2 ^ 64 - 1) }
{
    let mut total: u64 = 0;
    for ty in types {
        total = counting(total, members_of_type(ty));
    }
    total
}

fn members_of_type(ty: &Ty) -> u64
    ensures { result ≡ min (type_members ty.now) (2 ^ 64 - 1) }
{
    match ty {
        Ty::Int | Ty::Bool | Ty::Truth => 0,
        Ty::Given(name) => bytes_of(name),
        Ty::Pow(part) => members_of_type(part.get()),
        Ty::Pair(left, right) => {
            members_of_type(left.get()).saturating_add(members_of_type(right.get()))
        }
    }
}
