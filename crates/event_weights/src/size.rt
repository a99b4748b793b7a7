// The bytes of proof trees, counted.
ghost use Rattle.std.specs.Prelude.{◌≡◌, ◌+◌, ◌-◌, ◌^◌, ◌*◌, length, map, min, sum};
ghost use Rattle.proof_codec.specs.ProofTrees.{tree_bytes};
ghost use Rattle.event_weights.specs.Private.{type_size, formula_size, identifier_size, goal_size, antecedent_size, kind_size, rule_size, tree_size};

use formula_core::{Formula, Name, Ty};
use rule_table::{Antecedent, Rule, RuleKind};
use sequent_core::Tree;

/// The number of a tree's bytes, or the greatest `u64` where there are more.
pub(crate) fn byte_count(tree: &Tree) -> u64
    ensures { result ≡ min (length (tree_bytes tree.now)) (2 ^ 64 - 1) }
{
    size_of_tree(tree)
}

#[cycle(trees)]
fn size_of_tree(tree: &Tree) -> u64
    ensures { result ≡ min (tree_size tree.now) (2 ^ 64 - 1) }
{
    match tree {
        Tree::Leaf => 1,
        Tree::Node(rule, children) => size_of_rule(rule)
            .saturating_add(size_of_trees(children.items()))
            .saturating_add(5),
    }
}

#[cycle(trees)]
fn size_of_trees(trees: &[Tree]) -> u64
    ensures { result ≡ min (sum (map tree_size trees.now)) (2 ^ 64 - 1) }
{
    let mut total: u64 = 0;
    for tree in trees {
        total = total.saturating_add(size_of_tree(tree));
    }
    total
}

fn size_of_rule(rule: &Rule) -> u64
    ensures { result ≡ min (rule_size rule.now) (2 ^ 64 - 1) }
{
    size_of_kind(&rule.kind)
        .saturating_add(size_of_goal(&rule.needed_goal))
        .saturating_add(size_of_formulas(rule.needed_hyps.items()))
        .saturating_add(size_of_identifiers(rule.used.items()))
        .saturating_add(size_of_antecedents(rule.antecedents.items()))
        .saturating_add(12)
}

// The number of the kind, and what it has of its own.
fn size_of_kind(kind: &RuleKind) -> u64
    ensures { result ≡ min (kind_size kind.now) (2 ^ 64 - 1) }
{
    match kind {
        RuleKind::AllL(terms) => size_of_formulas(terms.items()).saturating_add(5),
        RuleKind::ExR(terms) => size_of_formulas(terms.items()).saturating_add(5),
        RuleKind::RwGoal(_, place) => fours(place.items().len()).saturating_add(6),
        RuleKind::RwHyp(_, place) => fours(place.items().len()).saturating_add(6),
        RuleKind::Linear(multipliers) => sixteens(multipliers.items().len()).saturating_add(5),
        _ => 1,
    }
}

fn fours(count: usize) -> u64
    ensures { result ≡ min (4 * count) (2 ^ 64 - 1) }
{
    (count as u64).saturating_mul(4)
}

fn sixteens(count: usize) -> u64
    ensures { result ≡ min (16 * count) (2 ^ 64 - 1) }
{
    (count as u64).saturating_mul(16)
}

fn size_of_antecedents(antecedents: &[Antecedent]) -> u64
    ensures { result ≡ min (sum (map antecedent_size antecedents.now)) (2 ^ 64 - 1) }
{
    let mut total: u64 = 0;
    for antecedent in antecedents {
        total = total.saturating_add(size_of_antecedent(antecedent));
    }
    total
}

fn size_of_antecedent(antecedent: &Antecedent) -> u64
    ensures { result ≡ min (antecedent_size antecedent.now) (2 ^ 64 - 1) }
{
    size_of_identifiers(antecedent.idents.items())
        .saturating_add(size_of_formulas(antecedent.hyps.items()))
        .saturating_add(size_of_goal(&antecedent.goal))
        .saturating_add(8)
}

fn size_of_goal(goal: &Option<Formula>) -> u64
    ensures { result ≡ min (goal_size goal.now) (2 ^ 64 - 1) }
{
    match goal {
        Some(formula) => size_of_formula(formula).saturating_add(1),
        None => 1,
    }
}

fn size_of_identifiers(identifiers: &[(Name, Ty)]) -> u64
    ensures { result ≡ min (sum (map identifier_size identifiers.now)) (2 ^ 64 - 1) }
{
    let mut total: u64 = 0;
    for identifier in identifiers {
        total = total.saturating_add(size_of_identifier(&identifier.0, &identifier.1));
    }
    total
}

fn size_of_identifier(name: &Name, ty: &Ty) -> u64
    ensures { result ≡ min (identifier_size (name.now, ty.now)) (2 ^ 64 - 1) }
{
    size_of_name(name).saturating_add(size_of_type(ty))
}

fn size_of_name(name: &Name) -> u64
    ensures { result ≡ length name.now + 4 }
{
    name.as_text().len() as u64 + 4
}

#[cycle(formulas)]
fn size_of_formula(formula: &Formula) -> u64
    ensures { result ≡ min (formula_size formula.now) (2 ^ 64 - 1) }
{
    match formula {
        Formula::Int(_) => 17,
        Formula::Free(name, ty) => size_of_identifier(name, ty).saturating_add(1),
        Formula::Bound(_, ty) => size_of_type(ty).saturating_add(5),
        Formula::Node(_, parts, ty) => size_of_formulas(parts.items())
            .saturating_add(size_of_type(ty))
            .saturating_add(6),
        Formula::Bind(_, types, parts, ty) => size_of_types(types.items())
            .saturating_add(size_of_formulas(parts.items()))
            .saturating_add(size_of_type(ty))
            .saturating_add(10),
    }
}

#[cycle(formulas)]
fn size_of_formulas(formulas: &[Formula]) -> u64
    ensures { result ≡ min (sum (map formula_size formulas.now)) (2 ^ 64 - 1) }
{
    let mut total: u64 = 0;
    for formula in formulas {
        total = total.saturating_add(size_of_formula(formula));
    }
    total
}

fn size_of_types(types: &[Ty]) -> u64
    ensures { result ≡ min (sum (map type_size types.now)) (2 ^ 64 - 1) }
{
    let mut total: u64 = 0;
    for ty in types {
        total = total.saturating_add(size_of_type(ty));
    }
    total
}

fn size_of_type(ty: &Ty) -> u64
    ensures { result ≡ min (type_size ty.now) (2 ^ 64 - 1) }
{
    match ty {
        Ty::Int | Ty::Bool | Ty::Truth => 1,
        Ty::Given(name) => size_of_name(name).saturating_add(1),
        Ty::Pow(part) => size_of_type(part.get()).saturating_add(1),
        Ty::Pair(left, right) => size_of_type(left.get())
            .saturating_add(size_of_type(right.get()))
            .saturating_add(1),
    }
}
