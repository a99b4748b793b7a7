//! The names in the formulas of a rule.
ghost use Rattle.std.specs.Prelude.{◌≡◌, ◌↔◌, ◌++◌, IsTrue, IfOk, OnOk, map, fold, not, filter};
ghost use Rattle.std.specs.List.{AllByRecursion};
ghost use Rattle.std.specs.Option.{option_to_list};
ghost use Rattle.formula_core.specs.declared.Ty.{Ty};
ghost use Rattle.formula_core.specs.Formulas.{joined};
ghost use Rattle.rule_table.specs.Rules.{added_by, antecedent_formulas, body_of, formulas_of, sorted_by_name, is_named, names_in, with_name};
ghost use Rattle.formula_core.specs.Typed.{Stands};
ghost use Rattle.rule_kernel.specs.Private.{is_other};

use crate::parts::terms_of;
use formula_core::{Formula, List, Name, OutOfMemory, Ty};
use rule_table::{Antecedent, Rule};
use std::alloc::Global;
use std::collections::BTreeMap;

/// Each name in the formulas of a rule, at each of its places.
#[tactic(auto, using(crate::proofs::Appended::laws))]
pub(crate) fn names_of(alloc: Global, rule: &Rule) -> Result<Vec<(Name, Ty)>, OutOfMemory>
    ensures { IfOk result (λ names. names.items ≡ names_in (formulas_of rule.now.kind (body_of rule.now))) }
{
    let mut names = Vec::new(alloc);
    add_names_of_goal(alloc, &rule.needed_goal, &mut names)?;
    add_names(alloc, rule.needed_hyps.items(), &mut names)?;
    add_names_of_antecedents(alloc, rule.antecedents.items(), &mut names)?;
    add_names(alloc, terms_of(&rule.kind), &mut names)?;
    Ok(names)
}

fn add_names_of_goal(
    alloc: Global,
    goal: &Option<Formula>,
    names: &mut Vec<(Name, Ty)>,
) -> Result<(), OutOfMemory>
    ensures { OnOk result (names.new.items ≡ names.old.items ++ names_in (option_to_list goal.now)) }
{
    match goal {
        Some(formula) => formula.add_identifiers(alloc, names),
        None => Ok(()),
    }
}

fn add_names(
    alloc: Global,
    formulas: &[Formula],
    names: &mut Vec<(Name, Ty)>,
) -> Result<(), OutOfMemory>
    ensures { OnOk result (names.new.items ≡ names.old.items ++ names_in formulas.now) }
{
    for formula in formulas {
        formula.add_identifiers(alloc, names)?;
    }
    Ok(())
}

#[tactic(auto, using(crate::proofs::Appended::laws))]
fn add_names_of_antecedent(
    alloc: Global,
    antecedent: &Antecedent,
    names: &mut Vec<(Name, Ty)>,
) -> Result<(), OutOfMemory>
    ensures { OnOk result (names.new.items ≡ names.old.items ++ names_in (antecedent_formulas antecedent.now)) }
{
    add_names(alloc, antecedent.hyps.items(), names)?;
    add_names_of_goal(alloc, &antecedent.goal, names)?;
    Ok(())
}

#[tactic(auto, using(crate::proofs::Appended::laws))]
fn add_names_of_antecedents(
    alloc: Global,
    antecedents: &[Antecedent],
    names: &mut Vec<(Name, Ty)>,
) -> Result<(), OutOfMemory>
    ensures { OnOk result (names.new.items
        ≡ names.old.items ++ names_in (joined (map antecedent_formulas antecedents.now))) }
{
    for antecedent in antecedents {
        add_names_of_antecedent(alloc, antecedent, names)?;
    }
    Ok(())
}

/// Each name once, in byte order, with the last type that it has.
pub(crate) fn in_order(
    alloc: Global,
    names: &[(Name, Ty)],
) -> Result<BTreeMap<Name, Ty>, OutOfMemory>
    ensures { IfOk result (λ sorted. sorted.entries ≡ sorted_by_name names.now) }
{
    let mut sorted = BTreeMap::new(alloc);
    insert_all(alloc, names, &mut sorted)?;
    Ok(sorted)
}

fn insert_all(
    alloc: Global,
    names: &[(Name, Ty)],
    sorted: &mut BTreeMap<Name, Ty>,
) -> Result<(), OutOfMemory>
    ensures { OnOk result (sorted.new.entries ≡ fold with_name sorted.old.entries names.now) }
{
    for identifier in names {
        sorted.insert(identifier.0.copy(alloc)?, identifier.1.copy(alloc)?)?;
    }
    Ok(())
}

/// Whether each name has one type.
pub(crate) fn have_one_type(names: &[(Name, Ty)], sorted: &BTreeMap<Name, Ty>) -> bool
    ensures { IsTrue result ↔ AllByRecursion (Stands sorted.now.entries) names.now }
{
    for identifier in names {
        if !has_type(sorted, &identifier.0, &identifier.1) {
            return false;
        }
    }
    true
}

fn has_type(sorted: &BTreeMap<Name, Ty>, name: &Name, ty: &Ty) -> bool
    ensures { IsTrue result ↔ Stands sorted.now.entries (name.now, ty.now) }
{
    match sorted.get(name) {
        Some(found) => found.same(ty),
        None => false,
    }
}

/// The names that the antecedents add.
#[tactic(auto, using(crate::proofs::Appended::laws))]
fn added_in_order(
    alloc: Global,
    antecedents: &[Antecedent],
) -> Result<BTreeMap<Name, Ty>, OutOfMemory>
    ensures { IfOk result (λ sorted. sorted.entries ≡ sorted_by_name (joined (map (λ a. a.idents) antecedents.now))) }
{
    let mut sorted = BTreeMap::new(alloc);
    for antecedent in antecedents {
        insert_all(alloc, antecedent.idents.items(), &mut sorted)?;
    }
    Ok(sorted)
}

/// The names that aren't added, each once, in byte order.
fn in_order_without(
    alloc: Global,
    names: &[(Name, Ty)],
    added: &BTreeMap<Name, Ty>,
) -> Result<BTreeMap<Name, Ty>, OutOfMemory>
    ensures { IfOk result (λ sorted. sorted.entries ≡ sorted_by_name (filter (is_other added.now.entries) names.now)) }
{
    let mut sorted = BTreeMap::new(alloc);
    for identifier in names {
        if is_other(added, &identifier.0) {
            sorted.insert(identifier.0.copy(alloc)?, identifier.1.copy(alloc)?)?;
        }
    }
    Ok(sorted)
}

fn is_other(added: &BTreeMap<Name, Ty>, name: &Name) -> bool
    ensures { (ty : Ty) → result ≡ is_other added.now.entries (name.now, ty) }
{
    match added.get(name) {
        Some(_) => false,
        None => true,
    }
}

fn entries(alloc: Global, sorted: BTreeMap<Name, Ty>) -> Result<List<(Name, Ty)>, OutOfMemory>
    ensures { IfOk result (λ entries. entries ≡ sorted.entries) }
{
    let entries: Vec<(Name, Ty)> = sorted.into_iter().collect(alloc)?;
    Ok(List::of(entries))
}

/// Those of the names that no antecedent of a rule adds, each once, in byte order.
pub(crate) fn used_among(
    alloc: Global,
    names: &[(Name, Ty)],
    rule: &Rule,
) -> Result<List<(Name, Ty)>, OutOfMemory>
    ensures { IfOk result (λ used.
        used ≡ sorted_by_name (filter (λ x. not (is_named (added_by (body_of rule.now)) x.0)) names.now)) }
{
    let added = added_in_order(alloc, rule.antecedents.items())?;
    let sorted = in_order_without(alloc, names, &added)?;
    let used = entries(alloc, sorted)?;
    Ok(used)
}
