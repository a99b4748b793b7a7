//! The names of bound identifiers.
ghost use Rattle.std.specs.Prelude.{◌≡◌, ◌<◌, ◌+◌, ◌-◌, ◌^◌, IfOk, OnOk, not, true, ℕ, List, bytes_eq, length};
ghost use Rattle.std.specs.List.{AllByRecursion, list_any};
ghost use Rattle.std.specs.Map.{keys_of};
ghost use Rattle.std.specs.BTreeSet.{contains_by};
ghost use Rattle.std.specs.Ordering.{nat_cmp};
ghost use Rattle.std.specs.Cmp.Lexicographic.{slice_cmp};
ghost use Rattle.formula_core.specs.Identifiers.{identifiers};
ghost use Rattle.formula_core.specs.Names.{is_name};
ghost use Rattle.formula_print.specs.Held.{IsHeld};
ghost use Rattle.formula_print.specs.Names.{generated_name, first_allowed, bound_names};

use crate::depths::deepest;
use formula_core::{Formula, Name, NameFault, OutOfMemory, Ty};
use std::alloc::Global;
use std::collections::BTreeSet;

/// x and a number.
fn numbered(alloc: Global, number: u64) -> Result<Name, OutOfMemory>
    ensures { IfOk result (λ name. name ≡ generated_name number) }
{
    let text = format!(in alloc; "x{number}")?;
    match Name::read(alloc, text.as_str()) {
        Ok(name) => Ok(name),
        Err(NameFault::OutOfMemory) => Err(OutOfMemory),
        Err(NameFault::BadName) => unreachable!(),
    }
}

/// A copy of a name. That it is a name, `as_text` says.
fn copied(alloc: Global, name: &Name) -> Result<Name, OutOfMemory>
    ensures copy { IfOk result (λ copy. copy ≡ name.now) }
    ensures is { is_name name.now ≡ true }
{
    let _text = name.as_text();
    name.copy(alloc)
}

/// The set of the names of identifiers.
fn names_of(alloc: Global, identifiers: &[(Name, Ty)]) -> Result<BTreeSet<Name>, OutOfMemory>
    ensures has { IfOk result (λ names. (name : List ℕ)
        → contains_by (slice_cmp nat_cmp name) names ≡ list_any (bytes_eq name) (keys_of identifiers.now)) }
    ensures are { OnOk result (AllByRecursion (λ x. is_name x.0 ≡ true) identifiers.now) }
{
    let mut names = BTreeSet::new(alloc);
    for identifier in identifiers {
        names.insert(copied(alloc, &identifier.0)?)?;
    }
    Ok(names)
}

/// The first so many of x1, x2, .. that are not taken, of which only so many are looked at.
fn first_allowed(
    alloc: Global,
    taken: &BTreeSet<Name>,
    many: usize,
    tries: usize,
) -> Result<Vec<Name>, OutOfMemory>
    ensures { IfOk result (λ names.
        names.items ≡ first_allowed (λ name. not (contains_by (slice_cmp nat_cmp name) taken.now)) many tries) }
{
    let mut names = Vec::new(alloc);
    for index in 0..tries {
        if names.len() == many {
            return Ok(names);
        }
        let name = numbered(alloc, index as u64 + 1)?;
        if !taken.contains(&name) {
            names.push(name)?;
        }
    }
    Ok(names)
}

/// The names of the bound identifiers of a formula, from the outermost one on.
pub(crate) fn bound_names(alloc: Global, formula: &Formula) -> Result<Vec<Name>, OutOfMemory>
    ensures names { IfOk result (λ names. names.items ≡ bound_names formula.now) }
    ensures held { OnOk result (IsHeld formula.now) }
{
    let many = deepest(formula);
    if many == u64::MAX {
        return Err(OutOfMemory);
    }
    let mut identifiers = Vec::new(alloc);
    formula.add_identifiers(alloc, &mut identifiers)?;
    let taken = names_of(alloc, identifiers.as_slice())?;
    let tries = match identifiers.len().checked_add(many as usize) {
        Some(tries) => tries,
        None => return Err(OutOfMemory),
    };
    let names = first_allowed(alloc, &taken, many as usize, tries)?;
    Ok(names)
}
