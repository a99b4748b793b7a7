//! The targets of actions.
ghost use Rattle.std.specs.Prelude.{◌≡◌, ◌++◌, IfOk, OnOk, ℕ, List, map};
ghost use Rattle.std.specs.Map.{keys_of};
ghost use Rattle.model_core.specs.Each.{for_each, is_among};
ghost use Rattle.po_rules.specs.Parts.{new_values};
ghost use Rattle.model_core.specs.Borrowed.{texts, has};

use formula_core::{Action, Formula, Label, Name, OutOfMemory, Ty};
use std::alloc::Global;
use std::collections::BTreeSet;
use std::marker::Model;

/// The targets of actions, with an index by their texts.
#[derive(Drop)]
pub(crate) struct Targets<'a> {
    list: Vec<&'a str>,
    index: BTreeSet<&'a str>,
}

impl<'a> Model for Targets<'a> {
    ghost use Rattle.std.specs.Prelude.{List, ℕ, ◌≡◌};
    ghost use Rattle.model_core.specs.Each.{is_among};
    ghost use Rattle.model_core.specs.Borrowed.{texts, has};

    ghost Value = { List (List ℕ) };

    ghost view = { λ a. texts a.list.items };

    ghost invariant = { λ a. (name : List ℕ) → has a.index name ≡ is_among (texts a.list.items) name };
}

impl<'a> Targets<'a> {
    pub(crate) fn of(
        alloc: Global,
        actions: &'a [(Label, Action)],
    ) -> Result<Targets<'a>, OutOfMemory>
        ensures { IfOk result (λ targets. targets ≡ keys_of (for_each new_values (map (λ a. a.1) actions.now))) }
    {
        let mut list = Vec::new(alloc);
        add_all_targets(actions, &mut list)?;
        let index = index_of(alloc, &list)?;
        Ok(Targets { list, index })
    }

    pub(crate) fn has(&self, name: &Name) -> bool
        ensures { result ≡ is_among self.now name.now }
    {
        self.index.contains(name.as_text())
    }
}

fn index_of<'a>(alloc: Global, list: &[&'a str]) -> Result<BTreeSet<&'a str>, OutOfMemory>
    ensures { IfOk result (λ index. (name : List ℕ) → has index name ≡ is_among (texts list.now) name) }
{
    let mut index = BTreeSet::new(alloc);
    for name in list {
        index.insert(*name)?;
    }
    Ok(index)
}

fn add_valued<'a>(
    values: &'a [(Name, Formula)],
    found: &mut Vec<&'a str>,
) -> Result<(), OutOfMemory>
    ensures { OnOk result (texts found.new.items ≡ texts found.old.items ++ keys_of values.entry.now) }
{
    for value in values {
        found.push(value.0.as_text())?;
    }
    Ok(())
}

fn add_typed<'a>(identifiers: &'a [(Name, Ty)], found: &mut Vec<&'a str>) -> Result<(), OutOfMemory>
    ensures { OnOk result (texts found.new.items ≡ texts found.old.items ++ keys_of identifiers.entry.now) }
{
    for identifier in identifiers {
        found.push(identifier.0.as_text())?;
    }
    Ok(())
}

fn add_chosen<'a>(
    name: &'a Name,
    set: &Formula,
    found: &mut Vec<&'a str>,
) -> Result<(), OutOfMemory>
    ensures { OnOk result (texts found.new.items
        ≡ texts found.old.items ++ keys_of (new_values (Action.ChooseIn name.entry.now set.now))) }
{
    let integer = Ty::Int;
    if set.type_of(&integer).members().is_some() {
        found.push(name.as_text())?;
    }
    Ok(())
}

fn add_targets<'a>(action: &'a Action, found: &mut Vec<&'a str>) -> Result<(), OutOfMemory>
    ensures { OnOk result (texts found.new.items ≡ texts found.old.items ++ keys_of (new_values action.entry.now)) }
{
    match action {
        Action::Assign(pairs) => add_valued(pairs.items(), found),
        Action::ChooseIn(name, set) => add_chosen(name, set, found),
        Action::ChooseSuch(targets, _) => add_typed(targets.items(), found),
    }
}

fn add_all_targets<'a>(
    actions: &'a [(Label, Action)],
    found: &mut Vec<&'a str>,
) -> Result<(), OutOfMemory>
    ensures { OnOk result (texts found.new.items
        ≡ texts found.old.items ++ keys_of (for_each new_values (map (λ a. a.1) actions.entry.now))) }
{
    for action in actions {
        add_targets(&action.1, found)?;
    }
    Ok(())
}
