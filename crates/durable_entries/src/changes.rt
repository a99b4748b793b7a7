//! How the present texts differ from the built ones.
ghost use Rattle.std.specs.Prelude.{◌≡◌, ◌++◌, [], IfOk, OnOk};
ghost use Rattle.std.specs.List.{flat_map};
ghost use Rattle.std.specs.Option.{option_copied};
ghost use Rattle.std.specs.FinMap as finite;
ghost use Rattle.core_steps.specs.StateEntries.{entries_for_change, with_names_of, names_of_both};

use core_steps::{Entry, Project, Texts};
use formula_core::{Name, OutOfMemory, Text};
use std::alloc::Global;

/// Adds, by name, the built names that are gone and the texts that differ.
pub fn add_changes(
    alloc: Global,
    built: &Project,
    texts: &Texts,
    listed: &mut Vec<Entry>,
) -> Result<(), OutOfMemory>
    ensures { OnOk result (listed.new.items ≡ listed.old.items ++ flat_map (λ name. entries_for_change
        (finite.get built.now name) (finite.get texts.now name) name) (names_of_both built.now texts.now)) }
{
    let names = names_of(alloc, built, texts)?;
    add_each(alloc, built, texts, &names, listed)
}

/// Adds what differs at each of these names.
fn add_each(
    alloc: Global,
    built: &Project,
    texts: &Texts,
    names: &Project,
    listed: &mut Vec<Entry>,
) -> Result<(), OutOfMemory>
    ensures { OnOk result (listed.new.items ≡ listed.old.items ++ flat_map (λ name. entries_for_change
        (finite.get built.now name) (finite.get texts.now name) name) (finite.keys names.now)) }
{
    for (name, _) in names.texts() {
        add_change(alloc, text_in(built, name), texts.get(name), name, listed)?;
    }
    Ok(())
}

/// The built text of a name, if there is one.
fn text_in<'a>(built: &'a Project, name: &Name) -> Option<&'a Text>
    ensures { option_copied result ≡ finite.get built.now name.now }
{
    built.texts().get(name)
}

/// The names of two projects.
fn names_of(alloc: Global, built: &Project, texts: &Texts) -> Result<Project, OutOfMemory>
    ensures { IfOk result (λ names. finite.keys names ≡ names_of_both built.now texts.now) }
{
    let mut names = Project::new(alloc);
    for (name, _) in built.texts() {
        put_name(alloc, name, &mut names)?;
    }
    for (name, _) in texts.entries() {
        put_name(alloc, name, &mut names)?;
    }
    Ok(names)
}

fn put_name(alloc: Global, name: &Name, names: &mut Project) -> Result<(), OutOfMemory>
    ensures { OnOk result (names.new ≡ finite.insert names.old name.now []) }
{
    names.put(name.copy(alloc)?, Text::of(alloc, "")?)
}

/// Adds how the present text of a name differs from the built one.
fn add_change(
    alloc: Global,
    built: Option<&Text>,
    present: Option<&Text>,
    name: &Name,
    listed: &mut Vec<Entry>,
) -> Result<(), OutOfMemory>
    ensures { OnOk result (listed.new.items
        ≡ listed.old.items ++ entries_for_change (option_copied built.entry) (option_copied present.entry) name.now) }
{
    match (built, present) {
        (None, None) => {}
        (Some(_), None) => listed.push(Entry::Drop(name.copy(alloc)?))?,
        (Some(old), Some(text)) if old.same(text) => {}
        (_, Some(text)) => listed.push(Entry::Put(name.copy(alloc)?, text.copy()?))?,
    }
    Ok(())
}
