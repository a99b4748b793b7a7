//! Names that are looked up by their texts.
ghost use Rattle.std.specs.Prelude.{◌≡◌, ◌++◌, IfOk, OnOk, ℕ, List, bytes_eq};
ghost use Rattle.std.specs.List.{filter, slice_get};
ghost use Rattle.std.specs.Option.{option_map};
ghost use Rattle.model_core.specs.Each.{is_among};
ghost use Rattle.check_rules.specs.Visible.{names};
ghost use Rattle.check_rules.specs.Contexts.{names_of};
ghost use Rattle.refine_check.specs.Private.{first_index, lower, index_in, text_at};
ghost use Rattle.model_core.specs.Borrowed.{texts};

use formula_core::{Name, OutOfMemory, Ref, Ty};
use std::alloc::Global;
use std::collections::BTreeMap;
use std::marker::Model;

/// Names in a row, with the first place of each.
#[derive(Drop)]
pub(crate) struct Names<'a> {
    list: Vec<&'a str>,
    places: BTreeMap<&'a str, usize>,
}

impl<'a> Model for Names<'a> {
    ghost use Rattle.std.specs.Prelude.{List, ℕ, ◌≡◌, bytes_eq};
    ghost use Rattle.refine_check.specs.Private.{first_index, index_in};
    ghost use Rattle.model_core.specs.Borrowed.{texts};

    ghost Value = { List (List ℕ) };

    ghost view = { λ a. texts a.list.items };

    ghost invariant = { λ a. (name : List ℕ) →
        index_in a.places name ≡ first_index (bytes_eq name) (texts a.list.items) };
}

impl<'a> Names<'a> {
    pub(crate) fn of(alloc: Global, list: Vec<&'a str>) -> Result<Names<'a>, OutOfMemory>
        ensures { IfOk result (λ names. names ≡ texts list.entry.items) }
    {
        let places = places_of(alloc, &list)?;
        Ok(Names { list, places })
    }

    pub(crate) fn has(&self, name: &str) -> bool
        ensures { result ≡ is_among self.now name.now }
    {
        self.places.contains_key(name)
    }

    /// The first of them that is among these names. They are looked up, so that no others are gone through.
    pub(crate) fn first_among(&self, names: &[&str]) -> Option<&'a str>
        ensures { option_map (λ n. n.now) result ≡ slice_get (filter (is_among (texts names.now)) self.now) 0 }
    {
        let place = place_among(&self.places, names);
        text_at(&self.list, place)
    }
}

/// The lowest place that one of the names has.
fn place_among(places: &BTreeMap<&str, usize>, names: &[&str]) -> Option<usize>
    ensures { (list : List (List ℕ)) → ((name : List ℕ) → index_in places.now name ≡ first_index (bytes_eq name) list)
        → result ≡ first_index (is_among (texts names.now)) list }
{
    let mut lowest = None;
    for name in names {
        lowest = lower(lowest, places.get(*name).copied());
    }
    lowest
}

fn lower(one: Option<usize>, other: Option<usize>) -> Option<usize>
    ensures { result ≡ lower one other }
{
    match one {
        None => other,
        Some(one) => match other {
            None => Some(one),
            Some(other) => Some(one.min(other)),
        },
    }
}

fn text_at<'a>(list: &[&'a str], place: Option<usize>) -> Option<&'a str>
    ensures { option_map (λ n. n.now) result ≡ text_at (texts list.now) place }
{
    list.get(place?).copied()
}

/// The first place of each name: they are noted from the last to the first.
fn places_of<'a>(alloc: Global, list: &[&'a str]) -> Result<BTreeMap<&'a str, usize>, OutOfMemory>
    ensures { IfOk result (λ places. (name : List ℕ)
        → index_in places name ≡ first_index (bytes_eq name) (texts list.now)) }
{
    let mut places = BTreeMap::new(alloc);
    for place in (0..list.len()).rev() {
        places.insert(list[place], place)?;
    }
    Ok(places)
}

/// The names of variables.
pub(crate) fn texts_of(alloc: Global, names: &[Name]) -> Result<Vec<&str>, OutOfMemory>
    ensures { IfOk result (λ found. texts found.items ≡ names.now) }
{
    let mut found = Vec::new(alloc);
    for name in names {
        found.push(name.as_text())?;
    }
    Ok(found)
}

/// The names that are declared.
pub(crate) fn texts_of_refs(alloc: Global, refs: &[Ref]) -> Result<Vec<&str>, OutOfMemory>
    ensures { IfOk result (λ found. texts found.items ≡ names_of refs.now) }
{
    let mut found = Vec::new(alloc);
    for name in refs {
        found.push(name.name.as_text())?;
    }
    Ok(found)
}

/// Adds the names of parameters.
pub(crate) fn add_entries<'a>(
    entries: &'a [(Name, Ty)],
    found: &mut Vec<&'a str>,
) -> Result<(), OutOfMemory>
    ensures { OnOk result (texts found.new.items ≡ texts found.old.items ++ names entries.entry.now) }
{
    for entry in entries {
        found.push(entry.0.as_text())?;
    }
    Ok(())
}

/// Adds the names that are declared.
pub(crate) fn add_refs<'a>(refs: &'a [Ref], found: &mut Vec<&'a str>) -> Result<(), OutOfMemory>
    ensures { OnOk result (texts found.new.items ≡ texts found.old.items ++ names_of refs.entry.now) }
{
    for name in refs {
        found.push(name.name.as_text())?;
    }
    Ok(())
}
