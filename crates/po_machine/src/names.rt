//! Names that are looked up by their texts.
ghost use Rattle.std.specs.Prelude.{◌≡◌, ◌++◌, IfOk, OnOk, ℕ, List};
ghost use Rattle.std.specs.Map.{keys_of};
ghost use Rattle.model_core.specs.Each.{is_among};
ghost use Rattle.model_core.specs.Borrowed.{texts, has};

use formula_core::{Name, OutOfMemory};
use std::alloc::Global;
use std::collections::BTreeSet;
use std::marker::Model;

/// Names in a row, with an index by their texts.
#[derive(Drop)]
pub struct Names<'a> {
    list: Vec<&'a str>,
    index: BTreeSet<&'a str>,
}

impl<'a> Model for Names<'a> {
    ghost use Rattle.std.specs.Prelude.{List, ℕ, ◌≡◌};
    ghost use Rattle.model_core.specs.Each.{is_among};
    ghost use Rattle.model_core.specs.Borrowed.{texts, has};

    ghost Value = { List (List ℕ) };

    ghost view = { λ a. texts a.list.items };

    ghost invariant = { λ a. (name : List ℕ) → has a.index name ≡ is_among (texts a.list.items) name };
}

impl<'a> Names<'a> {
    fn of(alloc: Global, list: Vec<&'a str>) -> Result<Names<'a>, OutOfMemory>
        ensures { IfOk result (λ names. names ≡ texts list.entry.items) }
    {
        let index = index_of(alloc, &list)?;
        Ok(Names { list, index })
    }

    /// The names of a list.
    pub fn of_list(alloc: Global, names: &'a [Name]) -> Result<Names<'a>, OutOfMemory>
        ensures { IfOk result (λ all. all ≡ names.now) }
    {
        let mut list = Vec::new(alloc);
        add_names(names, &mut list)?;
        Names::of(alloc, list)
    }

    /// The names of two lists.
    pub fn of_both(
        alloc: Global,
        names: &'a [Name],
        more: &'a [Name],
    ) -> Result<Names<'a>, OutOfMemory>
        ensures { IfOk result (λ all. all ≡ names.now ++ more.now) }
    {
        let mut list = Vec::new(alloc);
        add_names(names, &mut list)?;
        add_names(more, &mut list)?;
        Names::of(alloc, list)
    }

    /// The first components of pairs.
    pub fn of_pairs<T>(alloc: Global, pairs: &'a [(Name, T)]) -> Result<Names<'a>, OutOfMemory>
        ensures { IfOk result (λ all. all ≡ keys_of pairs.now) }
    {
        let mut list = Vec::new(alloc);
        add_keys(pairs, &mut list)?;
        Names::of(alloc, list)
    }

    /// Whether the name is one of them.
    pub fn has(&self, name: &Name) -> bool
        ensures { result ≡ is_among self.now name.now }
    {
        self.index.contains(name.as_text())
    }
}

fn index_of<'a>(alloc: Global, list: &[&'a str]) -> Result<BTreeSet<&'a str>, OutOfMemory>
    ensures { IfOk result (λ index. (name : List ℕ) → has index name ≡ is_among (texts list.now) name) }
{
    let mut index = BTreeSet::new(alloc);
    for name in list {
        index.insert(*name)?;
    }
    Ok(index)
}

fn add_names<'a>(names: &'a [Name], found: &mut Vec<&'a str>) -> Result<(), OutOfMemory>
    ensures { OnOk result (texts found.new.items ≡ texts found.old.items ++ names.entry.now) }
{
    for name in names {
        found.push(name.as_text())?;
    }
    Ok(())
}

fn add_keys<'a, T>(pairs: &'a [(Name, T)], found: &mut Vec<&'a str>) -> Result<(), OutOfMemory>
    ensures { OnOk result (texts found.new.items ≡ texts found.old.items ++ keys_of pairs.entry.now) }
{
    for pair in pairs {
        found.push(pair.0.as_text())?;
    }
    Ok(())
}
