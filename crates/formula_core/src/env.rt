ghost use Rattle.std.specs.Prelude.{◌≡◌, ◌↔◌, ◌++◌, ◌∷◌, [], IsTrue, IsSome, IfOk, IfSome, OnErr, OnOk, IsErrOf, take, None};
ghost use Rattle.std.specs.Map.{lookup};
ghost use Rattle.std.specs.BTreeMap.{is_at};
ghost use Rattle.std.specs.Ordering.{nat_cmp};
ghost use Rattle.std.specs.Cmp.Lexicographic.{slice_cmp};
ghost use Rattle.std.specs.Option.{option_copied};
ghost use Rattle.formula_core.specs.Env.{type_in, HasDistinctNames};
ghost use Rattle.formula_core.specs.SharedNames.{names_held};
ghost use Rattle.formula_core.specs.PrivatePlaces.{AreAtPlaces, IsNoted, type_there};

use crate::identifiers::{copy_identifiers, same_identifiers};
use crate::memory::OutOfMemory;
use crate::name::Name;
use crate::ty::Ty;
use std::alloc::{AllocFailed, Global};
use std::collections::BTreeMap;
use std::marker::Model;
use std::sync::Arc;

/// Why a name was not added.
#[derive(Clone, Copy, Debug, PartialEq, Eq)]
pub enum EnvFault {
    Taken,
    OutOfMemory,
}

impl From<OutOfMemory> for EnvFault {
    ghost use Rattle.formula_core.specs.declared.env.EnvFault.TheVariants.{OutOfMemory};

    ghost from_gives = { λ _ e. e ≡ OutOfMemory };

    fn from(_: OutOfMemory) -> EnvFault {
        EnvFault::OutOfMemory
    }
}

impl<T: Drop> From<AllocFailed<T>> for EnvFault {
    ghost use Rattle.formula_core.specs.declared.env.EnvFault.TheVariants.{OutOfMemory};

    ghost from_gives = { λ _ e. e ≡ OutOfMemory };

    fn from(_: AllocFailed<T>) -> EnvFault {
        EnvFault::OutOfMemory
    }
}

/// Names with their types, each name once.
///
/// Where it is shared, its copies share the names, so that a copy takes little time and no memory.
pub struct Env {
    held: EnvNames,
}

// One call drops it, where a derive would take each form apart in every function that owns one.
impl Drop for Env {
    fn drop(self) {
        let Env { held: _ } = self;
    }
}

/// The names of one environment, or the first ones of those that several share.
#[derive(Drop)]
enum EnvNames {
    Own(NameTable),
    Shared(Arc<NameTable>, usize),
}

/// Names with their types, each name once, and where each stands.
#[derive(Drop)]
struct NameTable {
    entries: Vec<(Name, Ty)>,
    /// The place of each name, among places of names that were cut off.
    places: BTreeMap<Name, usize>,
    /// Whether each name has its place. Where memory ran out for the places, none is looked up.
    has_places: bool,
}

impl Model for NameTable {
    ghost use Rattle.std.specs.Prelude.{List, ℕ};
    ghost use Rattle.formula_core.specs.declared.ty.Ty.{Ty};
    ghost use Rattle.std.specs.Coded.{codes};
    ghost use Rattle.formula_core.specs.contracts.ty.Ty as ty;

    ghost Value = { List (List ℕ × Ty) };

    ghost coded = { Prim.hlevel (codes, ty.the_row.coded) };

    ghost use Rattle.formula_core.specs.Env.{HasDistinctNames};
    ghost use Rattle.formula_core.specs.PrivatePlaces.{AreAtPlaces};
    ghost use Rattle.std.specs.Bool.{OnTrue};

    ghost view = { λ a. a.entries.items };

    ghost invariant = { λ a. HasDistinctNames a.entries.items
        × OnTrue a.has_places (AreAtPlaces a.entries.items a.places.entries) };
}

impl Model for Env {
    ghost use Rattle.std.specs.Prelude.{List, ℕ};
    ghost use Rattle.formula_core.specs.declared.ty.Ty.{Ty};
    ghost use Rattle.std.specs.Coded.{codes};
    ghost use Rattle.formula_core.specs.contracts.ty.Ty as ty;

    ghost Value = { List (List ℕ × Ty) };

    ghost coded = { Prim.hlevel (codes, ty.the_row.coded) };

    ghost use Rattle.formula_core.specs.SharedNames.{names_held};

    ghost view = { λ a. names_held a.held };
}

impl NameTable {
    fn new(alloc: Global) -> NameTable
        ensures { result ≡ [] }
    {
        NameTable {
            entries: Vec::new(alloc),
            places: BTreeMap::new(alloc),
            has_places: true,
        }
    }

    /// The table of these entries.
    fn of(entries: Vec<(Name, Ty)>) -> NameTable
        requires { HasDistinctNames entries.items }
        ensures { result ≡ entries.items }
    {
        let alloc = *entries.allocator();
        match places_of(alloc, &entries) {
            Some(places) => NameTable {
                entries,
                places,
                has_places: true,
            },
            None => NameTable {
                entries,
                places: BTreeMap::new(alloc),
                has_places: false,
            },
        }
    }

    fn allocator(&self) -> Global {
        *self.entries.allocator()
    }

    fn entries(&self) -> &[(Name, Ty)]
        ensures entries { result.now ≡ self.now }
        ensures distinct { HasDistinctNames self.now }
    {
        self.entries.as_slice()
    }

    /// The type of a name among the first entries.
    fn get(&self, len: usize, name: &Name) -> Option<&Ty>
        ensures { option_copied result ≡ type_in (take len self.now) name.now }
    {
        let entries = first(&self.entries, len);
        if !self.has_places {
            return type_at(entries, name);
        }
        type_there(entries, self.places.get(name).copied(), name)
    }

    /// Adds a name that isn't there.
    fn push(&mut self, name: Name, ty: Ty) -> Result<(), OutOfMemory>
        requires { type_in self.old name ≡ None }
        ensures added { OnOk result (self.new ≡ self.old ++ (name, ty) ∷ []) }
        ensures unchanged { OnErr result (self.new ≡ self.old) }
    {
        let alloc = *self.entries.allocator();
        let place = self.entries.len();
        note_place(alloc, &mut self.places, &name, place)?;
        self.entries.push((name, ty))?;
        Ok(())
    }

    fn cut(&mut self, len: usize)
        ensures { self.new ≡ take len self.old }
    {
        self.entries.truncate(len);
    }
}

impl EnvNames {
    fn entries(&self) -> &[(Name, Ty)]
        ensures entries { result.now ≡ names_held self.now }
        ensures distinct { HasDistinctNames (names_held self.now) }
    {
        match self {
            EnvNames::Own(names) => names.entries(),
            EnvNames::Shared(names, len) => first(names.entries(), *len),
        }
    }

    fn get(&self, name: &Name) -> Option<&Ty>
        ensures { option_copied result ≡ type_in (names_held self.now) name.now }
    {
        match self {
            EnvNames::Own(names) => names.get(names.entries().len(), name),
            EnvNames::Shared(names, len) => names.get(*len, name),
        }
    }

    /// What copies share.
    fn shared(self, alloc: Global) -> Result<EnvNames, OutOfMemory>
        ensures { IfOk result (λ held. names_held held ≡ names_held self) }
    {
        match self {
            EnvNames::Own(names) => {
                let len = names.entries().len();
                Ok(EnvNames::Shared(Arc::new(alloc, names)?, len))
            }
            EnvNames::Shared(names, len) => Ok(EnvNames::Shared(names, len)),
        }
    }

    fn copy(&self, alloc: Global) -> Result<EnvNames, OutOfMemory>
        ensures { IfOk result (λ held. names_held held ≡ names_held self.now) }
    {
        match self {
            EnvNames::Own(_) => Ok(EnvNames::Own(copied(alloc, self.entries())?)),
            EnvNames::Shared(names, len) => Ok(EnvNames::Shared(Arc::try_clone(names)?, *len)),
        }
    }

    /// Adds a name that isn't there.
    fn push(&mut self, name: Name, ty: Ty) -> Result<(), OutOfMemory>
        requires { type_in (names_held self.old) name ≡ None }
        ensures added { OnOk result (names_held self.new ≡ names_held self.old ++ (name, ty) ∷ []) }
        ensures unchanged { OnErr result (names_held self.new ≡ names_held self.old) }
    {
        match self {
            EnvNames::Own(names) => names.push(name, ty),
            EnvNames::Shared(names, len) => {
                let mut own = copied(names.allocator(), first(names.entries(), *len))?;
                own.push(name, ty)?;
                *self = EnvNames::Own(own);
                Ok(())
            }
        }
    }

    fn cut(&mut self, len: usize)
        ensures { names_held self.new ≡ take len (names_held self.old) }
    {
        match self {
            EnvNames::Own(names) => names.cut(len),
            EnvNames::Shared(_, shown) => *shown = len.min(*shown),
        }
    }
}

impl Env {
    pub fn new(alloc: Global) -> Env
        ensures { result ≡ [] }
    {
        Env {
            held: EnvNames::Own(NameTable::new(alloc)),
        }
    }

    /// An environment of these entries.
    pub fn of(entries: Vec<(Name, Ty)>) -> Env
        requires { HasDistinctNames entries.items }
        ensures { result ≡ entries.items }
    {
        Env {
            held: EnvNames::Own(NameTable::of(entries)),
        }
    }

    /// The same environment, whose copies share its names.
    pub fn shared(self, alloc: Global) -> Result<Env, OutOfMemory>
        ensures { IfOk result (λ env. env ≡ self) }
    {
        let Env { held } = self;
        Ok(Env {
            held: held.shared(alloc)?,
        })
    }

    /// The names with their types, in the order in which they were added.
    pub fn entries(&self) -> &[(Name, Ty)]
        ensures entries { result.now ≡ self.now }
        ensures distinct { HasDistinctNames self.now }
    {
        self.held.entries()
    }

    pub fn copy(&self, alloc: Global) -> Result<Env, OutOfMemory>
        ensures { IfOk result (λ env. env ≡ self.now) }
    {
        Ok(Env {
            held: self.held.copy(alloc)?,
        })
    }

    pub fn same(&self, other: &Env) -> bool
        ensures { IsTrue result ↔ (self.now ≡ other.now) }
    {
        same_identifiers(self.entries(), other.entries())
    }

    pub fn get(&self, name: &Name) -> Option<&Ty>
        ensures { option_copied result ≡ type_in self.now name.now }
    {
        self.held.get(name)
    }

    pub fn add(&mut self, name: Name, ty: Ty) -> Result<(), EnvFault>
        ensures added { OnOk result (self.new ≡ self.old ++ (name, ty) ∷ []) }
        ensures unchanged { OnErr result (self.new ≡ self.old) }
        ensures taken { IsErrOf result EnvFault.Taken ↔ IsSome (type_in self.old name) }
    {
        if self.get(&name).is_some() {
            return Err(EnvFault::Taken);
        }
        self.held.push(name, ty)?;
        Ok(())
    }

    /// Keeps the first entries alone. It takes no memory.
    pub fn cut(&mut self, len: usize)
        ensures { self.new ≡ take len self.old }
    {
        self.held.cut(len);
    }
}

/// The first entries.
fn first(entries: &[(Name, Ty)], len: usize) -> &[(Name, Ty)]
    ensures { result.now ≡ take len entries.now }
{
    &entries[..len.min(entries.len())]
}

/// A table of its own with these entries.
fn copied(alloc: Global, entries: &[(Name, Ty)]) -> Result<NameTable, OutOfMemory>
    requires { HasDistinctNames entries.now }
    ensures { IfOk result (λ table. table ≡ entries.now) }
{
    let entries = copy_identifiers(alloc, entries)?;
    Ok(NameTable::of(entries.into_vec()))
}

/// The places of the names. None where memory runs out, or where a name stands there twice.
fn places_of(alloc: Global, entries: &[(Name, Ty)]) -> Option<BTreeMap<Name, usize>>
    ensures { IfSome result (λ places. AreAtPlaces entries.now places.entries) }
{
    let mut places = BTreeMap::new(alloc);
    for at in 0..entries.len() {
        let name = &entries[at].0;
        if places.contains_key(name) {
            return None;
        }
        note_place(alloc, &mut places, name, at).ok()?;
    }
    Some(places)
}

/// Notes the place of a name. Where memory runs out nothing changes.
fn note_place(
    alloc: Global,
    places: &mut BTreeMap<Name, usize>,
    name: &Name,
    at: usize,
) -> Result<(), OutOfMemory>
    ensures noted { OnOk result (IsNoted places.old.entries places.new.entries name.now at) }
    ensures unchanged { OnErr result (places.new.entries ≡ places.old.entries) }
{
    places.insert(name.copy(alloc)?, at)?;
    Ok(())
}

/// The type at a place, if the name stands there.
fn type_there<'a>(entries: &'a [(Name, Ty)], place: Option<usize>, name: &Name) -> Option<&'a Ty>
    ensures { option_copied result ≡ type_there entries.now name.now place }
{
    let entry = entries.get(place?)?;
    if name.same(&entry.0) {
        Some(&entry.1)
    } else {
        None
    }
}

/// The type of the first entry with the name.
fn type_at<'a>(entries: &'a [(Name, Ty)], name: &Name) -> Option<&'a Ty>
    ensures { option_copied result ≡ type_in entries.now name.now }
{
    for entry in entries {
        if name.same(&entry.0) {
            return Some(&entry.1);
        }
    }
    None
}
