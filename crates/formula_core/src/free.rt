//! The free identifiers of a formula.
ghost use Rattle.std.specs.Prelude.{◌≡◌, ◌++◌, ◌∷◌, [], IfOk, OnOk, Some, false, fold, map};
ghost use Rattle.std.specs.List.{list_any, slice_get};
ghost use Rattle.std.specs.Map.{lookup};
ghost use Rattle.std.specs.BTreeMap.{is_at};
ghost use Rattle.std.specs.Ordering.{nat_cmp};
ghost use Rattle.std.specs.Cmp.Lexicographic.{slice_cmp};
ghost use Rattle.std.specs.Option.{option_map_or};
ghost use Rattle.formula_core.specs.Types.{same_type};
ghost use Rattle.formula_core.specs.Formulas.{free_of, joined, occurrences, same_identifier, with_identifier};
ghost use Rattle.formula_core.specs.PrivatePlaces.{IsPlaceOf, HasPlaces};

use crate::formula::Formula;
use crate::memory::OutOfMemory;
use crate::name::Name;
use crate::ty::Ty;
use std::alloc::Global;
use std::collections::BTreeMap;

/// The identifiers that were found, and for each of their names the place of one that has it.
#[derive(Drop)]
struct Found {
    identifiers: Vec<(Name, Ty)>,
    places: BTreeMap<Name, usize>,
}

impl Formula {
    /// Each free identifier once, by first place.
    pub fn free(&self, alloc: Global) -> Result<Vec<(Name, Ty)>, OutOfMemory>
        ensures { IfOk result (λ v. v.items ≡ free_of self.now) }
    {
        let mut found = Found {
            identifiers: Vec::new(alloc),
            places: BTreeMap::new(alloc),
        };
        self.collect(alloc, &mut found)?;
        let Found {
            identifiers,
            places: _,
        } = found;
        Ok(identifiers)
    }

    #[cycle(free)]
    fn collect(&self, alloc: Global, found: &mut Found) -> Result<(), OutOfMemory>
        requires { HasPlaces found.old.identifiers.items found.old.places.entries }
        ensures found { OnOk result (found.new.identifiers.items
            ≡ fold with_identifier found.old.identifiers.items (occurrences self.now)) }
        ensures places { OnOk result (HasPlaces found.new.identifiers.items found.new.places.entries) }
    {
        match self {
            Formula::Int(_) => Ok(()),
            Formula::Free(name, ty) => add_new(alloc, found, name, ty),
            Formula::Bound(_, _) => Ok(()),
            Formula::Node(_, parts, _) => collect_all(alloc, parts.items(), found),
            Formula::Bind(_, _, parts, _) => collect_all(alloc, parts.items(), found),
        }
    }
}

#[cycle(free)]
fn collect_all(alloc: Global, items: &[Formula], found: &mut Found) -> Result<(), OutOfMemory>
    requires { HasPlaces found.old.identifiers.items found.old.places.entries }
    ensures found { OnOk result (found.new.identifiers.items
        ≡ fold with_identifier found.old.identifiers.items (joined (map occurrences items.now))) }
    ensures places { OnOk result (HasPlaces found.new.identifiers.items found.new.places.entries) }
{
    for item in items {
        item.collect(alloc, found)?;
    }
    Ok(())
}

/// Adds an identifier that is not there yet.
fn add_new(alloc: Global, found: &mut Found, name: &Name, ty: &Ty) -> Result<(), OutOfMemory>
    requires { HasPlaces found.old.identifiers.items found.old.places.entries }
    ensures found { OnOk result (found.new.identifiers.items
        ≡ with_identifier found.old.identifiers.items (name.now, ty.now)) }
    ensures places { OnOk result (HasPlaces found.new.identifiers.items found.new.places.entries) }
{
    let place = place_of(&found.places, name);
    if is_known(&found.identifiers, place, name, ty) {
        return Ok(());
    }
    match place {
        Some(at) => add_at_place(alloc, found, at, name, ty),
        None => add_with_place(alloc, found, name, ty),
    }
}

/// Adds an identifier whose name has a place.
fn add_at_place(
    alloc: Global,
    found: &mut Found,
    at: usize,
    name: &Name,
    ty: &Ty,
) -> Result<(), OutOfMemory>
    requires places { HasPlaces found.old.identifiers.items found.old.places.entries }
    requires place { lookup (is_at (slice_cmp nat_cmp name.now)) found.old.places.entries ≡ Some at }
    ensures found { OnOk result (found.new.identifiers.items ≡ found.old.identifiers.items ++ (name.now, ty.now) ∷ []) }
    ensures places { OnOk result (HasPlaces found.new.identifiers.items found.new.places.entries) }
{
    let _ = at;
    found
        .identifiers
        .push((name.copy(alloc)?, ty.copy(alloc)?))?;
    Ok(())
}

/// Adds an identifier, and notes its place.
fn add_with_place(alloc: Global, found: &mut Found, name: &Name, ty: &Ty) -> Result<(), OutOfMemory>
    requires { HasPlaces found.old.identifiers.items found.old.places.entries }
    ensures found { OnOk result (found.new.identifiers.items ≡ found.old.identifiers.items ++ (name.now, ty.now) ∷ []) }
    ensures places { OnOk result (HasPlaces found.new.identifiers.items found.new.places.entries) }
{
    let place = found.identifiers.len();
    found.places.insert(name.copy(alloc)?, place)?;
    found
        .identifiers
        .push((name.copy(alloc)?, ty.copy(alloc)?))?;
    Ok(())
}

fn place_of(places: &BTreeMap<Name, usize>, name: &Name) -> Option<usize>
    ensures { result ≡ lookup (is_at (slice_cmp nat_cmp name.now)) places.now.entries }
{
    places.get(name).copied()
}

/// Whether the identifier was found. Only where its name was found with another type all are looked through.
fn is_known(identifiers: &[(Name, Ty)], place: Option<usize>, name: &Name, ty: &Ty) -> bool
    requires { IsPlaceOf identifiers.now name.now place }
    ensures { result ≡ list_any (λ x. same_identifier x (name.now, ty.now)) identifiers.now }
{
    match place {
        None => false,
        Some(at) => has_type_at(identifiers, at, ty) || has(identifiers, name, ty),
    }
}

fn has_type_at(identifiers: &[(Name, Ty)], at: usize, ty: &Ty) -> bool
    ensures { result ≡ option_map_or (λ x. same_type x.1 ty.now) (slice_get identifiers.now at) false }
{
    match identifiers.get(at) {
        Some(identifier) => identifier.1.same(ty),
        None => false,
    }
}

fn has(identifiers: &[(Name, Ty)], name: &Name, ty: &Ty) -> bool
    ensures { result ≡ list_any (λ x. same_identifier x (name.now, ty.now)) identifiers.now }
{
    identifiers.iter().any(|x| x.0.same(name) && x.1.same(ty))
}
