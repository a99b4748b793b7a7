// Maps from obligations' names.
ghost use Rattle.std.specs.Prelude.{◌≡◌, ◌<◌, IfOk, OnOk, OnErr, false};
ghost use Rattle.std.specs.Option.{option_copied};
ghost use Rattle.std.specs.FinMap as map;
ghost use Rattle.core_steps.specs.PrivateNames.{AreAscending, is_none_of};
ghost use Rattle.core_steps.specs.State.{without_all};

use crate::entries::{drop_from, place_of, put, put_in};
use crate::room::Room;
use formula_core::{OutOfMemory, PoName};
use std::alloc::Global;
use std::marker::Model;

/// A map from obligations' names, in byte order.
#[derive(Drop)]
pub struct PoMap<V> {
    entries: Vec<(PoName, V)>,
}

impl<V> Model for PoMap<V> {
    ghost use Rattle.std.specs.Prelude.{T};
    ghost use Rattle.std.specs.FinMap as map;
    ghost use Rattle.std.specs.Coded.{coded_ℕ, coded_list};
    ghost use Rattle.core_steps.specs.Durable.{text_cmp};

    ghost Value = { map.FinMap text_cmp V };

    ghost coded = { map.code (coded_list coded_ℕ) V.code };

    ghost view = { λ m. map.from_sorted m.entries.items };

    ghost invariant = { λ m. T (map.is_sorted text_cmp m.entries.items) };
}

impl<V> PoMap<V> {
    /// The empty map.
    pub fn new(alloc: Global) -> PoMap<V>
        ensures { result ≡ map.empty }
    {
        PoMap {
            entries: Vec::new(alloc),
        }
    }

    /// How many names it has.
    pub fn len(&self) -> usize
        ensures { result ≡ map.len self.now }
    {
        self.entries.len()
    }

    /// The names with their values, in byte order.
    pub fn entries(&self) -> &[(PoName, V)]
        ensures { result.now ≡ map.entries self.now }
    {
        self.entries.as_slice()
    }

    /// The value at the name, if there is one.
    pub fn get(&self, name: &PoName) -> Option<&V>
        ensures { option_copied result ≡ map.get self.now name.now }
    {
        let place = place_of(&self.entries, name);
        if place.is_there {
            Some(&self.entries[place.at].1)
        } else {
            None
        }
    }
}

impl<V: Drop> PoMap<V> {
    /// Sets the value at the name. The map is unchanged after a refusal.
    pub fn put(&mut self, name: PoName, value: V) -> Result<(), OutOfMemory>
        ensures ok { OnOk result (self.new ≡ map.insert self.old name value) }
        ensures err { OnErr result (self.new ≡ self.old) }
    {
        put(&mut self.entries, name, value)
    }

    /// Sets the value at the name, in room that was taken before. It takes no memory.
    pub fn put_in(&mut self, room: Room<(PoName, V)>, name: PoName, value: V)
        requires { map.contains_key self.old name ≡ false → map.len self.old < room }
        ensures { self.new ≡ map.insert self.old name value }
    {
        put_in(&mut self.entries, room, name, value);
    }

    /// Removes the value at the name, if there is one. It takes no memory.
    pub fn remove(&mut self, name: &PoName)
        ensures { self.new ≡ map.remove self.old name.now }
    {
        drop_from(&mut self.entries, name);
    }

    /// Removes the values at these names, in one pass where the names are in byte order. It takes no memory.
    pub fn remove_all(&mut self, names: &[PoName])
        ensures { self.new ≡ without_all self.old names.now }
    {
        if names.is_sorted() {
            self.entries.retain(|entry| is_none_of(names, &entry.0));
            return;
        }
        for name in names {
            self.remove(name);
        }
    }

    /// Room for a value at the name, where there is none.
    pub fn room_for(&self, alloc: Global, name: &PoName) -> Result<Room<(PoName, V)>, OutOfMemory>
        ensures { IfOk result (λ room. map.contains_key self.now name.now ≡ false → map.len self.now < room) }
    {
        if self.get(name).is_some() {
            return Ok(Room::none(alloc));
        }
        Room::above(alloc, self.len())
    }
}

// Whether the name is none of these.
fn is_none_of(names: &[PoName], name: &PoName) -> bool
    ensures { AreAscending names.now → result ≡ is_none_of names.now name.now }
{
    names.binary_search(name).is_err()
}
