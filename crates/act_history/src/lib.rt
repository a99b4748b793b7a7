//! A history: what was done, in order, as contracts alone know it.
#![tactic(auto)]

ghost use Rattle.std.specs.Prelude.{◌≡◌, ◌+◌, ◌<◌, ◌^◌, [], ◌∷◌, ◌++◌, length, OnOk};

use std::alloc::{AllocError, Global};
use std::marker::Model;
use std::snapshot::Snapshot;

/// What was done, the oldest first.
///
/// Contracts see the items, and the room: how many further ones are noted without memory. At run time an item has no
/// bytes, and only their number is known.
#[derive(Drop)]
pub struct History<T> {
    noted: Vec<Snapshot<T>>,
}

impl<T> Model for History<T> {
    ghost use Rattle.std.specs.Prelude.{◌-◌, map, vec_len, vec_capacity};
    ghost use Rattle.act_history.specs.History.{Items};

    ghost Value = { Items T };

    ghost view = { λ h. record {
      items = map (λ noted. noted.value) h.noted.items;
      room = vec_capacity h.noted - vec_len h.noted;
    } };
}

impl<T: Drop> History<T> {
    /// No items.
    pub fn new(alloc: Global) -> History<T>
        ensures { result.items ≡ [] }
    {
        History {
            noted: Vec::new(alloc),
        }
    }

    /// How many items were noted.
    pub fn len(&self) -> usize
        ensures { result ≡ length self.now.items }
    {
        self.noted.len()
    }

    /// Makes room for an item where there is none.
    pub fn reserve(&mut self) -> Result<(), AllocError>
        ensures items { self.new.items ≡ self.old.items }
        ensures room { OnOk result (0 < self.new.room) }
        ensures few { length self.new.items < 2 ^ 63 }
    {
        self.noted.reserve(1)
    }

    /// Notes an item, and lets it go.
    pub fn note(&mut self, item: T)
        requires { 0 < self.old.room }
        ensures { self.new.items ≡ self.old.items ++ item ∷ [] }
    {
        self.noted.push_reserved(Snapshot::of(&item));
        drop(item);
    }
}
