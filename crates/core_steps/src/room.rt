// Memory that is taken before it is needed.
ghost use Rattle.std.specs.Prelude.{◌≡◌, ◌<◌, ◌++◌, ◌∷◌, [], vec_len, vec_capacity, IfOk};

use formula_core::OutOfMemory;
use std::alloc::Global;
use std::marker::Model;

/// Room for elements. Contracts see for how many.
#[derive(Drop)]
pub struct Room<T> {
    items: Vec<T>,
}

impl<T> Model for Room<T> {
    ghost use Rattle.std.specs.Prelude.{◌≡◌, ℕ, [], vec_capacity};

    ghost Value = { ℕ };

    ghost view = { λ r. vec_capacity r.items };

    ghost invariant = { λ r. r.items.items ≡ [] };
}

impl<T: Drop> Room<T> {
    /// No room, which takes no memory.
    pub fn none(alloc: Global) -> Room<T>
        ensures { result ≡ 0 }
    {
        Room {
            items: Vec::new(alloc),
        }
    }

    /// Room for one element more than so many, and for as many again, so that moves into it are few.
    pub fn above(alloc: Global, count: usize) -> Result<Room<T>, OutOfMemory>
        ensures { IfOk result (λ room. count < room) }
    {
        let Some(more) = count.checked_add(1) else {
            return Err(OutOfMemory);
        };
        let mut items = Vec::new(alloc);
        items.reserve(more.saturating_mul(2))?;
        Ok(Room { items })
    }

    /// The vector of that capacity.
    pub(crate) fn into_items(self) -> Vec<T>
        ensures items { result.items ≡ [] }
        ensures capacity { vec_capacity result ≡ self }
    {
        let Room { items } = self;
        items
    }
}

/// Moves the elements into the room where the vector has none of its own. It takes no memory.
pub(crate) fn make_room<T: Drop>(items: &mut Vec<T>, room: Room<T>)
    requires { vec_len items.old < room }
    ensures items { items.new.items ≡ items.old.items }
    ensures room { vec_len items.new < vec_capacity items.new }
{
    if items.len() < items.capacity() {
        return;
    }
    let mut grown = room.into_items();
    match grown.append(items) {
        Ok(()) => {}
        Err(_) => unreachable!(),
    }
    *items = grown;
}

/// Adds one at the end, in the room where the vector has none of its own. It takes no memory.
pub fn push_in<T: Drop>(items: &mut Vec<T>, room: Room<T>, item: T)
    requires { vec_len items.old < room }
    ensures { items.new.items ≡ items.old.items ++ item ∷ [] }
{
    make_room(items, room);
    items.push_reserved(item);
}
