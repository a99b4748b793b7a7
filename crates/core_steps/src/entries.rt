// Entries in the order of their keys.
ghost use Rattle.std.specs.Prelude.{◌≡◌, ◌<◌, ◌≤◌, T, IsTrue, OnOk, OnErr, None, false, not, length, take, drop, vec_len};
ghost use Rattle.std.specs.List.{AllByRecursion, HoldsAt};
ghost use Rattle.std.specs.FinMap.{is_sorted, find, put};
ghost use Rattle.std.specs.FinMap.Entries.{where_key};
ghost use Rattle.std.specs.Ordering.{eq_by_cmp};

use crate::room::{Room, make_room};
use formula_core::OutOfMemory;
use std::cmp::Ordering;

/// Where a key stands, or would stand.
#[derive(Clone, Copy)]
pub struct Place {
    pub at: usize,
    pub is_there: bool,
}

/// The place of the key.
pub fn place_of<K: Ord, V>(entries: &[(K, V)], key: &K) -> Place
    requires { T (is_sorted K.cmp entries.now) }
    ensures before { AllByRecursion (λ e. K.cmp key.now e.0 ≡ Ordering.Greater) (take result.at entries.now) }
    ensures there { IsTrue result.is_there
        → (result.at < length entries.now) × HoldsAt (λ e. K.cmp key.now e.0 ≡ Ordering.Equal) entries.now result.at }
    ensures behind { result.is_there ≡ false → (result.at ≤ length entries.now)
        × AllByRecursion (λ e. K.cmp key.now e.0 ≡ Ordering.Less) (drop result.at entries.now) }
{
    let mut from = 0;
    let mut to = entries.len();
    while from < to {
        let mid = from + (to - from) / 2;
        match key.cmp(&entries[mid].0) {
            Ordering::Equal => {
                return Place {
                    at: mid,
                    is_there: true,
                };
            }
            Ordering::Greater => from = mid + 1,
            Ordering::Less => to = mid,
        }
    }
    Place {
        at: from,
        is_there: false,
    }
}

/// Sets the value at the key, in the room that was taken before where the entries have none of their own. It takes no memory.
pub fn put_in<K: Ord + Drop, V: Drop>(
    entries: &mut Vec<(K, V)>,
    room: Room<(K, V)>,
    key: K,
    value: V,
)
    requires sorted { T (is_sorted K.cmp entries.old.items) }
    requires room { find K.cmp key entries.old.items ≡ None → vec_len entries.old < room }
    ensures { entries.new.items ≡ put K.cmp key value entries.old.items }
{
    let place = place_of(entries, &key);
    if place.is_there {
        entries[place.at].1 = value;
        return;
    }
    make_room(entries, room);
    match entries.insert(place.at, (key, value)) {
        Ok(()) => {}
        Err(_) => unreachable!(),
    }
}

/// Sets the value at the key. The entries are unchanged after a refusal.
pub fn put<K: Ord + Drop, V: Drop>(
    entries: &mut Vec<(K, V)>,
    key: K,
    value: V,
) -> Result<(), OutOfMemory>
    requires { T (is_sorted K.cmp entries.old.items) }
    ensures ok { OnOk result (entries.new.items ≡ put K.cmp key value entries.old.items) }
    ensures err { OnErr result (entries.new.items ≡ entries.old.items) }
{
    let place = place_of(entries, &key);
    if place.is_there {
        entries[place.at].1 = value;
        return Ok(());
    }
    entries.insert(place.at, (key, value))?;
    Ok(())
}

/// Removes the entry of the key, if there is one. It takes no memory.
pub fn drop_from<K: Ord + Drop, V: Drop>(entries: &mut Vec<(K, V)>, key: &K)
    requires { T (is_sorted K.cmp entries.old.items) }
    ensures { entries.new.items ≡ where_key K.cmp (λ x. not (eq_by_cmp K.cmp key.now x)) entries.old.items }
{
    let place = place_of(entries, key);
    if place.is_there {
        let _entry = entries.remove(place.at);
    }
}
