//! Several chairs at once.
ghost use Rattle.std.specs.Prelude.{◌≡◌, ◌+◌, ◌<◌, ◌≤◌, ◌^◌, [], All, length, vec_capacity};
ghost use Rattle.turn_desk.specs.Log.{AllJoined, HasSeen, NoneFrom};

use crate::desk::{Chair, Desk};
use crate::kept::Kept;

impl<V: Kept> Chair<V> {
    ghost use Rattle.turn_desk.specs.Chairs.{IsOf, IsNumberedFrom, HasJoined, IsSameFirst, AreNew};

    /// Makes so many chairs, with the next numbers in order, in a vector that has room for them.
    pub fn split_all(&mut self, desk: &Desk<V>, chairs: &mut Vec<Chair<V>>, count: u32)
        requires of { IsOf desk.now self.old }
        requires first { (self.old.number ≡ 0) × (self.old.made + count < 2 ^ 32) }
        requires room { (chairs.old.items ≡ []) × (count ≤ vec_capacity chairs.old) }
        ensures maker { self.new ≡ record self.old { made = self.old.made + count } }
        ensures count { length chairs.new.items ≡ count }
        ensures made { AreNew self.old self.old.made chairs.new.items }
        ensures unused { All (λ chair. NoneFrom V.chair_of chair.number chair.seen) chairs.new.items }
    {
        for _ in 0..count {
            chairs.push_reserved(self.split(desk));
        }
    }

    /// Takes all these chairs in.
    pub fn join_all(&mut self, desk: &Desk<V>, mut chairs: Vec<Chair<V>>)
        requires first { IsOf desk.now self.old × (self.old.number ≡ 0) }
        requires of { All (IsOf desk.now) chairs.items }
        ensures first { IsSameFirst self.old self.new }
        ensures seen { HasSeen V.chair_of 0 self.old.seen self.new.seen }
        ensures each { HasJoined V.chair_of self.new chairs.items 0 }
        ensures all { IsNumberedFrom 1 chairs.items → AllJoined self.new.joined (length chairs.items + 1) }
    {
        while let Some(chair) = chairs.pop() {
            self.join(desk, chair);
        }
    }
}
