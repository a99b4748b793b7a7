//! The desk and its chairs.
ghost use Rattle.std.specs.Prelude.{◌≡◌, ◌+◌, ◌<◌, ◌%◌, ◌^◌, [], ◌∷◌, true, false, Some, None, IfOk, IfErr};
ghost use Rattle.turn_desk.specs.Log.{IsPrefix, Grows, HasSeen, JoinedStay, AllJoined, NoneFrom};

use crate::kept::{Act, Kept};
use crate::plays::{Give, Learn, Make, Take, TakeIn, Turns};
use crate::view::View;
use atomic_table::{Refused, Seat, Table};
use std::alloc::Global;
use std::hint::spin_loop;
use std::marker::Model;
use std::snapshot::Snapshot;
use std::sync::Wait;
use std::sync::atomic::{AtomicU64, Ordering};

/// How often a waiting thread finds the turn taken, at most, before it sleeps.
const LOOKS: u32 = 100;

/// The turn word as one finds it who has to wait: odd, as it is while a chair has the turn.
const TAKEN: u64 = 1;

/// Chair 0 doesn't wait for the turn; it waits, awake; it may sleep until the turn is given back.
const ABSENT: u64 = 0;

const WAITING: u64 = 1;

const SLEEPING: u64 = 2;

type Place<V> = Seat<Option<V>, View<<V as Kept>::Entry, <V as Kept>::Base>>;

/// One value, on which chairs act in turns.
///
/// Contracts see which desk it is and what its value began from. The acts of all chairs stand in one order: the log of the
/// value has their entries in it.
pub struct Desk<V: Kept> {
    table: Table<Option<V>, View<V::Entry, V::Base>, Snapshot<V>, Turns, Global>,
    // 1 where a thread of another chair than 0 may sleep until a turn is given back, and else 0. Threads sleep on this
    // word, not on the turn.
    asleep: AtomicU64,
    // What chair 0 does: it goes before others that wait, and sleeps on this word.
    first: AtomicU64,
}

impl<V: Kept> Model for Desk<V> {
    ghost use Rattle.std.specs.Prelude.{◌≡◌};
    ghost use Rattle.turn_desk.specs.Chairs.{DeskState};

    ghost Value = { DeskState V.Base };

    ghost view = { λ d. record { table = d.table.shared.table_id; base = V.base d.table.shared.key.value } };

    ghost invariant = { λ d. (d.table.shared.table_id.words ≡ 1) × (d.table.shared.table_id.slots ≡ 1) };
}

/// The right to act on the value of a desk under a number, one act at a time.
///
/// Contracts see its number, how many acts it has made, and what it has seen: a beginning of the one log with all entries
/// of its own acts. Of chair 0 they also see how many chairs were made and which were joined. A desk can't be closed where
/// a chair was dropped and not joined.
#[derive(Drop)]
pub struct Chair<V: Kept> {
    seat: Seat<Option<V>, View<V::Entry, V::Base>>,
    number: u32,
    made: u32,
}

impl<V: Kept> Model for Chair<V> {
    ghost use Rattle.std.specs.Prelude.{◌≡◌, [], true, false};
    ghost use Rattle.turn_desk.specs.Chairs.{ChairState};

    ghost Value = { ChairState V.Entry V.Base };

    ghost view = { λ c. record {
      table = c.seat.table_id;
      number = c.number;
      acts = c.seat.me.0.acts;
      made = c.made;
      joined = c.seat.me.0.joined;
      seen = c.seat.me.0.seen;
      base = c.seat.me.0.base;
    } };

    ghost invariant = { λ c. (c.seat.me.0.number ≡ c.number) × (c.seat.me.0.made ≡ c.made) × (c.seat.me.1 ≡ [])
        × (c.seat.me.0.seated ≡ true) × (c.seat.me.0.acting ≡ false) };
}

// Whether the turn can be taken, by the turn word. Its last even value counts as taken.
fn is_free(word: u64) -> bool
    ensures { result ≡ true → (word % 2 ≡ 0) × (word + 2 < 2 ^ 64) }
{
    word % 2 == 0 && word < u64::MAX - 1
}

impl<V: Kept> Desk<V> {
    ghost use Rattle.turn_desk.specs.Chairs.{IsOf, IsAct, first_chair};
    ghost use Rattle.turn_desk.specs.Plays.{at_turn, after_turn};
    ghost use Rattle.turn_desk.specs.PrivateSeats.{IsSameSeat};

    /// Makes a desk for a value with no entry yet, and chair 0, which has seen nothing.
    ///
    /// # Errors
    ///
    /// The value, where memory ran out. No other call of a desk or a chair takes memory.
    pub fn start(alloc: Global, value: V) -> Result<(Desk<V>, Chair<V>), V>
        requires { V.log value ≡ [] }
        ensures ok { IfOk result (λ d. (d.0.base ≡ V.base value) × (d.1 ≡ first_chair d.0)) }
        ensures err { IfErr result (λ v. v ≡ value) }
    {
        let about = Snapshot::of(&value);
        let Ok(mut slots) = Vec::with_capacity(alloc, 1) else {
            return Err(value);
        };
        slots.push_reserved(Some(value));
        match Table::new(alloc, &[0], slots, &about) {
            Ok((table, seat)) => {
                let chair = Chair {
                    seat,
                    number: 0,
                    made: 1,
                };
                let desk = Desk {
                    table,
                    asleep: AtomicU64::new(0),
                    first: AtomicU64::new(ABSENT),
                };
                Ok((desk, chair))
            }
            Err(Refused { mut slots }) => {
                let value = slots.pop().unwrap().unwrap();
                slots.destroy_empty();
                Err(value)
            }
        }
    }

    // The turn word as a chair finds it: where chair 0 waits, another chair finds the turn taken.
    fn turn_word(&self, is_first: bool) -> u64 {
        if is_first || self.first.load(Ordering::SeqCst) == ABSENT {
            self.table.shared.peek(0)
        } else {
            TAKEN
        }
    }

    // Waits for the turn, and takes the value.
    fn take_turn<R: Wait>(&self, rt: &R, is_first: bool, seat: &mut Place<V>) -> V
        requires seat { seat.old.table_id ≡ self.now.table }
        requires rests { (seat.old.me.0.seated ≡ true) × (seat.old.me.1 ≡ []) }
        ensures seat { IsSameSeat seat.old seat.new
            × (seat.new.me ≡ (at_turn seat.old.me.0 (V.log result), (0, None) ∷ [])) }
        ensures log { HasSeen V.chair_of seat.old.me.0.number seat.old.me.0.seen (V.log result) }
        ensures base { seat.old.me.0.base ≡ Some (V.base result) }
    {
        let shared = &self.table.shared;
        let mut looks = 0;
        let mut has_slept = false;
        if is_first {
            self.first.store(WAITING, Ordering::SeqCst);
        }
        for _ in rt.forever() {
            let found = self.turn_word(is_first);
            if is_free(found) {
                if has_slept {
                    self.note_sleepers(is_first);
                }
                if shared.compare_exchange::<Take>(seat, 0, found, found + 1) == found {
                    self.note_turn(is_first);
                    return shared.exchange(seat, 0, None).unwrap();
                }
            } else if looks < LOOKS && (is_first || self.asleep.load(Ordering::SeqCst) == 0) {
                looks += 1;
                spin_loop();
            } else {
                self.sleep(rt, is_first);
                has_slept = true;
                looks = 0;
            }
        }
        unreachable!()
    }

    // Others may sleep still, and the wake-up came to this thread alone. Chair 0 is woken by itself.
    fn note_sleepers(&self, is_first: bool) {
        if !is_first {
            self.asleep.store(1, Ordering::SeqCst);
        }
    }

    // Chair 0 has the turn and waits no more.
    fn note_turn(&self, is_first: bool) {
        if is_first {
            self.first.store(ABSENT, Ordering::SeqCst);
        }
    }

    // Says that a thread sleeps, looks once more, and sleeps until a turn is given back.
    fn sleep<R: Wait>(&self, rt: &R, is_first: bool) {
        if is_first {
            self.first.store(SLEEPING, Ordering::SeqCst);
            if !is_free(self.turn_word(is_first)) {
                self.first.park(rt, SLEEPING as u32);
            }
            self.first.store(WAITING, Ordering::SeqCst);
        } else {
            self.asleep.store(1, Ordering::SeqCst);
            if !is_free(self.turn_word(is_first)) {
                self.asleep.park(rt, 1);
            }
        }
    }

    // Wakes a thread, if one may sleep: chair 0 where it waits, and else another. The turn has been given back before.
    // Where chair 0 waits the others are woken when it gives the turn back.
    fn wake_sleeper(&self) {
        let first = self.first.load(Ordering::SeqCst);
        if first == SLEEPING {
            let found = self
                .first
                .compare_exchange(SLEEPING, WAITING, Ordering::SeqCst, Ordering::SeqCst);
            if found.is_ok() {
                self.first.wake_one();
            }
        } else if first == ABSENT
            && self.asleep.load(Ordering::SeqCst) == 1
            && self.asleep.swap(0, Ordering::SeqCst) == 1
        {
            self.asleep.wake_one();
        }
    }

    // Gives the value back, and the turn.
    fn give_turn(&self, seat: &mut Place<V>, value: V)
        requires seat { seat.old.table_id ≡ self.now.table }
        requires acts { (seat.old.me.0.seated ≡ true)
            × (seat.old.me.0.acting ≡ true) × (seat.old.me.1 ≡ (0, None) ∷ []) }
        requires log { Grows V.chair_of seat.old.me.0.number seat.old.me.0.seen (V.log value) }
        requires base { seat.old.me.0.base ≡ Some (V.base value) }
        ensures seat { IsSameSeat seat.old seat.new × (seat.new.me ≡ (after_turn seat.old.me.0 (V.log value), [])) }
        ensures joined { JoinedStay V.chair_of seat.old.me.0.joined (V.log value) }
    {
        let shared = &self.table.shared;
        let empty = shared.exchange(seat, 0, Some(value));
        let None = empty else { unreachable!() };
        shared.fetch_add::<Give>(seat, 0, 1);
        self.wake_sleeper();
    }

    /// Waits for the turn, and does the action on the value as the chair's next act.
    ///
    /// Waiting finds the turn taken a hundred times at most and then sleeps, or at once where another chair sleeps. A
    /// wake-up begins it anew. Where chair 0 waits it goes before the others. No clause says so, or when the turn comes. A
    /// desk has 2^63 - 1 turns; after them the call waits for ever. The action must not act on the desk.
    pub fn act<R: Wait, A: Act<V>>(&self, rt: &R, chair: &mut Chair<V>, action: A) -> A::Answer
        requires { IsOf self.now chair.old }
        ensures chair { chair.new ≡ record chair.old { acts = chair.old.acts + 1; seen = chair.new.seen } }
        ensures act { IsAct V.log V.chair_of V.base (A.does action chair.old.number)
            self.now.base chair.old.number chair.old.seen result chair.new.seen }
        ensures joined { JoinedStay V.chair_of chair.old.joined chair.new.seen }
    {
        let number = chair.number;
        let mut value = self.take_turn(rt, number == 0, &mut chair.seat);
        let answer = action.act(number, &mut value);
        self.give_turn(&mut chair.seat, value);
        answer
    }

    /// Gives the value back, once all chairs that were made are joined. Its log is what chair 0 has seen.
    pub fn close(self, chair: Chair<V>) -> V
        requires of { IsOf self chair }
        requires first { chair.number ≡ 0 }
        requires all { AllJoined chair.joined chair.made }
        ensures log { V.log result ≡ chair.seen }
        ensures base { V.base result ≡ self.base }
        ensures joined { JoinedStay V.chair_of chair.joined (V.log result) }
        ensures unmade { NoneFrom V.chair_of chair.made (V.log result) }
    {
        let Desk {
            table,
            asleep: _,
            first: _,
        } = self;
        let Chair {
            seat,
            number: _,
            made: _,
        } = chair;
        let mut closed = table.close_with(seat);
        let value = closed.take(0).unwrap();
        closed.free();
        value
    }
}

impl<V: Kept> Chair<V> {
    ghost use Rattle.turn_desk.specs.Chairs.{IsOf, new_chair, with_chair};

    /// The number of the chair.
    pub fn number(&self) -> u32
        ensures { result ≡ self.now.number }
    {
        self.number
    }

    /// Makes the chair with the next number, which has seen the same as chair 0.
    pub fn split(&mut self, desk: &Desk<V>) -> Chair<V>
        requires of { IsOf desk.now self.old }
        requires first { (self.old.number ≡ 0) × (self.old.made + 1 < 2 ^ 32) }
        ensures maker { self.new ≡ record self.old { made = self.old.made + 1 } }
        ensures made { result ≡ new_chair self.old self.old.made }
        ensures unused { NoneFrom V.chair_of self.old.made self.old.seen }
    {
        let shared = &desk.table.shared;
        shared.load::<Learn>(&mut self.seat, 0);
        let seat = shared.split_seat::<Make>(&mut self.seat);
        let number = self.made;
        self.made += 1;
        Chair {
            seat,
            number,
            made: 0,
        }
    }

    /// Takes another chair in. Chair 0 has then seen the longer of what both had seen.
    ///
    /// From then on the other's own acts are known with chair 0: its entries in the log stay those.
    pub fn join(&mut self, desk: &Desk<V>, other: Chair<V>)
        requires of { IsOf desk.now self.old × IsOf desk.now other }
        requires first { self.old.number ≡ 0 }
        ensures joined { self.new ≡ with_chair V.chair_of self.old other }
        ensures seen { HasSeen V.chair_of 0 self.old.seen self.new.seen
            × HasSeen V.chair_of other.number other.seen self.new.seen }
        ensures own { JoinedStay V.chair_of self.new.joined self.new.seen }
    {
        let Chair {
            seat,
            number: _,
            made: _,
        } = other;
        let shared = &desk.table.shared;
        shared.join_seat::<TakeIn<V>>(&mut self.seat, seat);
        shared.load::<Learn>(&mut self.seat, 0);
    }
}
