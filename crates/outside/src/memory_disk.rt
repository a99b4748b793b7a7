// A disk in memory, which keeps every call.
ghost use Rattle.std.specs.Prelude.{◌≡◌, ◌+◌, ◌≤◌, ◌<◌, ◌⊎◌, ◌↔◌, ◌∷◌, ◌^◌, ⊤, length, take, IfOk, IsErr, OnErr, OnOk, []};
ghost use Rattle.std.specs.Io.{ReadsAtMost};
ghost use Rattle.outside.specs.Cause.{HasCause};
ghost use Rattle.outside.specs.Disk.{Sides, overwritten, Torn, TornCut, OnSide, ReadsSide, Leaves, SameImages, Syncs, ReadsAt};
ghost use Rattle.outside.specs.DiskCalls.{Images, nothing, wrote, tore, was_cut, tore_cut, synced};

use crate::calls::Calls;
use crate::entry::Entry;
use crate::recorded::Recorded;
use crate::{Disk, Failed, Side};
use std::alloc::{AllocError, Global};
use std::marker::Model;

/// A disk in memory, which tells its content. The calls that are to fail are listed.
///
/// The calls of [`Disk`] but `faults` are numbered together from 1; past the last number of 64 bits each call has that number.
/// A call fails where its number is listed or greater than the number of calls that the disk serves, and a write also where
/// it would pass the room that all writes together have. After a call that fails reads give what they gave before; a stop
/// may still leave a part of what a failed write or cut would have done, as long as the call is one of those served.
#[derive(Debug, Drop)]
pub struct MemoryDisk {
    disk: Recorded,
    calls: Calls,
}

impl Model for MemoryDisk {
    ghost use Rattle.std.specs.Prelude.{◌≡◌, min, length};
    ghost use Rattle.outside.specs.DiskLog.{calls_of};
    ghost use Rattle.outside.specs.DiskMemory.{DiskInMemory};

    ghost Value = { DiskInMemory };

    ghost view = { λ d. record {
      left = d.disk.first_left.items;
      right = d.disk.first_right.items;
      kept = calls_of d.disk.log;
      room = d.disk.log.room;
      limit = d.disk.log.limit;
      fails = d.calls.fails;
      calls = d.calls.calls;
      faults = d.calls.faults;
    } };

    ghost invariant = { λ d. length (calls_of d.disk.log) ≡ min d.calls.calls d.disk.log.limit };
}

impl MemoryDisk {
    ghost use Rattle.std.specs.Prelude.{ℕ};
    ghost use Rattle.outside.specs.DiskCalls.{by_side};
    ghost use Rattle.outside.specs.DiskMemory.{DiskInMemory, first_of, StopMightHaveLeft};
    ghost use Rattle.outside.specs.DiskStop.{begun, left_after, IsExtreme, IsFilled};
    ghost use Rattle.outside.specs.declared.side.Side.TheVariants.{Left, Right};

    /// A disk whose sides have these bytes. All its writes together may have `room` bytes, it serves `calls` calls, and the
    /// calls of the numbers in `fails` fail, the first being 1. It takes all its memory here, so that no later call can
    /// lack it.
    pub fn new(
        alloc: Global,
        left: Vec<u8>,
        right: Vec<u8>,
        room: usize,
        calls: usize,
        fails: Vec<u64>,
    ) -> Result<MemoryDisk, AllocError>
        ensures { IfOk result (λ disk. disk ≡ record {
          left = left.items;
          right = right.items;
          kept = [];
          room = room;
          limit = calls;
          fails = fails.items;
          calls = 0;
          faults = 0;
        }) }
    {
        Ok(MemoryDisk {
            disk: Recorded::new(alloc, left, right, room, calls)?,
            calls: Calls::new(fails),
        })
    }

    /// The number of calls of [`Disk`] that were made so far, those that failed among them.
    pub fn calls_made(&self) -> u64
        ensures { result ≡ self.now.calls }
    {
        self.calls.made()
    }

    /// What a stop in the middle of the call of this number would have left, the first call being 1: the bytes of the left
    /// and of the right side. Each byte that may be any byte is `fill`, and each length that may vary is the greatest if
    /// `long`, and else the least.
    ///
    /// A number past those of the calls made stands for a stop after them, and 0 for one before the first.
    pub fn image(
        &self,
        alloc: Global,
        call: u64,
        fill: u8,
        long: bool,
    ) -> Result<(Vec<u8>, Vec<u8>), AllocError>
        ensures left { IfOk result (λ sides.
            sides.0.items ≡ left_after fill long (first_of self.now) (begun call self.now.kept) Left) }
        ensures right { IfOk result (λ sides.
            sides.1.items ≡ left_after fill long (first_of self.now) (begun call self.now.kept) Right) }

        // It is an image of the disk once that call has begun, the longest or the shortest of them, and each of its bytes is
        // `fill` or what all of them have there.
        ensures image { IfOk result (λ sides.
            Images (first_of self.now) (begun call self.now.kept) (by_side sides.0.items sides.1.items)) }
        ensures extreme { IfOk result (λ sides. IsExtreme long
            (Images (first_of self.now) (begun call self.now.kept)) (by_side sides.0.items sides.1.items)) }
        ensures filled { IfOk result (λ sides. IsFilled fill
            (Images (first_of self.now) (begun call self.now.kept)) (by_side sides.0.items sides.1.items)) }

        // So it is one of the images of all moments since any earlier call.
        ensures moment { (t : ℕ) → t < call → IfOk result (λ sides.
            StopMightHaveLeft self.now t (by_side sides.0.items sides.1.items)) }
    {
        let count = self.disk.log.begun(call);
        let left = self.disk.left_on(alloc, Side::Left, count, fill, long)?;
        let right = self.disk.left_on(alloc, Side::Right, count, fill, long)?;
        Ok((left, right))
    }
}

impl Disk for MemoryDisk {
    ghost use Rattle.outside.specs.DiskLaws.{counts_now, only_now};
    ghost use Rattle.outside.specs.DiskMemory.{first_of, bytes_now, StopMayLeave, StopMightHaveLeft, TimePasses, RefusesCall, LacksRoom, served, failed};

    ghost told = { ⊤ };

    ghost bytes_of = { bytes_now };

    ghost images = { StopMayLeave };

    ghost clock = { λ d. length d.kept };

    ghost moments = { StopMightHaveLeft };

    ghost faults = { λ d. d.faults };

    ghost counts_now = { λ _ d t c le now. counts_now (first_of d) d.kept t c now };

    ghost only_now = { λ _ d c since. only_now (first_of d) d.kept c since };

    fn faults(&self) -> u64 {
        self.calls.faults()
    }

    fn len(&mut self, side: Side) -> Result<u64, Failed>
        ensures len { ⊤ → IfOk result (λ n. n ≡ length (bytes_now self.old side)) }
        ensures bytes { ⊤ → bytes_now self.new ≡ bytes_now self.old }
        ensures images { ⊤ → SameImages (StopMayLeave self.old) (StopMayLeave self.new) }
        ensures image { ⊤ → StopMayLeave self.new (bytes_now self.new) }
        ensures time { ⊤ → TimePasses self.old self.new }
        ensures cause { HasCause self.old.faults self.new.faults result }

        // Exactly which calls fail, and what each leaves.
        ensures failing { IsErr result ↔ RefusesCall self.old }
        ensures done { OnOk result (self.new ≡ served nothing self.old) }
        ensures fault { OnErr result (self.new ≡ failed nothing self.old) }
    {
        let is_full = self.disk.is_full();
        let is_listed = self.calls.begin();
        let len = self.disk.len(side);
        self.disk.note_if_room(Entry::Nothing);
        if is_full || is_listed {
            return Err(self.calls.fail());
        }
        Ok(len)
    }

    fn read_at(&mut self, side: Side, at: u64, into: &mut [u8]) -> Result<usize, Failed>
        ensures bound { ReadsAtMost result into.new }
        ensures read { ⊤ → IfOk result (λ n. ReadsAt (bytes_now self.old side) at n into.old into.new) }
        ensures bytes { ⊤ → bytes_now self.new ≡ bytes_now self.old }
        ensures images { ⊤ → SameImages (StopMayLeave self.old) (StopMayLeave self.new) }
        ensures image { ⊤ → StopMayLeave self.new (bytes_now self.new) }
        ensures time { ⊤ → TimePasses self.old self.new }
        ensures cause { HasCause self.old.faults self.new.faults result }

        // Exactly which calls fail, and what each leaves.
        ensures failing { IsErr result ↔ RefusesCall self.old }
        ensures done { OnOk result (self.new ≡ served nothing self.old) }
        ensures fault { OnErr result (self.new ≡ failed nothing self.old) }
    {
        let is_full = self.disk.is_full();
        let is_listed = self.calls.begin();
        if is_full || is_listed {
            self.disk.note_if_room(Entry::Nothing);
            return Err(self.calls.fail());
        }
        let count = self.disk.read(side, at, into);
        self.disk.note_if_room(Entry::Nothing);
        Ok(count)
    }

    fn write_at(&mut self, side: Side, at: u64, bytes: &[u8]) -> Result<(), Failed>
        requires within { ⊤ → at ≤ length (bytes_now self.old side) }
        requires fits { at + length bytes.now < 2 ^ 64 }
        ensures bytes { ⊤ → ReadsSide side (overwritten at bytes.now (bytes_now self.old side)) result
            (bytes_now self.old) (bytes_now self.new) }
        ensures images { ⊤ → Leaves (OnSide side (Torn at (length bytes.now))) result
            (StopMayLeave self.old) (StopMayLeave self.new) }
        ensures image { ⊤ → StopMayLeave self.new (bytes_now self.new) }
        ensures time { ⊤ → TimePasses self.old self.new }
        ensures cause { HasCause self.old.faults self.new.faults result }

        // Exactly which calls fail, and what each leaves.
        ensures failing { IsErr result ↔ (RefusesCall self.old ⊎ LacksRoom self.old (length bytes.now)) }
        ensures done { OnOk result (self.new ≡ served (wrote side at bytes.now) self.old) }
        ensures fault { OnErr result (self.new ≡ failed (tore side at (length bytes.now)) self.old) }
    {
        let is_full = self.disk.is_full();
        let is_listed = self.calls.begin();
        if is_full || is_listed || !self.disk.has_room(bytes.len()) {
            self.disk.note_if_room(Entry::Tore {
                side,
                at,
                count: bytes.len(),
            });
            return Err(self.calls.fail());
        }
        self.disk.write(side, at, bytes);
        Ok(())
    }

    fn cut(&mut self, side: Side, len: u64) -> Result<(), Failed>
        requires within { ⊤ → «len» ≤ length (bytes_now self.old side) }
        ensures bytes { ⊤ → ReadsSide side (take «len» (bytes_now self.old side)) result
            (bytes_now self.old) (bytes_now self.new) }
        ensures images { ⊤ → Leaves (OnSide side (TornCut «len»)) result
            (StopMayLeave self.old) (StopMayLeave self.new) }
        ensures image { ⊤ → StopMayLeave self.new (bytes_now self.new) }
        ensures time { ⊤ → TimePasses self.old self.new }
        ensures cause { HasCause self.old.faults self.new.faults result }

        // Exactly which calls fail, and what each leaves.
        ensures failing { IsErr result ↔ RefusesCall self.old }
        ensures done { OnOk result (self.new ≡ served (was_cut side «len») self.old) }
        ensures fault { OnErr result (self.new ≡ failed (tore_cut side «len») self.old) }
    {
        let is_full = self.disk.is_full();
        let is_listed = self.calls.begin();
        if is_full || is_listed {
            self.disk.note_if_room(Entry::ToreCut { side, len });
            return Err(self.calls.fail());
        }
        self.disk.cut(side, len);
        Ok(())
    }

    fn sync(&mut self, side: Side) -> Result<(), Failed>
        ensures bytes { ⊤ → bytes_now self.new ≡ bytes_now self.old }
        ensures images { ⊤ → Syncs side (bytes_now self.old side) result
            (StopMayLeave self.old) (StopMayLeave self.new) }
        ensures image { ⊤ → StopMayLeave self.new (bytes_now self.new) }
        ensures time { ⊤ → TimePasses self.old self.new }
        ensures cause { HasCause self.old.faults self.new.faults result }

        // Exactly which calls fail, and what each leaves.
        ensures failing { IsErr result ↔ RefusesCall self.old }
        ensures done { OnOk result (self.new ≡ served (synced side) self.old) }
        ensures fault { OnErr result (self.new ≡ failed nothing self.old) }
    {
        let is_full = self.disk.is_full();
        let is_listed = self.calls.begin();
        if is_full || is_listed {
            self.disk.note_if_room(Entry::Nothing);
            return Err(self.calls.fail());
        }
        self.disk.sync(side);
        Ok(())
    }
}
