// A disk of two sides under one clock.
ghost use Rattle.std.specs.Prelude.{◌≡◌, ℕ, List, ◌+◌, ◌<◌, ◌≤◌, ◌^◌, IfOk, IsErr, IsOk, length, take};
ghost use Rattle.std.specs.Io.{ReadsAtMost};
ghost use Rattle.outside.specs.Cause.{CountsFault, HasCause};
ghost use Rattle.outside.specs.Disk.{Sides, overwritten, Torn, TornCut, OnSide, ReadsSide, Leaves, SameImages, Syncs, Elapses, ReadsAt};
ghost use Rattle.outside.specs.declared.side.Side.{Side};

use crate::faults::Faults;
use crate::{Failed, Side};

/// A disk of two sides, each a row of bytes, under one clock. It counts its faults.
///
/// What a stop of the machine leaves on the disk is an *image*, the bytes of both sides. Between two syncs of a side each
/// written range may hold any bytes, and so may what lies past the shorter length; the length is anything between the old
/// and the new one; all other bytes stay. After a sync that succeeds the side has one image. No call takes memory.
pub trait Disk {
    // Where this holds, the disk tells what is on it.
    ghost told: { Type 0 };

    // What reads give. After each call it is an image.
    ghost bytes_of: { Self → Sides };

    // What a stop now may leave.
    ghost images: { Self → Sides → Type 0 };

    // The moment, as a number that doesn't fall.
    ghost clock: { Self → ℕ };

    // What a stop at some moment from that one on might have left, inside a call or between two.
    ghost moments: { Self → ℕ → Sides → Type 0 };

    // How often the disk has failed.
    ghost faults: { Self → ℕ };

    /// How often the disk has failed. Asking for it is no call that can fail or that is numbered.
    fn faults(&self) -> u64
        ensures { result ≡ faults self.now };

    /// The number of bytes of a side.
    fn len(&mut self, side: Side) -> Result<u64, Failed>
        ensures len { told → IfOk result (λ n. n ≡ length (bytes_of self.old side)) }
        ensures bytes { told → bytes_of self.new ≡ bytes_of self.old }
        ensures images { told → SameImages (images self.old) (images self.new) }
        ensures image { told → images self.new (bytes_of self.new) }
        ensures time { told
            → Elapses (clock self.old) (clock self.new) (moments self.old) (moments self.new) (images self.new) }
        ensures cause { HasCause (faults self.old) (faults self.new) result };

    /// Reads the bytes that stand in a side from this place on, as many as there are, up to the slice's length, into the
    /// front of the slice, and answers how many.
    fn read_at(&mut self, side: Side, at: u64, into: &mut [u8]) -> Result<usize, Failed>
        ensures bound { ReadsAtMost result into.new }
        ensures read { told → IfOk result (λ n. ReadsAt (bytes_of self.old side) at n into.old into.new) }
        ensures bytes { told → bytes_of self.new ≡ bytes_of self.old }
        ensures images { told → SameImages (images self.old) (images self.new) }
        ensures image { told → images self.new (bytes_of self.new) }
        ensures time { told
            → Elapses (clock self.old) (clock self.new) (moments self.old) (moments self.new) (images self.new) }
        ensures cause { HasCause (faults self.old) (faults self.new) result };

    /// Writes these bytes into a side from this place on. A side that ends before the last of them grows.
    fn write_at(&mut self, side: Side, at: u64, bytes: &[u8]) -> Result<(), Failed>
        requires within { told → at ≤ length (bytes_of self.old side) }
        requires fits { at + length bytes.now < 2 ^ 64 }
        ensures bytes { told → ReadsSide side (overwritten at bytes.now (bytes_of self.old side)) result
            (bytes_of self.old) (bytes_of self.new) }
        ensures images { told → Leaves (OnSide side (Torn at (length bytes.now))) result
            (images self.old) (images self.new) }
        ensures image { told → images self.new (bytes_of self.new) }
        ensures time { told
            → Elapses (clock self.old) (clock self.new) (moments self.old) (moments self.new) (images self.new) }
        ensures cause { HasCause (faults self.old) (faults self.new) result };

    /// Cuts a side to this length.
    fn cut(&mut self, side: Side, len: u64) -> Result<(), Failed>
        requires within { told → «len» ≤ length (bytes_of self.old side) }
        ensures bytes { told → ReadsSide side (take «len» (bytes_of self.old side)) result
            (bytes_of self.old) (bytes_of self.new) }
        ensures images { told → Leaves (OnSide side (TornCut «len»)) result (images self.old) (images self.new) }
        ensures image { told → images self.new (bytes_of self.new) }
        ensures time { told
            → Elapses (clock self.old) (clock self.new) (moments self.old) (moments self.new) (images self.new) }
        ensures cause { HasCause (faults self.old) (faults self.new) result };

    /// Makes what was written to a side and cut from it outlast a stop of the machine.
    fn sync(&mut self, side: Side) -> Result<(), Failed>
        ensures bytes { told → bytes_of self.new ≡ bytes_of self.old }
        ensures images { told → Syncs side (bytes_of self.old side) result (images self.old) (images self.new) }
        ensures image { told → images self.new (bytes_of self.new) }
        ensures time { told
            → Elapses (clock self.old) (clock self.new) (moments self.old) (moments self.new) (images self.new) }
        ensures cause { HasCause (faults self.old) (faults self.new) result };

    // This moment is one of those since an earlier one.
    ghost counts_now: { told → (disk : Self) (t : ℕ) (c : Sides) → t ≤ clock disk → images disk c → moments disk t c };

    // Since this moment there is no other.
    ghost only_now: { told → (disk : Self) (c : Sides) → moments disk (clock disk) c → images disk c };
}

/// A disk for a program that has none: both sides are empty for ever, each write fails, and no other call does. It tells
/// no content.
#[derive(Debug, Default, Drop)]
pub struct NullDisk {
    faults: Faults,
}

impl NullDisk {
    /// A disk that has not failed yet.
    pub fn new() -> NullDisk
        ensures { ⟦<NullDisk as Disk>⟧.faults result ≡ 0 }
    {
        NullDisk {
            faults: Faults::new(),
        }
    }
}

impl Disk for NullDisk {
    ghost use Rattle.std.specs.Prelude.{[]};

    ghost told = { ⊥ };

    ghost bytes_of = { λ _ _. [] };

    ghost images = { λ _ _. ⊥ };

    ghost clock = { λ _. 0 };

    ghost moments = { λ _ _ _. ⊥ };

    ghost faults = { λ d. d.faults };

    ghost counts_now = { λ no _ _ _ _ now. now };

    ghost only_now = { λ no _ _ since. since };

    fn faults(&self) -> u64 {
        self.faults.count()
    }

    fn len(&mut self, _side: Side) -> Result<u64, Failed>
        ensures cause { let faults = ⟦<NullDisk as Disk>⟧.faults in
            HasCause (faults self.old) (faults self.new) result }
        ensures empty { result ≡ Ok 0 }
        ensures same { self.new ≡ self.old }
    {
        Ok(0)
    }

    fn read_at(&mut self, _side: Side, _at: u64, _into: &mut [u8]) -> Result<usize, Failed>
        ensures bound { ReadsAtMost result _into.new }
        ensures cause { let faults = ⟦<NullDisk as Disk>⟧.faults in
            HasCause (faults self.old) (faults self.new) result }
        ensures empty { result ≡ Ok 0 }
        ensures same { self.new ≡ self.old }
    {
        Ok(0)
    }

    fn write_at(&mut self, _side: Side, _at: u64, _bytes: &[u8]) -> Result<(), Failed>
        ensures cause { let faults = ⟦<NullDisk as Disk>⟧.faults in
            HasCause (faults self.old) (faults self.new) result }
        ensures counted { let faults = ⟦<NullDisk as Disk>⟧.faults in
            CountsFault (faults self.old) (faults self.new) result }
        ensures fails { IsErr result }
    {
        Err(self.faults.fail())
    }

    fn cut(&mut self, _side: Side, _len: u64) -> Result<(), Failed>
        ensures cause { let faults = ⟦<NullDisk as Disk>⟧.faults in
            HasCause (faults self.old) (faults self.new) result }
        ensures ok { IsOk result }
        ensures same { self.new ≡ self.old }
    {
        Ok(())
    }

    fn sync(&mut self, _side: Side) -> Result<(), Failed>
        ensures cause { let faults = ⟦<NullDisk as Disk>⟧.faults in
            HasCause (faults self.old) (faults self.new) result }
        ensures ok { IsOk result }
        ensures same { self.new ≡ self.old }
    {
        Ok(())
    }
}
