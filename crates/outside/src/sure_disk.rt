// A disk that never fails.
ghost use Rattle.std.specs.Prelude.{◌≡◌, ◌+◌, ◌<◌, ◌≤◌, ◌^◌, length, IsOk};
ghost use Rattle.std.specs.Io.{ReadsAtMost};
ghost use Rattle.outside.specs.Cause.{HasCause};

use crate::{Disk, Failed, Side};

// One side: the bytes below the length of the vector that it was made of are kept; past that there are zeros.
#[derive(Debug, Drop)]
struct SureSide {
    kept: Vec<u8>,
    len: u64,
}

impl SureSide {
    fn read_at(&self, at: u64, into: &mut [u8]) -> usize
        ensures { result ≤ length into.new }
    {
        let there = self.len.saturating_sub(at);
        let count = (into.len() as u64).min(there) as usize;
        into[..count].fill(0);
        if let Ok(from) = usize::try_from(at) {
            if from < self.kept.len() {
                let kept = count.min(self.kept.len() - from);
                into[..kept].copy_from_slice(&self.kept[from..from + kept]);
            }
        }
        count
    }

    fn write_at(&mut self, at: u64, bytes: &[u8]) {
        if let Ok(from) = usize::try_from(at) {
            if from < self.kept.len() {
                let kept = bytes.len().min(self.kept.len() - from);
                self.kept[from..from + kept].copy_from_slice(&bytes[..kept]);
            }
        }
        self.len = self.len.max(at.saturating_add(bytes.len() as u64));
    }
}

/// A disk in memory whose count of faults is 0 for ever, so that it never fails. It tells no content.
///
/// On each side it keeps the bytes below the length of the vector that it was made of; what was written past that length
/// reads as zeros. No clause says so: which bytes it gives is only tested (`outside_rows`).
#[derive(Debug, Drop)]
pub struct SureDisk {
    left: SureSide,
    right: SureSide,
}

impl SureDisk {
    /// A disk whose sides have these bytes.
    pub fn new(left: Vec<u8>, right: Vec<u8>) -> SureDisk
        ensures { ⟦<SureDisk as Disk>⟧.faults result ≡ 0 }
    {
        let left_len = left.len() as u64;
        let right_len = right.len() as u64;
        SureDisk {
            left: SureSide {
                kept: left,
                len: left_len,
            },
            right: SureSide {
                kept: right,
                len: right_len,
            },
        }
    }
}

impl Disk for SureDisk {
    ghost use Rattle.std.specs.Prelude.{[]};

    ghost told = { ⊥ };

    ghost bytes_of = { λ _ _. [] };

    ghost images = { λ _ _. ⊥ };

    ghost clock = { λ _. 0 };

    ghost moments = { λ _ _ _. ⊥ };

    ghost faults = { λ _. 0 };

    ghost counts_now = { λ no _ _ _ _ now. now };

    ghost only_now = { λ no _ _ since. since };

    fn faults(&self) -> u64 {
        0
    }

    fn len(&mut self, side: Side) -> Result<u64, Failed>
        ensures cause { HasCause 0 0 result }
        ensures sure { IsOk result }
    {
        Ok(match side {
            Side::Left => self.left.len,
            Side::Right => self.right.len,
        })
    }

    fn read_at(&mut self, side: Side, at: u64, into: &mut [u8]) -> Result<usize, Failed>
        ensures bound { ReadsAtMost result into.new }
        ensures cause { HasCause 0 0 result }
        ensures sure { IsOk result }
    {
        match side {
            Side::Left => Ok(self.left.read_at(at, into)),
            Side::Right => Ok(self.right.read_at(at, into)),
        }
    }

    fn write_at(&mut self, side: Side, at: u64, bytes: &[u8]) -> Result<(), Failed>
        requires fits { at + length bytes.now < 2 ^ 64 }
        ensures cause { HasCause 0 0 result }
        ensures sure { IsOk result }
    {
        match side {
            Side::Left => self.left.write_at(at, bytes),
            Side::Right => self.right.write_at(at, bytes),
        }
        Ok(())
    }

    fn cut(&mut self, side: Side, len: u64) -> Result<(), Failed>
        ensures cause { HasCause 0 0 result }
        ensures sure { IsOk result }
    {
        match side {
            Side::Left => self.left.len = self.left.len.min(len),
            Side::Right => self.right.len = self.right.len.min(len),
        }
        Ok(())
    }

    fn sync(&mut self, _side: Side) -> Result<(), Failed>
        ensures cause { HasCause 0 0 result }
        ensures sure { IsOk result }
    {
        Ok(())
    }
}
