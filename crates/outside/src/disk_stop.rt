// What a stop leaves on a disk in memory.
ghost use Rattle.std.specs.Prelude.{◌≡◌, ◌≤◌, vec_len, IfOk};
ghost use Rattle.outside.specs.DiskCalls.{by_side};
ghost use Rattle.outside.specs.PrivateDiskKept.{first_calls};
ghost use Rattle.outside.specs.DiskStop.{left_after};

use crate::Side;
use crate::recorded::Recorded;
use crate::replay::Replay;
use std::alloc::{AllocError, Global};

impl Recorded {
    // What a stop after the first so many calls leaves on a side.
    pub(crate) fn left_on(
        &self,
        alloc: Global,
        side: Side,
        count: usize,
        fill: u8,
        long: bool,
    ) -> Result<Vec<u8>, AllocError>
        requires inside { count ≤ vec_len self.now.log.entries }
        ensures { IfOk result (λ bytes. bytes.items ≡ left_after fill long
            (by_side self.now.first_left.items self.now.first_right.items) (first_calls count self.now.log) side) }
    {
        let first = match side {
            Side::Left => &self.first_left,
            Side::Right => &self.first_right,
        };
        let mut replay = Replay::new(alloc, side, first, fill, long)?;
        for entry in &self.log.entries[..count] {
            replay.make(*entry, &self.log.written)?;
        }
        Ok(replay.into_left())
    }
}
