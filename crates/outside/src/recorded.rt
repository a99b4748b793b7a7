// The two sides of a disk in memory, what they held at first, and every call on them.
ghost use Rattle.std.specs.Prelude.{◌≡◌, ◌+◌, ◌≤◌, vec_len, vec_capacity, IsTrue};
ghost use Rattle.outside.specs.DiskCalls.{by_side, bytes_in, contents};
ghost use Rattle.outside.specs.Private.{are_possible};
ghost use Rattle.outside.specs.DiskLog.{calls_of};
ghost use Rattle.outside.specs.declared.side.Side.TheVariants.{Left, Right};

use crate::disk_entry::Log;

#[derive(Debug, Drop)]
pub(crate) struct Recorded {
    pub(crate) first_left: Vec<u8>,
    pub(crate) first_right: Vec<u8>,
    pub(crate) left: Vec<u8>,
    pub(crate) right: Vec<u8>,
    pub(crate) log: Log,
    pub(crate) ghost possible: { IsTrue (are_possible (by_side first_left.items first_right.items) (calls_of log)) },
    pub(crate) ghost whole_left: { left.items ≡ contents (by_side first_left.items first_right.items) (calls_of log) Left },
    pub(crate) ghost whole_right: { right.items ≡ contents (by_side first_left.items first_right.items) (calls_of log) Right },
    pub(crate) ghost sum: { vec_len log.written ≡ bytes_in (calls_of log) },
    pub(crate) ghost room_left: { vec_len left + log.room ≤ vec_capacity left + vec_len log.written },
    pub(crate) ghost room_right: { vec_len right + log.room ≤ vec_capacity right + vec_len log.written },
}
