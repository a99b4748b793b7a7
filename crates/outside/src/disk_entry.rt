// The calls on a disk in memory, and the bytes that they wrote, in space taken when the disk is made.
ghost use Rattle.std.specs.Prelude.{◌≤◌, vec_len, vec_capacity};
ghost use Rattle.std.specs.List.{All};
ghost use Rattle.outside.specs.Private.{IsInside};

use crate::entry::Entry;

#[derive(Debug, Drop)]
pub(crate) struct Log {
    pub(crate) written: Vec<u8>,
    pub(crate) entries: Vec<Entry>,
    pub(crate) room: usize,
    pub(crate) limit: usize,
    pub(crate) ghost inside: { All (IsInside (vec_len written)) entries.items },
    pub(crate) ghost written_room: { vec_len written ≤ room },
    pub(crate) ghost written_space: { room ≤ vec_capacity written },
    pub(crate) ghost entries_room: { vec_len entries ≤ limit },
    pub(crate) ghost entries_space: { limit ≤ vec_capacity entries },
}
