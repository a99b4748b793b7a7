// How a disk in memory keeps its calls.
ghost use Rattle.std.specs.Prelude.{◌≡◌, ◌+◌, ◌≤◌, ◌<◌, ◌∷◌, [], ◌↔◌, length, vec_len, IfOk, true};
ghost use Rattle.outside.specs.declared.side.Side.{Side};
ghost use Rattle.outside.specs.DiskCalls.{wrote, noted, seen};
ghost use Rattle.outside.specs.Private.{IsInside};
ghost use Rattle.outside.specs.DiskLog.{calls_of};
ghost use Rattle.outside.specs.PrivateDiskKept.{first_calls};
ghost use Rattle.outside.specs.DiskStop.{begun};

use crate::Side;
use crate::disk_entry::Log;
use crate::entry::Entry;
use std::alloc::{AllocError, Global};

impl Log {
    pub(crate) fn new(alloc: Global, room: usize, limit: usize) -> Result<Log, AllocError>
        ensures { IfOk result (λ log.
            (calls_of log ≡ []) × (log.room ≡ room) × (log.limit ≡ limit) × (vec_len log.written ≡ 0)) }
    {
        Ok(Log {
            written: Vec::with_capacity(alloc, room)?,
            entries: Vec::with_capacity(alloc, limit)?,
            room,
            limit,
        })
    }

    pub(crate) fn is_full(&self) -> bool
        ensures { (result ≡ true) ↔ (self.now.limit ≤ length (calls_of self.now)) }
    {
        self.entries.len() >= self.limit
    }

    // Keeps a call that wrote nothing.
    pub(crate) fn note(&mut self, entry: Entry)
        requires space { length (calls_of self.old) < self.old.limit }
        requires inside { IsInside 0 entry }
        ensures calls { calls_of self.new ≡ seen [] entry ∷ calls_of self.old }
        ensures same { (self.new.room ≡ self.old.room)
            × (self.new.limit ≡ self.old.limit) × (self.new.written ≡ self.old.written) }
    {
        self.entries.push_reserved(entry);
    }

    // Keeps a call that wrote nothing, if there is room for one.
    pub(crate) fn note_if_room(&mut self, entry: Entry)
        requires inside { IsInside 0 entry }
        ensures calls { calls_of self.new ≡ noted self.old.limit (seen [] entry) (calls_of self.old) }
        ensures same { (self.new.room ≡ self.old.room)
            × (self.new.limit ≡ self.old.limit) × (self.new.written ≡ self.old.written) }
    {
        if !self.is_full() {
            self.note(entry);
        }
    }

    // The number of bytes that may still be written.
    pub(crate) fn free(&self) -> usize
        ensures { vec_len self.now.written + result ≡ self.now.room }
    {
        self.room - self.written.len()
    }

    // Keeps a write and its bytes.
    pub(crate) fn note_write(&mut self, side: Side, at: u64, bytes: &[u8])
        requires space { length (calls_of self.old) < self.old.limit }
        requires fits { vec_len self.old.written + length bytes.now ≤ self.old.room }
        ensures calls { calls_of self.new ≡ wrote side at bytes.now ∷ calls_of self.old }
        ensures same { (self.new.room ≡ self.old.room) × (self.new.limit ≡ self.old.limit) }
        ensures longer { vec_len self.new.written ≡ vec_len self.old.written + length bytes.now }
    {
        let from = self.written.len();
        let _kept = self.written.extend_from_slice(bytes).is_ok();
        self.entries.push_reserved(Entry::Wrote {
            side,
            at,
            from,
            count: bytes.len(),
        });
    }

    // How many calls may have done something by a stop inside the one of this number. A sync has done nothing until it ends.
    pub(crate) fn begun(&self, call: u64) -> usize
        ensures inside { result ≤ vec_len self.now.entries }
        ensures calls { first_calls result self.now ≡ begun call (calls_of self.now) }
    {
        let kept = self.entries.len();
        if call > kept as u64 {
            return kept;
        }
        let count = call as usize;
        if count > 0 && matches!(self.entries[count - 1], Entry::Synced { .. }) {
            return count - 1;
        }
        count
    }
}
