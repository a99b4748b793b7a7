// What the calls on a disk in memory do to its sides, each kept once it is done.
ghost use Rattle.std.specs.Prelude.{◌≡◌, ◌+◌, ◌≤◌, ◌<◌, ◌∷◌, [], ◌↔◌, vec_len, vec_capacity, length, take, IfOk, IsTrue, true};
ghost use Rattle.outside.specs.Disk.{overwritten, ReadsAt};
ghost use Rattle.outside.specs.DiskCalls.{by_side, bytes_in, contents, noted, seen, wrote, was_cut, synced};
ghost use Rattle.outside.specs.Private.{IsInside, IsStill};
ghost use Rattle.outside.specs.DiskLog.{calls_of};
ghost use Rattle.outside.specs.PrivateDiskKept.{IsSameSetup};

use crate::Side;
use crate::disk_entry::Log;
use crate::entry::Entry;
use crate::recorded::Recorded;
use std::alloc::{AllocError, Global};

// Writes over what is there, and past the end, in the space that the vector has.
fn overwrite(bytes: &mut Vec<u8>, at: usize, piece: &[u8])
    requires within { at ≤ vec_len bytes.old }
    requires space { vec_len bytes.old + length piece.now ≤ vec_capacity bytes.old }
    ensures items { bytes.new.items ≡ overwritten at piece.now bytes.old.items }
    ensures len { vec_len bytes.new ≤ vec_len bytes.old + length piece.now }
    ensures capacity { vec_capacity bytes.old ≤ vec_capacity bytes.new }
{
    if piece.len() < bytes.len() - at {
        bytes[at..at + piece.len()].copy_from_slice(piece);
    } else {
        bytes.truncate(at);
        let _done = bytes.extend_from_slice(piece).is_ok();
    }
}

// Reads the bytes at a place, up to the slice.
fn read_from(bytes: &[u8], at: u64, into: &mut [u8]) -> usize
    ensures { ReadsAt bytes.now at result into.old into.new }
{
    if at >= bytes.len() as u64 {
        return 0;
    }
    let there = &bytes[at as usize..];
    let n = there.len().min(into.len());
    into[..n].copy_from_slice(&there[..n]);
    n
}

impl Recorded {
    pub(crate) fn new(
        alloc: Global,
        left: Vec<u8>,
        right: Vec<u8>,
        room: usize,
        limit: usize,
    ) -> Result<Recorded, AllocError>
        ensures { IfOk result (λ disk. (disk.first_left.items ≡ left.items) × (disk.first_right.items ≡ right.items)
            × (calls_of disk.log ≡ []) × (disk.log.room ≡ room) × (disk.log.limit ≡ limit)) }
    {
        let first_left = left.to_vec(alloc)?;
        let first_right = right.to_vec(alloc)?;
        let mut left = left;
        let mut right = right;
        left.reserve(room)?;
        right.reserve(room)?;
        let log = Log::new(alloc, room, limit)?;
        Ok(Recorded {
            first_left,
            first_right,
            left,
            right,
            log,
        })
    }

    pub(crate) fn is_full(&self) -> bool
        ensures { (result ≡ true) ↔ (self.now.log.limit ≤ length (calls_of self.now.log)) }
    {
        self.log.is_full()
    }

    // So many more bytes may be written.
    pub(crate) fn has_room(&self, count: usize) -> bool
        ensures { (result ≡ true) ↔ (bytes_in (calls_of self.now.log) + count ≤ self.now.log.room) }
    {
        count <= self.log.free()
    }

    // The length of a side.
    pub(crate) fn len(&self, side: Side) -> u64
        ensures { result ≡ length
            (contents (by_side self.now.first_left.items self.now.first_right.items) (calls_of self.now.log) side) }
    {
        match side {
            Side::Left => self.left.len() as u64,
            Side::Right => self.right.len() as u64,
        }
    }

    // Reads the bytes at a place of a side, up to the slice.
    pub(crate) fn read(&self, side: Side, at: u64, into: &mut [u8]) -> usize
        ensures { ReadsAt (contents (by_side self.now.first_left.items self.now.first_right.items)
            (calls_of self.now.log) side) at result into.old into.new }
    {
        match side {
            Side::Left => read_from(&self.left, at, into),
            Side::Right => read_from(&self.right, at, into),
        }
    }

    // Keeps a call that changed nothing, if there is room for one.
    pub(crate) fn note_if_room(&mut self, entry: Entry)
        requires inside { IsInside 0 entry }
        requires unchanged { IsStill (seen [] entry) }
        ensures calls { calls_of self.new.log ≡ noted self.old.log.limit (seen [] entry) (calls_of self.old.log) }
        ensures same { IsSameSetup self.old self.new }
    {
        self.log.note_if_room(entry);
    }

    pub(crate) fn write(&mut self, side: Side, at: u64, bytes: &[u8])
        requires within { at ≤ length
            (contents (by_side self.old.first_left.items self.old.first_right.items) (calls_of self.old.log) side) }
        requires space { length (calls_of self.old.log) < self.old.log.limit }
        requires fits { bytes_in (calls_of self.old.log) + length bytes.now ≤ self.old.log.room }
        ensures calls { calls_of self.new.log ≡ wrote side at bytes.now ∷ calls_of self.old.log }
        ensures same { IsSameSetup self.old self.new }
    {
        match side {
            Side::Left => {
                overwrite(&mut self.left, at as usize, bytes);
                self.log.note_write(Side::Left, at, bytes);
            }
            Side::Right => {
                overwrite(&mut self.right, at as usize, bytes);
                self.log.note_write(Side::Right, at, bytes);
            }
        }
    }

    pub(crate) fn cut(&mut self, side: Side, len: u64)
        requires within { «len» ≤ length
            (contents (by_side self.old.first_left.items self.old.first_right.items) (calls_of self.old.log) side) }
        requires space { length (calls_of self.old.log) < self.old.log.limit }
        ensures calls { calls_of self.new.log ≡ was_cut side «len» ∷ calls_of self.old.log }
        ensures same { IsSameSetup self.old self.new }
    {
        match side {
            Side::Left => {
                self.left.truncate(len as usize);
                self.log.note(Entry::Cut {
                    side: Side::Left,
                    len,
                });
            }
            Side::Right => {
                self.right.truncate(len as usize);
                self.log.note(Entry::Cut {
                    side: Side::Right,
                    len,
                });
            }
        }
    }

    pub(crate) fn sync(&mut self, side: Side)
        requires space { length (calls_of self.old.log) < self.old.log.limit }
        ensures calls { calls_of self.new.log ≡ synced side ∷ calls_of self.old.log }
        ensures same { IsSameSetup self.old self.new }
    {
        self.log.note(Entry::Synced { side });
    }
}
