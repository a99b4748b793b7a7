// One side of a disk in memory while the kept calls are made again.
ghost use Rattle.std.specs.Prelude.{◌≡◌, ◌+◌, ◌≤◌, ◌∷◌, List, length, take, replicate, OnOk, IfOk};
ghost use Rattle.outside.specs.Disk.{Sides, overwritten};
ghost use Rattle.outside.specs.DiskCalls.{Call, contents, seen};
ghost use Rattle.outside.specs.Private.{IsInside};
ghost use Rattle.outside.specs.DiskStop.{left_after, torn, torn_cut};

use crate::Side;
use crate::entry::Entry;
use std::alloc::{AllocError, Global};

// What reads give, and what a stop leaves.
#[derive(Debug, Drop)]
pub(crate) struct Replay {
    pub(crate) side: Side,
    pub(crate) fill: u8,
    pub(crate) long: bool,
    pub(crate) read: Vec<u8>,
    pub(crate) left: Vec<u8>,
}

// Writes over what is there, and past the end.
fn overwrite(bytes: &mut Vec<u8>, at: usize, piece: &[u8]) -> Result<(), AllocError>
    ensures { OnOk result (bytes.new.items ≡ overwritten at piece.now bytes.old.items) }
{
    let start = at.min(bytes.len());
    if piece.len() < bytes.len() - start {
        bytes[start..start + piece.len()].copy_from_slice(piece);
        return Ok(());
    }
    bytes.truncate(start);
    bytes.extend_from_slice(piece)
}

// Fills a range as far as it lies inside.
fn fill_inside(bytes: &mut [u8], at: usize, count: usize, fill: u8)
    ensures { bytes.new ≡ take (length bytes.old) (overwritten at (replicate count fill) bytes.old) }
{
    let start = at.min(bytes.len());
    let end = start + count.min(bytes.len() - start);
    bytes[start..end].fill(fill);
}

impl Replay {
    pub(crate) fn new(
        alloc: Global,
        side: Side,
        first: &[u8],
        fill: u8,
        long: bool,
    ) -> Result<Replay, AllocError>
        ensures { IfOk result (λ r. (r.side ≡ side) × (r.fill ≡ fill) × (r.long ≡ long)
            × (r.read.items ≡ first.now) × (r.left.items ≡ first.now)) }
    {
        Ok(Replay {
            side,
            fill,
            long,
            read: first.to_vec(alloc)?,
            left: first.to_vec(alloc)?,
        })
    }

    fn tear(&mut self, at: usize, count: usize) -> Result<(), AllocError>
        ensures left { OnOk result (self.new.left.items
            ≡ torn self.old.fill self.old.long at count self.old.left.items) }
        ensures same { (self.new.side ≡ self.old.side)
            × (self.new.fill ≡ self.old.fill) × (self.new.long ≡ self.old.long) × (self.new.read ≡ self.old.read) }
    {
        let len = self.left.len();
        if at > len {
            return Ok(());
        }
        fill_inside(&mut self.left, at, count, self.fill);
        if !self.long {
            return Ok(());
        }
        let Some(end) = at.checked_add(count) else {
            return Err(AllocError);
        };
        self.left.resize(len.max(end), self.fill)
    }

    fn tear_cut(&mut self, len: usize) -> Result<(), AllocError>
        ensures left { OnOk result (self.new.left.items
            ≡ torn_cut self.old.fill self.old.long «len» self.old.left.items) }
        ensures same { (self.new.side ≡ self.old.side)
            × (self.new.fill ≡ self.old.fill) × (self.new.long ≡ self.old.long) × (self.new.read ≡ self.old.read) }
    {
        let was = self.left.len();
        self.left.truncate(len);
        if !self.long || len >= was {
            return Ok(());
        }
        self.left.resize(was, self.fill)
    }

    fn settle(&mut self) -> Result<(), AllocError>
        ensures left { OnOk result (self.new.left.items ≡ self.old.read.items) }
        ensures same { (self.new.side ≡ self.old.side)
            × (self.new.fill ≡ self.old.fill) × (self.new.long ≡ self.old.long) × (self.new.read ≡ self.old.read) }
    {
        self.left.clear();
        self.left.extend_from_slice(&self.read)
    }

    // Makes one more of the kept calls again.
    pub(crate) fn make(&mut self, entry: Entry, written: &[u8]) -> Result<(), AllocError>
        requires inside { IsInside (length written.now) entry }
        ensures read { (first : Sides) (calls : List Call) → self.old.read.items ≡ contents first calls self.old.side
            → OnOk result (self.new.read.items ≡ contents first (seen written.now entry ∷ calls) self.old.side) }
        ensures left { (first : Sides) (calls : List Call) → self.old.read.items ≡ contents first calls self.old.side
            → self.old.left.items ≡ left_after self.old.fill self.old.long first calls self.old.side
            → OnOk result (self.new.left.items
            ≡ left_after self.old.fill self.old.long first (seen written.now entry ∷ calls) self.old.side) }
        ensures same { (self.new.side ≡ self.old.side)
            × (self.new.fill ≡ self.old.fill) × (self.new.long ≡ self.old.long) }
    {
        match entry {
            Entry::Wrote {
                side,
                at,
                from,
                count,
            } if side == self.side => {
                overwrite(&mut self.read, at as usize, &written[from..from + count])?;
                self.tear(at as usize, count)
            }
            Entry::Tore { side, at, count } if side == self.side => self.tear(at as usize, count),
            Entry::Cut { side, len } if side == self.side => {
                self.read.truncate(len as usize);
                self.tear_cut(len as usize)
            }
            Entry::ToreCut { side, len } if side == self.side => self.tear_cut(len as usize),
            Entry::Synced { side } if side == self.side => self.settle(),
            _ => Ok(()),
        }
    }

    // What a stop leaves.
    pub(crate) fn into_left(self) -> Vec<u8>
        ensures { result ≡ self.left }
    {
        self.left
    }
}
