//! Disks: what each call gives and leaves, at a call that fails and where the machine stops inside a call too.

use crate::rows::{read_into, row, tell, text};
use outside::{Disk, Failed, Gate, MemoryDisk, NullDisk, OpenGate, Side, SureDisk};
use std::alloc::{AllocError, Global};
use std::io;

/// A call that changes a side of a disk.
#[derive(Clone, Copy)]
pub enum Change<'a> {
    /// A write at the front.
    Write(&'a str),
    /// A cut to nothing.
    Empty,
    Sync,
}

/// A call on a side of a disk.
#[derive(Clone, Copy)]
pub enum Call<'a> {
    Length,
    /// What stands from a byte on, in at most 8 bytes.
    Read(u64),
    Make(Change<'a>),
    /// How often the disk has failed.
    Faults,
}

/// A cut to nothing.
pub const EMPTY: Call<'_> = Call::Make(Change::Empty);

pub const SYNC: Call<'_> = Call::Make(Change::Sync);

/// Calls on one side of a disk, under one name.
pub type OnSide<'a> = (&'a str, Side, &'a [Call<'a>]);

fn make_change<D: Disk>(disk: &mut D, side: Side, change: Change<'_>) -> Result<(), Failed> {
    match change {
        Change::Write(piece) => disk.write_at(side, 0, piece.as_bytes()),
        Change::Empty => disk.cut(side, 0),
        Change::Sync => disk.sync(side),
    }
}

fn name_of(change: Change<'_>) -> &'static str {
    match change {
        Change::Write(_) => "write",
        Change::Empty => "cut",
        Change::Sync => "sync",
    }
}

fn read<D: Disk>(rt: &impl Print, disk: &mut D, side: Side, at: u64) -> io::Result<()> {
    let mut into = [7; 8];
    let answer = disk.read_at(side, at, &mut into);
    read_into(rt, answer, &into)
}

fn make_call<D: Disk>(
    rt: &impl Print,
    name: &str,
    disk: &mut D,
    side: Side,
    call: Call<'_>,
) -> io::Result<()> {
    match call {
        Call::Length => tell(rt, name, "length", disk.len(side)),
        Call::Read(at) => {
            print!(rt; "{name}: read\t")?;
            read(rt, disk, side, at)
        }
        Call::Make(it) => tell(rt, name, name_of(it), make_change(disk, side, it)),
        Call::Faults => tell(rt, name, "faults", disk.faults()),
    }
}

/// A write at any byte of a side, where the disk tells no content.
pub fn write_at<D: Disk>(disk: &mut D, side: Side, at: u32, piece: &str) -> Result<(), Failed>
    requires untold { D.told → ⊥ }
{
    disk.write_at(side, u64::from(at), piece.as_bytes())
}

/// A cut to any length, where the disk tells no content.
pub fn cut_at<D: Disk>(disk: &mut D, side: Side, len: u64) -> Result<(), Failed>
    requires untold { D.told → ⊥ }
{
    disk.cut(side, len)
}

/// Calls one after the other.
pub fn make_calls<D: Disk>(rt: &impl Print, disk: &mut D, row: OnSide<'_>) -> io::Result<()> {
    let (name, side, calls) = row;
    for it in calls {
        make_call(rt, name, disk, side, *it)?;
    }
    Ok(())
}

pub fn make_each<D: Disk>(rt: &impl Print, disk: &mut D, rows: &[OnSide<'_>]) -> io::Result<()> {
    for it in rows {
        make_calls(rt, disk, *it)?;
    }
    Ok(())
}

/// A disk whose sides have these bytes, with so much room, so many calls, and those of the calls that fail.
pub fn disk_of(
    alloc: Global,
    left: &[u8],
    right: &[u8],
    room: usize,
    count: usize,
    fails: &[u64],
) -> Result<MemoryDisk, AllocError> {
    let left = left.to_vec(alloc)?;
    let right = right.to_vec(alloc)?;
    MemoryDisk::new(alloc, left, right, room, count, fails.to_vec(alloc)?)
}

const NULL_CALLS: [Call<'_>; 7] = [
    Call::Length,
    Call::Read(0),
    EMPTY,
    SYNC,
    Call::Faults,
    Call::Make(Change::Write("x")),
    Call::Faults,
];

const NULL: [OnSide<'_>; 2] = [
    ("null disk, left", Side::Left, &NULL_CALLS),
    ("null disk, right", Side::Right, &NULL_CALLS),
];

pub fn null(rt: &impl Print) -> io::Result<()> {
    make_each(rt, &mut NullDisk::new(), &NULL)?;
    let gate = OpenGate;
    gate.before_finish(1);
    gate.after_finish(1);
    Ok(())
}

const MEMORY: [OnSide<'_>; 8] = [
    (
        "memory disk",
        Side::Left,
        &[Call::Make(Change::Write("xy"))],
    ),
    ("memory disk, a listed call", Side::Left, &[SYNC]),
    (
        "memory disk, past the room",
        Side::Right,
        &[Call::Make(Change::Write("1234"))],
    ),
    (
        "memory disk, into the room",
        Side::Right,
        &[Call::Make(Change::Write("123"))],
    ),
    ("memory disk", Side::Right, &[EMPTY]),
    ("memory disk", Side::Left, &[Call::Read(1)]),
    ("memory disk", Side::Right, &[Call::Length]),
    ("memory disk, past the calls", Side::Left, &[Call::Length]),
];

fn fail_where_listed(rt: &impl Print, disk: &mut MemoryDisk) -> io::Result<()> {
    make_each(rt, disk, &MEMORY)?;
    tell(rt, "memory disk", "calls", disk.calls_made())?;
    tell(rt, "memory disk", "faults", disk.faults())
}

/// The second call fails, there are seven, and the writes may have 5 bytes.
pub fn memory(rt: &impl Print, alloc: Global) -> io::Result<()> {
    let mut disk = disk_of(alloc, b"abc", b"", 5, 7, &[2])?;
    fail_where_listed(rt, &mut disk)
}

// The calls of numbers 1 to 7, the fifth of which grows the side, and whether each is served.
const SERVED: [(Side, Change<'_>, bool); 7] = [
    (Side::Left, Change::Write("abcd"), true),
    (Side::Left, Change::Sync, true),
    (Side::Left, Change::Write("xy"), true),
    (Side::Left, Change::Empty, true),
    (Side::Left, Change::Write("longer"), true),
    (Side::Right, Change::Write("R"), false),
    (Side::Left, Change::Sync, true),
];

fn are_as_listed(disk: &mut MemoryDisk) -> bool {
    for (side, it, is_served) in &SERVED {
        if make_change(disk, *side, *it).is_ok() != *is_served {
            return false;
        }
    }
    true
}

// What a stop inside the call leaves on both sides, at the least lengths or the greatest.
fn print_image(rt: &impl Print, left: &[u8], right: &[u8]) -> io::Result<()> {
    print!(rt; "\t'{}' '{}'", text(left), text(right))
}

fn image(
    rt: &impl Print,
    alloc: Global,
    disk: &MemoryDisk,
    call: u64,
    long: bool,
) -> io::Result<()> {
    let (left, right) = disk.image(alloc, call, b'?', long)?;
    print_image(rt, &left, &right)
}

fn each_image(rt: &impl Print, alloc: Global, disk: &MemoryDisk) -> io::Result<()> {
    for call in 0..9 {
        print!(rt; "a stop inside call {call}")?;
        image(rt, alloc, disk, call, false)?;
        image(rt, alloc, disk, call, true)?;
        println!(rt; "")?;
    }
    Ok(())
}

/// A stop in the middle of each call. `?` is a byte that may be any.
pub fn images(rt: &impl Print, alloc: Global) -> io::Result<()> {
    let mut disk = disk_of(alloc, b"", b"rr", 20, 7, &[6])?;
    row(
        rt,
        "all calls but the sixth are served",
        are_as_listed(&mut disk),
    )?;
    each_image(rt, alloc, &disk)
}

const AFTER_WRITE: OnSide<'_> = ("sure disk", Side::Left, &[Call::Length, Call::Read(1)]);

const AFTER_CUT: [OnSide<'_>; 2] = [
    ("sure disk", Side::Left, &[Call::Length, SYNC]),
    (
        "sure disk",
        Side::Right,
        &[Call::Make(Change::Write("r")), Call::Read(0), Call::Faults],
    ),
];

fn below_first_lengths(rt: &impl Print, disk: &mut SureDisk) -> io::Result<()> {
    tell(
        rt,
        "sure disk",
        "write at 2",
        write_at(disk, Side::Left, 2, "xyz"),
    )?;
    make_calls(rt, disk, AFTER_WRITE)?;
    tell(rt, "sure disk", "cut at 2", cut_at(disk, Side::Left, 2))?;
    make_each(rt, disk, &AFTER_CUT)
}

/// It keeps what lies below its first lengths.
pub fn sure(rt: &impl Print, alloc: Global) -> io::Result<()> {
    let mut disk = SureDisk::new(b"abc".to_vec(alloc)?, Vec::new(alloc));
    below_first_lengths(rt, &mut disk)
}
