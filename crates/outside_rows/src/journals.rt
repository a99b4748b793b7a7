//! Journals: what a start over two sides gives, and what acts leave.

use crate::disks::disk_of;
use crate::rows::row;
use journal_core::{AppendFault, Journal, JournalFault, Piece};
use outside::{Disk, Side, SureDisk};
use std::alloc::{AllocError, Global};
use std::io;

/// An act on a journal, with the body of the record.
#[derive(Clone, Copy)]
pub enum Act<'a> {
    Append(&'a [u8]),
    Checkpoint(&'a [u8]),
}

/// What one act is answered.
pub fn perform<D: Disk>(journal: &mut Journal<D>, act: Act<'_>) -> Result<(), AppendFault> {
    match act {
        Act::Append(bytes) => journal.append(bytes),
        Act::Checkpoint(bytes) => journal.checkpoint(bytes),
    }
}

fn print_acts<D: Disk>(
    rt: &impl Print,
    journal: &mut Journal<D>,
    acts: &[(&str, Act<'_>)],
) -> io::Result<()> {
    for (name, act) in acts {
        let answer = perform(journal, *act);
        row(rt, name, answer)?;
    }
    Ok(())
}

// A row for each act on a journal that is started on this disk.
fn play<D: Disk>(
    rt: &impl Print,
    alloc: Global,
    disk: D,
    acts: &[(&str, Act<'_>)],
) -> (D, io::Result<()>) {
    match Journal::start(alloc, disk) {
        Ok((mut journal, _pieces)) => {
            let printed = print_acts(rt, &mut journal, acts);
            (journal.into_disk(), printed)
        }
        Err((disk, fault)) => (disk, row(rt, "no journal", fault)),
    }
}

// A side of generation 1 with one record of 13 bytes.
const ONE: &[u8; 35] =
    b"RODINJ1\n\x01\0\0\0\0\0\0\0\x01\x0d\0\0\0\x01\x01\x01\0\0\0a\x02\0\0\0x\n\0";

// A side of generation 2 with another one.
const TWO: &[u8; 35] =
    b"RODINJ1\n\x02\0\0\0\0\0\0\0\x01\x0d\0\0\0\x01\x01\x01\0\0\0b\x02\0\0\0y\n\0";

// The first two without the last gate.
const CUT: &[u8; 34] = b"RODINJ1\n\x01\0\0\0\0\0\0\0\x01\x0d\0\0\0\x01\x01\x01\0\0\0a\x02\0\0\0x\n";

const CUT_TWO: &[u8; 34] =
    b"RODINJ1\n\x02\0\0\0\0\0\0\0\x01\x0d\0\0\0\x01\x01\x01\0\0\0b\x02\0\0\0y\n";

// The body of the first record.
const FIRST: &[u8; 13] = b"\x01\x01\x01\0\0\0a\x02\0\0\0x\n";

/// The records of a start, or why there are none.
pub type Start = Result<Vec<Piece>, JournalFault>;

fn start_on<D: Disk>(alloc: Global, disk: D) -> (D, Start) {
    match Journal::start(alloc, disk) {
        Ok((journal, pieces)) => (journal.into_disk(), Ok(pieces)),
        Err((disk, fault)) => (disk, Err(fault)),
    }
}

/// What a start over these sides gives.
pub fn start_over(alloc: Global, left: &[u8], right: &[u8]) -> Result<Start, AllocError> {
    let disk = disk_of(alloc, left, right, 100, 100, &[])?;
    let (_disk, start) = start_on(alloc, disk);
    Ok(start)
}

fn print_piece(rt: &impl Print, piece: &Piece) -> io::Result<()> {
    println!(rt;
        "{:?} {}\t{:?}",
        piece.side,
        piece.at,
        piece.bytes.as_slice()
    )
}

fn print_pieces(rt: &impl Print, name: &str, pieces: &[Piece]) -> io::Result<()> {
    println!(rt; "{name}\t{} records", pieces.len())?;
    for piece in pieces {
        print_piece(rt, piece)?;
    }
    Ok(())
}

fn print_start(rt: &impl Print, name: &str, start: &Start) -> io::Result<()> {
    match start {
        Ok(pieces) => print_pieces(rt, name, pieces),
        Err(fault) => row(rt, name, *fault),
    }
}

const REFUSED: [(&str, &[u8], &[u8]); 7] = [
    ("18 bytes x", b"xxxxxxxxxxxxxxxxxx", b""),
    ("Right is no journal", b"", b"xxxxxxxxxxxxxxxxxx"),
    (
        "two bytes for a length of 5",
        b"RODINJ1\n\x01\0\0\0\0\0\0\0\x01\x05\0\0\0ab",
        b"",
    ),
    (
        "the greatest length",
        b"RODINJ1\n\x01\0\0\0\0\0\0\0\x01\xff\xff\xff\xff",
        b"",
    ),
    (
        "an open gate at the end",
        b"RODINJ1\n\x01\0\0\0\0\0\0\0\x01\x0d\0\0\0\x01\x01\x01\0\0\0a\x02\0\0\0x\n\x01",
        b"",
    ),
    ("no next gate", CUT, b""),
    ("Right counts and is cut", ONE, CUT_TWO),
];

const STANDING: [(&str, &[u8], &[u8]); 10] = [
    ("17 bytes", b"any 17 bytes here", b""),
    (
        "an open gate and nothing else",
        b"RODINJ1\n\x01\0\0\0\0\0\0\0\x01",
        b"",
    ),
    ("a gate of 2", b"RODINJ1\n\x01\0\0\0\0\0\0\0\x02\0", b""),
    (
        "an empty record",
        b"RODINJ1\n\x01\0\0\0\0\0\0\0\x01\0\0\0\0\0",
        b"",
    ),
    ("one record", ONE, b""),
    (
        "a next gate of 2",
        b"RODINJ1\n\x01\0\0\0\0\0\0\0\x01\x01\0\0\0z\x02",
        b"",
    ),
    (
        "a record and a next gate of 2",
        b"RODINJ1\n\x01\0\0\0\0\0\0\0\x01\x0d\0\0\0\x01\x01\x01\0\0\0a\x02\0\0\0x\n\x02",
        b"",
    ),
    (
        "a record of another version",
        b"RODINJ1\n\x01\0\0\0\0\0\0\0\x01\x0d\0\0\0\x03\x01\x01\0\0\0a\x02\0\0\0x\n\0",
        b"",
    ),
    ("Right has the greater generation", ONE, TWO),
    ("one generation on both", TWO, TWO),
];

fn print_starts(rt: &impl Print, alloc: Global, rows: &[(&str, &[u8], &[u8])]) -> io::Result<()> {
    for (name, left, right) in rows {
        let start = start_over(alloc, left, right)?;
        print_start(rt, name, &start)?;
    }
    Ok(())
}

pub fn refused(rt: &impl Print, alloc: Global) -> io::Result<()> {
    print_starts(rt, alloc, &REFUSED)
}

pub fn standing(rt: &impl Print, alloc: Global) -> io::Result<()> {
    print_starts(rt, alloc, &STANDING)
}

// An append, and then a checkpoint with that record, on a new journal.
const TURN: [(&str, Act<'_>); 2] = [
    ("a new journal: an append", Act::Append(FIRST)),
    ("a new journal: a checkpoint", Act::Checkpoint(FIRST)),
];

fn print_side<D: Disk>(rt: &impl Print, disk: &mut D, side: Side) -> io::Result<()> {
    let mut bytes = [0; 40];
    let count = disk.read_at(side, 0, &mut bytes);
    println!(rt; "{side:?} then\t{count:?}\t{:?}", bytes.as_slice())
}

fn print_sides<D: Disk>(rt: &impl Print, disk: &mut D) -> io::Result<()> {
    print_side(rt, disk, Side::Left)?;
    print_side(rt, disk, Side::Right)
}

/// What an append and a checkpoint leave on both sides.
pub fn written(rt: &impl Print, alloc: Global) -> io::Result<()> {
    let disk = disk_of(alloc, b"", b"", 200, 100, &[])?;
    let (mut disk, played) = play(rt, alloc, disk, &TURN);
    let printed = print_sides(rt, &mut disk);
    drop(disk);
    played?;
    printed
}

// A side of the last generation with the record `z`.
const LAST: &[u8; 23] = b"RODINJ1\n\xff\xff\xff\xff\xff\xff\xff\xff\x01\x01\0\0\0z\0";

const AT_THE_LAST: [(&str, Act<'_>); 2] = [
    (
        "the last generation: a checkpoint",
        Act::Checkpoint(b"more"),
    ),
    ("the last generation: an append", Act::Append(b"more")),
];

/// A checkpoint behind the last generation is refused.
pub fn last_generation(rt: &impl Print, alloc: Global) -> io::Result<()> {
    let disk = disk_of(alloc, LAST, b"", 200, 100, &[])?;
    let (_disk, played) = play(rt, alloc, disk, &AT_THE_LAST);
    played
}

// An append and a checkpoint of 67,108,843 bytes, an append of one byte less, and one of nothing then.
fn fill<'a>(rt: &impl Print, alloc: Global, body: &'a [u8], less: &'a [u8]) -> io::Result<()> {
    let acts = [
        ("67108843 bytes: an append", Act::Append(body)),
        ("67108843 bytes: a checkpoint", Act::Checkpoint(body)),
        ("67108842 bytes: an append", Act::Append(less)),
        ("nothing more: an append", Act::Append(b"")),
    ];
    let disk = SureDisk::new(Vec::new(alloc), Vec::new(alloc));
    let (mut disk, played) = play(rt, alloc, disk, &acts);
    let len = disk.len(Side::Left);
    drop(disk);
    played?;
    row(rt, "the greatest side", len)
}

/// A side takes 67,108,864 bytes and no more.
pub fn full(rt: &impl Print, alloc: Global) -> io::Result<()> {
    let mut body = Vec::new(alloc);
    body.resize(67_108_843, 0)?;
    fill(rt, alloc, &body, &body[1..])
}
