//! A stop inside any call of the disk, and a fault at any call: a start gives the records before the act or after it.

use crate::disks::disk_of;
use crate::journals::{Act, Start, perform, start_over};
use journal_core::{Journal, Piece};
use outside::{Disk, MemoryDisk, Side};
use std::alloc::{AllocError, Global};
use std::io;

// Four acts, each with a record of one letter.
const ACTS: [Act<'_>; 4] = [
    Act::Append(b"a"),
    Act::Checkpoint(b"b"),
    Act::Append(b"c"),
    Act::Checkpoint(b"d"),
];

// The letters before and after the act with this call, over new sides: 14 calls for the start, 6 for an append, 8 for a
// checkpoint over a closed gate and 10 for one over an open gate.
fn states_at(call: u64) -> &'static [&'static str] {
    match call {
        0..=14 => &[""],
        15..=20 => &["", "a"],
        21..=28 => &["a", "b"],
        29..=34 => &["b", "bc"],
        35..=44 => &["bc", "d"],
        _ => &["d"],
    }
}

// The four acts, to the first that is refused. It gives how many were done.
fn act_each<D: Disk>(journal: &mut Journal<D>) -> usize {
    let mut done: usize = 0;
    for act in &ACTS {
        if perform(journal, *act).is_err() {
            return done;
        }
        done = done.saturating_add(1);
    }
    done
}

// A start on this disk and the four acts.
fn start_and_act<D: Disk>(alloc: Global, disk: D) -> (D, usize) {
    match Journal::start(alloc, disk) {
        Ok((mut journal, _pieces)) => {
            let done = act_each(&mut journal);
            (journal.into_disk(), done)
        }
        Err((disk, _fault)) => (disk, 0),
    }
}

// What reads give on a side.
fn read_side<D: Disk>(alloc: Global, disk: &mut D, side: Side) -> Result<Vec<u8>, AllocError> {
    let mut bytes = Vec::new(alloc);
    bytes.resize(100, 0)?;
    let count = disk.read_at(side, 0, &mut bytes).unwrap_or(0);
    bytes.truncate(count);
    Ok(bytes)
}

fn is_letter(piece: &Piece, letter: u8) -> bool {
    matches!(piece.bytes.as_slice(), [only] if *only == letter)
}

// Whether the records are these letters.
fn spell(pieces: &[Piece], letters: &[u8]) -> bool {
    let mut rest = letters;
    for piece in pieces {
        match rest {
            [letter, later @ ..] if is_letter(piece, *letter) => rest = later,
            _ => return false,
        }
    }
    rest.is_empty()
}

// Whether a start gave the records of one of these states.
fn is_one_of(start: &Start, states: &[&str]) -> bool {
    let Ok(pieces) = start else {
        return false;
    };
    for state in states {
        if spell(pieces, state.as_bytes()) {
            return true;
        }
    }
    false
}

// Whether a start over these sides gives the records of one of these states.
fn stands_for_one(
    alloc: Global,
    left: &[u8],
    right: &[u8],
    states: &[&str],
) -> Result<bool, AllocError> {
    let start = start_over(alloc, left, right)?;
    Ok(is_one_of(&start, states))
}

// Whether the image that a stop inside this call leaves stands for one of these states.
fn image_stands(
    alloc: Global,
    disk: &MemoryDisk,
    call: u64,
    fill: u8,
    long: bool,
    states: &[&str],
) -> Result<bool, AllocError> {
    let (left, right) = disk.image(alloc, call, fill, long)?;
    stands_for_one(alloc, &left, &right, states)
}

// What stands where any byte may, and whether the sides are as long as they may be.
const FILLED: [(u8, bool); 6] = [
    (0, false),
    (1, false),
    (255, false),
    (0, true),
    (1, true),
    (255, true),
];

// Whether each of the images that a stop inside this call leaves stands for one of these states.
fn all_images_stand(
    alloc: Global,
    disk: &MemoryDisk,
    call: u64,
    states: &[&str],
) -> Result<bool, AllocError> {
    for (fill, long) in &FILLED {
        if !image_stands(alloc, disk, call, *fill, *long, states)? {
            return Ok(false);
        }
    }
    Ok(true)
}

// New sides: both empty, and both of bytes that are no project.
const NEW_SIDES: [(&str, &[u8], &[u8]); 2] = [
    ("empty sides", b"", b""),
    ("sides of other bytes", b"any 17 bytes here", b"RODINJ1\n"),
];

// The first call inside which a stop leaves other records than those before its act or after it.
fn first_lost(alloc: Global, disk: &MemoryDisk) -> Result<Option<u64>, AllocError> {
    for call in 1..46 {
        if !all_images_stand(alloc, disk, call, states_at(call))? {
            return Ok(Some(call));
        }
    }
    Ok(None)
}

fn print_stops(rt: &impl Print, name: &str, lost: Option<u64>) -> io::Result<()> {
    match lost {
        None => println!(rt; "{name}: a stop inside each of 45\tthe records before or after"),
        Some(call) => println!(rt; "{name}: a stop inside call {call}\tother records"),
    }
}

fn stop_inside(rt: &impl Print, alloc: Global, name: &str, disk: &MemoryDisk) -> io::Result<()> {
    let lost = first_lost(alloc, disk)?;
    print_stops(rt, name, lost)
}

/// A stop inside each of the 44 calls and after them, with six images each.
pub fn inside_each_call(rt: &impl Print, alloc: Global) -> io::Result<()> {
    for (name, left, right) in &NEW_SIDES {
        let (disk, done) = start_and_act(alloc, disk_of(alloc, left, right, 200, 100, &[])?);
        println!(rt; "{name}\t{done} acts, {} calls", disk.calls_made())?;
        stop_inside(rt, alloc, name, &disk)?;
    }
    Ok(())
}

// Whether the sides, as reads give them, stand for one of these states.
fn reads_stand(alloc: Global, disk: &mut MemoryDisk, states: &[&str]) -> Result<bool, AllocError> {
    let left = read_side(alloc, disk, Side::Left)?;
    let right = read_side(alloc, disk, Side::Right)?;
    stands_for_one(alloc, &left, &right, states)
}

// Whether nothing is lost where this call failed: it was the last, and a stop in it or after it, and what is read, keep the
// records before the act or after it.
fn none_lost(alloc: Global, disk: &mut MemoryDisk, call: u64) -> Result<bool, AllocError> {
    let states = states_at(call);
    let is_last = disk.faults() == 1 && disk.calls_made() == call;
    let inside = all_images_stand(alloc, disk, call, states)?;
    let after = all_images_stand(alloc, disk, call.saturating_add(1), states)?;
    let read = reads_stand(alloc, disk, states)?;
    Ok(is_last && inside && after && read)
}

// Whether nothing is lost over these sides where this call fails.
fn stands_at(alloc: Global, left: &[u8], right: &[u8], call: u64) -> Result<bool, AllocError> {
    let disk = disk_of(alloc, left, right, 200, 100, &[call])?;
    let (mut disk, _done) = start_and_act(alloc, disk);
    none_lost(alloc, &mut disk, call)
}

fn first_failed(alloc: Global, left: &[u8], right: &[u8]) -> Result<Option<u64>, AllocError> {
    for call in 1..45 {
        if !stands_at(alloc, left, right, call)? {
            return Ok(Some(call));
        }
    }
    Ok(None)
}

fn print_failed(rt: &impl Print, name: &str, failed: Option<u64>) -> io::Result<()> {
    match failed {
        None => println!(rt; "{name}: a fault at each of 44 calls\tno call after it, nothing lost"),
        Some(call) => println!(rt; "{name}: a fault at call {call}\tsomething lost"),
    }
}

/// Each of the 44 calls fails once, with no call after it.
pub fn where_one_call_fails(rt: &impl Print, alloc: Global) -> io::Result<()> {
    for (name, left, right) in &NEW_SIDES {
        print_failed(rt, name, first_failed(alloc, left, right)?)?;
    }
    Ok(())
}
