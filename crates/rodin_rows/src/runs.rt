//! Runs of a row.

use crate::gates::{Holding, Watched};
use crate::row::Row;
use core_steps::Durable;
use outside::{Disk, MemoryDisk, MemorySink, MemorySource, Side};
use prover_pool::Tools;
use rodin_cli::outcome::Run;
use rodin_cli::run;
use std::alloc::{AllocError, Global};
use std::sync::Wait;
use std::thread::Threads;
use std::time::Clock;

/// The bytes that a sink takes where the row doesn't say.
const ROOM: usize = 200_000;

/// The bytes that all writes to a disk may have where the row doesn't say, and the number of its calls.
const DISK_ROOM: usize = 4_000_000;

const DISK_CALLS: usize = 40_000;

/// What a run meets the outside by.
#[derive(Clone, Copy, PartialEq, Eq)]
pub enum Part {
    Source,
    Sink,
    Disk,
}

impl Part {
    /// The part of this word.
    pub fn of(word: &str) -> Option<Part> {
        match word {
            "source" => Some(Part::Source),
            "sink" => Some(Part::Sink),
            "disk" => Some(Part::Disk),
            _ => None,
        }
    }

    /// Its word.
    pub fn word(self) -> &'static str {
        match self {
            Part::Source => "source",
            Part::Sink => "sink",
            Part::Disk => "disk",
        }
    }

    // The calls that fail, where one of some part does.
    fn fails(self, alloc: Global, fault: Option<(Part, u64)>) -> Result<Vec<u64>, AllocError> {
        let mut fails = Vec::new(alloc);
        if let Some((part, number)) = fault {
            if part == self {
                fails.push(number)?;
            }
        }
        Ok(fails)
    }
}

/// The bytes on both sides of a disk.
#[derive(Drop)]
pub struct Sides {
    pub left: Vec<u8>,
    pub right: Vec<u8>,
}

impl Sides {
    /// Sides without bytes.
    pub fn empty(alloc: Global) -> Sides {
        Sides {
            left: Vec::new(alloc),
            right: Vec::new(alloc),
        }
    }
}

/// What a run came to: the exit status, the number of events, what it wrote, the components that last, its disk, and whether a
/// ticket that was held passed.
#[derive(Drop)]
pub struct Ran {
    pub status: u8,
    pub events: usize,
    pub written: String,
    pub last: String,
    pub disk: MemoryDisk,
    pub is_passed: bool,
}

impl Ran {
    /// What a run comes to that does nothing.
    pub fn new(alloc: Global) -> Result<Ran, AllocError> {
        let none = Vec::new(alloc);
        let disk = MemoryDisk::new(alloc, Vec::new(alloc), Vec::new(alloc), 0, 0, none)?;
        Ok(Ran {
            status: 0,
            events: 0,
            written: String::new(alloc),
            last: String::new(alloc),
            disk,
            is_passed: false,
        })
    }
}

/// Runs beside a row's own: the sides of the last one, what it came to, and what came of opening what it left.
#[derive(Drop)]
pub struct Again {
    pub sides: Sides,
    pub ran: Ran,
    pub opened: Ran,
}

/// What rows are run on: the sides that the row before left, what the row's run came to, and the runs beside it.
#[derive(Drop)]
pub struct Bench {
    pub sides: Sides,
    pub ran: Ran,
    pub again: Again,
}

impl Bench {
    /// Empty sides, and no run.
    pub fn new(alloc: Global) -> Result<Bench, AllocError> {
        let ran = Ran::new(alloc)?;
        let again = Ran::new(alloc)?;
        let opened = Ran::new(alloc)?;
        Ok(Bench {
            sides: Sides::empty(alloc),
            ran,
            again: Again {
                sides: Sides::empty(alloc),
                ran: again,
                opened,
            },
        })
    }
}

fn source_of(
    alloc: Global,
    row: &Row,
    fault: Option<(Part, u64)>,
) -> Result<MemorySource, AllocError> {
    let fails = Part::Source.fails(alloc, fault)?;
    let input = row.input.to_vec(alloc)?;
    Ok(MemorySource::new(input, row.number("pieces", 4_096).max(1), fails))
}

fn sink_of(alloc: Global, row: &Row, fault: Option<(Part, u64)>) -> Result<MemorySink, AllocError> {
    let fails = Part::Sink.fails(alloc, fault)?;
    MemorySink::new(alloc, row.number("room", ROOM), fails)
}

/// A disk of these sides. At most one of its calls fails.
pub fn disk_of(
    alloc: Global,
    row: &Row,
    sides: &Sides,
    fault: Option<(Part, u64)>,
) -> Result<MemoryDisk, AllocError> {
    let fails = Part::Disk.fails(alloc, fault)?;
    let left = sides.left.to_vec(alloc)?;
    let right = sides.right.to_vec(alloc)?;
    let room = row.number("disk", DISK_ROOM);
    MemoryDisk::new(alloc, left, right, room, DISK_CALLS, fails)
}

// What was written, and the names of the components that last.
fn tell(sink: &MemorySink, last: &Durable, ran: &mut Ran) -> Result<(), AllocError> {
    ran.written.clear();
    match std::str::from_utf8(sink.taken()) {
        Ok(text) => ran.written.push_str(text)?,
        Err(_) => ran.written.push_str("not UTF-8")?,
    }
    ran.last.clear();
    for (name, _) in last.texts.entries().iter() {
        ran.last.push(' ')?;
        ran.last.push_str(name.as_text())?;
    }
    Ok(())
}

// What a run came to, by what it answered.
fn keep(
    done: Run<MemoryDisk>,
    sink: &MemorySink,
    is_passed: bool,
    ran: &mut Ran,
) -> Result<(), AllocError> {
    let Run {
        status,
        disk,
        history,
        last,
    } = done;
    ran.status = status;
    ran.events = history.len();
    ran.is_passed = is_passed;
    ran.disk = disk;
    drop(history);
    let told = tell(sink, &last, ran);
    drop(last);
    told
}

/// Runs a row over these sides. At most one call of a part fails.
pub fn run_row<R: Clock + Threads + Wait + Sync>(
    rt: &R,
    alloc: Global,
    row: &Row,
    sides: &Sides,
    fault: Option<(Part, u64)>,
    ran: &mut Ran,
) -> Result<(), AllocError> {
    let words = row.words(alloc)?;
    let gate = Holding::new(row.until());
    let mut source = Watched::new(source_of(alloc, row, fault)?, &gate);
    let mut sink = sink_of(alloc, row, fault)?;
    let disk = disk_of(alloc, row, sides, fault)?;
    let prover = row.prover(rt);
    let tools = Tools {
        rt,
        alloc,
        prover: &prover,
        gate: &gate,
    };
    let done = run(&tools, &words, &mut source, &mut sink, disk);
    keep(done, &sink, gate.is_passed(), ran)
}

/// The bytes that are read of a side at a time.
const PIECE: usize = 16_384;

// Keeps what reads give of a side.
fn read_side(disk: &mut MemoryDisk, side: Side, bytes: &mut Vec<u8>) -> Result<(), AllocError> {
    let mut piece = [0; PIECE];
    bytes.clear();
    for _ in 0..DISK_CALLS {
        let count = disk
            .read_at(side, bytes.len() as u64, &mut piece)
            .unwrap_or(0);
        if count == 0 {
            break;
        }
        bytes.extend_from_slice(&piece[..count.min(PIECE)])?;
    }
    Ok(())
}

/// Keeps what reads give of both sides.
pub fn read_sides(disk: &mut MemoryDisk, sides: &mut Sides) -> Result<(), AllocError> {
    read_side(disk, Side::Left, &mut sides.left)?;
    read_side(disk, Side::Right, &mut sides.right)
}
