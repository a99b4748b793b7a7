//! What is printed of a row.

use crate::acts::add_events;
use crate::again::{DIGEST, Whole, add_faults, add_stops};
use crate::bytes::add_bytes;
use crate::codec::add_entries;
use crate::gates::Until;
use crate::printing::{add_count, add_line, add_number, add_two};
use crate::row::{Kind, Row};
use crate::runs::{Bench, Ran, Sides, read_sides, run_row};
use std::alloc::{AllocError, Global};
use std::sync::Wait;
use std::thread::Threads;
use std::time::Clock;

/// The most records of a side that are told.
const MOST_RECORDS: usize = 10;

// Lines with `(digest)` for each that has a digest.
fn add_lines(out: &mut String, lines: &str) -> Result<(), AllocError> {
    for line in lines.split('\n') {
        let shown = if line.len() == DIGEST {
            "(digest)"
        } else {
            line
        };
        add_line(out, shown)?;
    }
    Ok(())
}

// A line behind how often it stands, if it stands at all.
fn add_repeated(out: &mut String, line: &str, count: u64) -> Result<(), AllocError> {
    if count > 1 {
        add_count(out, count, " times ")?;
    }
    if count > 0 {
        add_line(out, line)?;
    }
    Ok(())
}

// The lines, where lines that follow one another and are the same stand once, behind their number.
fn add_folded(out: &mut String, text: &str) -> Result<(), AllocError> {
    let mut last = "";
    let mut count: u64 = 0;
    for line in text.split('\n') {
        if line != last {
            add_repeated(out, last, count)?;
            last = line;
            count = 0;
        }
        count = count.saturating_add(1);
    }
    add_repeated(out, last, count)
}

// What a run wrote, and its status.
fn add_written(out: &mut String, row: &Row, ran: &Ran) -> Result<(), AllocError> {
    match ran.written.strip_suffix("\n") {
        Some(lines) if row.says("hide digests") => add_lines(out, lines)?,
        Some(lines) if row.says("fold") => add_folded(out, lines)?,
        _ => out.push_str(&ran.written)?,
    }
    if !ran.written.is_empty() && !ran.written.ends_with("\n") {
        out.push_str("\n(cut)\n")?;
    }
    out.push_str("status ")?;
    add_count(out, ran.status as u64, "\n")
}

fn add_side(alloc: Global, out: &mut String, word: &str, side: &[u8]) -> Result<(), AllocError> {
    let hex = hex::encode(alloc, side)?;
    let blank = if side.is_empty() { "" } else { " " };
    add_two(out, word, blank)?;
    add_line(out, &hex)
}

fn add_sizes(out: &mut String, sides: &Sides) -> Result<(), AllocError> {
    out.push_str("left ")?;
    add_count(out, sides.left.len() as u64, ", right ")?;
    add_count(out, sides.right.len() as u64, "\n")
}

// The length of each record.
fn add_lengths(out: &mut String, records: &[u8]) -> Result<(), AllocError> {
    let mut rest = records;
    for _ in 0..MOST_RECORDS {
        match rest {
            [1, a, b, c, d, behind @ ..] => {
                let length = u32::from_le_bytes([*a, *b, *c, *d]);
                out.push(' ')?;
                add_number(out, length as u64)?;
                rest = behind.get(length as usize..).unwrap_or(&[]);
            }
            _ => return Ok(()),
        }
    }
    Ok(())
}

// The generation of a side, and the length of each of its records.
fn add_records(out: &mut String, word: &str, side: &[u8]) -> Result<(), AllocError> {
    if let [_, _, _, _, _, _, _, _, a, b, c, d, e, f, g, h, records @ ..] = side {
        let generation = u64::from_le_bytes([*a, *b, *c, *d, *e, *f, *g, *h]);
        add_two(out, word, " of generation ")?;
        add_count(out, generation, ", records")?;
        add_lengths(out, records)?;
        out.push('\n')?;
    }
    Ok(())
}

fn add_held(out: &mut String, ran: &Ran) -> Result<(), AllocError> {
    let passed = if ran.is_passed {
        "passed"
    } else {
        "did not pass"
    };
    out.push_str("the first ticket ")?;
    add_line(out, passed)
}

// The lines that `tell` asks for.
fn add_told(
    alloc: Global,
    row: &Row,
    ran: &Ran,
    sides: &Sides,
    out: &mut String,
) -> Result<(), AllocError> {
    if row.says("tell left") {
        add_side(alloc, out, "left", &sides.left)?;
    }
    if row.says("tell right") {
        add_side(alloc, out, "right", &sides.right)?;
    }
    if row.says("tell sizes") {
        add_sizes(out, sides)?;
    }
    if row.says("tell records") {
        add_records(out, "left", &sides.left)?;
        add_records(out, "right", &sides.right)?;
    }
    if row.until() != Until::Open {
        add_held(out, ran)?;
    }
    if row.says("tell last") {
        out.push_str("last")?;
        add_line(out, &ran.last)?;
    }
    Ok(())
}

// The lines that `each` asks for.
fn add_each<R: Clock + Threads + Wait + Sync>(
    rt: &R,
    alloc: Global,
    row: &Row,
    bench: &mut Bench,
    out: &mut String,
) -> Result<(), AllocError> {
    let whole = Whole {
        row,
        begun: &bench.sides,
        ran: &bench.ran,
    };
    let again = &mut bench.again;
    if let Some(part) = row.each() {
        add_faults(rt, alloc, &whole, part, again, out)?;
    }
    if row.says("each stop") {
        add_stops(rt, alloc, &whole, again, out)?;
    }
    if row.says("each byte") {
        add_bytes(rt, alloc, &whole, again, out)?;
    }
    Ok(())
}

// A run in a line: the exit status, the number of events, and what was written.
fn add_input(out: &mut String, row: &Row, ran: &Ran) -> Result<(), AllocError> {
    let name = row.name.strip_prefix("# ").unwrap_or(row.name.as_str());
    add_two(out, name, ": status ")?;
    add_count(out, ran.status as u64, ", ")?;
    add_count(out, ran.events as u64, " events, ")?;
    writeln!(out, "{:?}", ran.written)?;
    Ok(())
}

// What is printed of a run of a row below its name.
fn add_run<R: Clock + Threads + Wait + Sync>(
    rt: &R,
    alloc: Global,
    row: &Row,
    bench: &mut Bench,
    out: &mut String,
) -> Result<(), AllocError> {
    add_written(out, row, &bench.ran)?;
    add_each(rt, alloc, row, bench, out)?;
    read_sides(&mut bench.ran.disk, &mut bench.sides)?;
    add_told(alloc, row, &bench.ran, &bench.sides, out)
}

// Adds the events of a row, or runs it and adds what it comes to.
fn add_answers<R: Clock + Threads + Wait + Sync>(
    rt: &R,
    alloc: Global,
    row: &Row,
    bench: &mut Bench,
    out: &mut String,
) -> Result<(), AllocError> {
    if row.kind == Kind::Bytes {
        return add_entries(alloc, &row.input, out);
    }
    row.begin_sides(alloc, &mut bench.sides)?;
    if row.kind == Kind::Events {
        return add_events(alloc, row, &bench.sides, out);
    }
    let fault = row.fault();
    run_row(rt, alloc, row, &bench.sides, fault, &mut bench.ran)?;
    if row.kind == Kind::Inputs {
        return add_input(out, row, &bench.ran);
    }
    add_run(rt, alloc, row, bench, out)
}

/// Adds a heading, or runs a row and adds what is printed of it. The sides of the bench are those that the row before left, and
/// then those that this one leaves.
pub fn answer<R: Clock + Threads + Wait + Sync>(
    rt: &R,
    alloc: Global,
    row: &Row,
    bench: &mut Bench,
    out: &mut String,
) -> Result<(), AllocError> {
    if row.name.is_empty() {
        return Ok(());
    }
    if row.kind != Kind::Inputs || row.is_heading() {
        add_line(out, &row.name)?;
    }
    if row.is_heading() {
        return Ok(());
    }
    add_answers(rt, alloc, row, bench, out)
}
