//! Runs of a row in which one call fails, and what reopens behind them and behind stops.
//!
//! A row that is run so asks for the digest of each state that it comes to, from the first call on that is looked at. So a state
//! has a place, that of its digest among those that the whole run writes. What reopens has the place of all that was
//! acknowledged, or the next one where the call belongs to a command that wasn't yet.

use crate::printing::{add_count, add_line, add_two};
use crate::row::Row;
use crate::runs::{Again, Part, Ran, Sides, read_sides, run_row};
use outside::{Disk, MemoryDisk};
use std::alloc::{AllocError, Global};
use std::sync::Wait;
use std::thread::Threads;
use std::time::Clock;

/// A whole run: its row, the sides that it began over, and what it came to.
#[derive(Clone, Copy)]
pub struct Whole<'a> {
    pub row: &'a Row,
    pub begun: &'a Sides,
    pub ran: &'a Ran,
}

/// The calls of a part that a run may have here.
const MOST: usize = 1_000;

/// Whether a side has its greatest length, where a stop leaves it open.
const LENGTHS: [bool; 2] = [false, true];

/// The length of a digest.
pub const DIGEST: usize = 64;

/// The first and the last place that a state may have.
type Places = (usize, usize);

// The exit status where a call of the part failed, the last line then, and the disk's count of faults.
fn ends(part: Part) -> (u8, &'static str, u64) {
    match part {
        Part::Source => (3, "input: read fault\n", 0),
        Part::Sink => (4, "", 0),
        Part::Disk => (5, "project: disk fault\n", 1),
    }
}

fn digest_at(text: &str, at: usize) -> Option<&str> {
    text.split('\n').filter(|line| line.len() == DIGEST).nth(at)
}

fn digests_in(text: &str) -> usize {
    text.split('\n').filter(|line| line.len() == DIGEST).count()
}

// Whether the last whole line is a digest.
fn ends_in_digest(text: &str) -> bool {
    match text.rsplit('\n').nth(1) {
        Some(line) => line.len() == DIGEST,
        None => false,
    }
}

// The places that the state may have behind what was written. Behind a digest a command may be done that wasn't acknowledged,
// but where a read failed none is.
fn places_behind(written: &str, part: Part) -> Places {
    let told = digests_in(written);
    if !ends_in_digest(written) {
        return (told, told);
    }
    let last = told.saturating_sub(1);
    match part {
        Part::Source => (last, last),
        Part::Sink | Part::Disk => (last, told),
    }
}

// Whether a digest has one of these places.
fn is_at(whole: &str, places: Places, digest: &str) -> bool {
    let (first, last) = places;
    digest_at(whole, first) == Some(digest) || digest_at(whole, last) == Some(digest)
}

// Opens the sides of the last run, with a session that asks for the digest.
fn open_again<R: Clock + Threads + Wait + Sync>(
    rt: &R,
    alloc: Global,
    again: &mut Again,
) -> Result<(), AllocError> {
    let mut row = Row::new(alloc);
    row.add_line("digest")?;
    run_row(rt, alloc, &row, &again.sides, None, &mut again.opened)?;
    again.opened.written.pop();
    Ok(())
}

// What a run in which a call failed wrote before its last line, or what is otherwise.
fn written_before<'a>(whole: &str, ran: &'a Ran, part: Part) -> Result<&'a str, &'static str> {
    let (status, line, faults) = ends(part);
    let Some(written) = ran.written.strip_suffix(line) else {
        return Err("another last line");
    };
    if ran.status != status {
        return Err("another status");
    }
    if ran.disk.faults() != faults {
        return Err("another count of faults");
    }
    if !whole.starts_with(written) {
        return Err("another output");
    }
    Ok(written)
}

// The places that the state may have behind a run in which a call failed, or what is otherwise.
fn places_of(whole: &str, again: &Again, part: Part) -> Result<Places, &'static str> {
    match written_before(whole, &again.ran, part) {
        Ok(written) => {
            let places = places_behind(written, part);
            if is_at(whole, places, &again.opened.written) {
                Ok(places)
            } else {
                Err("another state")
            }
        }
        Err(why) => Err(why),
    }
}

// What is done with each call.
fn add_word(out: &mut String, word: &str) -> Result<(), AllocError> {
    add_two(out, "each ", word)?;
    out.push_str(": ")
}

// How many calls there were.
fn add_calls(out: &mut String, word: &str, calls: u64, behind: &str) -> Result<(), AllocError> {
    add_word(out, word)?;
    add_count(out, calls, " calls")?;
    out.push_str(behind)
}

// What is otherwise at a call.
fn add_otherwise(out: &mut String, word: &str, call: u64, why: &str) -> Result<(), AllocError> {
    add_word(out, word)?;
    out.push_str("call ")?;
    add_count(out, call, ": ")?;
    add_line(out, why)
}

// Runs the row again with this call of a part failing, and opens what that leaves. Whether the status is another one.
fn fails<R: Clock + Threads + Wait + Sync>(
    rt: &R,
    alloc: Global,
    whole: &Whole<'_>,
    fault: (Part, u64),
    again: &mut Again,
) -> Result<bool, AllocError> {
    run_row(
        rt,
        alloc,
        whole.row,
        whole.begun,
        Some(fault),
        &mut again.ran,
    )?;
    if again.ran.status == whole.ran.status {
        return Ok(false);
    }
    read_sides(&mut again.ran.disk, &mut again.sides)?;
    open_again(rt, alloc, again)?;
    Ok(true)
}

/// Runs a row again with each call of a part failing in turn, and adds how many calls there are, and what is otherwise.
pub fn add_faults<R: Clock + Threads + Wait + Sync>(
    rt: &R,
    alloc: Global,
    whole: &Whole<'_>,
    part: Part,
    again: &mut Again,
    out: &mut String,
) -> Result<(), AllocError> {
    for call in 1..MOST as u64 {
        if !fails(rt, alloc, whole, (part, call), again)? {
            return add_calls(out, part.word(), call - 1, "\n");
        }
        if let Err(why) = places_of(&whole.ran.written, again, part) {
            add_otherwise(out, part.word(), call, why)?;
        }
    }
    out.push_str("too many calls\n")
}

/// How many images were opened, how many of them are a command ahead of what was acknowledged, and how many have a state that
/// they may not have.
#[derive(Clone, Copy)]
struct Tally {
    images: u64,
    ahead: u64,
    others: u64,
}

// Counts an image by the digest of its state.
fn tell_apart(tally: &mut Tally, whole: &str, places: Places, digest: &str) {
    let (first, _) = places;
    tally.images = tally.images.saturating_add(1);
    if !is_at(whole, places, digest) {
        tally.others = tally.others.saturating_add(1);
    } else if digest_at(whole, first) != Some(digest) {
        tally.ahead = tally.ahead.saturating_add(1);
    }
}

// What a stop inside a call leaves.
fn stop_inside(
    alloc: Global,
    disk: &MemoryDisk,
    stop: (u64, u8),
    long: bool,
    sides: &mut Sides,
) -> Result<(), AllocError> {
    let (call, fill) = stop;
    let (left, right) = disk.image(alloc, call, fill, long)?;
    sides.left = left;
    sides.right = right;
    Ok(())
}

// Opens what a stop inside a call leaves with this value of each byte that it leaves open.
fn open_images<R: Clock + Threads + Wait + Sync>(
    rt: &R,
    alloc: Global,
    whole: &Ran,
    stop: (u64, u8),
    places: Places,
    again: &mut Again,
    tally: &mut Tally,
) -> Result<(), AllocError> {
    for long in &LENGTHS {
        stop_inside(alloc, &whole.disk, stop, *long, &mut again.sides)?;
        open_again(rt, alloc, again)?;
        tell_apart(tally, &whole.written, places, &again.opened.written);
    }
    Ok(())
}

// Lets a call of the disk fail, and adds what is otherwise. The places that the state may have then, and inside the call.
fn places_at<R: Clock + Threads + Wait + Sync>(
    rt: &R,
    alloc: Global,
    whole: &Whole<'_>,
    call: u64,
    again: &mut Again,
    out: &mut String,
) -> Result<Places, AllocError> {
    if !fails(rt, alloc, whole, (Part::Disk, call), again)? {
        return Ok(places_behind(&whole.ran.written, Part::Disk));
    }
    match places_of(&whole.ran.written, again, Part::Disk) {
        Ok(places) => Ok(places),
        Err(why) => {
            add_otherwise(out, "stop", call, why)?;
            Ok((0, 0))
        }
    }
}

// Lets a call of the disk fail, opens what stops inside it leave, and adds what is otherwise.
fn add_stops_inside<R: Clock + Threads + Wait + Sync>(
    rt: &R,
    alloc: Global,
    whole: &Whole<'_>,
    call: u64,
    again: &mut Again,
    tally: &mut Tally,
    out: &mut String,
) -> Result<(), AllocError> {
    let places = places_at(rt, alloc, whole, call, again, out)?;
    let others = tally.others;
    for fill in 0..=255 {
        if whole.row.is_tried(fill) {
            open_images(rt, alloc, whole.ran, (call, fill), places, again, tally)?;
        }
    }
    if tally.others != others {
        add_otherwise(out, "stop", call, "another state behind a stop")?;
    }
    Ok(())
}

/// Lets each call of the disk fail, or each of the last ones, and opens what stops inside it leave, and stops behind all calls.
/// Adds how many calls these are, how many images were opened, how many of these are a command ahead of what was acknowledged,
/// and what is otherwise.
pub fn add_stops<R: Clock + Threads + Wait + Sync>(
    rt: &R,
    alloc: Global,
    whole: &Whole<'_>,
    again: &mut Again,
    out: &mut String,
) -> Result<(), AllocError> {
    let mut tally = Tally {
        images: 0,
        ahead: 0,
        others: 0,
    };
    let calls = whole.ran.disk.calls_made();
    let first = calls.saturating_sub(whole.row.number("late", MOST) as u64);
    for at in first..=calls {
        add_stops_inside(
            rt,
            alloc,
            whole,
            at.saturating_add(1),
            again,
            &mut tally,
            out,
        )?;
    }
    add_calls(out, "stop", calls.saturating_sub(first), ", ")?;
    add_count(out, tally.images, " images, ")?;
    add_count(out, tally.ahead, " a command ahead\n")
}
