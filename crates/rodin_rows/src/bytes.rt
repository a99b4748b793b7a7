//! Openings over a side with each value at each of its places.

use crate::again::Whole;
use crate::printing::{add_count, add_number};
use crate::runs::{Again, Ran, Sides, run_row};
use std::alloc::{AllocError, Global};
use std::sync::Wait;
use std::thread::Threads;
use std::time::Clock;

/// What openings came to, each with how many did.
type Counts = Vec<(String, u32)>;

// What an opening came to: how many components last, or the line of its refusal.
fn outcome(alloc: Global, ran: &Ran) -> Result<String, AllocError> {
    if ran.status == 0 {
        let components = ran.last.split(' ').count().saturating_sub(1);
        return format!(in alloc; "opens {components}");
    }
    String::from_str(alloc, ran.written.trim_end())
}

fn count(counts: &mut Counts, outcome: String) -> Result<(), AllocError> {
    for at in 0..counts.len() {
        if counts[at].0.as_str() == outcome.as_str() {
            counts[at].1 = counts[at].1.saturating_add(1);
            return Ok(());
        }
    }
    counts.push((outcome, 1))?;
    Ok(())
}

// Puts other sides in the place of sides, with this value at this place of the left one.
fn put_byte(from: &Sides, place: usize, value: u8, sides: &mut Sides) -> Result<(), AllocError> {
    sides.left.clear();
    sides.left.extend_from_slice(&from.left)?;
    sides.right.clear();
    sides.right.extend_from_slice(&from.right)?;
    if let Some(byte) = sides.left.get_mut(place) {
        *byte = value;
    }
    Ok(())
}

// Counts what the openings come to with each value at this place of the left side.
fn count_values<R: Clock + Threads + Wait + Sync>(
    rt: &R,
    alloc: Global,
    whole: &Whole<'_>,
    place: usize,
    again: &mut Again,
    counts: &mut Counts,
) -> Result<(), AllocError> {
    counts.clear();
    for value in 0..=255 {
        put_byte(whole.begun, place, value, &mut again.sides)?;
        run_row(rt, alloc, whole.row, &again.sides, None, &mut again.ran)?;
        count(counts, outcome(alloc, &again.ran)?)?;
    }
    Ok(())
}

// A line of a place.
fn add_place(out: &mut String, place: usize, counts: &[(String, u32)]) -> Result<(), AllocError> {
    out.push_str("byte ")?;
    add_number(out, place as u64)?;
    for (outcome, number) in counts {
        out.push_str(", ")?;
        add_count(out, *number as u64, " ")?;
        out.push_str(outcome)?;
    }
    out.push('\n')
}

/// Opens over each value at each place of the left side, and adds a line for each place: what comes of it, each with how many
/// of the 256 values do, in the order in which they come first.
pub fn add_bytes<R: Clock + Threads + Wait + Sync>(
    rt: &R,
    alloc: Global,
    whole: &Whole<'_>,
    again: &mut Again,
    out: &mut String,
) -> Result<(), AllocError> {
    let mut counts = Vec::new(alloc);
    for place in 0..whole.begun.left.len() {
        count_values(rt, alloc, whole, place, again, &mut counts)?;
        add_place(out, place, &counts)?;
    }
    Ok(())
}
