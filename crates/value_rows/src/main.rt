//! Values: what texts are read as at a type, row by row of the input.
//!
//! A row has a type, a text and the answer that is wanted, between tabs: the printed value, or `bad value`. Lines without a
//! tab are comments. Rows with another answer are printed with it, and at the end how many rows there were. A row that can't
//! be done is answered `none`.
//!
//! A type is a word: `Z` for integers, `B` for truth values, `S` for the carrier set S of three elements, `P` and a type for
//! the sets of its values, `X` and two types for the pairs of their values.
#![tactic(auto)]

mod rows;
mod types;

use crate::rows::{Row, answer, row_of};
use std::io;
use std::io::{BufRead, BufReader};
use std::process::ExitCode;

// Whether the answer to a row is the one that is wanted. Another one is printed.
fn is_as_wanted(rt: &HostRuntime, line: &str, row: &Row<'_>) -> io::Result<bool> {
    let alloc = rt.alloc();
    let mut found = String::new(alloc);
    if answer(alloc, row, &mut found).is_none() {
        found.clear();
        found.push_str("none")?;
    }
    if found.as_str() == row.wanted {
        return Ok(true);
    }
    println!(rt; "{line}\tis {found}")?;
    Ok(false)
}

// How many rows have another answer than the one that is wanted.
fn count_wrong(rt: &HostRuntime) -> io::Result<u64> {
    let alloc = rt.alloc();
    let mut rows: u64 = 0;
    let mut differ: u64 = 0;
    for line in BufReader::new(alloc, rt.reader())?.lines(alloc) {
        let line = line?;
        let Some(row) = row_of(&line) else {
            continue;
        };
        rows = rows.saturating_add(1);
        if !is_as_wanted(rt, &line, &row)? {
            differ = differ.saturating_add(1);
        }
    }
    println!(rt; "{rows} rows, {differ} differ")?;
    Ok(differ)
}

fn main(rt: HostRuntime) -> io::Result<ExitCode> {
    Ok(match count_wrong(&rt)? {
        0 => ExitCode::SUCCESS,
        _ => ExitCode::FAILURE,
    })
}
