//! What formulas mean over values, row by row of the input.
//!
//! A row has its parts between tabs. The first is a word, the last the answer that is wanted. Lines without a tab are
//! comments. Rows with another answer are printed with it, and at the end how many rows there were. A row that can't be done
//! is answered `none`.
//!
//! - `name`, a name and a predicate declare the name, `carrier` and a name a carrier set. The answer is how many names are
//!   declared.
//! - `expression`, sizes, values and an expression: its value, or the first fault. A size is a carrier set and how many
//!   elements it has, a value is a name and a text that is read at its type.
//! - `predicate`, sizes, values and a predicate: whether it is true, or the first fault.
//!
//! `-` stands for nothing, ` ;; ` between several.
#![tactic(auto)]

mod answers;
mod reading;
mod rows;

use crate::rows::{Row, answer, row_of};
use formula_core::Env;
use std::io;
use std::io::{BufRead, BufReader};
use std::process::ExitCode;

// Whether the answer to a row is the one that is wanted. Another one is printed.
fn is_as_wanted(rt: &HostRuntime, names: &mut Env, line: &str, row: &Row<'_>) -> io::Result<bool> {
    let alloc = rt.alloc();
    let mut found = String::new(alloc);
    if answer(alloc, names, row, &mut found).is_none() {
        found.clear();
        found.push_str("none")?;
    }
    if found.as_str() == row.wanted {
        return Ok(true);
    }
    println!(rt; "{line}\tis {found}")?;
    Ok(false)
}

// How many rows have another answer than the one that is wanted.
fn count_wrong(rt: &HostRuntime, names: &mut Env) -> io::Result<u64> {
    let alloc = rt.alloc();
    let mut rows: u64 = 0;
    let mut differ: u64 = 0;
    for line in BufReader::new(alloc, rt.reader())?.lines(alloc) {
        let line = line?;
        let Some(row) = row_of(&line) else {
            continue;
        };
        rows = rows.saturating_add(1);
        if !is_as_wanted(rt, names, &line, &row)? {
            differ = differ.saturating_add(1);
        }
    }
    println!(rt; "{rows} rows, {differ} differ")?;
    Ok(differ)
}

fn main(rt: HostRuntime) -> io::Result<ExitCode> {
    let mut names = Env::new(rt.alloc());
    Ok(match count_wrong(&rt, &mut names)? {
        0 => ExitCode::SUCCESS,
        _ => ExitCode::FAILURE,
    })
}
