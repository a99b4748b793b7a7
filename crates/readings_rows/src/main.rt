//! Truth in readings, trees that show it, and proofs by cases: what the calls on them answer, row by row of the input.
//!
//! A row has its parts between tabs. The first is a word, the last the answer that is wanted. Lines without a tab are
//! comments. Rows with another answer are printed with it, and at the end how many rows there were. A row that can't be done
//! is answered `none`.
//!
//! - `name`, a name and a predicate declare the name, `carrier` and a name a carrier set. The answer is how many names are
//!   declared.
//! - `value`, truth values, numbers and a predicate: its truth in the reading of these, or the operands of the first
//!   operation whose value doesn't fit. A truth value is `true` or `false` and a predicate, a number is one and an expression.
//! - `follows`, hypotheses, a goal and steps: whether the sequent follows by the tree of these steps. A step is a path, the
//!   number of a kind and items.
//! - `cases`, a budget, hypotheses and a goal: whether the sequent is proved by cases within so many rules.
//!
//! `-` stands for nothing, ` ;; ` between several. Items are ` , ` apart: `h` and the number of a hypothesis, with a
//! multiplier, `n` and a new name, `e` and `p` with an expression or a predicate, `w` and a law with a place. A path is
//! `0.1.0`.
#![tactic(auto)]

mod answers;
mod items;
mod reading;
mod rows;
mod steps;

use crate::rows::{Row, answer, row_of};
use formula_core::Env;
use std::io;
use std::io::{BufRead, BufReader};
use std::process::ExitCode;

// Whether the answer to a row is the one that is wanted. Another one is printed.
fn is_as_wanted(rt: &HostRuntime, names: &mut Env, line: &str, row: &Row<'_>) -> io::Result<bool> {
    let alloc = rt.alloc();
    let mut found = String::new(alloc);
    if answer(alloc, names, row, &mut found).is_none() {
        found.clear();
        found.push_str("none")?;
    }
    if found.as_str() == row.wanted {
        return Ok(true);
    }
    println!(rt; "{line}\tis {found}")?;
    Ok(false)
}

// How many rows have another answer than the one that is wanted.
fn count_wrong(rt: &HostRuntime, names: &mut Env) -> io::Result<u64> {
    let alloc = rt.alloc();
    let mut rows: u64 = 0;
    let mut differ: u64 = 0;
    for line in BufReader::new(alloc, rt.reader())?.lines(alloc) {
        let line = line?;
        let Some(row) = row_of(&line) else {
            continue;
        };
        rows = rows.saturating_add(1);
        if !is_as_wanted(rt, names, &line, &row)? {
            differ = differ.saturating_add(1);
        }
    }
    println!(rt; "{rows} rows, {differ} differ")?;
    Ok(differ)
}

fn main(rt: HostRuntime) -> io::Result<ExitCode> {
    let mut names = Env::new(rt.alloc());
    Ok(match count_wrong(&rt, &mut names)? {
        0 => ExitCode::SUCCESS,
        _ => ExitCode::FAILURE,
    })
}
