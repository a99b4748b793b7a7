//! Reads texts as tokens, formulas and actions, types and prints them, and compares what comes of each with what should.
//!
//! Each line has a kind, a text and the answer wanted, with tabs between them. A line without an answer is only read; one
//! that begins with `#`, or that is empty, is left out. Lines with another answer are printed with it, and at the end how many lines there were.
//!
//! Tokens: `c` asks for the class of the first token, `k`, `k1` and `k2` for the token at byte 0, 1 and 2 and its end, `t` for the tokens, `l` for the
//! number of a sign between two operands, its operator and the rank of its level. `tb` asks for the tokens of a text in which ␉, ␊ and ␍ stand
//! for these blanks, and `b` for the length of the blank at its front. `f` is a question on places of the grammar, and `law` calls a law.
//!
//! As they are written: `p`, `e` and `a` ask for the tree of a predicate, an expression and an action; by `P`, `E` and `A` the answer has the byte
//! place of each node and name too, by `rp` and `re` it is `read` or the fault, and by `wp`, `we` and `wa` it is the printed text.
//!
//! Typed: `n` declares a name with the set that it is a member of, or as a carrier set. `tp` and `te` ask for the printed text of the typed formula, `bp` for the
//! one that is proved to read back, `dp` and `de` for the condition under which the formula has a value, and `dh` for that of the predicate below 4,093 negations.
//! Where what is printed isn't read and typed again as the same formula or condition, the answer says so.
//!
//! By `wp`, `we`, `wa`, `tp` and `te` the answer wanted is then a text of its own, which is printed as itself: it counts as one more line.
#![tactic(auto)]

mod answers;
mod blanks;
mod kinds;
mod names;
mod places;
mod reading;
mod shown;
mod token_rows;
mod tree;
mod typed;

use answers::answer;
use formula_core::Env;
use kinds::{Kind, kind_of};
use names::declare;
use std::alloc::Global;
use std::io;
use std::io::{BufRead, BufReader};
use std::process::ExitCode;

/// What a line asks for, and the answer wanted.
#[derive(Clone, Copy)]
struct Row<'a> {
    word: &'a str,
    text: &'a str,
    wanted: Option<&'a str>,
}

/// How many rows there were, and how many had another answer.
#[derive(Clone, Copy)]
struct Counts {
    rows: u64,
    differ: u64,
}

fn row_of(line: &str) -> Option<Row<'_>> {
    if line.is_empty() || line.starts_with('#') {
        return None;
    }
    let (word, rest) = line.split_once('\t')?;
    match rest.split_once('\t') {
        Some((text, wanted)) => Some(Row {
            word,
            text,
            wanted: Some(wanted),
        }),
        None => Some(Row {
            word,
            text: rest,
            wanted: None,
        }),
    }
}

fn tell(rt: &impl Print, row: Row<'_>, wanted: &str, answer: &str) -> io::Result<()> {
    println!(rt; "{}\t{}\t{wanted}\tis {answer}", row.word, row.text)
}

/// Answers a row, and tells of another answer than the wanted one.
fn check(
    rt: &impl Print,
    alloc: Global,
    env: &Env,
    counts: &mut Counts,
    kind: Kind,
    row: Row<'_>,
) -> io::Result<()> {
    counts.rows = counts.rows.saturating_add(1);
    let mut found = String::new(alloc);
    answer(alloc, env, &mut found, kind, row.text)?;
    let wanted = row.wanted.unwrap_or(found.as_str());
    if found.as_str() != wanted {
        counts.differ = counts.differ.saturating_add(1);
        tell(rt, row, wanted, &found)?;
    }
    Ok(())
}

/// The row of what is printed, which is printed as itself.
fn again(kind: Kind, row: Row<'_>) -> Option<Row<'_>> {
    if !kind.is_of_itself() {
        return None;
    }
    let text = row.wanted?;
    Some(Row { text, ..row })
}

fn check_line(
    rt: &impl Print,
    alloc: Global,
    env: &mut Env,
    counts: &mut Counts,
    line: &str,
) -> io::Result<()> {
    let Some(row) = row_of(line) else {
        return Ok(());
    };
    let kind = kind_of(row.word);
    if let Kind::Name = kind {
        if !declare(alloc, env, row.text, row.wanted.unwrap_or("")) {
            tell(rt, row, "declared", "not declared")?;
        }
        return Ok(());
    }
    check(rt, alloc, env, counts, kind, row)?;
    match again(kind, row) {
        Some(row) => check(rt, alloc, env, counts, kind, row),
        None => Ok(()),
    }
}

fn main(rt: HostRuntime) -> io::Result<ExitCode> {
    let alloc = rt.alloc();
    let mut env = Env::new(alloc);
    let mut counts = Counts { rows: 0, differ: 0 };
    for line in BufReader::new(alloc, rt.reader())?.lines(alloc) {
        let line = line?;
        check_line(&rt, alloc, &mut env, &mut counts, &line)?;
    }
    println!(rt; "{} rows, {} differ", counts.rows, counts.differ)?;
    Ok(if counts.differ == 0 {
        ExitCode::SUCCESS
    } else {
        ExitCode::FAILURE
    })
}
