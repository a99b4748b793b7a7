//! Rules, proof trees and sequents: what the calls on them answer, row by row of the input.
//!
//! A row has its parts between tabs. The first is a word, the last the answer that is wanted. Lines without a tab are
//! comments, behind which no tree stands. Rows with another answer are printed with it, and at the end how many rows there
//! were. A row that can't be done is answered `none`.
//!
//! - `name`, a name and a predicate declare the name, `carrier` and a name a carrier set; `forget` forgets all. The answer is
//!   how many names are declared.
//! - The number of a kind, items, hypotheses and a goal: the rule that is made over all declared names, with what it leaves,
//!   or why there is none.
//! - A number, the number of a kind, items, names, hypotheses and a goal are a rule that is asked for. `rule` puts it over so
//!   many of the last trees, and answers how many trees stand then; `made` asks for it so often, and answers whether it is a
//!   rule of the table; `rewrites` asks for it so often, each time for the goal that it left, and answers how often it was made.
//! - `leaf` puts a leaf behind the trees, `copy` a copy of the last one, `again` and a number its rule over it so often, and
//!   `drop` drops it. The answer is how many trees stand.
//! - `is` tells what the last tree is, `members` how many members its lists have, `same` whether it is the same as the one
//!   before it, `is rule` and a number how often of so many times its rule is one of the table, `asks` what it asks of
//!   sequents, and `prune` and a path whether the rule there gave way to a leaf.
//! - Names, hypotheses and a goal are a sequent, behind these words: `meets` (has it what the last rule needs?), `fits` (has it
//!   what the last tree asks?), `tells` (does the last tree apply to it, derive it, and is it good?), `at` and a path (how
//!   many hypotheses has it at this leaf?), `step` and a path (the last tree's rule is put at a leaf of the tree before it),
//!   `hypothesis` (puts the rule that its goal is a hypothesis), `by hand` and the number of a kind (puts what may be no
//!   rule), `obligation` and a name (which name has its copy?). `same sequents`, one sequent, `=` and another one: is the
//!   copy of the first the same as the second? `time` and a number: how long take the tests of so many copies of the
//!   sequent, without and with the numbers of their hypotheses (`bench/fits`)?
//!
//! `-` stands for nothing, ` ;; ` between several. Names are blanks apart: `*` are those that are declared, `..N` the integers
//! x0, x1, .. so many, and one that isn't declared is an integer. Items are `h` and the number of a hypothesis, with a
//! multiplier, `n` and a new name, `e` and `p` with an expression or a predicate, `w` and a law with a place. A path is
//! `0.1.0`, and `0*N` is N steps to a first child. A formula behind `#` is put together from its parts: see building.rt.
#![tactic(auto)]

mod building;
mod deps;
mod items;
mod making;
mod reading;
mod rows;
mod showing;
mod trees;

use crate::rows::{Row, answer, row_of};
use formula_core::Env;
use sequent_core::Tree;
use std::alloc::Global;
use std::io;
use std::io::{BufRead, BufReader};
use std::process::ExitCode;

// Whether the answer to a row is the one that is wanted. Another one is printed.
fn is_as_wanted(
    rt: &HostRuntime,
    names: &mut Env,
    trees: &mut Vec<Tree>,
    line: &str,
    row: &Row<'_>,
) -> io::Result<bool> {
    let alloc = rt.alloc();
    let mut found = String::new(alloc);
    if answer(rt, alloc, names, trees, row, &mut found).is_none() {
        found.clear();
        found.push_str("none")?;
    }
    if found.as_str() == row.wanted {
        return Ok(true);
    }
    println!(rt; "{line}\tis {found}")?;
    Ok(false)
}

// How many rows have another answer than the one that is wanted.
fn count_wrong(rt: &HostRuntime, names: &mut Env, trees: &mut Vec<Tree>) -> io::Result<u64> {
    let alloc: Global = rt.alloc();
    let mut rows: u64 = 0;
    let mut differ: u64 = 0;
    for line in BufReader::new(alloc, rt.reader())?.lines(alloc) {
        let line = line?;
        let Some(row) = row_of(&line) else {
            trees.clear();
            continue;
        };
        rows = rows.saturating_add(1);
        if !is_as_wanted(rt, names, trees, &line, &row)? {
            differ = differ.saturating_add(1);
        }
    }
    println!(rt; "{rows} rows, {differ} differ")?;
    Ok(differ)
}

fn main(rt: HostRuntime) -> io::Result<ExitCode> {
    let alloc = rt.alloc();
    let mut names = Env::new(alloc);
    let mut trees = Vec::new(alloc);
    Ok(match count_wrong(&rt, &mut names, &mut trees)? {
        0 => ExitCode::SUCCESS,
        _ => ExitCode::FAILURE,
    })
}
