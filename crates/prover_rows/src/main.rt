//! Asks the provers and strategies of its input, and compares what each answers with what it should.
//!
//! A line has its parts between tabs. Two parts are a declaration: a name, and the set that it is a member of, or
//! `carrier set`. Five parts are a row: a prover or a strategy, its budget, hypotheses separated by ` ;; `, a goal, and
//! the answer. `-` stands for no hypotheses, and other lines are comments.
//!
//! A prover's answer is `short` (a proof of at most 8 rules, none of which is allL, exR, cut or cases), `proved` (a proof
//! within the budget), `none`, or `fair` (a proof or none, where the sequent isn't sure and yet follows). A strategy's is
//! `none`, or its tree by the words of its rules, each with its children behind it and `-` for a leaf, and whether the
//! tree derives the sequent or only applies to it. Of a large tree there is the number of its nodes, leaves counted.
//!
//! A formula `doubled N` is `d = d`, where d is x added to itself N times over: 2^(N+2) − 1 nodes. `signed N` is the like
//! with N signs before x, and has the height N + 2. `conjoined N` is `x = x`, joined to itself by ∧ N times over: 2^N parts.
//! ` negated N` behind a formula puts N negations before it.
//!
//! Rows with another answer are printed with it, and at the end how many rows there were.
#![tactic(auto)]

mod asking;
mod large;
mod reading;
mod rows;
mod showing;
mod strategies;

use crate::reading::declare;
use crate::rows::{answer, declaration, row_of};
use formula_core::Env;
use std::io;
use std::io::{BufRead, BufReader};
use std::process::ExitCode;

/// Whether an answer is the one that a row wants.
fn is_wanted(found: &str, wanted: &str) -> bool {
    match wanted {
        "proved" => found == "short" || found == "proved",
        "fair" => found == "short" || found == "proved" || found == "none",
        _ => found == wanted,
    }
}

fn main(rt: HostRuntime) -> io::Result<ExitCode> {
    let alloc = rt.alloc();
    let mut env = Env::new(alloc);
    let mut rows: u64 = 0;
    let mut differ: u64 = 0;
    for line in BufReader::new(alloc, rt.reader())?.lines(alloc) {
        let line = line?;
        if let Some((name, set)) = declaration(&line) {
            if declare(alloc, &mut env, name, set).is_none() {
                println!(rt; "not declared: {name}")?;
            }
            continue;
        }
        let Some(row) = row_of(&line) else {
            continue;
        };
        rows = rows.saturating_add(1);
        let mut found = String::new(alloc);
        answer(alloc, &mut found, &env, &row)?;
        if !is_wanted(&found, row.wanted) {
            differ = differ.saturating_add(1);
            println!(rt;
                "{}\t{}\t{}\t{}\t{}\tis {found}",
                row.asked, row.budget, row.hyps, row.goal, row.wanted
            )?;
        }
    }
    println!(rt; "{rows} rows, {differ} differ")?;
    Ok(if differ == 0 {
        ExitCode::SUCCESS
    } else {
        ExitCode::FAILURE
    })
}
