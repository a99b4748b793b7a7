//! The rows of the input, each done by its word.

use crate::deps::{add_asks, add_fits, add_times};
use crate::making::{
    Asked, add_made, add_rewrites, add_tested_often, asked_of, by_hand, known_goal, rule_for,
};
use crate::reading::{declare, declare_carrier, sequent_in, sequent_of};
use crate::trees::{
    add_answer, add_at, add_found, add_marks, add_met, add_obligation, add_prune, add_same,
    add_step, add_told, change, put_over,
};
use formula_core::Env;
use sequent_core::{Sequent, Tree};
use std::alloc::Global;

/// A word, what it is about, and the answer that is wanted.
#[derive(Clone, Copy)]
pub struct Row<'a> {
    word: &'a str,
    parts: &'a str,
    pub wanted: &'a str,
}

/// The row of a line. None where it is a comment.
pub fn row_of(line: &str) -> Option<Row<'_>> {
    let (word, rest) = line.split_once('\t')?;
    let (parts, wanted) = rest.rsplit_once('\t').unwrap_or(("", rest));
    Some(Row {
        word,
        parts,
        wanted,
    })
}

/// What a word is about.
#[derive(Clone, Copy)]
enum Subject {
    Names,
    Rule,
    Asked,
    Trees,
    Sequent,
    Sequents,
}

const WORDS: [(&str, Subject); 26] = [
    ("name", Subject::Names),
    ("carrier", Subject::Names),
    ("forget", Subject::Names),
    ("rule", Subject::Asked),
    ("made", Subject::Asked),
    ("rewrites", Subject::Asked),
    ("leaf", Subject::Trees),
    ("copy", Subject::Trees),
    ("drop", Subject::Trees),
    ("again", Subject::Trees),
    ("is", Subject::Trees),
    ("members", Subject::Trees),
    ("same", Subject::Trees),
    ("is rule", Subject::Trees),
    ("asks", Subject::Trees),
    ("prune", Subject::Trees),
    ("meets", Subject::Sequent),
    ("fits", Subject::Sequent),
    ("tells", Subject::Sequent),
    ("at", Subject::Sequent),
    ("step", Subject::Sequent),
    ("obligation", Subject::Sequent),
    ("time", Subject::Sequent),
    ("hypothesis", Subject::Sequent),
    ("by hand", Subject::Sequent),
    ("same sequents", Subject::Sequents),
];

// Other words than these are numbers of kinds.
fn subject_of(word: &str) -> Subject {
    for (known, it) in WORDS {
        if word == known {
            return it;
        }
    }
    Subject::Rule
}

fn add_count(done: Option<()>, count: usize, out: &mut String) -> Option<()> {
    done?;
    write!(out, "{count}").ok()
}

fn change_names(alloc: Global, names: &mut Env, word: &str, parts: &str) -> Option<()> {
    match word {
        "forget" => {
            names.cut(0);
            Some(())
        }
        "carrier" => declare_carrier(alloc, names, parts),
        _ => {
            let (name, text) = parts.split_once('\t')?;
            declare(alloc, names, name, text)
        }
    }
}

// Puts the rule that is asked for over so many of the last trees.
fn put_asked(alloc: Global, trees: &mut Vec<Tree>, asked: &Asked, count: u32) -> Option<()> {
    let mut fault = String::new(alloc);
    let rule = rule_for(alloc, asked, &mut fault)?;
    put_over(trees, rule, count as usize)
}

fn for_asked(
    alloc: Global,
    trees: &mut Vec<Tree>,
    word: &str,
    asked: &mut Asked,
    number: u32,
    out: &mut String,
) -> Option<()> {
    match word {
        "made" => add_tested_often(alloc, &*asked, number, out),
        "rewrites" => add_rewrites(alloc, asked, number, out),
        _ => {
            put_asked(alloc, trees, &*asked, number)?;
            add_count(Some(()), trees.len(), out)
        }
    }
}

fn asked_in(alloc: Global, names: &Env, parts: &str) -> Option<Asked> {
    let (kind, parts) = parts.split_once('\t')?;
    let (items, parts) = parts.split_once('\t')?;
    let (listed, formulas) = parts.split_once('\t')?;
    asked_of(alloc, names, kind, items, listed, formulas)
}

// A number, and a rule that is asked for.
fn asked_row(
    alloc: Global,
    names: &Env,
    trees: &mut Vec<Tree>,
    row: &Row<'_>,
    out: &mut String,
) -> Option<()> {
    let (number, parts) = row.parts.split_once('\t')?;
    let number = number.parse::<u32>().ok()?;
    let mut asked = asked_in(alloc, names, parts)?;
    for_asked(alloc, trees, row.word, &mut asked, number, out)
}

// The number of a kind, items, hypotheses and a goal.
fn rule_row(alloc: Global, names: &Env, row: &Row<'_>, out: &mut String) -> Option<()> {
    let (items, formulas) = row.parts.split_once('\t')?;
    let asked = asked_of(alloc, names, row.word, items, "*", formulas)?;
    add_made(alloc, &asked, out)
}

fn tree_row(alloc: Global, trees: &mut Vec<Tree>, row: &Row<'_>, out: &mut String) -> Option<()> {
    match row.word {
        "is" => add_marks(trees.last()?, out),
        "members" => write!(out, "{}", trees.last()?.member_count()).ok(),
        "same" => add_same(&*trees, out),
        "is rule" => add_found(alloc, trees.last()?, row.parts.parse::<u32>().ok()?, out),
        "asks" => add_asks(alloc, &*trees, out),
        "prune" => add_prune(alloc, trees.last_mut()?, row.parts, out),
        _ => {
            let done = change(alloc, trees, row.word, row.parts);
            add_count(done, trees.len(), out)
        }
    }
}

// Whether the copy of a sequent is the same as another one.
fn add_same_sequents(alloc: Global, names: &Env, parts: &str, out: &mut String) -> Option<()> {
    let (one, other) = parts.split_once("\t=\t")?;
    let copy = sequent_in(alloc, names, one)?.copy(alloc).ok()?;
    add_answer(copy.same(&sequent_in(alloc, names, other)?), out)
}

fn put_for(
    alloc: Global,
    trees: &mut Vec<Tree>,
    word: &str,
    extra: &str,
    sequent: &Sequent,
) -> Option<()> {
    let rule = match word {
        "hypothesis" => known_goal(alloc, sequent)?,
        "by hand" => by_hand(alloc, extra, sequent)?,
        _ => return None,
    };
    put_over(trees, rule, 0)
}

fn at_sequent(
    rt: &HostRuntime,
    alloc: Global,
    trees: &mut Vec<Tree>,
    word: &str,
    extra: &str,
    sequent: &Sequent,
    out: &mut String,
) -> Option<()> {
    match word {
        "meets" => add_met(trees.last()?, sequent, out),
        "fits" => add_fits(alloc, trees.last()?, sequent, out),
        "tells" => add_told(alloc, trees.last()?, sequent, out),
        "at" => add_at(alloc, trees.last()?, sequent, extra, out),
        "step" => add_step(alloc, trees, sequent, extra, out),
        "obligation" => add_obligation(alloc, extra, sequent, out),
        "time" => add_times(
            rt,
            alloc,
            trees.last()?,
            sequent,
            extra.parse::<u32>().ok()?,
            out,
        ),
        _ => {
            let done = put_for(alloc, trees, word, extra, sequent);
            add_count(done, trees.len(), out)
        }
    }
}

// A sequent, with a part before it or without.
fn sequent_row(
    rt: &HostRuntime,
    alloc: Global,
    names: &Env,
    trees: &mut Vec<Tree>,
    row: &Row<'_>,
    out: &mut String,
) -> Option<()> {
    let (parts, goal) = row.parts.rsplit_once('\t')?;
    let (parts, hyps) = parts.rsplit_once('\t')?;
    let (extra, listed) = parts.rsplit_once('\t').unwrap_or(("", parts));
    match sequent_of(alloc, names, listed, hyps, goal) {
        Some(sequent) => at_sequent(rt, alloc, trees, row.word, extra, &sequent, out),
        None => out.push_str("no sequent").ok(),
    }
}

/// Does what a row says, and writes what comes of it. None where it can't be done.
pub fn answer(
    rt: &HostRuntime,
    alloc: Global,
    names: &mut Env,
    trees: &mut Vec<Tree>,
    row: &Row<'_>,
    out: &mut String,
) -> Option<()> {
    match subject_of(row.word) {
        Subject::Names => {
            let done = change_names(alloc, names, row.word, row.parts);
            add_count(done, names.entries().len(), out)
        }
        Subject::Rule => rule_row(alloc, &*names, row, out),
        Subject::Asked => asked_row(alloc, &*names, trees, row, out),
        Subject::Trees => tree_row(alloc, trees, row, out),
        Subject::Sequent => sequent_row(rt, alloc, &*names, trees, row, out),
        Subject::Sequents => add_same_sequents(alloc, &*names, row.parts, out),
    }
}
