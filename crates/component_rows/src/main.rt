//! What texts of components are read, printed, checked and built to.
//!
//! A line `! WORD` says what is done with what follows, up to the next such line. Of each part come that line and:
//!
//! - `! read`: of each line `=KIND TEXT`, with a tab between, the line, a tab and what comes of the text. In the text stand
//!   ␊, ␉ and ␍ for a line feed, a tab and a carriage return. By the kind `read` this is what the component c0 is read as, its
//!   words and their places, or its fault; by `again` what is read of its printed text; by `tokens` the places behind its
//!   tokens and the fault behind these; by `positions` the line and the column of each of its bytes.
//! - `! printed`: of each text behind a line `== NAME` that line, the printed text of the component of that name, and what is
//!   read of it, or else the fault with its component, kind, line, column and words.
//! - `! checked`: of each project behind a line `# TITLE` that line and a line for each component, by name: its first fault,
//!   with kind, line, column and words, or that it is checked.
//! - `! built`: of each project behind a line `# TITLE` that line, its faults and warnings, and then each obligation: its
//!   name, its identifiers with their types, its hypotheses and its goal. Where the title ends in ` names`, the names alone
//!   come. Behind them comes a line for each component without fault, by name: how many obligations it has, how many of them
//!   it owes by itself and how many beside, and that all of them have `the same names` as in the table. A line `## then` in a
//!   project stands between its text and an edited one, which is built behind it. Of these come how many obligations of the
//!   new table are those of before, `the same table` where it is, and whether table, places, faults and warnings are `as from
//!   nothing`. Where the title ends in ` often`, the project is edited and edited back twenty times, for who times it, and
//!   the number of its obligations comes.
#![tactic(auto)]

mod builds;
mod compared;
mod lists;
mod pieces;
mod projects;
mod readings;
mod rows;
mod sequents;
mod shape;
mod texts;
mod told;

use crate::pieces::{Piece, add};
use crate::projects::{Part, add_project};
use crate::readings::add_printed;
use crate::rows::add_row;
use std::alloc::{AllocError, Global};
use std::io;

fn add_titled(
    alloc: Global,
    part: Part,
    title: &str,
    text: &str,
    out: &mut String,
) -> Result<(), AllocError> {
    match part {
        Part::Printed => add_printed(alloc, title, text, out),
        _ => add_project(alloc, part, title, text, out),
    }
}

/// Adds each title behind its mark, and what comes of its text.
fn add_titles<'x>(
    alloc: Global,
    part: Part,
    mark: &'x str,
    between: &str,
    text: &'x str,
    out: &mut String,
) -> Result<(), AllocError> {
    for piece in text
        .strip_prefix(mark)
        .unwrap_or(text)
        .split_inclusive(between)
    {
        let titled = piece.strip_suffix(mark).unwrap_or(piece);
        let (title, text) = titled.split_once('\n').unwrap_or((titled, ""));
        add(
            &[Piece::Word(mark), Piece::Word(title), Piece::Word("\n")],
            out,
        )?;
        add_titled(alloc, part, title, text, out)?;
    }
    Ok(())
}

fn add_rows(alloc: Global, text: &str, out: &mut String) -> Result<(), AllocError> {
    for line in text.lines() {
        add_row(alloc, line, out)?;
    }
    Ok(())
}

fn add_part(alloc: Global, word: &str, text: &str, out: &mut String) -> Result<(), AllocError> {
    match word {
        "read" => add_rows(alloc, text, out),
        "printed" => add_titles(alloc, Part::Printed, "== ", "\n== ", text, out),
        "checked" => add_titles(alloc, Part::Checked, "# ", "\n# ", text, out),
        "built" => add_titles(alloc, Part::Built, "# ", "\n# ", text, out),
        _ => out.push_str("no such part\n"),
    }
}

fn add_parts(alloc: Global, input: &str, out: &mut String) -> Result<(), AllocError> {
    for piece in input
        .strip_prefix("! ")
        .unwrap_or(input)
        .split_inclusive("\n! ")
    {
        let part = piece.strip_suffix("! ").unwrap_or(piece);
        let (word, text) = part.split_once('\n').unwrap_or((part, ""));
        add(
            &[Piece::Word("! "), Piece::Word(word), Piece::Word("\n")],
            out,
        )?;
        add_part(alloc, word, text, out)?;
    }
    Ok(())
}

fn main(rt: HostRuntime) -> io::Result<()> {
    let alloc = rt.alloc();
    let input = io::read_to_string(alloc, rt.reader())?;
    let mut out = String::new(alloc);
    add_parts(alloc, &input, &mut out)?;
    print!(rt; "{out}")?;
    Ok(())
}
