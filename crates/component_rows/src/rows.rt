//! Rows of a kind and a text, with what comes of it.

use crate::pieces::{Piece, add};
use crate::readings::{LONGEST, add_again, add_reading};
use component_tokens::{Pieces, cut, position_of};
use formula_core::Name;
use std::alloc::{AllocError, Global};

/// Adds the written text of a row, where ␊, ␉ and ␍ stand for a line feed, a tab and a carriage return.
fn add_text(written: &str, text: &mut String) -> Result<(), AllocError> {
    for c in written.chars() {
        text.push(match c {
            '␊' => '\n',
            '␉' => '\t',
            '␍' => '\r',
            c => c,
        })?;
    }
    Ok(())
}

fn add_pieces(pieces: &Pieces, out: &mut String) -> Result<(), AllocError> {
    for token in &pieces.tokens {
        add(&[Piece::Number(token.to as usize), Piece::Word(" ")], out)?;
    }
    match &pieces.fault {
        Some(fault) => write!(out, "{fault:?}"),
        None => out.push_str("end"),
    }
}

/// Adds the places behind the tokens of a text, and the fault behind these.
fn add_tokens(alloc: Global, text: &str, out: &mut String) -> Result<(), AllocError> {
    if LONGEST < text.len() {
        return out.push_str("too long");
    }
    match cut(alloc, text) {
        Ok(pieces) => add_pieces(&pieces, out),
        Err(_) => out.push_str("out of memory"),
    }
}

/// Adds the lines and columns of the bytes of a text and of its end.
fn add_positions(text: &str, out: &mut String) -> Result<(), AllocError> {
    for at in 0..=text.len() {
        let position = position_of(text, at);
        let between = if at == 0 { "" } else { " " };
        let line = Piece::Number(position.line);
        let column = Piece::Number(position.column);
        add(&[Piece::Word(between), line, Piece::Word(":"), column], out)?;
    }
    Ok(())
}

fn add_answer(
    alloc: Global,
    kind: &str,
    name: &Name,
    text: &str,
    out: &mut String,
) -> Result<(), AllocError> {
    match kind {
        "=read" => add_reading(alloc, name, text, out),
        "=tokens" => add_tokens(alloc, text, out),
        "=positions" => add_positions(text, out),
        "=again" => add_again(alloc, name, text, false, out),
        _ => out.push_str("no such kind"),
    }
}

fn add_read(alloc: Global, kind: &str, written: &str, out: &mut String) -> Result<(), AllocError> {
    let mut text = String::new(alloc);
    add_text(written, &mut text)?;
    match Name::read(alloc, "c0") {
        Ok(name) => add_answer(alloc, kind, &name, &text, out),
        Err(_) => out.push_str("no name"),
    }
}

/// Adds a row, and what comes of its text by its kind.
pub fn add_row(alloc: Global, line: &str, out: &mut String) -> Result<(), AllocError> {
    let (kind, written) = line.split_once('\t').unwrap_or((line, ""));
    add(&[Piece::Word(line), Piece::Word("\t")], out)?;
    add_read(alloc, kind, written, out)?;
    out.push_str("\n")
}
