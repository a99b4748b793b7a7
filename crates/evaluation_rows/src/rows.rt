//! The rows of the input, each done by its word.

use crate::answers::add_value;
use crate::reading::{declare, declare_carrier};
use formula_core::Env;
use std::alloc::Global;

/// A word, what it is about, and the answer that is wanted.
#[derive(Clone, Copy)]
pub struct Row<'a> {
    word: &'a str,
    parts: &'a str,
    pub wanted: &'a str,
}

/// The row of a line. None where it is a comment.
pub fn row_of(line: &str) -> Option<Row<'_>> {
    let (word, rest) = line.split_once('\t')?;
    let (parts, wanted) = rest.rsplit_once('\t')?;
    Some(Row {
        word,
        parts,
        wanted,
    })
}

// Declares a name, and writes how many there are.
fn add_name(alloc: Global, names: &mut Env, parts: &str, out: &mut String) -> Option<()> {
    match parts.split_once('\t') {
        Some((name, text)) => declare(alloc, names, name, text)?,
        None => declare_carrier(alloc, names, parts)?,
    }
    write!(out, "{}", names.entries().len()).ok()
}

/// Writes the answer to a row.
pub fn answer(alloc: Global, names: &mut Env, row: &Row<'_>, out: &mut String) -> Option<()> {
    match row.word {
        "name" | "carrier" => add_name(alloc, names, row.parts, out),
        "expression" => add_value(alloc, &*names, false, row.parts, out),
        "predicate" => add_value(alloc, &*names, true, row.parts, out),
        _ => None,
    }
}
