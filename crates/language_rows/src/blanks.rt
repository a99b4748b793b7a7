//! Texts with blanks that can't stand in a line of the input.

use crate::shown::write_value;
use crate::token_rows::write_tokens;
use math_tokens::blank_length;
use std::alloc::{AllocError, Global};

/// The character that a row's character stands for.
fn meant(written: char) -> char {
    match written {
        '␉' => '\t',
        '␊' => '\n',
        '␍' => '\r',
        other => other,
    }
}

fn with_blanks(alloc: Global, text: &str) -> Result<String, AllocError> {
    let mut out = String::new(alloc);
    for written in text.chars() {
        out.push(meant(written))?;
    }
    Ok(out)
}

/// Writes the tokens of the text with its blanks.
pub fn write_tokens_among_blanks(
    alloc: Global,
    out: &mut String,
    text: &str,
) -> Result<(), AllocError> {
    let text = with_blanks(alloc, text)?;
    write_tokens(alloc, out, &text)
}

/// Writes how many bytes the blank at the front of the text has.
pub fn write_blank(alloc: Global, out: &mut String, text: &str) -> Result<(), AllocError> {
    let text = with_blanks(alloc, text)?;
    write_value(out, &blank_length(text.as_bytes()))
}
