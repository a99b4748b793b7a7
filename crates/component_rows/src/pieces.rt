//! Words and numbers, one behind another.

use std::alloc::AllocError;

/// A piece of what is printed.
#[derive(Clone, Copy)]
pub enum Piece<'a> {
    Word(&'a str),
    Number(usize),
}

fn add_number(number: usize, out: &mut String) -> Result<(), AllocError> {
    write!(out, "{number}")
}

/// Adds pieces, with nothing between them.
pub fn add(pieces: &[Piece<'_>], out: &mut String) -> Result<(), AllocError> {
    for piece in pieces {
        match *piece {
            Piece::Word(word) => out.push_str(word)?,
            Piece::Number(number) => add_number(number, out)?,
        }
    }
    Ok(())
}
