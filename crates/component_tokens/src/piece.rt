//! What stands at a byte of a component's text.

ghost use Rattle.std.specs.Prelude.{◌≡◌, ◌<◌, ◌≤◌, ◌+◌, ◌^◌, length};
ghost use Rattle.formula_core.specs.Texts.{is_in_label};
ghost use Rattle.component_tokens.specs.Pieces.{label_run, label_length, label_token, cut_fault, IsPieceAt};

use crate::gap::{Gap, gap_in};
use math_tokens::{Token, TokenFault, TokenKind, token_at};

/// What is wrong at a byte.
#[derive(Clone, Copy, Debug, PartialEq, Eq)]
pub enum CutFault {
    BadSign(u32),
    NumberTooWide(u32),
    CommentNotClosed(u32),
}

/// What stands at a byte. A label is kept as a word that begins with `@`.
#[derive(Clone, Copy, Debug, PartialEq, Eq)]
pub enum Piece {
    /// A blank or a comment of so many bytes.
    Gap(usize),
    Token(Token),
    Fault(CutFault),
}

fn is_in_label(c: u8) -> bool
    ensures { result ≡ is_in_label c }
{
    c.is_ascii_alphanumeric() || c == b'_' || c == b'-' || c == b'.' || c == b'\''
}

/// How many bytes at the front are part of one label, if 64 or fewer are.
fn label_run(bytes: &[u8]) -> usize
    ensures { result ≡ label_run bytes.now }
{
    let mut n = 0;
    while n < bytes.len() && n < 64 && is_in_label(bytes[n]) {
        n += 1;
    }
    n
}

/// How many characters a label has that begins a text with its `@`, 0 where none does.
pub(crate) fn label_length(bytes: &[u8]) -> usize
    ensures value { result ≡ label_length bytes.now }
    ensures short { result < 65 }
{
    match bytes {
        [b'@', rest @ ..] => label_run(rest),
        _ => 0,
    }
}

fn label_token(at: u32, length: usize) -> Token
    requires { at + 1 + length < 2 ^ 32 }
    ensures { result ≡ label_token at length }
{
    Token {
        kind: TokenKind::Word,
        from: at,
        to: at + 1 + length as u32,
    }
}

/// What stands at a byte of a text. It takes no memory.
pub(crate) fn piece_at(text: &str, at: u32) -> Piece
    requires fits { length text.now < 2 ^ 32 }
    requires within { at < length text.now }
    ensures { IsPieceAt text.now at result }
{
    let rest = &text.as_bytes()[at as usize..];
    match gap_in(rest) {
        Gap::Bytes(length) => return Piece::Gap(length),
        Gap::OpenComment => return Piece::Fault(CutFault::CommentNotClosed(at)),
        Gap::Nothing => {}
    }
    let length = label_length(rest);
    if 0 < length {
        return Piece::Token(label_token(at, length));
    }
    match token_at(text, at) {
        Ok(Some(token)) => Piece::Token(token),
        Err(TokenFault::BadSign(place)) => Piece::Fault(CutFault::BadSign(place)),
        Err(TokenFault::NumberTooWide(place)) => Piece::Fault(CutFault::NumberTooWide(place)),
        Ok(None) | Err(TokenFault::OutOfMemory) => unreachable!(),
    }
}
