//! The tokens of a text.

ghost use Rattle.std.specs.Prelude.{◌≡◌, ◌^◌, ◌<◌, ◌≤◌, length, IsTrue};
ghost use Rattle.math_tokens.specs.Texts.{blank_length, meaning, IsTokenAt, Cuts};
ghost use Rattle.math_tokens.specs.Private.{are_groups, table};
ghost use Rattle.math_tokens.specs.declared.cutting.TokenFault.TheVariants as fault;

use crate::lexemes::{Lexeme, longest_lexeme, number};
use std::alloc::{AllocError, AllocFailed, Global};

#[derive(Clone, Copy, Debug, PartialEq, Eq)]
pub enum TokenKind {
    Word,
    Primed,
    Number(i128),
    Sign(u8),
}

#[derive(Clone, Copy, Debug, PartialEq, Eq)]
pub struct Token {
    pub kind: TokenKind,
    pub from: u32,
    pub to: u32,
}

#[derive(Clone, Copy, Debug, PartialEq, Eq)]
pub enum TokenFault {
    BadSign(u32),
    NumberTooWide(u32),
    OutOfMemory,
}

impl From<AllocError> for TokenFault {
    ghost from_gives = { λ _ e. e ≡ fault.OutOfMemory };

    fn from(_e: AllocError) -> TokenFault {
        TokenFault::OutOfMemory
    }
}

impl<T: Drop> From<AllocFailed<T>> for TokenFault {
    ghost from_gives = { λ _ e. e ≡ fault.OutOfMemory };

    fn from(_e: AllocFailed<T>) -> TokenFault {
        TokenFault::OutOfMemory
    }
}

/// How many bytes a blank at the front has, if one stands there.
pub fn blank_length(bytes: &[u8]) -> usize
    ensures value { result ≡ blank_length bytes.now }
    ensures within { result ≤ length bytes.now }
{
    match bytes {
        [] => 0,
        [first, rest @ ..] => {
            if *first == 32 || *first == 9 || *first == 13 || *first == 10 {
                1
            } else if *first == 194 {
                match rest {
                    [] => 0,
                    [second, ..] => { if *second == 160 { 2 } else { 0 } }
                }
            } else {
                0
            }
        }
    }
}

/// What the token is that these bytes spell, or what is wrong with it.
fn meaning(bytes: &[u8], lexeme: Lexeme, at: u32) -> Result<TokenKind, TokenFault>
    ensures { result ≡ meaning bytes.now lexeme at }
{
    match lexeme {
        Lexeme::Sign(sign) => Ok(TokenKind::Sign(sign)),
        Lexeme::Word => {
            if bytes.len() <= 64 {
                Ok(TokenKind::Word)
            } else {
                Err(TokenFault::BadSign(at))
            }
        }
        Lexeme::Primed => {
            if bytes.len() <= 65 {
                Ok(TokenKind::Primed)
            } else {
                Err(TokenFault::BadSign(at))
            }
        }
        Lexeme::Number => match number(bytes) {
            Some(value) => Ok(TokenKind::Number(value)),
            None => Err(TokenFault::NumberTooWide(at)),
        },
    }
}

/// The longest token that begins at the byte.
pub fn token_in(
    forms: &[(&str, u8)],
    starts: &[u8; 257],
    text: &str,
    at: u32,
) -> Result<Option<Token>, TokenFault>
    requires groups { IsTrue (are_groups forms.now 0 starts.now) }
    requires fits { length text.now < 2 ^ 32 }
    requires within { at ≤ length text.now }
    ensures { IsTokenAt (table forms.now) text.now at result }
{
    let bytes = text.as_bytes();
    let rest = &bytes[at as usize..];
    if rest.is_empty() || 0 < blank_length(rest) {
        return Ok(None);
    }
    match longest_lexeme(forms, starts, rest) {
        None => Err(TokenFault::BadSign(at)),
        Some((len, lexeme)) => match meaning(&rest[..len], lexeme, at) {
            Ok(kind) => Ok(Some(Token {
                kind,
                from: at,
                to: at + len as u32,
            })),
            Err(fault) => Err(fault),
        },
    }
}

/// The tokens of a text, or the first fault in it.
pub fn tokens_in(
    alloc: Global,
    forms: &[(&str, u8)],
    starts: &[u8; 257],
    text: &str,
) -> Result<Vec<Token>, TokenFault>
    requires groups { IsTrue (are_groups forms.now 0 starts.now) }
    requires fits { length text.now < 2 ^ 32 }
    ensures { Cuts (table forms.now) text.now result }
{
    let mut tokens = Vec::new(alloc);
    let mut at = 0;
    while at < text.len() {
        match token_in(forms, starts, text, at as u32) {
            Ok(None) => at += blank_length(&text.as_bytes()[at..]),
            Ok(Some(token)) => {
                at = token.to as usize;
                tokens.push(token)?;
            }
            Err(fault) => return Err(fault),
        }
    }
    Ok(tokens)
}
