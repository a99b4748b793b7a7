//! Tokens as texts: what they are, and what the grammar takes them for.

use crate::reading::{LONGEST, tokens_of, write_fault, write_token_fault};
use crate::shown::{write_number, write_value};
use formula_core::{Op, RawOp};
use math_grammar::{Grade, symbol_of};
use math_tokens::{Token, TokenKind, token_at};
use std::alloc::{AllocError, Global};

/// Writes the token that begins at the byte, and its end.
pub fn write_token_at(out: &mut String, text: &str, at: u32) -> Result<(), AllocError> {
    if text.len() < at as usize || text.len() > LONGEST {
        return out.push_str("text too short or too long");
    }
    match token_at(text, at) {
        Ok(Some(token)) => {
            write_value(out, &token.kind)?;
            write_number(out, " ", token.to)
        }
        Ok(None) => out.push_str("no token"),
        Err(fault) => write_token_fault(out, fault),
    }
}

fn write_token(out: &mut String, token: Token) -> Result<(), AllocError> {
    match token.kind {
        TokenKind::Sign(_) => out.push_str("Sign")?,
        kind => write_value(out, &kind)?,
    }
    write_number(out, " ", token.from)?;
    write_number(out, " ", token.to)?;
    out.push_str(", ")
}

fn write_each(out: &mut String, tokens: &[Token]) -> Result<(), AllocError> {
    for token in tokens {
        write_token(out, *token)?;
    }
    Ok(())
}

/// Writes the tokens of the text with their first bytes and their ends.
pub fn write_tokens(alloc: Global, out: &mut String, text: &str) -> Result<(), AllocError> {
    let tokens = tokens_of(alloc, text);
    match &tokens {
        Ok(tokens) => write_each(out, tokens),
        Err(fault) => write_fault(out, *fault),
    }
}

fn write_token_class(out: &mut String, text: &str, tokens: &[Token]) -> Result<(), AllocError> {
    match tokens {
        [token] => write_value(out, &symbol_of(token.kind, text.as_bytes())),
        _ => {
            write_value(out, &tokens.len())?;
            out.push_str(" tokens")
        }
    }
}

/// Writes what the grammar takes the only token for.
pub fn write_class(alloc: Global, out: &mut String, text: &str) -> Result<(), AllocError> {
    let tokens = tokens_of(alloc, text);
    match &tokens {
        Ok(tokens) => write_token_class(out, text, tokens),
        Err(fault) => write_fault(out, *fault),
    }
}

/// The operator of a sign between two operands, and the rank of its level.
fn infix(kind: TokenKind) -> Option<(Op, u8)> {
    match symbol_of(kind, b"").infix() {
        Some((level, RawOp::Plain(op))) => Some((op, level.grade(Grade::Name).rank())),
        _ => None,
    }
}

fn write_infix(out: &mut String, kind: TokenKind) -> Result<(), AllocError> {
    match infix(kind) {
        Some((op, rank)) => {
            write_value(out, &kind)?;
            out.push_str(" ")?;
            write_value(out, &op)?;
            write_number(out, " ", u32::from(rank))
        }
        None => out.push_str("no operator between two operands"),
    }
}

fn write_token_level(out: &mut String, tokens: &[Token]) -> Result<(), AllocError> {
    match tokens {
        [token] => write_infix(out, token.kind),
        _ => out.push_str("no single token"),
    }
}

/// Writes the number of a sign between two operands, its operator and the rank of its level.
pub fn write_level(alloc: Global, out: &mut String, text: &str) -> Result<(), AllocError> {
    let tokens = tokens_of(alloc, text);
    match &tokens {
        Ok(tokens) => write_token_level(out, tokens),
        Err(fault) => write_fault(out, *fault),
    }
}
