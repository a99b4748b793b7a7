//! Texts as tokens, formulas and actions.

use crate::kinds::Form;
use crate::shown::write_number;
use formula_core::{Raw, RawAction};
use math_parse::{ParseFault, action, expression, predicate};
use math_tokens::{Token, TokenFault, tokens};
use std::alloc::{AllocError, Global};

/// A text has at most so many bytes.
pub const LONGEST: usize = 1_000_000;

/// Why a text is no formula.
#[derive(Clone, Copy)]
pub enum Fault {
    TooLong,
    Tokens(TokenFault),
    Parse(ParseFault),
    NotTyped,
}

pub fn write_token_fault(out: &mut String, fault: TokenFault) -> Result<(), AllocError> {
    match fault {
        TokenFault::BadSign(at) => write_number(out, "bad sign ", at),
        TokenFault::NumberTooWide(at) => write_number(out, "number too wide ", at),
        TokenFault::OutOfMemory => out.push_str("out of memory"),
    }
}

fn write_parse_fault(out: &mut String, fault: ParseFault) -> Result<(), AllocError> {
    match fault {
        ParseFault::Unexpected(at) => write_number(out, "unexpected ", at),
        ParseFault::TooLarge(at) => write_number(out, "too large ", at),
        ParseFault::OutOfMemory => out.push_str("out of memory"),
    }
}

pub fn write_fault(out: &mut String, fault: Fault) -> Result<(), AllocError> {
    match fault {
        Fault::TooLong => out.push_str("text too long"),
        Fault::Tokens(fault) => write_token_fault(out, fault),
        Fault::Parse(fault) => write_parse_fault(out, fault),
        Fault::NotTyped => out.push_str("not typed"),
    }
}

pub fn tokens_of(alloc: Global, text: &str) -> Result<Vec<Token>, Fault> {
    if text.len() > LONGEST {
        return Err(Fault::TooLong);
    }
    match tokens(alloc, text) {
        Ok(tokens) => Ok(tokens),
        Err(fault) => Err(Fault::Tokens(fault)),
    }
}

fn predicate_of(alloc: Global, text: &str, tokens: &[Token]) -> Result<Raw, Fault> {
    match predicate(alloc, text, tokens) {
        Ok(formula) => Ok(formula),
        Err(fault) => Err(Fault::Parse(fault)),
    }
}

fn expression_of(alloc: Global, text: &str, tokens: &[Token]) -> Result<Raw, Fault> {
    match expression(alloc, text, tokens) {
        Ok(formula) => Ok(formula),
        Err(fault) => Err(Fault::Parse(fault)),
    }
}

/// The predicate or the expression that is written.
pub fn formula_of(alloc: Global, form: Form, text: &str) -> Result<Raw, Fault> {
    let tokens = tokens_of(alloc, text)?;
    match form {
        Form::Predicate => predicate_of(alloc, text, &tokens),
        _ => expression_of(alloc, text, &tokens),
    }
}

fn parsed_action(alloc: Global, text: &str, tokens: &[Token]) -> Result<RawAction, Fault> {
    match action(alloc, text, tokens) {
        Ok(action) => Ok(action),
        Err(fault) => Err(Fault::Parse(fault)),
    }
}

/// The action that is written.
pub fn action_of(alloc: Global, text: &str) -> Result<RawAction, Fault> {
    let tokens = tokens_of(alloc, text)?;
    parsed_action(alloc, text, &tokens)
}
