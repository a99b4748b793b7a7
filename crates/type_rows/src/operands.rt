//! Operators with operands that no text gives them.

use crate::showing::operator;
use crate::typing::{Asked, answer_typed};
use formula_core::{Env, List, Op, Raw, RawOp};
use std::alloc::{AllocError, Global};

fn top(alloc: Global) -> Raw {
    Raw::Node(RawOp::Plain(Op::Top), List::of(Vec::new(alloc)), 0)
}

fn add(parts: &mut Vec<Raw>, part: Raw) -> Result<(), AllocError> {
    parts.push(part).or(Err(AllocError))
}

/// Adds the operand that a word names.
fn add_operand(alloc: Global, parts: &mut Vec<Raw>, word: &str) -> Result<(), AllocError> {
    match word {
        "1" => add(parts, Raw::Int(1, 0)),
        _ => add(parts, top(alloc)),
    }
}

fn answer_node(
    alloc: Global,
    out: &mut String,
    env: &mut Env,
    op: Op,
    parts: Vec<Raw>,
) -> Result<(), AllocError> {
    let raw = Raw::Node(RawOp::Plain(op), List::of(parts), 0);
    answer_typed(alloc, out, env, Asked::Predicate(&[]), &raw)
}

fn answer_operator(
    alloc: Global,
    out: &mut String,
    env: &mut Env,
    words: &str,
    op: Op,
) -> Result<(), AllocError> {
    let mut parts = Vec::new(alloc);
    for word in words.split_whitespace() {
        add_operand(alloc, &mut parts, word)?;
    }
    answer_node(alloc, out, env, op, parts)
}

/// Writes what an operator with these operands is typed as, as a predicate.
pub fn answer_operands(
    alloc: Global,
    out: &mut String,
    env: &mut Env,
    words: &str,
    sign: &str,
) -> Result<(), AllocError> {
    match operator(sign) {
        Some(op) => answer_operator(alloc, out, env, words, op),
        None => out.push_str("no such operator"),
    }
}
