//! Reading of formulas.

ghost use Rattle.std.specs.Prelude.{◌≡◌, ◌<◌, ◌^◌, IfOk, IfErr};
ghost use Rattle.formula_core.specs.declared.raw.Raw.{Raw};
ghost use Rattle.math_grammar.specs.declared.holes.Hole.TheVariants as hole;
ghost use Rattle.math_grammar.specs.Tokens.{bytes_of, items_of};
ghost use Rattle.formula_parse.specs.Machine.{is_full};
ghost use Rattle.formula_parse.specs.Limits.{passes, open_after, IsSentence, FindsFormula, IsFault};
ghost use Rattle.formula_parse.specs.PrivateReaders.{ReadsTokens, formula_reader};
ghost use Rattle.formula_parse.specs.View.{state_of};

use crate::fault::{ParseFault, StepFault};
use crate::frames::{Frame, Phase};
use crate::machine::{end, step};
use formula_core::Raw;
use math_grammar::{Hole, Symbol, symbol_of};
use math_tokens::Token;
use std::alloc::Global;

/// A formula has at most so many tokens.
const MOST_TOKENS: usize = 512;

/// So many brackets may be open at once.
const MOST_OPEN: usize = 128;

/// A partition has at most so many parts, the set among them.
const MOST_PARTS: usize = 25;

/// The bytes of a token.
#[tactic(auto, using(crate::proofs::Slices::part_within))]
pub fn bytes_of<'a>(text: &'a str, token: &Token) -> &'a [u8]
    ensures { result.now ≡ bytes_of text.now token.now }
{
    let bytes = text.as_bytes();
    let to = (token.to as usize).min(bytes.len());
    let from = (token.from as usize).min(to);
    &bytes[from..to]
}

/// Whether the token passes the limit of tokens or of open brackets.
pub fn passes(index: usize, depth: usize, symbol: Symbol) -> bool
    ensures { result ≡ passes index depth symbol }
{
    MOST_TOKENS <= index || (matches!(symbol, Symbol::Open(_)) && MOST_OPEN <= depth)
}

/// How many brackets are open behind the token.
pub fn open_after(depth: usize, symbol: Symbol) -> usize
    requires { depth < 2 ^ 32 }
    ensures { result ≡ open_after depth symbol }
{
    match symbol {
        Symbol::Open(_) => depth + 1,
        Symbol::Close(_) => depth.saturating_sub(1),
        _ => depth,
    }
}

/// Whether a part of a partition is wanted behind the last one allowed.
pub fn is_full(phase: &Phase) -> bool
    ensures { result ≡ is_full (state_of phase.now) }
{
    let Phase::Want(stack) = phase else {
        return false;
    };
    match stack.last() {
        Some(Frame::Parts(_, _, before, _)) => MOST_PARTS <= before.items().len(),
        _ => false,
    }
}

fn parse(alloc: Global, goal: Hole, text: &str, tokens: &[Token]) -> Result<Raw, ParseFault>
    ensures { ReadsTokens (formula_reader goal) text.now tokens.now result }
{
    let mut phase = Phase::Want(Vec::new(alloc));
    let mut depth = 0;
    for (index, token) in tokens.iter().enumerate() {
        let word = bytes_of(text, token);
        let symbol = symbol_of(token.kind, word);
        if passes(index, depth, symbol) {
            return Err(ParseFault::TooLarge(index as u32));
        }
        match step(alloc, goal, phase, symbol, token.from, word) {
            Ok(next) => phase = next,
            Err(StepFault::Refused) => return Err(ParseFault::Unexpected(index as u32)),
            Err(StepFault::OutOfMemory) => return Err(ParseFault::OutOfMemory),
        }
        if is_full(&phase) {
            return Err(ParseFault::TooLarge(index as u32));
        }
        depth = open_after(depth, symbol);
    }
    match end(alloc, goal, phase) {
        Ok(formula) => Ok(formula),
        Err(StepFault::Refused) => Err(ParseFault::Unexpected(tokens.len() as u32)),
        Err(StepFault::OutOfMemory) => Err(ParseFault::OutOfMemory),
    }
}

/// The predicate that the tokens of a text spell.
pub fn predicate(alloc: Global, text: &str, tokens: &[Token]) -> Result<Raw, ParseFault>
    // What is found is spelled so, within the limits.
    ensures found { IfOk result (λ t. IsSentence hole.Predicate (items_of text.now tokens.now) t) }
    // What is spelled so is found, unless memory runs out.
    ensures only { (t : Raw) → IsSentence hole.Predicate (items_of text.now tokens.now) t → FindsFormula result t }
    // Else the place is that of the first token that no sentence within the limits has there.
    ensures fault { IfErr result (λ fault. IsFault hole.Predicate (items_of text.now tokens.now) fault) }
{
    parse(alloc, Hole::Predicate, text, tokens)
}

/// The expression that the tokens of a text spell.
pub fn expression(alloc: Global, text: &str, tokens: &[Token]) -> Result<Raw, ParseFault>
    ensures found { IfOk result (λ t. IsSentence hole.Expression (items_of text.now tokens.now) t) }
    ensures only { (t : Raw) → IsSentence hole.Expression (items_of text.now tokens.now) t → FindsFormula result t }
    ensures fault { IfErr result (λ fault. IsFault hole.Expression (items_of text.now tokens.now) fault) }
{
    parse(alloc, Hole::Expression, text, tokens)
}
