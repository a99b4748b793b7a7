//! Formulas of a step.
ghost use Rattle.std.specs.Prelude.{◌≡◌, ◌<◌, ◌^◌, List, length, IfOk, MatchOption, true, Ok};
ghost use Rattle.std.specs.Str.{is_utf8};
ghost use Rattle.formula_core.specs.declared.raw.Raw.{Raw};
ghost use Rattle.math_tokens.specs.declared.cutting.Token.{Token};
ghost use Rattle.math_tokens.specs.SignForms.{sign_forms};
ghost use Rattle.math_tokens.specs.Texts.{Cut};
ghost use Rattle.math_grammar.specs.declared.holes.Hole.TheVariants as hole;
ghost use Rattle.math_grammar.specs.Tokens.{items_of};
ghost use Rattle.formula_parse.specs.Limits.{IsSentence};
ghost use Rattle.step_items.specs.Terms.{IsTermText};

use formula_core::{OutOfMemory, Raw};
use formula_parse::{ParseFault, expression, predicate};
use math_tokens::{Token, TokenFault, cut_one_way, tokens};
use std::alloc::Global;

/// The text that the bytes are, where it is short enough to be cut into tokens.
fn text_of(bytes: &[u8]) -> Option<&str>
    ensures { MatchOption result ((is_utf8 bytes.now ≡ true) → length bytes.now < 2 ^ 32 → ⊥)
        (λ text. (text.now ≡ bytes.now) × (is_utf8 bytes.now ≡ true) × (length bytes.now < 2 ^ 32)) }
{
    if bytes.len() > u32::MAX as usize {
        return None;
    }
    match std::str::from_utf8(bytes) {
        Ok(text) => Some(text),
        Err(_) => None,
    }
}

/// The tokens of a text, if it has only tokens and blanks.
fn tokens_of(alloc: Global, text: &str) -> Result<Option<Vec<Token>>, OutOfMemory>
    requires { length text.now < 2 ^ 32 }
    ensures { IfOk result (λ cut. MatchOption cut ((tokens : List Token) → Cut sign_forms text.now 0 (Ok tokens) → ⊥)
        (λ tokens. Cut sign_forms text.now 0 (Ok tokens.items))) }
{
    cut_one_way();
    match tokens(alloc, text) {
        Ok(cut) => Ok(Some(cut)),
        Err(TokenFault::BadSign(_)) => Ok(None),
        Err(TokenFault::NumberTooWide(_)) => Ok(None),
        Err(TokenFault::OutOfMemory) => Err(OutOfMemory),
    }
}

fn expression_of(alloc: Global, text: &str, cut: &[Token]) -> Result<Option<Raw>, OutOfMemory>
    ensures { IfOk result (λ read.
        MatchOption read ((t : Raw) → IsSentence hole.Expression (items_of text.now cut.now) t → ⊥)
        (IsSentence hole.Expression (items_of text.now cut.now))) }
{
    match expression(alloc, text, cut) {
        Ok(raw) => Ok(Some(raw)),
        Err(ParseFault::Unexpected(_)) => Ok(None),
        Err(ParseFault::TooLarge(_)) => Ok(None),
        Err(ParseFault::OutOfMemory) => Err(OutOfMemory),
    }
}

fn predicate_of(alloc: Global, text: &str, cut: &[Token]) -> Result<Option<Raw>, OutOfMemory>
    ensures { IfOk result (λ read.
        MatchOption read ((t : Raw) → IsSentence hole.Predicate (items_of text.now cut.now) t → ⊥)
        (IsSentence hole.Predicate (items_of text.now cut.now))) }
{
    match predicate(alloc, text, cut) {
        Ok(raw) => Ok(Some(raw)),
        Err(ParseFault::Unexpected(_)) => Ok(None),
        Err(ParseFault::TooLarge(_)) => Ok(None),
        Err(ParseFault::OutOfMemory) => Err(OutOfMemory),
    }
}

/// The expression that the bytes spell.
pub fn read_expression(alloc: Global, bytes: &[u8]) -> Result<Option<Raw>, OutOfMemory>
    ensures { IfOk result (λ read. MatchOption read ((t : Raw) → IsTermText hole.Expression bytes.now t
        → ⊥) (IsTermText hole.Expression bytes.now)) }
{
    let Some(text) = text_of(bytes) else {
        return Ok(None);
    };
    cut_one_way();
    match tokens_of(alloc, text)? {
        Some(cut) => expression_of(alloc, text, cut.as_slice()),
        None => Ok(None),
    }
}

/// The predicate that the bytes spell.
pub fn read_predicate(alloc: Global, bytes: &[u8]) -> Result<Option<Raw>, OutOfMemory>
    ensures { IfOk result (λ read. MatchOption read ((t : Raw) → IsTermText hole.Predicate bytes.now t
        → ⊥) (IsTermText hole.Predicate bytes.now)) }
{
    let Some(text) = text_of(bytes) else {
        return Ok(None);
    };
    cut_one_way();
    match tokens_of(alloc, text)? {
        Some(cut) => predicate_of(alloc, text, cut.as_slice()),
        None => Ok(None),
    }
}
