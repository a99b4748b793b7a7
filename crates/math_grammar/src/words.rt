//! The words with a meaning of their own, and the class of a token.

ghost use Rattle.std.specs.Prelude.{◌≡◌};
ghost use Rattle.math_grammar.specs.Tokens.{word_in, sign_at, symbol_of};
ghost use Rattle.math_grammar.specs.Private.{table_entries};

use crate::levels::Call;
use crate::symbols::{SYMBOLS, Symbol};
use formula_core::{Op, RawOp};
use math_tokens::TokenKind;

/// The words of formulas that are no signs.
pub const WORDS: [(&str, Symbol); 18] = [
    ("TRUE", Symbol::Constant(Op::TrueValue)),
    ("FALSE", Symbol::Constant(Op::FalseValue)),
    ("BOOL", Symbol::Constant(Op::Booleans)),
    ("bool", Symbol::Call(Call::Bool, RawOp::Plain(Op::BoolOf))),
    (
        "card",
        Symbol::Call(Call::Function, RawOp::Plain(Op::Cardinality)),
    ),
    (
        "dom",
        Symbol::Call(Call::Function, RawOp::Plain(Op::Domain)),
    ),
    ("ran", Symbol::Call(Call::Function, RawOp::Plain(Op::Range))),
    (
        "union",
        Symbol::Call(Call::Function, RawOp::Plain(Op::GeneralUnion)),
    ),
    (
        "inter",
        Symbol::Call(Call::Function, RawOp::Plain(Op::GeneralIntersection)),
    ),
    (
        "min",
        Symbol::Call(Call::Function, RawOp::Plain(Op::Minimum)),
    ),
    (
        "max",
        Symbol::Call(Call::Function, RawOp::Plain(Op::Maximum)),
    ),
    (
        "finite",
        Symbol::Call(Call::Finite, RawOp::Plain(Op::Finite)),
    ),
    ("partition", Symbol::Call(Call::Partition, RawOp::Partition)),
    ("id", Symbol::Constant(Op::Identity)),
    ("prj1", Symbol::Constant(Op::FirstProjection)),
    ("prj2", Symbol::Constant(Op::SecondProjection)),
    ("pred", Symbol::Constant(Op::Predecessor)),
    ("succ", Symbol::Constant(Op::Successor)),
];

fn word_in(table: &[(&str, Symbol)], word: &[u8]) -> Option<Symbol>
    ensures { result ≡ word_in (table_entries table.now) word.now }
{
    for (text, symbol) in table {
        if text.as_bytes() == word {
            return Some(*symbol);
        }
    }
    None
}

/// The class of a token, by its kind and its bytes.
pub fn symbol_of(kind: TokenKind, text: &[u8]) -> Symbol
    ensures { result ≡ symbol_of kind text.now }
{
    match kind {
        TokenKind::Sign(number) => sign_at(&SYMBOLS, number as usize),
        TokenKind::Number(value) => Symbol::Number(value),
        TokenKind::Word => match word_in(&WORDS, text) {
            Some(symbol) => symbol,
            None => Symbol::Word,
        },
        TokenKind::Primed => Symbol::Word,
    }
}

fn sign_at(symbols: &[Symbol], at: usize) -> Symbol
    ensures { result ≡ sign_at symbols.now at }
{
    match symbols.get(at) {
        Some(symbol) => *symbol,
        None => Symbol::Word,
    }
}
