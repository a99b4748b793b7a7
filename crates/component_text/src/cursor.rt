//! Going through the tokens of a component's text from left to right.

ghost use Rattle.std.specs.Prelude.{◌≡◌, ◌≤◌, List, ℕ, length, IfOk, ◌==◌};
ghost use Rattle.math_grammar.specs.declared.holes.Hole.TheVariants as hole;
ghost use Rattle.math_grammar.specs.Tokens.{bytes_of, items_of};
ghost use Rattle.component_text.specs.Marks.{is_word_mark, is_at, marks_of};
ghost use Rattle.component_text.specs.Grammar.{first_place, IsPlaced, reference, label_at, is_a_label, begins_line};
ghost use Rattle.component_text.specs.Machines.{IsActionWithin, either, begins_event};
ghost use Rattle.component_text.specs.PrivateReading.{Takes, ReadsOne, ReadsFormula};
ghost use Rattle.component_text.specs.PrivateTexts.{IsNameOf, IsLabelOf, is_plain_text, plain_length, IsKindOf, is_word_text};
ghost use Rattle.component_text.specs.PrivatePieces.{IsFirstMark};
ghost use Rattle.formula_core.specs.Texts.{begins_with};
ghost use Rattle.component_tokens.specs.Pieces.{at_sign};

use crate::stop::Stop;
use crate::words::is_structural;
use formula_core::{Label, Name, NameFault, OutOfMemory, Raw, RawAction, Ref};
use formula_parse::{ParseFault, expression, predicate};
use math_action::action;
use math_tokens::Token;
use std::alloc::Global;
use std::marker::Model;

/// The bytes of a token.
#[tactic(auto, using(formula_parse::proofs::Slices::part_within))]
fn bytes_of<'a>(text: &'a str, token: &Token) -> &'a [u8]
    ensures { result.now ≡ bytes_of text.now token.now }
{
    let bytes = text.as_bytes();
    let to = (token.to as usize).min(bytes.len());
    let from = (token.from as usize).min(to);
    &bytes[from..to]
}

/// The name that the bytes are, if it has no prime.
#[tactic(auto, using(crate::proofs::Texts::no_name, crate::proofs::Texts::name_too))]
fn name_of(alloc: Global, bytes: &[u8]) -> Result<Option<Name>, OutOfMemory>
    ensures { IfOk result (λ read. IsNameOf read bytes.now) }
{
    if !formula_core::is_identifier(bytes) {
        return Ok(None);
    }
    let Ok(text) = std::str::from_utf8(bytes) else {
        return Ok(None);
    };
    match Name::read(alloc, text) {
        Ok(name) => Ok(Some(name)),
        Err(NameFault::BadName) => Ok(None),
        Err(NameFault::OutOfMemory) => Err(OutOfMemory),
    }
}

/// The label that the bytes are.
#[tactic(auto, using(crate::proofs::Texts::no_label))]
fn label_of(alloc: Global, bytes: &[u8]) -> Result<Option<Label>, OutOfMemory>
    ensures { IfOk result (λ read. IsLabelOf read bytes.now) }
{
    let Ok(text) = std::str::from_utf8(bytes) else {
        return Ok(None);
    };
    match Label::read(alloc, text) {
        Ok(label) => Ok(Some(label)),
        Err(NameFault::BadName) => Ok(None),
        Err(NameFault::OutOfMemory) => Err(OutOfMemory),
    }
}

/// Whether a token with these bytes is part of a formula.
fn is_plain(bytes: &[u8]) -> bool
    ensures { result ≡ is_plain_text bytes.now }
{
    match bytes {
        [b'@', ..] => false,
        _ => !is_structural(bytes),
    }
}

/// How many tokens stand before the next structural word or label.
fn plain_length(text: &str, tokens: &[Token]) -> usize
    ensures value { result ≡ plain_length text.now tokens.now }
    ensures within { result ≤ length tokens.now }
{
    let mut n = 0;
    while n < tokens.len() && is_plain(bytes_of(text, &tokens[n])) {
        n += 1;
    }
    n
}

/// The place of the first of these tokens.
fn first_place(tokens: &[Token]) -> u32
    ensures { (text : List ℕ) → result ≡ first_place (items_of text tokens.now) }
{
    match tokens {
        [first, ..] => first.from,
        [] => 0,
    }
}

/// What a token with these bytes is to the grammar of components.
#[derive(Drop)]
enum Kind<'a> {
    Word(&'a [u8]),
    /// A label without its `@`.
    Label(&'a [u8]),
    Plain(&'a [u8]),
}

fn kind_of(bytes: &[u8]) -> Kind<'_>
    ensures { IsKindOf bytes.now result }
{
    match bytes {
        [b'@', label @ ..] => Kind::Label(label),
        _ => {
            if is_structural(bytes) {
                Kind::Word(bytes)
            } else {
                Kind::Plain(bytes)
            }
        }
    }
}

/// Whether a token with these bytes is the structural word.
fn is_word(bytes: &[u8], word: &[u8]) -> bool
    ensures { result ≡ is_word_text word.now bytes.now }
{
    bytes == word && !begins_label(bytes) && is_structural(bytes)
}

fn begins_label(bytes: &[u8]) -> bool
    ensures { result ≡ begins_with at_sign bytes.now }
{
    match bytes {
        [first, ..] => *first == b'@',
        [] => false,
    }
}

/// The tokens that are still to be read.
#[derive(Drop)]
pub struct Cursor<'t, 'a> {
    text: &'a str,
    rest: &'t [Token],
}

impl<'t, 'a> Model for Cursor<'t, 'a> {
    ghost use Rattle.std.specs.Prelude.{List};
    ghost use Rattle.component_text.specs.Marks.{Mark, marks_of};

    ghost Value = { List Mark };

    ghost view = { λ a. marks_of a.text.now a.rest.now };
}

impl<'t, 'a> Cursor<'t, 'a> {
    pub fn new(text: &'a str, rest: &'t [Token]) -> Cursor<'t, 'a>
        ensures { result ≡ marks_of text.entry.now rest.entry.now }
    {
        Cursor { text, rest }
    }

    /// The place and the bytes of the next token.
    pub fn first(&self) -> Option<(u32, &[u8])>
        ensures { IsFirstMark result self.now }
    {
        match self.rest.first() {
            Some(token) => Some((token.from, bytes_of(self.text, token))),
            None => None,
        }
    }

    pub fn is_at_end(&self) -> bool
        ensures { result ≡ (length self.now == 0) }
    {
        self.rest.is_empty()
    }

    #[tactic(auto, using(crate::proofs::Marks::word_test))]
    pub fn is_at_word(&self, word: &str) -> bool
        ensures { result ≡ is_at (is_word_mark word.now) self.now }
    {
        match self.rest.first() {
            Some(token) => is_word(bytes_of(self.text, token), word.as_bytes()),
            None => false,
        }
    }

    pub fn is_at_label(&self) -> bool
        ensures { result ≡ is_at is_a_label self.now }
    {
        let Some(token) = self.rest.first() else {
            return false;
        };
        matches!(kind_of(bytes_of(self.text, token)), Kind::Label(_))
    }

    /// Whether a label or `theorem` stands next.
    pub fn is_at_line(&self) -> bool
        ensures { result ≡ is_at begins_line self.now }
    {
        self.is_at_label() || self.is_at_word("theorem")
    }

    /// Goes past the word where it stands next.
    pub fn take_word(&mut self, word: &str) -> bool
        ensures { Takes (is_word_mark word.now) self.old result self.new }
    {
        if self.is_at_word(word) {
            self.rest = &self.rest[1..];
            true
        } else {
            false
        }
    }

    /// Reads a name without prime where one stands next.
    pub fn name(&mut self, alloc: Global) -> Result<Option<Ref>, OutOfMemory>
        ensures { IfOk result (λ read. ReadsOne reference self.old read self.new) }
    {
        let Some(token) = self.rest.first() else {
            return Ok(None);
        };
        let Kind::Plain(bytes) = kind_of(bytes_of(self.text, token)) else {
            return Ok(None);
        };
        let Some(name) = name_of(alloc, bytes)? else {
            return Ok(None);
        };
        let place = token.from;
        self.rest = &self.rest[1..];
        Ok(Some(Ref { name, place }))
    }

    /// Reads a label where one stands next, with its place.
    pub fn label(&mut self, alloc: Global) -> Result<Option<(Label, u32)>, OutOfMemory>
        ensures { IfOk result (λ read. ReadsOne label_at self.old read self.new) }
    {
        let Some(token) = self.rest.first() else {
            return Ok(None);
        };
        let Kind::Label(bytes) = kind_of(bytes_of(self.text, token)) else {
            return Ok(None);
        };
        let Some(label) = label_of(alloc, bytes)? else {
            return Ok(None);
        };
        let place = token.from;
        self.rest = &self.rest[1..];
        Ok(Some((label, place)))
    }

    /// Reads the predicate before the next structural word or label, with its place.
    pub fn predicate(&mut self, alloc: Global) -> Result<(Raw, u32), Stop>
        ensures { ReadsFormula (IsPlaced hole.Predicate) self.old result self.new }
    {
        let length = plain_length(self.text, self.rest);
        match predicate(alloc, self.text, &self.rest[..length]) {
            Ok(formula) => {
                let first = first_place(&self.rest[..length]);
                self.rest = &self.rest[length..];
                Ok((formula, first))
            }
            Err(ParseFault::Unexpected(index)) => {
                self.rest = &self.rest[index as usize..];
                Err(Stop::Unexpected)
            }
            Err(ParseFault::TooLarge(index)) => {
                self.rest = &self.rest[index as usize..];
                Err(Stop::TooLarge)
            }
            Err(ParseFault::OutOfMemory) => Err(Stop::OutOfMemory),
        }
    }
    /// Goes past a label where one stands next.
    pub fn take_label(&mut self) -> bool
        ensures { Takes is_a_label self.old result self.new }
    {
        if self.is_at_label() {
            self.rest = &self.rest[1..];
            true
        } else {
            false
        }
    }

    /// Goes past one of two words where one stands next.
    pub fn take_either(&mut self, one: &str, other: &str) -> bool
        ensures { Takes (either one.now other.now) self.old result self.new }
    {
        self.take_word(one) || self.take_word(other)
    }

    /// Whether `event` or the convergence of an event stands next.
    pub fn is_at_event(&self) -> bool
        ensures { result ≡ is_at begins_event self.now }
    {
        self.is_at_word("event")
            || self.is_at_word("ordinary")
            || self.is_at_word("convergent")
            || self.is_at_word("anticipated")
    }

    /// Reads the expression before the next structural word or label, with its place.
    pub fn expression(&mut self, alloc: Global) -> Result<(Raw, u32), Stop>
        ensures { ReadsFormula (IsPlaced hole.Expression) self.old result self.new }
    {
        let length = plain_length(self.text, self.rest);
        match expression(alloc, self.text, &self.rest[..length]) {
            Ok(formula) => {
                let first = first_place(&self.rest[..length]);
                self.rest = &self.rest[length..];
                Ok((formula, first))
            }
            Err(ParseFault::Unexpected(index)) => {
                self.rest = &self.rest[index as usize..];
                Err(Stop::Unexpected)
            }
            Err(ParseFault::TooLarge(index)) => {
                self.rest = &self.rest[index as usize..];
                Err(Stop::TooLarge)
            }
            Err(ParseFault::OutOfMemory) => Err(Stop::OutOfMemory),
        }
    }

    /// Reads the action before the next structural word or label.
    pub fn action(&mut self, alloc: Global) -> Result<RawAction, Stop>
        ensures { ReadsFormula IsActionWithin self.old result self.new }
    {
        let length = plain_length(self.text, self.rest);
        match action(alloc, self.text, &self.rest[..length]) {
            Ok(action) => {
                self.rest = &self.rest[length..];
                Ok(action)
            }
            Err(ParseFault::Unexpected(index)) => {
                self.rest = &self.rest[index as usize..];
                Err(Stop::Unexpected)
            }
            Err(ParseFault::TooLarge(index)) => {
                self.rest = &self.rest[index as usize..];
                Err(Stop::TooLarge)
            }
            Err(ParseFault::OutOfMemory) => Err(Stop::OutOfMemory),
        }
    }
}
