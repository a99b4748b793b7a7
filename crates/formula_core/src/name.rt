ghost use Rattle.std.specs.Prelude.{◌≡◌, ◌↔◌, ◌++◌, ◌∷◌, [], IsTrue, IfOk, IsErrOf, false, bytes_eq};
ghost use Rattle.formula_core.specs.Names.{is_name, is_word, is_reserved, is_identifier, starts_word, is_in_word, prime};
ghost use Rattle.std.specs.List.{list_all, list_any};

use crate::memory::OutOfMemory;
use std::alloc::{AllocError, Global};
use std::marker::Model;

/// Why a text was not read as a name or a label.
#[derive(Clone, Copy, Debug, PartialEq, Eq)]
pub enum NameFault {
    BadName,
    OutOfMemory,
}

impl From<AllocError> for NameFault {
    ghost use Rattle.std.specs.Prelude.{◌≡◌};
    ghost use Rattle.formula_core.specs.declared.name.NameFault.TheVariants.{OutOfMemory};

    ghost from_gives = { λ _ e. e ≡ OutOfMemory };

    fn from(_: AllocError) -> NameFault {
        NameFault::OutOfMemory
    }
}

impl From<OutOfMemory> for NameFault {
    ghost use Rattle.std.specs.Prelude.{◌≡◌};
    ghost use Rattle.formula_core.specs.declared.name.NameFault.TheVariants.{OutOfMemory};

    ghost from_gives = { λ _ e. e ≡ OutOfMemory };

    fn from(_: OutOfMemory) -> NameFault {
        NameFault::OutOfMemory
    }
}

/// An identifier, with or without one prime at its end.
#[derive(Debug, Drop)]
pub struct Name {
    text: String,
}

impl Model for Name {
    ghost use Rattle.std.specs.Prelude.{List, ℕ, string_bytes, IsTrue};

    ghost Value = { List ℕ };

    ghost use Rattle.formula_core.specs.Names.{is_name};

    ghost view = { λ a. string_bytes a.text };

    ghost invariant = { λ a. IsTrue (is_name (string_bytes a.text)) };
}

impl Name {
    /// Reads an identifier that isn't reserved, with or without one prime at its end.
    pub fn read(alloc: Global, text: &str) -> Result<Name, NameFault>
        ensures read { IfOk result (λ name. name ≡ text.now) }
        ensures bad { IsErrOf result NameFault.BadName ↔ (is_name text.now ≡ false) }
    {
        if !is_name(text.as_bytes()) {
            return Err(NameFault::BadName);
        }
        let text = String::from_str(alloc, text)?;
        Ok(Name { text })
    }

    pub fn as_text(&self) -> &str
        ensures text { result.now ≡ self.now }
        ensures name { IsTrue (is_name self.now) }
    {
        self.text.as_str()
    }

    pub fn same(&self, other: &Name) -> bool
        ensures exact { IsTrue result ↔ (self.now ≡ other.now) }
        ensures test { result ≡ bytes_eq self.now other.now }
    {
        self.text.as_str() == other.text.as_str()
    }

    /// Whether it has a prime at its end, and so is no identifier.
    pub fn is_primed(&self) -> bool
        ensures { IsTrue result ↔ (is_identifier self.now ≡ false) }
    {
        !is_identifier(self.text.as_str().as_bytes())
    }

    pub fn copy(&self, alloc: Global) -> Result<Name, OutOfMemory>
        ensures { IfOk result (λ name. name ≡ self.now) }
    {
        let text = String::from_str(alloc, self.text.as_str())?;
        Ok(Name { text })
    }

    /// The identifier with a prime at its end: of a variable, the name of its value after an event.
    pub fn primed(&self, alloc: Global) -> Result<Name, OutOfMemory>
        requires unprimed { IsTrue (is_identifier self.now) }
        ensures { IfOk result (λ name. name ≡ self.now ++ prime ∷ []) }
    {
        let mut text = String::from_str(alloc, self.text.as_str())?;
        text.push_str("'")?;
        Ok(Name { text })
    }
}

fn is_name(text: &[u8]) -> bool
    ensures { result ≡ is_name text.now }
{
    match text.strip_suffix(b"'") {
        Some(word) => is_identifier(word),
        None => is_identifier(text),
    }
}

/// Whether the word is an identifier: a word that isn't reserved.
pub fn is_identifier(word: &[u8]) -> bool
    ensures { result ≡ is_identifier word.now }
{
    is_word(word) && !is_reserved(word)
}

fn is_word(word: &[u8]) -> bool
    ensures { result ≡ is_word word.now }
{
    match word.split_first() {
        Some((first, rest)) => starts_word(*first) && continues_word(rest) && rest.len() <= 63,
        None => false,
    }
}

fn starts_word(c: u8) -> bool
    ensures { result ≡ starts_word c }
{
    c.is_ascii_alphabetic() || c == b'_'
}

/// Whether the character stands in words, behind their first one: a letter, a digit or `_`.
pub fn is_in_word(c: u8) -> bool
    ensures { result ≡ is_in_word c }
{
    c.is_ascii_alphanumeric() || c == b'_'
}

fn continues_word(rest: &[u8]) -> bool
    ensures { result ≡ list_all is_in_word rest.now }
{
    rest.iter().all(|c| is_in_word(*c))
}

/// The words that have a meaning of their own.
pub const RESERVED: [&str; 56] = [
    "true",
    "false",
    "not",
    "or",
    "circ",
    "mod",
    "oftype",
    "UNION",
    "INTER",
    "INT",
    "NAT",
    "NAT1",
    "POW",
    "POW1",
    "TRUE",
    "FALSE",
    "BOOL",
    "bool",
    "card",
    "dom",
    "ran",
    "union",
    "inter",
    "min",
    "max",
    "finite",
    "partition",
    "id",
    "prj1",
    "prj2",
    "pred",
    "succ",
    "context",
    "machine",
    "extends",
    "sets",
    "constants",
    "axioms",
    "end",
    "refines",
    "sees",
    "variables",
    "invariants",
    "variant",
    "events",
    "event",
    "any",
    "where",
    "when",
    "with",
    "then",
    "begin",
    "theorem",
    "ordinary",
    "convergent",
    "anticipated",
];

fn is_reserved(word: &[u8]) -> bool
    ensures { result ≡ is_reserved word.now }
{
    is_among(&RESERVED, word)
}

fn is_among(words: &[&str], word: &[u8]) -> bool
    ensures { result ≡ list_any (λ w. bytes_eq w.now word.now) words.now }
{
    words.iter().any(|w| w.as_bytes() == word)
}
