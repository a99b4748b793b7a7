// Reading numbers and texts from the front of bytes.
ghost use Rattle.std.specs.Prelude.{◌≡◌, ◌+◌, ◌*◌, ◌<◌, ◌^◌, ◌∷◌, [], MatchResult, length, IsTrue, ◌↔◌};
ghost use Rattle.std.specs.Int.{w32, w64, w128, to_le_bytes, from_le_bytes, cast_signed};
ghost use Rattle.proof_codec.specs.Parts.{IsPair, pair_bytes};
ghost use Rattle.proof_codec.specs.Private.{IsReadAs, Misses, ReadsBy, IsOfLength, as_it_is, IsWide};
ghost use Rattle.proof_codec.specs.Numbers.{IsByte, byte, FitsU32, number_bytes, IsText, text_bytes, wide, IsInteger, integer};

use std::alloc::{AllocError, AllocFailed};
use std::marker::Model;

/// Why a value isn't read.
#[derive(Clone, Copy, Debug, PartialEq, Eq)]
pub enum ReadFault {
    /// The bytes begin with no such value.
    Bad,
    OutOfMemory,
}

impl From<AllocError> for ReadFault {
    ghost use Rattle.std.specs.Prelude.{◌≡◌};
    ghost use Rattle.proof_codec.specs.declared.reader.ReadFault.TheVariants.{OutOfMemory};

    ghost from_gives = { λ _ e. e ≡ OutOfMemory };

    fn from(_: AllocError) -> ReadFault {
        ReadFault::OutOfMemory
    }
}

impl<T: Drop> From<AllocFailed<T>> for ReadFault {
    ghost use Rattle.std.specs.Prelude.{◌≡◌};
    ghost use Rattle.proof_codec.specs.declared.reader.ReadFault.TheVariants.{OutOfMemory};

    ghost from_gives = { λ _ e. e ≡ OutOfMemory };

    fn from(_: AllocFailed<T>) -> ReadFault {
        ReadFault::OutOfMemory
    }
}

/// Bytes that are read from the front. Contracts see those that are left.
#[derive(Drop)]
pub(crate) struct Reader<'a> {
    rest: &'a [u8],
}

impl<'a> Model for Reader<'a> {
    ghost use Rattle.std.specs.Prelude.{List, ℕ};

    ghost Value = { List ℕ };

    ghost view = { λ r. r.rest.now };
}

// The number that four bytes stand for.
fn number_of(bytes: [u8; 4]) -> u32
    ensures number { result ≡ from_le_bytes w32 bytes }
    ensures bytes { to_le_bytes w32 result ≡ bytes }
{
    u32::from_le_bytes(bytes)
}

// The number that eight bytes stand for.
fn wide_of(bytes: [u8; 8]) -> u64
    ensures number { result ≡ from_le_bytes w64 bytes }
    ensures bytes { to_le_bytes w64 result ≡ bytes }
{
    u64::from_le_bytes(bytes)
}

// The number of two halves.
fn joined(low: u64, high: u64) -> i128
    ensures { result ≡ cast_signed w128 (low + high * 2 ^ 64) }
{
    let number = low as u128 + high as u128 * (1 << 64);
    number.cast_signed()
}

impl<'a> Reader<'a> {
    pub(crate) fn new(bytes: &'a [u8]) -> Reader<'a>
        ensures { result ≡ bytes.entry.now }
    {
        Reader { rest: bytes }
    }

    /// How many bytes are left.
    pub(crate) fn len(&self) -> usize
        ensures { result ≡ length self.now }
    {
        self.rest.len()
    }

    /// Whether none is left.
    pub(crate) fn is_empty(&self) -> bool
        ensures { IsTrue result ↔ (self.now ≡ []) }
    {
        self.rest.is_empty()
    }

    /// Reads a byte.
    pub(crate) fn byte(&mut self) -> Result<u8, ReadFault>
        ensures { ReadsBy IsByte byte self.old self.new result }
    {
        match self.rest {
            [first, rest @ ..] => {
                let first = *first;
                self.rest = rest;
                Ok(first)
            }
            [] => Err(ReadFault::Bad),
        }
    }

    /// Reads a number of four bytes.
    pub(crate) fn number(&mut self) -> Result<u32, ReadFault>
        ensures { ReadsBy FitsU32 number_bytes self.old self.new result }
    {
        match self.rest {
            [a, b, c, d, rest @ ..] => {
                let number = number_of([*a, *b, *c, *d]);
                self.rest = rest;
                Ok(number)
            }
            _ => Err(ReadFault::Bad),
        }
    }

    /// Reads a number of eight bytes.
    pub(crate) fn wide(&mut self) -> Result<u64, ReadFault>
        ensures { ReadsBy IsWide wide self.old self.new result }
    {
        match self.rest {
            [a, b, c, d, e, f, g, h, rest @ ..] => {
                let number = wide_of([*a, *b, *c, *d, *e, *f, *g, *h]);
                self.rest = rest;
                Ok(number)
            }
            _ => Err(ReadFault::Bad),
        }
    }

    fn halves(&mut self) -> Result<(u64, u64), ReadFault>
        ensures { ReadsBy (IsPair IsWide IsWide) (pair_bytes wide wide) self.old self.new result }
    {
        let low = self.wide()?;
        let high = self.wide()?;
        Ok((low, high))
    }

    /// Reads an integer of sixteen bytes.
    #[tactic(auto, using(crate::proofs::Literals::integer_read, crate::proofs::Literals::no_halves))]
    pub(crate) fn integer(&mut self) -> Result<i128, ReadFault>
        ensures { ReadsBy IsInteger integer self.old self.new result }
    {
        let (low, high) = self.halves()?;
        Ok(joined(low, high))
    }

    /// Reads a text of at most so many bytes.
    pub(crate) fn text(&mut self, most: u32) -> Result<&'a str, ReadFault>
        ensures { MatchResult result (λ text. IsReadAs (IsText most) text_bytes self.old text.now self.new)
            (λ fault. Misses (IsText most) text_bytes self.old fault) }
    {
        let count = self.number()?;
        if count > most {
            return Err(ReadFault::Bad);
        }
        let bytes = self.part(count as usize)?;
        match std::str::from_utf8(bytes) {
            Ok(text) => Ok(text),
            Err(_) => Err(ReadFault::Bad),
        }
    }

    /// Reads so many bytes.
    pub(crate) fn part(&mut self, count: usize) -> Result<&'a [u8], ReadFault>
        ensures { MatchResult result (λ bytes. IsReadAs (IsOfLength count) as_it_is self.old bytes.now self.new)
            (λ fault. Misses (IsOfLength count) as_it_is self.old fault) }
    {
        if self.rest.len() < count {
            return Err(ReadFault::Bad);
        }
        let (front, rest) = self.rest.split_at(count);
        self.rest = rest;
        Ok(front)
    }
}
