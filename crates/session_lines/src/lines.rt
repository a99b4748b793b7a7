ghost use Rattle.std.specs.Prelude.{◌≡◌, ◌++◌, [], true, false, OnOk, OnErr, MatchOption};
ghost use Rattle.std.specs.Str.Lines.{strip_carriage_return};
ghost use Rattle.session_lines.specs.Private.{HasNoFeed, IsFirstFeed, IsFirstLine, HasNoLine, line_at, left_behind};

use formula_core::OutOfMemory;
use std::alloc::Global;
use std::marker::Model;

/// How the first line ends.
#[derive(Clone, Copy)]
pub enum Found {
    /// By the line feed at this place, counted from the line's begin.
    Ended(usize),
    /// With the input.
    Last,
}

/// Bytes that are fed in pieces and read line by line. Each byte is looked at once.
#[derive(Drop)]
pub struct Lines {
    bytes: Vec<u8>,
    /// Where the first line begins that wasn't read.
    start: usize,
    /// No line feed stands between `start` and here.
    scanned: usize,
    ended: bool,
}

impl Model for Lines {
    ghost use Rattle.std.specs.Prelude.{◌≤◌, ◌-◌, length, take, drop};
    ghost use Rattle.session_lines.specs.Private.{Unread, HasNoFeed};

    ghost Value = { Unread };

    ghost view = { λ c. record { left = drop c.start c.bytes.items; ended = c.ended } };

    ghost invariant = { λ c. (c.start ≤ c.scanned) × (c.scanned ≤ length c.bytes.items)
        × HasNoFeed (take (c.scanned - c.start) (drop c.start c.bytes.items)) };
}

impl Lines {
    pub fn new(alloc: Global) -> Lines
        ensures { result ≡ record { left = []; ended = false } }
    {
        Lines {
            bytes: Vec::new(alloc),
            start: 0,
            scanned: 0,
            ended: false,
        }
    }

    pub fn has_ended(&self) -> bool
        ensures { result ≡ self.now.ended }
    {
        self.ended
    }

    /// Adds a piece of the input.
    pub fn feed(&mut self, piece: &[u8]) -> Result<(), OutOfMemory>
        ensures fed { OnOk result (self.new ≡ record self.old { left = self.old.left ++ piece.now }) }
        ensures unchanged { OnErr result (self.new ≡ self.old) }
    {
        self.drop_read();
        self.bytes.extend_from_slice(piece)?;
        Ok(())
    }

    /// Lets go of the bytes that were read.
    fn drop_read(&mut self)
        ensures { self.new ≡ self.old }
    {
        if self.start > 0 {
            self.bytes.drain(..self.start);
            self.scanned -= self.start;
            self.start = 0;
        }
    }

    /// Notes that the input has ended.
    pub fn finish(&mut self)
        ensures { self.new ≡ record self.old { ended = true } }
    {
        self.ended = true;
    }

    /// The place of the first line feed, counted from the first line's begin.
    fn line_feed(&mut self) -> Option<usize>
        ensures same { self.new ≡ self.old }
        ensures found { MatchOption result (HasNoFeed self.old.left) (IsFirstFeed self.old.left) }
    {
        match first_feed(&self.bytes[self.scanned..]) {
            Some(at) => {
                let end = self.scanned + at;
                Some(end - self.start)
            }
            None => {
                self.scanned = self.bytes.len();
                None
            }
        }
    }

    /// How the first line ends, if one is whole.
    pub fn find(&mut self) -> Option<Found>
        ensures same { self.new ≡ self.old }
        ensures found { MatchOption result (HasNoLine self.old) (IsFirstLine self.old) }
    {
        match self.line_feed() {
            Some(at) => Some(Found::Ended(at)),
            None if self.ended && self.start < self.bytes.len() => Some(Found::Last),
            None => None,
        }
    }

    /// The bytes of the first line, without its end.
    pub fn line(&self, found: Found) -> &[u8]
        requires { IsFirstLine self.now found }
        ensures { result.now ≡ line_at self.now.left found }
    {
        match found {
            Found::Ended(at) => without_return(&self.bytes[self.start..self.start + at]),
            Found::Last => &self.bytes[self.start..],
        }
    }

    /// Goes on behind the first line. It takes no memory.
    pub fn skip(&mut self, found: Found)
        requires { IsFirstLine self.old found }
        ensures { self.new ≡ record self.old { left = left_behind self.old.left found } }
    {
        match found {
            Found::Ended(at) => self.start += at + 1,
            Found::Last => self.start = self.bytes.len(),
        }
        self.scanned = self.start;
    }
}

/// The place of the first line feed.
fn first_feed(bytes: &[u8]) -> Option<usize>
    ensures { MatchOption result (HasNoFeed bytes.now) (IsFirstFeed bytes.now) }
{
    for at in 0..bytes.len() {
        if bytes[at] == b'\n' {
            return Some(at);
        }
    }
    None
}

/// The line without the carriage return at its end.
fn without_return(line: &[u8]) -> &[u8]
    ensures { result.now ≡ strip_carriage_return line.now }
{
    if !line.is_empty() && line[line.len() - 1] == b'\r' {
        return &line[..line.len() - 1];
    }
    line
}
