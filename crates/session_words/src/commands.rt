//! A reader of lines.
ghost use Rattle.std.specs.Prelude.{◌≡◌, ◌++◌, [], None, false, true, IsSome, IfOk, OnOk, OnErr, MatchOption};
ghost use Rattle.session_words.specs.Private.{IsLineOf};
ghost use Rattle.session_words.specs.Reading.{KeepsLines, GivesLine, GivesNoLine};

use crate::edits::line_of;
use crate::line::Line;
use formula_core::OutOfMemory;
use session_lines::{Command, Input};
use std::alloc::Global;
use std::marker::Model;

/// A reader of lines, which is fed the pieces of an input.
#[derive(Drop)]
pub struct Commands {
    alloc: Global,
    /// A command that was read, and whose line wasn't given.
    held: Option<Command>,
    input: Input,
}

impl Model for Commands {
    ghost use Rattle.session_words.specs.Reading.{Left};

    ghost Value = { Left };

    ghost view = { λ a. record { held = a.held; fed = a.input } };
}

impl Commands {
    /// A reader that was fed nothing.
    pub fn new(alloc: Global) -> Commands
        ensures { result ≡ record { held = None; fed = record { left = []; ended = false; edit = None } } }
    {
        Commands {
            alloc,
            held: None,
            input: Input::new(alloc),
        }
    }

    /// Adds a piece of the input.
    pub fn feed(&mut self, piece: &[u8]) -> Result<(), OutOfMemory>
        ensures fed { OnOk result (self.new
            ≡ record self.old { fed = record self.old.fed { left = self.old.fed.left ++ piece.now } }) }
        ensures unchanged { OnErr result (self.new ≡ self.old) }
    {
        self.input.feed(piece)
    }

    /// Notes that the input has ended. It takes no memory.
    pub fn finish(&mut self)
        ensures { self.new ≡ record self.old { fed = record self.old.fed { ended = true } } }
    {
        self.input.finish();
    }

    /// Holds the next command, where one is whole.
    fn hold(&mut self) -> Result<(), OutOfMemory>
        ensures held { OnOk result (MatchOption self.new.held (GivesNoLine self.old self.new)
            (λ command. KeepsLines self.old self.new)) }
        ensures kept { KeepsLines self.old self.new }
    {
        if self.held.is_some() {
            return Ok(());
        }
        self.held = self.input.next(self.alloc)?;
        Ok(())
    }

    /// What the command that is held says, if one is held.
    fn line_held(&self) -> Result<Option<Line>, OutOfMemory>
        ensures { IfOk result (λ line. IsLineOf self.now.held line) }
    {
        match &self.held {
            Some(command) => Ok(Some(line_of(self.alloc, command)?)),
            None => Ok(None),
        }
    }

    /// Lets go of the command that is held.
    fn let_go(&mut self)
        ensures { self.new ≡ record self.old { held = None } }
    {
        self.held = None;
    }

    /// The next line, or none where no line is whole. Where memory runs out, the same line comes next.
    pub fn next(&mut self) -> Result<Option<Line>, OutOfMemory>
        ensures given { IfOk result (λ read. MatchOption read
            (GivesNoLine self.old self.new)
            (λ line. GivesLine self.old line self.new)) }
        ensures kept { OnErr result (KeepsLines self.old self.new) }
    {
        self.hold()?;
        let line = self.line_held()?;
        self.let_go();
        Ok(line)
    }
}
