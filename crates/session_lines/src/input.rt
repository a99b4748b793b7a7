ghost use Rattle.std.specs.Prelude.{◌≡◌, ◌∷◌, ◌++◌, ◌<◌, [], None, true, false, take, length, IfOk, OnOk, OnErr, MatchOption, bytes_eq, codes};
ghost use Rattle.std.specs.Option.{option_map};
ghost use Rattle.session_lines.specs.Commands.{is_skipped, only_word, edited_word, given_outside, given};
ghost use Rattle.session_lines.specs.Private.{IsFirstLine, HasNoLine, edit_seen, unread};
ghost use Rattle.session_lines.specs.declared.command.Command.TheVariants.{Edit};
ghost use Rattle.session_lines.specs.Reading.{IsSameReading, GivesCommand, GivesNone};

use crate::command::Command;
use crate::lines::{Found, Lines};
use crate::words::{after_blanks, behind_word, first_word};
use formula_core::{List, OutOfMemory};
use std::alloc::Global;
use std::marker::Model;

/// The most bytes of a command line.
const LINE_LIMIT: usize = 4_096;

/// An edit whose text isn't whole yet.
#[derive(Drop)]
struct OpenEdit {
    word: Vec<u8>,
    text: Vec<u8>,
}

/// A reader of commands, which is fed the pieces of an input.
///
/// It keeps the bytes of the line that isn't whole yet, and the text of the edit that is open.
#[derive(Drop)]
pub struct Input {
    lines: Lines,
    edit: Option<OpenEdit>,
}

impl Model for Input {
    ghost use Rattle.session_lines.specs.Private.{edit_seen};
    ghost use Rattle.session_lines.specs.Reading.{Fed};

    ghost Value = { Fed };

    ghost view = { λ a. record { left = a.lines.left; ended = a.lines.ended; edit = edit_seen a.edit } };
}

impl Input {
    /// A reader that was fed nothing.
    pub fn new(alloc: Global) -> Input
        ensures { result ≡ record { left = []; ended = false; edit = None } }
    {
        Input {
            lines: Lines::new(alloc),
            edit: None,
        }
    }

    /// Adds a piece of the input.
    pub fn feed(&mut self, piece: &[u8]) -> Result<(), OutOfMemory>
        ensures fed { OnOk result (self.new ≡ record self.old { left = self.old.left ++ piece.now }) }
        ensures unchanged { OnErr result (self.new ≡ self.old) }
    {
        self.lines.feed(piece)
    }

    /// Notes that the input has ended. It takes no memory.
    pub fn finish(&mut self)
        ensures { self.new ≡ record self.old { ended = true } }
    {
        self.lines.finish();
    }

    /// The next command, or none where no command is whole. Where memory runs out, the same command comes next.
    pub fn next(&mut self, alloc: Global) -> Result<Option<Command>, OutOfMemory>
        ensures given { IfOk result (λ read. MatchOption read
            (GivesNone self.old self.new)
            (λ command. GivesCommand self.old command self.new)) }
        ensures left { OnErr result (IsSameReading self.old self.new) }
    {
        while let Some(found) = self.lines.find() {
            if let Some(command) = self.read(alloc, found)? {
                return Ok(Some(command));
            }
        }
        Ok(self.cut_edit())
    }

    /// Reads the first line: the command that it ends, if it ends one.
    fn read(&mut self, alloc: Global, found: Found) -> Result<Option<Command>, OutOfMemory>
        requires { IsFirstLine (unread self.old) found }
        ensures given { IfOk result (λ read.
            MatchOption read (IsSameReading self.old self.new) (λ command. GivesCommand self.old command self.new)) }
        ensures less { OnOk result (length self.new.left < length self.old.left) }
        ensures unchanged { OnErr result (self.new ≡ self.old) }
    {
        let command = given(alloc, &mut self.edit, self.lines.line(found))?;
        self.lines.skip(found);
        Ok(command)
    }

    /// The edit that the end of the input cuts off, where no line is left.
    fn cut_edit(&mut self) -> Option<Command>
        requires { HasNoLine (unread self.old) }
        ensures { MatchOption result (GivesNone self.old self.new) (λ command. GivesCommand self.old command self.new) }
    {
        if !self.lines.has_ended() {
            return None;
        }
        match self.edit.take() {
            Some(_) => Some(Command::CutEdit),
            None => None,
        }
    }
}

/// The command that a line ends, if it ends one. Where memory runs out, the open edit is as it was.
fn given(
    alloc: Global,
    edit: &mut Option<OpenEdit>,
    line: &[u8],
) -> Result<Option<Command>, OutOfMemory>
    ensures given { IfOk result (λ command.
        record { command = command; edit = edit_seen edit.new } ≡ given line.now (edit_seen edit.old)) }
    ensures unchanged { OnErr result (edit_seen edit.new ≡ edit_seen edit.old) }
{
    match edit {
        None => given_outside(alloc, edit, line),
        Some(open) if line != b".".as_slice() => {
            add_line(&mut open.text, line)?;
            Ok(None)
        }
        Some(_) => Ok(close(edit)),
    }
}

/// The command that a line gives where no edit is open.
fn given_outside(
    alloc: Global,
    edit: &mut Option<OpenEdit>,
    line: &[u8],
) -> Result<Option<Command>, OutOfMemory>
    requires { edit_seen edit.old ≡ None }
    ensures given { IfOk result (λ command.
        record { command = command; edit = edit_seen edit.new } ≡ given_outside line.now) }
    ensures unchanged { OnErr result (edit_seen edit.new ≡ edit_seen edit.old) }
{
    if is_skipped(line) {
        return Ok(None);
    }
    if line.len() > LINE_LIMIT {
        return Ok(Some(Command::LineTooLong));
    }
    match edited_word(after_blanks(line)) {
        Some(word) => {
            *edit = Some(OpenEdit {
                word: copied(alloc, word)?,
                text: Vec::new(alloc),
            });
            Ok(None)
        }
        None => Ok(Some(Command::Line(List::of(copied(alloc, line)?)))),
    }
}

/// Adds a line to the text of an edit. Where memory runs out, the text is as it was.
fn add_line(text: &mut Vec<u8>, line: &[u8]) -> Result<(), OutOfMemory>
    ensures added { OnOk result (text.new.items ≡ text.old.items ++ line.now ++ 10 ∷ []) }
    ensures unchanged { OnErr result (text.new.items ≡ text.old.items) }
{
    let len = text.len();
    text.extend_from_slice(line)?;
    if text.push(b'\n').is_err() {
        text.truncate(len);
        return Err(OutOfMemory);
    }
    Ok(())
}

/// The edit that its dot ends.
fn close(edit: &mut Option<OpenEdit>) -> Option<Command>
    ensures closed { edit.new ≡ None }
    ensures given { option_map (λ e. Edit e.0 e.1) (edit_seen edit.old) ≡ result }
{
    match edit.take() {
        Some(open) => Some(Command::Edit(List::of(open.word), List::of(open.text))),
        None => None,
    }
}

fn copied(alloc: Global, bytes: &[u8]) -> Result<Vec<u8>, OutOfMemory>
    ensures { IfOk result (λ copy. copy.items ≡ bytes.now) }
{
    let mut copy = Vec::new(alloc);
    copy.extend_from_slice(bytes)?;
    Ok(copy)
}

/// Whether a line says nothing: a blank line, or a comment.
fn is_skipped(line: &[u8]) -> bool
    ensures { result ≡ is_skipped line.now }
{
    after_blanks(line).is_empty() || is_comment(line)
}

fn is_comment(line: &[u8]) -> bool
    ensures { result ≡ bytes_eq (take 2 line.now) (codes "//") }
{
    line.len() >= 2 && &line[..2] == b"//".as_slice()
}

/// The word behind the word `edit`, where the line has just these two.
fn edited_word(line: &[u8]) -> Option<&[u8]>
    ensures { option_map (λ word. word.now) result ≡ edited_word line.now }
{
    if first_word(line) == b"edit".as_slice() {
        return only_word(after_blanks(behind_word(line)));
    }
    None
}

/// The first word, where there is one and nothing but blanks follows it.
pub fn only_word(line: &[u8]) -> Option<&[u8]>
    ensures { option_map (λ word. word.now) result ≡ only_word line.now }
{
    if line.is_empty() || !after_blanks(behind_word(line)).is_empty() {
        return None;
    }
    Some(first_word(line))
}
