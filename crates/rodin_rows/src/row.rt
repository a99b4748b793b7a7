//! The rows of the input.

use crate::gates::Until;
use crate::provers::Handed;
use crate::reading::{
    CONTEXT, EDIT, THEOREM, add_bytes, add_long_edits, add_numbered, add_text, add_times,
};
use crate::runs::{Part, Sides};
use std::alloc::{AllocError, Global};

/// What the rows of a part are.
#[derive(Clone, Copy, PartialEq, Eq)]
pub enum Kind {
    /// Inputs of a session, or of what the row says.
    Sessions,
    /// Inputs of a check.
    Projects,
    /// Inputs of a check with the prover by hypotheses.
    Inputs,
    /// Events on a store and on a core.
    Events,
    /// Bytes that are read as entries.
    Bytes,
}

impl Kind {
    // The kind that a heading names.
    fn of(heading: &str) -> Kind {
        match heading {
            "## projects" => Kind::Projects,
            "## inputs" => Kind::Inputs,
            "## events" => Kind::Events,
            "## bytes" => Kind::Bytes,
            _ => Kind::Sessions,
        }
    }
}

/// A row: what it is, its name, how it is run, and its input.
#[derive(Drop)]
pub struct Row {
    pub kind: Kind,
    pub name: String,
    options: Vec<String>,
    pub input: Vec<u8>,
}

impl Row {
    /// A session without a name, which isn't run.
    pub fn new(alloc: Global) -> Row {
        Row {
            kind: Kind::Sessions,
            name: String::new(alloc),
            options: Vec::new(alloc),
            input: Vec::new(alloc),
        }
    }

    /// Whether it is the heading of a part.
    pub fn is_heading(&self) -> bool {
        self.name.starts_with("## ")
    }

    /// Its input, if that is a text.
    pub fn text(&self) -> &str {
        match std::str::from_utf8(&self.input) {
            Ok(text) => text,
            Err(_) => "",
        }
    }

    /// Begins a row of this name, or a part of this heading.
    pub fn begin(&mut self, name: &str) -> Result<(), AllocError> {
        if name.starts_with("## ") {
            self.kind = Kind::of(name);
        }
        self.name.clear();
        self.options.clear();
        self.input.clear();
        self.name.push_str(name)
    }

    /// Adds a line of the input.
    pub fn add_line(&mut self, line: &str) -> Result<(), AllocError> {
        self.input.extend_from_slice(line.as_bytes())?;
        self.input.push(b'\n')?;
        Ok(())
    }

    /// Adds what a line behind `! ` says.
    pub fn add_option(&mut self, alloc: Global, option: &str) -> Result<(), AllocError> {
        match option.split_once(' ') {
            Some(("bytes", bytes)) => add_bytes(alloc, &mut self.input, bytes),
            Some(("times", text)) => add_times(&mut self.input, text),
            Some(("feeds", count)) => add_text(&mut self.input, count, "\n"),
            Some(("edits", count)) => add_numbered(alloc, &mut self.input, count, EDIT),
            Some(("contexts", count)) => add_numbered(alloc, &mut self.input, count, CONTEXT),
            Some(("theorems", count)) => add_numbered(alloc, &mut self.input, count, THEOREM),
            Some(("long", edits)) => add_long_edits(&mut self.input, edits),
            _ => {
                let option = String::from_str(alloc, option)?;
                self.options.push(option)?;
                Ok(())
            }
        }
    }

    /// Whether one of its lines says exactly this.
    pub fn says(&self, option: &str) -> bool {
        self.options.iter().any(|it| it.as_str() == option)
    }

    // What stands behind a word in the first line that begins with it.
    fn behind(&self, word: &str) -> Option<&str> {
        for option in self.options.iter() {
            if let Some((first, rest)) = option.split_once(' ') {
                if first == word {
                    return Some(rest);
                }
            }
        }
        None
    }

    /// The number behind a word, or this one.
    pub fn number(&self, word: &str, default: usize) -> usize {
        match self.behind(word) {
            Some(number) => number.parse::<usize>().unwrap_or(default),
            None => default,
        }
    }

    // The words of a row that doesn't say which.
    fn usual_words(&self) -> &str {
        match self.kind {
            Kind::Sessions => "session 0",
            _ => "check",
        }
    }

    // The words of the command line, with blanks between them.
    fn text_of_words(&self) -> &str {
        if self.says("words") {
            return "";
        }
        match self.behind("words") {
            Some(told) => told,
            None => self.usual_words(),
        }
    }

    /// The words of the command line.
    pub fn words(&self, alloc: Global) -> Result<Vec<String>, AllocError> {
        let mut words = Vec::new(alloc);
        for word in self.text_of_words().split(' ') {
            if !word.is_empty() {
                words.push(String::from_str(alloc, word)?)?;
            }
        }
        Ok(words)
    }

    /// The part of which a call fails, and its number.
    pub fn fault(&self) -> Option<(Part, u64)> {
        let (part, number) = self.behind("fails")?.split_once(' ')?;
        Some((Part::of(part)?, number.parse::<u64>().ok()?))
    }

    /// The part of which each call is to fail in turn.
    pub fn each(&self) -> Option<Part> {
        Part::of(self.behind("each")?)
    }

    /// Whether a stop is tried with this value of the bytes that it leaves open.
    pub fn is_tried(&self, fill: u8) -> bool {
        match self.behind("value") {
            Some("each") => true,
            Some(value) => value.parse::<usize>().unwrap_or(256) == fill as usize,
            None => fill < 2 || fill == 255,
        }
    }

    /// What the first ticket waits for.
    pub fn until(&self) -> Until {
        match self.behind("hold") {
            Some("second") => Until::SecondTicket,
            Some("read") => Until::ThirdRead,
            _ => Until::Open,
        }
    }

    /// The prover.
    pub fn prover<'a, R>(&'a self, rt: &'a R) -> Handed<'a, R> {
        match self.behind("prover") {
            Some("slow") => Handed::Slow(rt),
            Some("cuts") => Handed::Told("cuts 10 1"),
            Some(answer) => Handed::Told(answer),
            None if self.kind == Kind::Inputs => Handed::Hypotheses,
            None => Handed::Auto,
        }
    }

    /// The sides that the disk has at first, where the row before left these.
    pub fn begin_sides(&self, alloc: Global, sides: &mut Sides) -> Result<(), AllocError> {
        if !self.says("on") {
            sides.left.clear();
            sides.right.clear();
        }
        for option in self.options.iter() {
            match option.split_once(' ') {
                Some(("left", bytes)) => add_bytes(alloc, &mut sides.left, bytes)?,
                Some(("right", bytes)) => add_bytes(alloc, &mut sides.right, bytes)?,
                _ => {}
            }
        }
        Ok(())
    }
}
