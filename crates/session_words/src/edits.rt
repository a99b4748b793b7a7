//! What a command says.
ghost use Rattle.std.specs.Prelude.{◌≡◌, IfOk, true};
ghost use Rattle.formula_core.specs.Names.{is_identifier};
ghost use Rattle.session_words.specs.Lines.{edited, IsLine};

use crate::line::{Line, LineFault};
use crate::speaking::{spoken_line, text_of};
use core_steps::Event;
use formula_core::{Name, OutOfMemory, Text, is_identifier};
use formula_parse::read_name;
use session_lines::Command;
use std::alloc::Global;

/// The most bytes of a component's text.
const TEXT_LIMIT: usize = 65_536;

/// An edit under a name.
fn edit_of(alloc: Global, name: Name, text: &[u8]) -> Result<Line, OutOfMemory>
    requires { is_identifier name ≡ true }
    ensures { IfOk result (λ line. line ≡ edited name text.now) }
{
    if text.len() > TEXT_LIMIT {
        return Ok(Line::Refused(LineFault::TextTooLong));
    }
    let Some(text) = text_of(text) else {
        return Ok(Line::Refused(LineFault::NotText));
    };
    Ok(Line::One(Event::Edit(name, Text::of(alloc, text)?)))
}

/// An edit of a text under a word, which is to be a component's name.
#[tactic(auto, using(crate::proofs::Names::name_too))]
fn edited(alloc: Global, word: &[u8], text: &[u8]) -> Result<Line, OutOfMemory>
    ensures { IfOk result (λ line. line ≡ edited word.now text.now) }
{
    if !is_identifier(word) {
        return Ok(Line::Refused(LineFault::BadName));
    }
    match read_name(alloc, word)? {
        Some(name) => edit_of(alloc, name, text),
        None => unreachable!(),
    }
}

/// What a command says.
pub fn line_of(alloc: Global, command: &Command) -> Result<Line, OutOfMemory>
    ensures { IfOk result (λ line. IsLine command.now line) }
{
    match command {
        Command::Line(bytes) => spoken_line(alloc, bytes.items()),
        Command::LineTooLong => Ok(Line::Refused(LineFault::LineTooLong)),
        Command::Edit(word, text) => edited(alloc, word.items(), text.items()),
        Command::CutEdit => Ok(Line::CutEdit),
    }
}
