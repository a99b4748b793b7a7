//! Reading of a line.
ghost use Rattle.std.specs.Prelude.{◌≡◌, IfOk, MatchOption, Some, true, false};
ghost use Rattle.std.specs.Option.{option_map, option_and_then};
ghost use Rattle.std.specs.Str.{is_utf8};
ghost use Rattle.core_steps.specs.declared.Event.TheVariants as event;
ghost use Rattle.core_steps.specs.declared.Question.TheVariants as ask;
ghost use Rattle.session_lines.specs.Commands.{only_word};
ghost use Rattle.session_lines.specs.Words.{first_word};
ghost use Rattle.step_items.specs.Items.{behind_first};
ghost use Rattle.step_items.specs.Paths.{path_of};
ghost use Rattle.session_words.specs.declared.line.Line.TheVariants.{One, Auto};
ghost use Rattle.session_words.specs.declared.said.Said.TheVariants.{AtOnce, OfItems};
ghost use Rattle.session_words.specs.Says.{bad_command, or_bad, alone, only_po, only_path, node_words, po_of, deleted, shown_at, shown, no_hint, stepped, spoken, said, Says, Means};

use crate::line::{Line, LineFault};
use crate::said::Said;
use crate::verbs::{Verb, verb_named};
use core_steps::{Event, Question};
use formula_core::{List, NameFault, OutOfMemory, PoName};
use formula_parse::read_name;
use rule_words::rule_named;
use sequent_core::{Hint, Path};
use session_lines::{after_blanks, first_word, only_word};
use std::alloc::Global;
use step_items::{Item, behind_first, hint_of, path_of, written_items};

// The number of the rule `review`, which takes a goal for proved.
const REVIEW: u8 = 23;

fn bad_command() -> Line
    ensures { result ≡ bad_command }
{
    Line::Refused(LineFault::BadCommand)
}

/// The line, where there is one.
fn or_bad(line: Option<Line>) -> Line
    ensures { result ≡ or_bad line }
{
    match line {
        Some(line) => line,
        None => bad_command(),
    }
}

/// The line, where nothing follows.
fn alone(line: Line, words: &[u8]) -> Line
    ensures { result ≡ alone line words.now }
{
    if words.is_empty() {
        line
    } else {
        bad_command()
    }
}

/// The text that the bytes are.
pub fn text_of(bytes: &[u8]) -> Option<&str>
    ensures { MatchOption result
        (is_utf8 bytes.now ≡ false) (λ text. (text.now ≡ bytes.now) × (is_utf8 bytes.now ≡ true)) }
{
    match std::str::from_utf8(bytes) {
        Ok(text) => Some(text),
        Err(_) => None,
    }
}

/// The obligation's name that the word is.
fn po_of(alloc: Global, word: &[u8]) -> Result<Option<PoName>, OutOfMemory>
    ensures { IfOk result (λ name. name ≡ po_of word.now) }
{
    let Some(text) = text_of(word) else {
        return Ok(None);
    };
    match PoName::read(alloc, text) {
        Ok(name) => Ok(Some(name)),
        Err(NameFault::BadName) => Ok(None),
        Err(NameFault::OutOfMemory) => Err(OutOfMemory),
    }
}

/// An obligation's name, and nothing more.
fn only_po(alloc: Global, words: &[u8]) -> Result<Option<PoName>, OutOfMemory>
    ensures { IfOk result (λ name. name ≡ only_po words.now) }
{
    match only_word(words) {
        Some(word) => po_of(alloc, word),
        None => Ok(None),
    }
}

/// A path, and nothing more.
fn only_path(alloc: Global, words: &[u8]) -> Result<Option<Path>, OutOfMemory>
    ensures { IfOk result (λ path. path ≡ only_path words.now) }
{
    match only_word(words) {
        Some(word) => path_of(alloc, word),
        None => Ok(None),
    }
}

/// An obligation's name and a path, and nothing more.
fn node_of(alloc: Global, words: &[u8]) -> Result<Option<(PoName, Path)>, OutOfMemory>
    ensures { IfOk result (λ node. node ≡ node_words words.now) }
{
    let Some(name) = po_of(alloc, first_word(words))? else {
        return Ok(None);
    };
    match only_path(alloc, behind_first(words))? {
        Some(path) => Ok(Some((name, path))),
        None => Ok(None),
    }
}

/// The drop of the component that the word names.
fn deleted(alloc: Global, word: &[u8]) -> Result<Line, OutOfMemory>
    ensures { IfOk result (λ line. line ≡ deleted word.now) }
{
    match read_name(alloc, word)? {
        Some(name) => Ok(Line::One(Event::Delete(name))),
        None => Ok(Line::Refused(LineFault::BadName)),
    }
}

/// `delete NAME`
fn delete(alloc: Global, words: &[u8]) -> Result<Line, OutOfMemory>
    ensures { IfOk result (λ line. line ≡ or_bad (option_map deleted (only_word words.now))) }
{
    match only_word(words) {
        Some(word) => deleted(alloc, word),
        None => Ok(bad_command()),
    }
}

/// An obligation's name, and a path where a word follows.
fn shown_at(alloc: Global, words: &[u8], name: PoName) -> Result<Line, OutOfMemory>
    ensures { IfOk result (λ line. line ≡ shown_at words.now name) }
{
    if words.is_empty() {
        return Ok(Line::One(Event::Ask(Question::Show(name, None))));
    }
    match only_path(alloc, words)? {
        Some(path) => Ok(Line::One(Event::Ask(Question::Show(name, Some(path))))),
        None => Ok(bad_command()),
    }
}

/// `show PO` or `show PO PATH`
fn shown(alloc: Global, words: &[u8]) -> Result<Line, OutOfMemory>
    ensures { IfOk result (λ line. line ≡ shown words.now) }
{
    match po_of(alloc, first_word(words))? {
        Some(name) => shown_at(alloc, behind_first(words), name),
        None => Ok(bad_command()),
    }
}

/// `tree PO`
fn tree(alloc: Global, words: &[u8]) -> Result<Line, OutOfMemory>
    ensures { IfOk result (λ line.
        line ≡ or_bad (option_map (λ name. One (event.Ask (ask.TreeOf name))) (only_po words.now))) }
{
    match only_po(alloc, words)? {
        Some(name) => Ok(Line::One(Event::Ask(Question::TreeOf(name)))),
        None => Ok(bad_command()),
    }
}

/// `follows PO`
fn follows(alloc: Global, words: &[u8]) -> Result<Line, OutOfMemory>
    ensures { IfOk result (λ line.
        line ≡ or_bad (option_map (λ name. One (event.Ask (ask.Follows name))) (only_po words.now))) }
{
    match only_po(alloc, words)? {
        Some(name) => Ok(Line::One(Event::Ask(Question::Follows(name)))),
        None => Ok(bad_command()),
    }
}

/// `auto PO`
fn auto(alloc: Global, words: &[u8]) -> Result<Line, OutOfMemory>
    ensures { IfOk result (λ line. line ≡ or_bad (option_map Auto (only_po words.now))) }
{
    match only_po(alloc, words)? {
        Some(name) => Ok(Line::Auto(name)),
        None => Ok(bad_command()),
    }
}

/// `prune PO PATH`
fn prune(alloc: Global, words: &[u8]) -> Result<Line, OutOfMemory>
    ensures { IfOk result (λ line.
        line ≡ or_bad (option_map (λ node. One (event.Prune node.0 node.1)) (node_words words.now))) }
{
    match node_of(alloc, words)? {
        Some((name, path)) => Ok(Line::One(Event::Prune(name, path))),
        None => Ok(bad_command()),
    }
}

fn no_hint(alloc: Global) -> Hint
    ensures { result ≡ no_hint }
{
    Hint {
        hyps: List::of(Vec::new(alloc)),
        multipliers: List::of(Vec::new(alloc)),
        names: List::of(Vec::new(alloc)),
        terms: List::of(Vec::new(alloc)),
        law: 0,
        place: List::of(Vec::new(alloc)),
    }
}

/// `review PO PATH`
fn review(alloc: Global, words: &[u8]) -> Result<Line, OutOfMemory>
    ensures { IfOk result (λ line.
        line ≡ or_bad (option_map (λ node. One (event.Step node.0 node.1 23 no_hint)) (node_words words.now))) }
{
    match node_of(alloc, words)? {
        Some((name, path)) => Ok(Line::One(Event::Step(name, path, REVIEW, no_hint(alloc)))),
        None => Ok(bad_command()),
    }
}

fn bad_step() -> Said
    ensures { result ≡ AtOnce bad_command }
{
    Said::AtOnce(bad_command())
}

/// `step PO PATH KIND ITEMS`
fn stepped(alloc: Global, words: &[u8]) -> Result<Said, OutOfMemory>
    ensures { IfOk result (λ said. said ≡ stepped words.now) }
{
    let path_words = behind_first(words);
    let kind_words = behind_first(path_words);
    let Some(name) = po_of(alloc, first_word(words))? else {
        return Ok(bad_step());
    };
    let Some(path) = path_of(alloc, first_word(path_words))? else {
        return Ok(bad_step());
    };
    let Some(kind) = rule_named(first_word(kind_words)) else {
        return Ok(bad_step());
    };
    match written_items(alloc, behind_first(kind_words))? {
        Some(items) => Ok(Said::OfItems(name, path, kind, List::of(items))),
        None => Ok(bad_step()),
    }
}

/// A command at once.
fn at_once(line: Line) -> Said
    ensures { result ≡ AtOnce line }
{
    Said::AtOnce(line)
}

/// A command by its word and what follows.
fn spoken_as(alloc: Global, verb: Verb, words: &[u8]) -> Result<Said, OutOfMemory>
    ensures { IfOk result (λ said. said ≡ spoken (Some verb) words.now) }
{
    match verb {
        Verb::Delete => Ok(at_once(delete(alloc, words)?)),
        Verb::Build => Ok(at_once(alone(Line::One(Event::Build), words))),
        Verb::Status => Ok(at_once(alone(Line::One(Event::Ask(Question::Statuses)), words))),
        Verb::Faults => Ok(at_once(alone(Line::One(Event::Ask(Question::Faults)), words))),
        Verb::Show => Ok(at_once(shown(alloc, words)?)),
        Verb::Tree => Ok(at_once(tree(alloc, words)?)),
        Verb::Follows => Ok(at_once(follows(alloc, words)?)),
        Verb::Step => stepped(alloc, words),
        Verb::Prune => Ok(at_once(prune(alloc, words)?)),
        Verb::Review => Ok(at_once(review(alloc, words)?)),
        Verb::Auto => Ok(at_once(auto(alloc, words)?)),
        Verb::Wait => Ok(at_once(alone(Line::Wait, words))),
        Verb::Purge => Ok(at_once(alone(Line::One(Event::Purge), words))),
        Verb::Digest => Ok(at_once(alone(Line::One(Event::Ask(Question::Digest)), words))),
        Verb::Quit => Ok(at_once(alone(Line::Quit, words))),
    }
}

/// A command by its word, if it is one, and what follows.
fn spoken(alloc: Global, verb: Option<Verb>, words: &[u8]) -> Result<Said, OutOfMemory>
    ensures { IfOk result (λ said. said ≡ spoken verb words.now) }
{
    match verb {
        Some(verb) => spoken_as(alloc, verb, words),
        None => Ok(bad_step()),
    }
}

/// What a line says before its formulas are read.
fn said(alloc: Global, bytes: &[u8]) -> Result<Said, OutOfMemory>
    ensures { IfOk result (λ it. it ≡ said bytes.now) }
{
    let words = after_blanks(bytes);
    spoken(alloc, verb_named(first_word(words)), behind_first(words))
}

/// The step with the hint of its items.
fn step_with(
    alloc: Global,
    name: PoName,
    path: Path,
    kind: u8,
    items: &[Item],
) -> Result<Line, OutOfMemory>
    ensures { IfOk result (λ line. Means (OfItems name path kind items.now) line) }
{
    match hint_of(alloc, items)? {
        Some(hint) => Ok(Line::One(Event::Step(name, path, kind, hint))),
        None => Ok(bad_command()),
    }
}

/// The step of items.
fn step_of(
    alloc: Global,
    name: PoName,
    path: Path,
    kind: u8,
    written: List<Item>,
) -> Result<Line, OutOfMemory>
    ensures { IfOk result (λ line. Means (OfItems name path kind written) line) }
{
    step_with(alloc, name, path, kind, written.items())
}

/// The line, once the formulas of a step are read.
fn meant(alloc: Global, said: Said) -> Result<Line, OutOfMemory>
    ensures { IfOk result (λ line. Means said line) }
{
    match said {
        Said::AtOnce(line) => Ok(line),
        Said::OfItems(name, path, kind, items) => step_of(alloc, name, path, kind, items),
    }
}

/// What the bytes of a line say.
pub fn spoken_line(alloc: Global, bytes: &[u8]) -> Result<Line, OutOfMemory>
    ensures { IfOk result (λ line. Says bytes.now line) }
{
    let said = said(alloc, bytes)?;
    meant(alloc, said)
}
