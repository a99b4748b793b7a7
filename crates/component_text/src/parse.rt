//! The grammar of components, read from left to right: the next token decides.

ghost use Rattle.std.specs.Prelude.{IfOk, ◌≡◌, false, bytes_eq, codes};
ghost use Rattle.component_text.specs.Grammar.{Names, SomeNames, NamesBehind, SomeNamesBehind, LabelledPart, FormulaLine, Lines, LinesBehind, ContextBody, IsContext};
ghost use Rattle.component_text.specs.PrivateReading.{ReadsOrStops, AddsNames, TakesEnd, ReadsWhole};

use crate::cursor::Cursor;
use crate::stop::Stop;
use formula_core::{List, OutOfMemory, Ref};
use model_core::{RawComponent, RawLabelled};
use std::alloc::Global;

/// Reads all names that stand next.
fn add_names(
    alloc: Global,
    names: &mut Vec<Ref>,
    cursor: &mut Cursor<'_, '_>,
) -> Result<(), OutOfMemory>
    ensures { IfOk result (λ _. AddsNames names.old.items names.new.items cursor.old cursor.new) }
{
    while let Some(name) = cursor.name(alloc)? {
        names.push(name)?;
    }
    Ok(())
}

fn names(alloc: Global, cursor: &mut Cursor<'_, '_>) -> Result<List<Ref>, Stop>
    ensures { ReadsOrStops Names cursor.old result cursor.new }
{
    let mut names = Vec::new(alloc);
    add_names(alloc, &mut names, cursor)?;
    Ok(List::of(names))
}

fn some_names(alloc: Global, cursor: &mut Cursor<'_, '_>) -> Result<List<Ref>, Stop>
    ensures { ReadsOrStops SomeNames cursor.old result cursor.new }
{
    let Some(first) = cursor.name(alloc)? else {
        return Err(Stop::Unexpected);
    };
    let mut names = Vec::new(alloc);
    names.push(first)?;
    add_names(alloc, &mut names, cursor)?;
    Ok(List::of(names))
}

/// The names behind the word, where it stands next.
pub fn names_behind(
    alloc: Global,
    cursor: &mut Cursor<'_, '_>,
    word: &str,
) -> Result<List<Ref>, Stop>
    requires no_variant { bytes_eq word.now (codes "variant") ≡ false }
    ensures { ReadsOrStops (NamesBehind word.now) cursor.old result cursor.new }
{
    if cursor.take_word(word) {
        names(alloc, cursor)
    } else {
        Ok(List::of(Vec::new(alloc)))
    }
}

/// The names behind the word, at least one, where the word stands next.
pub fn some_names_behind(
    alloc: Global,
    cursor: &mut Cursor<'_, '_>,
    word: &str,
) -> Result<List<Ref>, Stop>
    requires no_variant { bytes_eq word.now (codes "variant") ≡ false }
    ensures { ReadsOrStops (SomeNamesBehind word.now) cursor.old result cursor.new }
{
    if cursor.take_word(word) {
        some_names(alloc, cursor)
    } else {
        Ok(List::of(Vec::new(alloc)))
    }
}

/// A label and its predicate.
pub fn labelled(
    alloc: Global,
    cursor: &mut Cursor<'_, '_>,
    theorem: bool,
) -> Result<RawLabelled, Stop>
    ensures { ReadsOrStops (LabelledPart theorem) cursor.old result cursor.new }
{
    let Some((label, place)) = cursor.label(alloc)? else {
        return Err(Stop::Unexpected);
    };
    let (formula, first) = cursor.predicate(alloc)?;
    Ok(RawLabelled {
        label,
        theorem,
        formula,
        place,
        first,
    })
}

fn line(alloc: Global, cursor: &mut Cursor<'_, '_>) -> Result<RawLabelled, Stop>
    ensures { ReadsOrStops FormulaLine cursor.old result cursor.new }
{
    let theorem = cursor.take_word("theorem");
    labelled(alloc, cursor, theorem)
}

pub fn lines(alloc: Global, cursor: &mut Cursor<'_, '_>) -> Result<List<RawLabelled>, Stop>
    ensures { ReadsOrStops Lines cursor.old result cursor.new }
{
    let mut lines = Vec::new(alloc);
    while cursor.is_at_line() {
        let line = line(alloc, cursor)?;
        lines.push(line)?;
    }
    Ok(List::of(lines))
}

/// The lines behind the word, where it stands next.
pub fn lines_behind(
    alloc: Global,
    cursor: &mut Cursor<'_, '_>,
    word: &str,
) -> Result<List<RawLabelled>, Stop>
    requires no_variant { bytes_eq word.now (codes "variant") ≡ false }
    ensures { ReadsOrStops (LinesBehind word.now) cursor.old result cursor.new }
{
    if cursor.take_word(word) {
        lines(alloc, cursor)
    } else {
        Ok(List::of(Vec::new(alloc)))
    }
}

/// What stands between `context` and `end`.
fn context_body(alloc: Global, cursor: &mut Cursor<'_, '_>) -> Result<RawComponent, Stop>
    ensures { ReadsOrStops ContextBody cursor.old result cursor.new }
{
    let Some(name) = cursor.name(alloc)? else {
        return Err(Stop::Unexpected);
    };
    let extends = some_names_behind(alloc, cursor, "extends")?;
    let sets = names_behind(alloc, cursor, "sets")?;
    let constants = names_behind(alloc, cursor, "constants")?;
    let axioms = lines_behind(alloc, cursor, "axioms")?;
    Ok(RawComponent::Context {
        name,
        extends,
        sets,
        constants,
        axioms,
    })
}

/// Goes past `end`, and looks whether nothing stands behind it.
pub fn ends(cursor: &mut Cursor<'_, '_>) -> bool
    ensures { TakesEnd cursor.old result cursor.new }
{
    cursor.take_word("end") && cursor.is_at_end()
}

/// Reads a context.
pub fn context(alloc: Global, cursor: &mut Cursor<'_, '_>) -> Result<RawComponent, Stop>
    ensures { ReadsWhole IsContext cursor.old result cursor.new }
{
    if !cursor.take_word("context") {
        return Err(Stop::Unexpected);
    }
    let component = context_body(alloc, cursor)?;
    if ends(cursor) {
        Ok(component)
    } else {
        Err(Stop::Unexpected)
    }
}
