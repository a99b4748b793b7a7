//! Names and labels that are declared twice.

ghost use Rattle.std.specs.Prelude.{◌≡◌, ◌++◌, ◌||◌, [], ℕ, List, IfOk, OnOk, bytes_eq, map};
ghost use Rattle.model_core.specs.Faults.{first_by_place};
ghost use Rattle.check_rules.specs.Contexts.{labels_of};
ghost use Rattle.context_check.specs.Texts.{mark_of, ref_mark, repeated_row, repeated};
ghost use Rattle.model_core.specs.Borrowed.{has};

use formula_core::{Name, OutOfMemory, Ref};
use model_core::{Fault, FaultKind, RawLabelled, earlier, fault_at};
use std::alloc::Global;
use std::collections::BTreeSet;

/// Texts that are looked up.
pub type Texts<'a> = BTreeSet<&'a str>;

/// A text at its place.
#[derive(Clone, Copy)]
pub struct Mark<'a> {
    pub text: &'a str,
    pub place: u32,
}

pub fn has(texts: &Texts<'_>, text: &str) -> bool
    ensures { result ≡ has texts.now text.now }
{
    texts.contains(text)
}

/// Adds a text.
pub fn put<'a>(texts: &mut Texts<'a>, text: &'a str) -> Result<(), OutOfMemory>
    ensures { OnOk result ((x : List ℕ) → has texts.new x ≡ (has texts.old x || bytes_eq x text.now)) }
{
    texts.insert(text)?;
    Ok(())
}

/// Adds names with their places.
pub fn add_refs<'a>(marks: &mut Vec<Mark<'a>>, refs: &'a [Ref]) -> Result<(), OutOfMemory>
    ensures { OnOk result (map mark_of marks.new.items ≡ map mark_of marks.old.items ++ map ref_mark refs.entry.now) }
{
    for r in refs {
        marks.push(Mark {
            text: r.name.as_text(),
            place: r.place,
        })?;
    }
    Ok(())
}

/// Adds labels with their places.
pub fn add_labels<'a>(
    marks: &mut Vec<Mark<'a>>,
    labelled: &'a [RawLabelled],
) -> Result<(), OutOfMemory>
    ensures { OnOk result
        (map mark_of marks.new.items ≡ map mark_of marks.old.items ++ labels_of labelled.entry.now) }
{
    for l in labelled {
        marks.push(Mark {
            text: l.label.as_text(),
            place: l.place,
        })?;
    }
    Ok(())
}

fn is_there(known: &Texts<'_>, seen: &Texts<'_>, text: &str) -> bool
    ensures { result ≡ (has known.now text.now || has seen.now text.now) }
{
    has(known, text) || has(seen, text)
}

/// The fault of a text that is known or seen.
fn repeated_at(
    alloc: Global,
    component: &Name,
    kind: FaultKind,
    known: &Texts<'_>,
    seen: &Texts<'_>,
    mark: &Mark<'_>,
) -> Result<Option<Fault>, OutOfMemory>
    ensures { IfOk result (λ here. here ≡ first_by_place
        (repeated_row kind component.now (λ x. has known.now x || has seen.now x) [] (mark_of mark.now))) }
{
    if is_there(known, seen, mark.text) {
        let here = fault_at(alloc, component, kind, mark.place, mark.text)?;
        return Ok(Some(here));
    }
    Ok(None)
}

/// The first text that is known, or seen, or stands before it.
pub fn first_repeated<'a>(
    alloc: Global,
    component: &Name,
    kind: FaultKind,
    known: &Texts<'_>,
    seen: Texts<'a>,
    marks: &[Mark<'a>],
) -> Result<Option<Fault>, OutOfMemory>
    ensures { IfOk result (λ first. first ≡ first_by_place
        (repeated kind component.now (λ x. has known.now x || has seen.entry x) (map mark_of marks.now))) }
{
    let mut seen = seen;
    let mut first = None;
    for mark in marks {
        let here = repeated_at(alloc, component, kind, known, &seen, mark)?;
        first = earlier(first, here);
        put(&mut seen, mark.text)?;
    }
    Ok(first)
}
