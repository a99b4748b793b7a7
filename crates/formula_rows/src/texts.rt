//! Texts that are read as identifiers, labels and obligation names, up to their greatest lengths, and names that are made.

use crate::row::{row, yes};
use formula_core::{Label, Name, NameFault, PoName};
use std::alloc::{AllocError, Global};
use std::io;

/// What a text is read as.
#[derive(Clone, Copy)]
enum Kind {
    Identifier,
    Label,
    Obligation,
}

/// A word of 64 bytes.
const LONGEST: &str = "abcdefghijklmnopqrstuvwxyzabcdefghijklmnopqrstuvwxyzabcdefghijkl";

const NAMES: [&str; 20] = [
    "x", "_", "x_1'", "true1", "Event", "prj3", LONGEST, "", "'", "x''", "1x", "a-b", " x", "é",
    "mod", "mod'", "true", "events", "prj1", "ordinary",
];

const LABELS: [&str; 10] = [
    "inv1", "a-b.c'_9", "-", "event", LONGEST, "", "a b", "@a", "a/b", "é",
];

const PO_NAMES: [&str; 10] = [
    "m0/inv1/INV",
    "é",
    "\u{120}",
    "",
    " ",
    "a b",
    "a\tb",
    "a\rb",
    "a\n",
    "a\u{a0}b",
];

/// A piece of text that is read so many times over.
struct Length {
    what: &'static str,
    kind: Kind,
    piece: &'static str,
    times: u32,
}

const LENGTHS: [Length; 5] = [
    Length {
        what: "identifier of 64 times",
        kind: Kind::Identifier,
        piece: "a",
        times: 64,
    },
    Length {
        what: "identifier of 65 times",
        kind: Kind::Identifier,
        piece: "a",
        times: 65,
    },
    Length {
        what: "label of 65 times",
        kind: Kind::Label,
        piece: "a",
        times: 65,
    },
    Length {
        what: "obligation name of 150 times",
        kind: Kind::Obligation,
        piece: "ab",
        times: 150,
    },
    Length {
        what: "obligation name of 301 times",
        kind: Kind::Obligation,
        piece: "a",
        times: 301,
    },
];

// Whether what was read has the text that was read.
fn has_text(alloc: Global, kind: Kind, text: &str) -> Result<bool, NameFault> {
    match kind {
        Kind::Identifier => Ok(Name::read(alloc, text)?.as_text() == text),
        Kind::Label => Ok(Label::read(alloc, text)?.as_text() == text),
        Kind::Obligation => Ok(PoName::read(alloc, text)?.as_text() == text),
    }
}

fn answer(alloc: Global, kind: Kind, text: &str) -> &'static str {
    match has_text(alloc, kind, text) {
        Ok(true) => "read",
        Ok(false) => "read as another",
        Err(NameFault::BadName) => "refused",
        Err(NameFault::OutOfMemory) => "no memory",
    }
}

fn print_all(
    rt: &impl Print,
    alloc: Global,
    what: &str,
    kind: Kind,
    texts: &[&str],
) -> io::Result<()> {
    for text in texts {
        row(rt, what, text, answer(alloc, kind, text))?;
    }
    Ok(())
}

pub fn print_texts(rt: &impl Print, alloc: Global) -> io::Result<()> {
    print_all(rt, alloc, "identifier", Kind::Identifier, &NAMES)?;
    print_all(rt, alloc, "label", Kind::Label, &LABELS)?;
    print_all(rt, alloc, "obligation name", Kind::Obligation, &PO_NAMES)
}

fn repeated(alloc: Global, piece: &str, times: u32) -> Result<String, AllocError> {
    let mut text = String::new(alloc);
    for _ in 0..times {
        text.push_str(piece)?;
    }
    Ok(text)
}

fn length_answer(alloc: Global, length: &Length) -> &'static str {
    match repeated(alloc, length.piece, length.times) {
        Ok(text) => answer(alloc, length.kind, text.as_str()),
        Err(_) => "no memory",
    }
}

pub fn print_lengths(rt: &impl Print, alloc: Global) -> io::Result<()> {
    for length in &LENGTHS {
        row(rt, length.what, length.piece, length_answer(alloc, length))?;
    }
    Ok(())
}

fn labelled(alloc: Global, component: &str, label: &str) -> Option<PoName> {
    let component = Name::read(alloc, component).ok()?;
    let label = Label::read(alloc, label).ok()?;
    PoName::of_labelled(alloc, &component, &label, "THM").ok()
}

fn primed(alloc: Global, name: &Name) -> Option<Name> {
    if name.is_primed() {
        return None;
    }
    name.primed(alloc).ok()
}

fn print_primed(rt: &impl Print, alloc: Global, name: &Name) -> io::Result<()> {
    row(rt, "has a prime", name.as_text(), yes(name.is_primed()))?;
    match primed(alloc, name) {
        Some(primed) => row(rt, "with a prime", name.as_text(), primed.as_text()),
        None => row(rt, "with a prime", name.as_text(), "refused"),
    }
}

pub fn print_made(rt: &impl Print, alloc: Global) -> io::Result<()> {
    match labelled(alloc, "c0", "thm1") {
        Some(name) => row(rt, "obligation THM in c0 at", "thm1", name.as_text())?,
        None => row(rt, "obligation THM in c0 at", "thm1", "refused")?,
    }
    match Name::read(alloc, "x1") {
        Ok(name) => print_primed(rt, alloc, &name),
        Err(_) => row(rt, "has a prime", "x1", "refused"),
    }
}
