//! A build after an edit, beside the one before it and one from nothing.

use crate::pieces::{Piece, add};
use build_core::{Builder, FaultLine, Numbered};
use formula_core::Name;
use sequent_core::Obligation;
use std::alloc::AllocError;
use std::sync::Arc;

/// Owners of an obligation that no other builder has: the list of its component, and the table.
const OWN: usize = 2;

/// How many obligations other builders have too.
fn kept_of(table: &[Arc<Numbered>]) -> usize {
    let mut kept: usize = 0;
    for obligation in table {
        if Arc::strong_count(obligation) > OWN {
            kept = kept.saturating_add(1);
        }
    }
    kept
}

fn same_obligation(one: &Obligation, other: &Obligation) -> bool {
    one.name.same(&other.name) && one.sequent.same(&other.sequent)
}

fn same_tables(one: &[Arc<Numbered>], other: &[Arc<Numbered>]) -> bool {
    for (a, b) in one.iter().zip(other) {
        if !same_obligation(a.obligation(), b.obligation()) {
            return false;
        }
    }
    one.len() == other.len()
}

fn same_fault(one: &FaultLine, other: &FaultLine) -> bool {
    one.fault.component.same(&other.fault.component)
        && one.fault.kind == other.fault.kind
        && one.fault.place == other.fault.place
        && one.fault.words.same(&other.fault.words)
        && one.line == other.line
        && one.column == other.column
}

fn same_faults(one: &[FaultLine], other: &[FaultLine]) -> bool {
    for (a, b) in one.iter().zip(other) {
        if !same_fault(a, b) {
            return false;
        }
    }
    one.len() == other.len()
}

fn same_warnings(one: &[(Name, Name)], other: &[(Name, Name)]) -> bool {
    for (a, b) in one.iter().zip(other) {
        if !a.0.same(&b.0) || !a.1.same(&b.1) {
            return false;
        }
    }
    one.len() == other.len()
}

/// Whether an obligation is found by its name, at its place.
fn is_found(builder: &Builder, at: usize, obligation: &Obligation) -> bool {
    match builder.obligation(&obligation.name) {
        Some(found) => {
            same_obligation(found, obligation) && builder.place(&obligation.name) == Some(at)
        }
        None => false,
    }
}

/// Whether each obligation of the table is found by its name, at its place.
fn are_found(builder: &Builder) -> bool {
    for (at, numbered) in builder.table().iter().enumerate() {
        if !is_found(builder, at, numbered.obligation()) {
            return false;
        }
    }
    true
}

fn is_same(one: &Builder, other: &Builder) -> bool {
    same_tables(one.table(), other.table())
        && same_faults(one.faults(), other.faults())
        && same_warnings(one.warnings(), other.warnings())
        && are_found(one)
}

/// Adds how many obligations of a build are those of the one before, whether the table is the same, and whether all is as
/// of one from nothing.
pub fn add_compared(
    old: &Builder,
    new: &Builder,
    anew: &Builder,
    out: &mut String,
) -> Result<(), AllocError> {
    let kept = Piece::Number(kept_of(new.table()));
    let all = Piece::Number(new.table().len());
    let table = if same_tables(old.table(), new.table()) {
        "the same table\n"
    } else {
        ""
    };
    let told = if is_same(new, anew) {
        "as from nothing\n"
    } else {
        "not as from nothing\n"
    };
    add(
        &[
            kept,
            Piece::Word(" of "),
            all,
            Piece::Word(" kept\n"),
            Piece::Word(table),
            Piece::Word(told),
        ],
        out,
    )
}
