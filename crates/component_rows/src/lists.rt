//! The lists of the obligations of components: all of them, those that a component owes by itself, and the others.

use crate::pieces::{Piece, add};
use build_core::{Builder, Numbered};
use formula_core::{Name, PoName};
use model_core::{Checked, CheckedMachine};
use po_generate::{machine_obligations, obligations, refine_obligations};
use sequent_core::Obligation;
use std::alloc::{AllocError, Global};
use std::sync::Arc;

/// How many obligations a component has, how many of them it owes by itself and how many beside, and whether a table has
/// the same names.
#[derive(Clone, Copy)]
struct Lists {
    all: usize,
    alone: usize,
    beside: usize,
    same_names: bool,
}

/// The machine that a component refines.
fn abstraction_of<'a>(builder: &'a Builder, checked: &Checked) -> Option<&'a CheckedMachine> {
    let Checked::Machine(machine) = checked else {
        return None;
    };
    match builder.checked(machine.abstraction.as_ref()?)? {
        Checked::Machine(refined) => Some(refined),
        Checked::Context(_) => None,
    }
}

fn is_of(obligation: &Obligation, component: &Name) -> bool {
    match obligation.name.as_text().split_once('/') {
        Some((front, _)) => front == component.as_text(),
        None => false,
    }
}

fn is_named(obligation: Option<&Obligation>, name: &PoName) -> bool {
    match obligation {
        Some(obligation) => obligation.name.same(name),
        None => false,
    }
}

/// Whether the obligations that a table has of a component have the names of these, in order.
fn has_names(table: &[Arc<Numbered>], component: &Name, own: &[Obligation]) -> bool {
    let mut at: usize = 0;
    for numbered in table {
        let obligation = numbered.obligation();
        if is_of(obligation, component) {
            if !is_named(own.get(at), &obligation.name) {
                return false;
            }
            at = at.saturating_add(1);
        }
    }
    at == own.len()
}

/// How many obligations a component has, and whether a table has the same names. None where memory ran out.
fn all_of(
    alloc: Global,
    table: &[Arc<Numbered>],
    name: &Name,
    checked: &Checked,
    refined: Option<&CheckedMachine>,
) -> Option<(usize, bool)> {
    let all = obligations(alloc, checked, refined).ok()?;
    let same_names = has_names(table, name, &all.obligations);
    Some((all.obligations.len(), same_names))
}

fn alone_of(alloc: Global, checked: &Checked, refined: Option<&CheckedMachine>) -> Option<usize> {
    let alone = machine_obligations(alloc, checked, refined).ok()?;
    Some(alone.obligations.len())
}

fn beside_of(alloc: Global, checked: &Checked, refined: Option<&CheckedMachine>) -> Option<usize> {
    let beside = refine_obligations(alloc, checked, refined).ok()?;
    Some(beside.obligations.len())
}

/// What the lists of a component are. None where memory ran out.
fn lists_of(alloc: Global, builder: &Builder, name: &Name, checked: &Checked) -> Option<Lists> {
    let refined = abstraction_of(builder, checked);
    let (all, same_names) = all_of(alloc, builder.table(), name, checked, refined)?;
    let alone = alone_of(alloc, checked, refined)?;
    let beside = beside_of(alloc, checked, refined)?;
    Some(Lists {
        all,
        alone,
        beside,
        same_names,
    })
}

fn add_line(name: &Name, lists: Lists, out: &mut String) -> Result<(), AllocError> {
    let names = if lists.same_names {
        "the same names\n"
    } else {
        "other names\n"
    };
    add(
        &[
            Piece::Word(name.as_text()),
            Piece::Word(": "),
            Piece::Number(lists.all),
            Piece::Word(" obligations, "),
            Piece::Number(lists.alone),
            Piece::Word(" by itself, "),
            Piece::Number(lists.beside),
            Piece::Word(" beside, "),
            Piece::Word(names),
        ],
        out,
    )
}

/// Adds a line for each component without fault, by name: how many obligations it has, how many of them it owes by itself
/// and how many beside, and whether the table has the same names.
pub fn add_lists(alloc: Global, builder: &Builder, out: &mut String) -> Result<(), AllocError> {
    for (name, _) in builder.texts() {
        if let Some(checked) = builder.checked(name) {
            match lists_of(alloc, builder, name, checked) {
                Some(lists) => add_line(name, lists, out)?,
                None => out.push_str("out of memory\n")?,
            }
        }
    }
    Ok(())
}
