//! Obligations and sequents, as they are printed.

use crate::pieces::{Piece, add};
use build_core::Builder;
use formula_core::{Formula, Ty};
use formula_print::text;
use sequent_core::Sequent;
use std::alloc::{AllocError, Global};

fn add_type(ty: &Ty, out: &mut String) -> Result<(), AllocError> {
    match ty {
        Ty::Int => out.push_str("ℤ"),
        Ty::Bool => out.push_str("BOOL"),
        Ty::Given(name) => out.push_str(name.as_text()),
        Ty::Pow(members) => {
            out.push_str("ℙ(")?;
            add_type(members.get(), out)?;
            out.push_str(")")
        }
        Ty::Pair(left, right) => {
            out.push_str("(")?;
            add_type(left.get(), out)?;
            out.push_str("×")?;
            add_type(right.get(), out)?;
            out.push_str(")")
        }
        Ty::Truth => out.push_str("truth"),
    }
}

/// Adds a formula and the end of its line.
fn add_formula(alloc: Global, formula: &Formula, out: &mut String) -> Result<(), AllocError> {
    if !formula.is_well() {
        return out.push_str("not well\n");
    }
    match text(alloc, formula) {
        Ok(text) => add(&[Piece::Word(&text), Piece::Word("\n")], out),
        Err(_) => Err(AllocError),
    }
}

fn add_identifiers(sequent: &Sequent, out: &mut String) -> Result<(), AllocError> {
    for (name, ty) in sequent.env.entries() {
        add(
            &[
                Piece::Word(" "),
                Piece::Word(name.as_text()),
                Piece::Word("⦂"),
            ],
            out,
        )?;
        add_type(ty, out)?;
    }
    out.push_str("\n")
}

/// Adds the identifiers of a sequent on one line, each hypothesis with its number, and the goal.
fn add_sequent(alloc: Global, sequent: &Sequent, out: &mut String) -> Result<(), AllocError> {
    add_identifiers(sequent, out)?;
    let mut number: usize = 0;
    for hypothesis in sequent.hyps.items() {
        number = number.saturating_add(1);
        add(
            &[Piece::Word("  "), Piece::Number(number), Piece::Word(": ")],
            out,
        )?;
        add_formula(alloc, hypothesis, out)?;
    }
    out.push_str("  ⊢ ")?;
    add_formula(alloc, &sequent.goal, out)
}

/// Adds each obligation of a table: its name, and its sequent unless the names alone are wanted.
pub fn add_table(
    alloc: Global,
    names_alone: bool,
    builder: &Builder,
    out: &mut String,
) -> Result<(), AllocError> {
    for numbered in builder.table() {
        let obligation = numbered.obligation();
        add(
            &[Piece::Word(obligation.name.as_text()), Piece::Word("\n")],
            out,
        )?;
        if !names_alone {
            add_sequent(alloc, &obligation.sequent, out)?;
        }
    }
    Ok(())
}
