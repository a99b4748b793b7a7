//! Faults and warnings of a build, and its verdict on each component.

use crate::pieces::{Piece, add};
use build_core::{Builder, FaultLine};
use formula_core::Name;
use model_core::{Fault, FaultKind};
use std::alloc::AllocError;

/// What stands before and behind the words of a fault.
fn words_of(kind: FaultKind) -> (&'static str, &'static str) {
    match kind {
        FaultKind::BadSign => ("bad sign", ""),
        FaultKind::NumberTooWide => ("number too wide", ""),
        FaultKind::Unexpected => ("unexpected \"", "\""),
        FaultKind::FormulaTooLarge => ("formula too large", ""),
        FaultKind::CommentNotClosed => ("comment not closed", ""),
        FaultKind::WrongName => ("wrong name", ""),
        FaultKind::NoComponent => ("no component ", ""),
        FaultKind::Cyclic => ("cyclic", ""),
        FaultKind::Blocked => ("blocked by ", ""),
        FaultKind::DeclaredTwice => ("", " is declared twice"),
        FaultKind::LabelTwice => ("label ", " twice"),
        FaultKind::WrongKind => ("", " has the wrong kind"),
        FaultKind::Unknown => ("", " is unknown"),
        FaultKind::TypesClash => ("types clash", ""),
        FaultKind::NoSingleType => ("no single type", ""),
        FaultKind::NoType => ("", " has no type"),
        FaultKind::NoVariable => ("", " is no variable"),
        FaultKind::AssignedTwice => ("", " is assigned twice"),
        FaultKind::BadInitialisation => ("bad INITIALISATION", ""),
        FaultKind::NoAbstractEvent => ("no abstract event ", ""),
        FaultKind::MergedDiffer => ("merged events differ", ""),
        FaultKind::BadWitness => ("bad witness ", ""),
        FaultKind::Lost => ("", " is lost"),
        FaultKind::BadConvergence => ("bad convergence", ""),
    }
}

/// Adds the component, the kind, the line and the column of a fault.
pub fn add_place(
    fault: &Fault,
    line: usize,
    column: usize,
    out: &mut String,
) -> Result<(), AllocError> {
    let pieces = [
        Piece::Word("fault "),
        Piece::Word(fault.component.as_text()),
        Piece::Word(" "),
        Piece::Number(fault.kind.number() as usize),
        Piece::Word(" "),
        Piece::Number(line),
        Piece::Word(":"),
        Piece::Number(column),
        Piece::Word(" "),
    ];
    add(&pieces, out)
}

fn add_fault(told: &FaultLine, out: &mut String) -> Result<(), AllocError> {
    let (front, back) = words_of(told.fault.kind);
    let words = Piece::Word(told.fault.words.as_text());
    add_place(&told.fault, told.line as usize, told.column as usize, out)?;
    add(
        &[
            Piece::Word(front),
            words,
            Piece::Word(back),
            Piece::Word("\n"),
        ],
        out,
    )
}

/// The first fault of a component.
fn fault_of<'a>(builder: &'a Builder, name: &Name) -> Option<&'a FaultLine> {
    for told in builder.faults() {
        if told.fault.component.same(name) {
            return Some(told);
        }
    }
    None
}

/// Adds a line for each component, by name: its first fault, or that it is checked.
pub fn add_verdicts(builder: &Builder, out: &mut String) -> Result<(), AllocError> {
    for (name, _) in builder.texts() {
        match fault_of(builder, name) {
            Some(told) => add_fault(told, out)?,
            None => add(
                &[Piece::Word(name.as_text()), Piece::Word(" is checked\n")],
                out,
            )?,
        }
    }
    Ok(())
}

fn add_warning<'x>(machine: &'x Name, event: &'x Name, out: &mut String) -> Result<(), AllocError> {
    let machine = Piece::Word(machine.as_text());
    let event = Piece::Word(event.as_text());
    add(
        &[
            Piece::Word("warning "),
            machine,
            Piece::Word(": event "),
            event,
            Piece::Word(" is not refined\n"),
        ],
        out,
    )
}

/// Adds faults and warnings.
pub fn add_told(builder: &Builder, out: &mut String) -> Result<(), AllocError> {
    for told in builder.faults() {
        add_fault(told, out)?;
    }
    for (machine, event) in builder.warnings() {
        add_warning(machine, event, out)?;
    }
    Ok(())
}
