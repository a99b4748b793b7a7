//! The texts of faults and warnings.
ghost use Rattle.std.specs.Prelude.{◌≡◌, ◌++◌, OnOk, string_bytes};
ghost use Rattle.reply_text.specs.Faults.{front, back, is_at_end, fault_text, fault_line, fault_lines, warning_line, warning_lines, faults_text};

use crate::pieces::{add_number, add_words};
use core_steps::FaultLine;
use formula_core::{Name, OutOfMemory};
use model_core::{Fault, FaultKind};
use std::fmt::Write;

fn front(kind: FaultKind) -> &'static str
    ensures { result.now ≡ front kind }
{
    match kind {
        FaultKind::BadSign => "bad sign",
        FaultKind::NumberTooWide => "number too wide",
        FaultKind::Unexpected => "unexpected \"",
        FaultKind::FormulaTooLarge => "formula too large",
        FaultKind::CommentNotClosed => "comment not closed",
        FaultKind::WrongName => "wrong name",
        FaultKind::NoComponent => "no component ",
        FaultKind::Cyclic => "cyclic",
        FaultKind::Blocked => "blocked by ",
        FaultKind::LabelTwice => "label ",
        FaultKind::TypesClash => "types clash",
        FaultKind::NoSingleType => "no single type",
        FaultKind::BadInitialisation => "bad INITIALISATION",
        FaultKind::NoAbstractEvent => "no abstract event ",
        FaultKind::MergedDiffer => "merged events differ",
        FaultKind::BadWitness => "bad witness ",
        FaultKind::BadConvergence => "bad convergence",
        _ => "",
    }
}

fn back(kind: FaultKind) -> &'static str
    ensures { result.now ≡ back kind }
{
    match kind {
        FaultKind::Unexpected => "\"",
        FaultKind::DeclaredTwice => " is declared twice",
        FaultKind::LabelTwice => " twice",
        FaultKind::WrongKind => " has the wrong kind",
        FaultKind::Unknown => " is unknown",
        FaultKind::NoType => " has no type",
        FaultKind::NoVariable => " is no variable",
        FaultKind::AssignedTwice => " is assigned twice",
        FaultKind::Lost => " is lost",
        _ => "",
    }
}

fn is_at_end(kind: FaultKind, words: &str) -> bool
    ensures { result ≡ is_at_end kind words.now }
{
    match kind {
        FaultKind::Unexpected => words.is_empty(),
        _ => false,
    }
}

/// Adds what is wrong.
fn add_fault_text(out: &mut String, fault: &Fault) -> Result<(), OutOfMemory>
    ensures { OnOk result (string_bytes out.new ≡ string_bytes out.old ++ fault_text fault.now) }
{
    if is_at_end(fault.kind, fault.words.as_text()) {
        out.push_str("unexpected end of text")?;
        return Ok(());
    }
    out.push_str(front(fault.kind))?;
    out.push_str(fault.words.as_text())?;
    out.push_str(back(fault.kind))?;
    Ok(())
}

/// Adds the component, the kind, the line and the column of the fault, and what is wrong.
fn add_fault(out: &mut String, told: &FaultLine) -> Result<(), OutOfMemory>
    ensures { OnOk result (string_bytes out.new ≡ string_bytes out.old ++ fault_line told.now) }
{
    let component = told.fault.component.as_text();
    let kind = told.fault.kind.number();
    let line = told.line;
    let column = told.column;
    write!(out, "fault {component} {kind} {line}:{column} ")?;
    add_fault_text(out, &told.fault)?;
    out.push_str("\n")?;
    Ok(())
}

/// Adds a line for each fault.
pub fn add_faults(out: &mut String, told: &[FaultLine]) -> Result<(), OutOfMemory>
    ensures { OnOk result (string_bytes out.new ≡ string_bytes out.old ++ fault_lines told.now) }
{
    for line in told {
        add_fault(out, line)?;
    }
    Ok(())
}

/// Adds an event of the abstraction that no event of the machine refines or extends.
fn add_warning(out: &mut String, machine: &Name, event: &Name) -> Result<(), OutOfMemory>
    ensures { OnOk result (string_bytes out.new ≡ string_bytes out.old ++ warning_line (machine.now, event.now)) }
{
    add_words(out, "warning ")?;
    add_words(out, machine.as_text())?;
    add_words(out, ": event ")?;
    add_words(out, event.as_text())?;
    add_words(out, " is not refined\n")
}

/// Adds a line for each warning.
pub fn add_warnings(out: &mut String, warned: &[(Name, Name)]) -> Result<(), OutOfMemory>
    ensures { OnOk result (string_bytes out.new ≡ string_bytes out.old ++ warning_lines warned.now) }
{
    for (machine, event) in warned {
        add_warning(out, machine, event)?;
    }
    Ok(())
}

/// Adds the faults, the warnings, and how many faults there are.
pub fn add_all_faults(
    out: &mut String,
    told: &[FaultLine],
    warned: &[(Name, Name)],
) -> Result<(), OutOfMemory>
    ensures { OnOk result (string_bytes out.new ≡ string_bytes out.old ++ faults_text told.now warned.now) }
{
    add_faults(out, told)?;
    add_warnings(out, warned)?;
    add_number(out, told.len() as u64)?;
    add_words(out, " faults")?;
    add_words(out, "\n")
}
