//! Faults with their lines and columns.
ghost use Rattle.std.specs.Prelude.{◌≡◌, ◌≤◌, length, IfOk};
ghost use Rattle.build_core.specs.Tables.{line_of};

use component_tokens::{Position, position_of};
use formula_core::{OutOfMemory, Text};
use model_core::{Fault, fault_at};
use std::alloc::Global;

/// A fault with the line and the column of its place in the built text, both from 1, columns in characters.
#[derive(Drop)]
pub struct FaultLine {
    pub fault: Fault,
    pub line: u32,
    pub column: u32,
}

fn copy_fault(alloc: Global, fault: &Fault) -> Result<Fault, OutOfMemory>
    ensures { IfOk result (λ copy. copy ≡ fault.now) }
{
    let words = fault.words.as_text();
    let copy = fault_at(alloc, &fault.component, fault.kind, fault.place, words)?;
    Ok(copy)
}

impl FaultLine {
    /// A copy.
    pub fn copy(&self, alloc: Global) -> Result<FaultLine, OutOfMemory>
        ensures { IfOk result (λ copy. copy ≡ self.now) }
    {
        let fault = copy_fault(alloc, &self.fault)?;
        Ok(FaultLine {
            fault,
            line: self.line,
            column: self.column,
        })
    }
}

/// A copy of the fault of a text, with its line and column there.
pub fn line_of(alloc: Global, text: &Text, fault: &Fault) -> Result<FaultLine, OutOfMemory>
    requires { length text.now ≤ 65536 }
    ensures { IfOk result (λ told. told ≡ line_of text.now fault.now) }
{
    let text = text.as_text();
    let place = text.len().min(fault.place as usize);
    let Position { line, column } = position_of(text, place);
    let fault = copy_fault(alloc, fault)?;
    Ok(FaultLine {
        fault,
        line: line as u32,
        column: column as u32,
    })
}
